// The queue of a state.
ghost use Rattle.std.specs.Prelude.{◌≡◌, ◌<◌, ◌≤◌, ◌+◌, [], IfOk, drop, length, take};
ghost use Rattle.std.specs.List.{swap as swapped};

use module_vectors::{Key, NoMemory};
use monomial_orders::Mono;
use pair_criteria::Pair;
use std::alloc::Global;
use std::collections::VecDeque;
use std::marker::Model;
use std::mem::swap;

/// Pairs in their order, of which the first ones leave without a move of those behind them.
#[derive(Drop)]
pub(crate) struct Queue {
    pairs: Vec<Pair>,
    // So many at the front are blanks, in the places of pairs that left.
    blanks: usize,
}

impl Model for Queue {
    ghost use Rattle.std.specs.Prelude.{◌≤◌, drop, length};
    ghost use Rattle.pair_queue.specs.Queues.{QueueShown};

    ghost Value = { QueueShown };

    ghost view = { λ q. record { items = drop q.blanks q.pairs.items } };

    ghost invariant = { λ q. q.blanks ≤ length q.pairs.items };
}

impl Queue {
    /// No pairs yet.
    pub(crate) fn new(alloc: Global) -> Queue
        ensures { result.items ≡ [] }
    {
        Queue {
            pairs: Vec::new(alloc),
            blanks: 0,
        }
    }

    /// These pairs, in this order.
    pub(crate) fn from_vec(pairs: Vec<Pair>) -> Queue
        ensures { result.items ≡ pairs.items }
    {
        Queue { pairs, blanks: 0 }
    }

    /// The pairs.
    pub(crate) fn as_slice(&self) -> &[Pair]
        ensures { result.now ≡ self.now.items }
    {
        &self.pairs[self.blanks..]
    }

    /// How many pairs there are.
    pub(crate) fn len(&self) -> usize
        ensures { result ≡ length self.now.items }
    {
        self.pairs.len() - self.blanks
    }

    /// Exchanges two pairs.
    pub(crate) fn swap(&mut self, i: usize, j: usize)
        requires first { i < length self.old.items }
        requires second { j < length self.old.items }
        ensures { self.new.items ≡ swapped self.old.items i j }
    {
        self.pairs.swap(self.blanks + i, self.blanks + j);
    }

    /// The first `count` pairs stay alone.
    pub(crate) fn truncate(&mut self, count: usize)
        requires { count ≤ length self.old.items }
        ensures { self.new.items ≡ take count self.old.items }
    {
        self.pairs.truncate(self.blanks + count);
    }

    /// Exchanges as many of the first pairs for these blanks.
    pub(crate) fn take_front(&mut self, taken: &mut Vec<Pair>)
        requires { length taken.old.items ≤ length self.old.items }
        ensures taken { taken.new.items ≡ take (length taken.old.items) self.old.items }
        ensures rest { self.new.items ≡ drop (length taken.old.items) self.old.items }
    {
        let first = self.blanks;
        exchange(&mut self.pairs, first, taken);
        self.blanks = first + taken.len();
    }

    /// The pairs, to be taken one after another.
    pub(crate) fn into_pairs(self) -> VecDeque<Pair>
        ensures { result.items ≡ self.items }
    {
        let blanks = self.blanks;
        let mut pairs = VecDeque::from_vec(self.pairs);
        for _ in 0..blanks {
            pairs.pop_front();
        }
        pairs
    }
}

// Exchanges the pairs from `first` on for the blanks.
fn exchange(pairs: &mut Vec<Pair>, first: usize, blanks: &mut Vec<Pair>)
    requires { first + length blanks.old.items ≤ length pairs.old.items }
    ensures taken { blanks.new.items ≡ take (length blanks.old.items) (drop first pairs.old.items) }
    ensures rest { drop (first + length blanks.old.items) pairs.new.items ≡ drop (first + length blanks.old.items) pairs.old.items }
    ensures len { length pairs.new.items ≡ length pairs.old.items }
{
    for k in 0..blanks.len() {
        swap(&mut blanks[k], &mut pairs[first + k]);
    }
}

/// So many blanks, which queued pairs are exchanged for.
pub(crate) fn blank_pairs(alloc: Global, count: usize) -> Result<Vec<Pair>, NoMemory>
    ensures { IfOk result (λ pairs. length pairs.items ≡ count) }
{
    let mut pairs = Vec::with_capacity(alloc, count)?;
    for _ in 0..count {
        pairs.push_reserved(Pair {
            i: 0,
            j: 0,
            lcm: Key {
                position: 0,
                monomial: Mono::unit(alloc, 0)?,
            },
        });
    }
    Ok(pairs)
}
