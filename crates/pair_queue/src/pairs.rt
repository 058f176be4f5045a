// The pairs of a run.
ghost use Rattle.std.specs.Prelude.{ℕ, ◌≡◌, ◌<◌, ◌≤◌, ◌+◌, ◌++◌, [], length, IfOk, OnOk, OnErr};
ghost use Rattle.formal_sums.specs.FormalSums.{Each};
ghost use Rattle.monomial_orders.specs.Kept.{IsWeighed};
ghost use Rattle.basis_steps.specs.Updates.{QueuesPairs};
ghost use Rattle.basis_steps.specs.States.{with_others};
ghost use Rattle.pair_updates.specs.Dropping.{drops_of};
ghost use Rattle.pair_updates.specs.Leads.{LeadsShown, setting_of_leads, sums_shown};
ghost use Rattle.pair_updates.specs.Pairs.{IsRealPair, pairs_of};
ghost use Rattle.pair_queue.specs.Outs.{outs_of};
ghost use Rattle.pair_queue.specs.Shown.{IsJobGiven};

use crate::given::Given;
use crate::giving::{close_by_update, give};
use crate::out::Out;
use crate::queue::{Queue, blank_pairs};
use crate::queueing::queue_by;
use crate::reach::Reach;
use crate::sharing::share_of;
use crate::skipping::skip_by;
use crate::table::Table;
use module_vectors::{Key, NoMemory};
use monomial_orders::{ModOrder, Order, Weights};
use pair_criteria::Pair;
use pair_updates::{Dropped, Leads};
use queue_updates::Update;
use std::alloc::Global;
use std::marker::Model;

/// The pairs of a run: those that are queued, in their order, those that are out with a worker, and those that new members
/// dropped; and the leads of the members. Contracts see these, and what is queued as members come. Where new members drop
/// none it knows of each queued pair whether a criterion applies to it.
pub struct PairQueue {
    leads: Leads,
    queue: Queue,
    out: Vec<Out>,
    update: Update,
    dropped: Vec<Dropped>,
    // These three are kept where new members drop no pairs. Which leads reach an exponent.
    reach: Reach,
    // Which pairs wait, in the queue or out.
    waits: Table,
    // Of the queued pairs those to which no criterion applies; what it says of others is not read.
    due: Table,
}

// By hand, so that each drop of one is a call.
impl Drop for PairQueue {
    fn drop(self) {
        let PairQueue {
            leads: _,
            queue: _,
            out: _,
            update: _,
            dropped: _,
            reach: _,
            waits: _,
            due: _,
        } = self;
    }
}

impl Model for PairQueue {
    ghost use Rattle.pair_queue.specs.Shown.{PairsShown};
    ghost use Rattle.pair_queue.specs.Inside.{IsCoherent, queue_shown};

    ghost Value = { PairsShown };

    ghost view = { queue_shown };

    ghost invariant = { IsCoherent };
}

impl PairQueue {
    /// No leads and no pairs yet, over a ring with these orders and a variable of each of these weights, and a free module
    /// of this rank, where this is queued as members come.
    pub fn new(
        alloc: Global,
        order: Order,
        module_order: ModOrder,
        weights: Weights,
        rank: u128,
        update: Update,
    ) -> PairQueue
        ensures leads { result.leads ≡ record {
          order = order;
          module_order = module_order;
          variables = length weights;
          weights = weights;
          rank = rank;
          keys = [];
        } }
        ensures queue { result.queue ≡ [] }
        ensures out { result.out ≡ [] }
        ensures update { result.update ≡ update }
        ensures dropped { result.dropped ≡ [] }
    {
        PairQueue {
            leads: Leads::new(alloc, order, module_order, weights, rank),
            queue: Queue::new(alloc),
            out: Vec::new(alloc),
            update,
            dropped: Vec::new(alloc),
            reach: Reach::new(alloc),
            waits: Table::new(alloc),
            due: Table::new(alloc),
        }
    }

    /// New members have these leads: their pairs with every earlier member whose lead stands at the same position are
    /// queued, each in its place; or the update with each of them is done in their order (Gebauer and Möller 1988).
    ///
    /// After `NoMemory` nothing has changed: the members are not there, and no pair is queued or dropped.
    pub fn add(&mut self, alloc: Global, mut keys: Vec<Key>) -> Result<(), NoMemory>
        requires { Each (λ k. IsWeighed self.old.leads.variables self.old.leads.weights k.monomial) keys.items }
        ensures leads { OnOk result (self.new.leads ≡ record self.old.leads { keys = self.old.leads.keys ++ keys.items }) }
        ensures queues { OnOk result (QueuesPairs self.old.update (setting_of_leads self.new.leads.variables self.new.leads) (length self.old.leads.keys)
            (sums_shown self.new.leads) (pairs_of self.old.queue) self.old.dropped (pairs_of self.new.queue) self.new.dropped) }
        ensures out { OnOk result (self.new.out ≡ self.old.out) }
        ensures update { OnOk result (self.new.update ≡ self.old.update) }
        ensures err { OnErr result (self.new ≡ self.old) }
    {
        let first = self.leads.len();
        self.leads.append(&mut keys)?;
        if let Err(stop) = queue_by(
            alloc,
            self.update,
            &self.leads,
            first,
            &mut self.queue,
            &mut self.dropped,
            &mut self.reach,
            &mut self.waits,
            &mut self.due,
        ) {
            self.leads.truncate(first);
            return Err(stop);
        }
        Ok(())
    }

    /// Skips the queued pairs to which a criterion applies, each time the first one, or none where new members drop pairs;
    /// and gives the worker the first of those left: at most `most` and what the budget leaves, and its share of those whose
    /// lcm has the least degree. IVA chapter 2, section 10.
    ///
    /// There are `workers` workers, at least one, and `taken` pairs of the budget are taken already. After `NoMemory` nothing
    /// has changed: no pair was skipped or given.
    pub fn take(
        &mut self,
        alloc: Global,
        worker: u32,
        budget: u64,
        workers: u32,
        taken: u64,
        most: u64,
    ) -> Result<Given, NoMemory>
        requires workers { 0 < workers }
        requires taken { taken ≤ budget }
        ensures ok { IfOk result (λ g. IsJobGiven self.old worker budget workers taken most g self.new) }
        ensures budget { IfOk result (λ g. taken + length g.pairs.items ≤ budget) }
        ensures err { OnErr result (self.new ≡ self.old) }
    {
        let count = self.queue.len();
        let most_given = most.min(count as u64) as usize;
        let mut skipped = Vec::with_capacity(alloc, count)?;
        let mut given = Vec::with_capacity(alloc, most_given)?;
        let mut pairs = blank_pairs(alloc, most_given)?;
        self.out.reserve(most_given)?;
        skip_by(
            self.update,
            &self.leads,
            &self.reach,
            &mut self.waits,
            &mut self.due,
            &mut self.queue,
            &mut skipped,
        );
        let left = self.queue.as_slice();
        let none_left = left.is_empty();
        let share = share_of(budget, workers, taken, most, left);
        pairs.truncate(share as usize);
        self.queue.take_front(&mut pairs);
        give(worker, &pairs, &mut self.out, &mut given);
        // They came in lists with room for as many as were asked for.
        skipped.shrink_to_fit();
        given.shrink_to_fit();
        pairs.shrink_to_fit();
        Ok(Given {
            skipped,
            given,
            pairs,
            none_left,
        })
    }

    /// The pairs of the worker are out no more, nor do they wait. It takes no memory.
    pub fn give_back(&mut self, worker: u32)
        ensures leads { self.new.leads ≡ self.old.leads }
        ensures queue { self.new.queue ≡ self.old.queue }
        ensures out { self.new.out ≡ with_others worker self.old.out }
        ensures update { self.new.update ≡ self.old.update }
        ensures dropped { self.new.dropped ≡ self.old.dropped }
    {
        close_by_update(
            self.update,
            worker,
            &mut self.out,
            &self.leads,
            &self.reach,
            &mut self.waits,
            &mut self.due,
        );
    }

    /// The queued pairs, each with its lcm, in their order: by the degree of the lcm, its monomial, the later member and the
    /// earlier one.
    pub fn queued(&self) -> &[Pair]
        ensures queue { result.now ≡ self.now.queue }
        ensures real { Each (IsRealPair self.now.leads) result.now }
    {
        self.queue.as_slice()
    }

    /// What is queued as members come.
    pub fn update(&self) -> Update
        ensures { result ≡ self.now.update }
    {
        self.update
    }

    /// The pairs that new members dropped, in the order in which they did.
    pub fn dropped(&self) -> &[Dropped]
        ensures { drops_of result.now ≡ self.now.dropped }
    {
        &self.dropped
    }

    /// The pairs that are out.
    pub fn out(&self) -> &[Out]
        ensures { outs_of result.now ≡ self.now.out }
    {
        &self.out
    }
}
