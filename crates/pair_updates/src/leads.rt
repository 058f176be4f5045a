// The leads of the members.
ghost use Rattle.std.specs.Prelude.{◌≡◌, ◌<◌, ◌≤◌, ◌+◌, ◌++◌, [], length, take, OnOk, OnErr};
ghost use Rattle.std.specs.Vec.{vec_capacity, vec_len};
ghost use Rattle.formal_sums.specs.FormalSums.{Each};
ghost use Rattle.bases.specs.Leads.{leads};
ghost use Rattle.term_lists.specs.Vectors.{key_of};
ghost use Rattle.monomial_orders.specs.Comparisons.{key_comparison};
ghost use Rattle.monomial_orders.specs.Kept.{IsWeighed};
ghost use Rattle.monomials.specs.Exponents.{exponents_of};
ghost use Rattle.pair_updates.specs.Leads.{sums_shown};
ghost use Rattle.pair_updates.specs.Rows.{lead_row, key_rows};

use crate::rows::row_of;
use module_vectors::{Key, NoMemory};
use monomial_orders::{ModOrder, Mono, Order, Weights};
use std::alloc::Global;
use std::cmp::Ordering;
use std::marker::Model;

/// Leads over one ring and rank, in the order of their members. There are as many weights as variables.
pub struct Leads {
    order: Order,
    module_order: ModOrder,
    weights: Weights,
    rank: u128,
    keys: Vec<Key>,
    // The first sixteen exponents of each, in one place.
    rows: Vec<[u16; 16]>,
}

// By hand, so that each drop of one is a call.
impl Drop for Leads {
    fn drop(self) {
        let Leads {
            order: _,
            module_order: _,
            weights: _,
            rank: _,
            keys: _,
            rows: _,
        } = self;
    }
}

impl Model for Leads {
    ghost use Rattle.std.specs.Prelude.{length, ◌≡◌};
    ghost use Rattle.formal_sums.specs.FormalSums.{Each};
    ghost use Rattle.monomial_orders.specs.Kept.{IsWeighed};
    ghost use Rattle.pair_updates.specs.Leads.{LeadsShown};
    ghost use Rattle.pair_updates.specs.Rows.{key_rows};

    ghost Value = { LeadsShown };

    ghost view = { λ l. record {
      order = l.order;
      module_order = l.module_order;
      variables = length l.weights;
      weights = l.weights;
      rank = l.rank;
      keys = l.keys.items;
    } };

    ghost invariant = { λ l. Each (λ k. IsWeighed (length l.weights) l.weights k.monomial) l.keys.items × (l.rows.items ≡ key_rows l.keys.items) };
}

// The rows of the keys behind those that have one, in the room for them.
fn push_rows(keys: &[Key], rows: &mut Vec<[u16; 16]>)
    requires rows { rows.old.items ≡ key_rows (take (vec_len rows.old) keys.now) }
    requires few { vec_len rows.old ≤ length keys.now }
    requires room { length keys.now ≤ vec_capacity rows.old }
    ensures { rows.new.items ≡ key_rows keys.now }
{
    for k in rows.len()..keys.len() {
        rows.push_reserved(row_of(&keys[k].monomial));
    }
}

impl Leads {
    /// No leads yet.
    pub fn new(
        alloc: Global,
        order: Order,
        module_order: ModOrder,
        weights: Weights,
        rank: u128,
    ) -> Leads
        ensures { result ≡ record {
          order = order;
          module_order = module_order;
          variables = length weights;
          weights = weights;
          rank = rank;
          keys = [];
        } }
    {
        Leads {
            order,
            module_order,
            weights,
            rank,
            keys: Vec::new(alloc),
            rows: Vec::new(alloc),
        }
    }

    /// How many leads there are.
    pub fn len(&self) -> usize
        ensures { result ≡ length self.now.keys }
    {
        self.keys.len()
    }

    /// The weights of the variables.
    pub fn weights(&self) -> &Weights
        ensures weights { result.now ≡ self.now.weights }
        ensures variables { length result.now ≡ self.now.variables }
    {
        &self.weights
    }

    /// The rank of the free module.
    pub fn rank(&self) -> u128
        ensures { result ≡ self.now.rank }
    {
        self.rank
    }

    /// The leads, each of the ring.
    pub fn keys(&self) -> &[Key]
        ensures keys { result.now ≡ self.now.keys }
        ensures weighed { Each (λ k. IsWeighed self.now.variables self.now.weights k.monomial) result.now }
    {
        &self.keys
    }

    /// The lead with this index.
    pub fn at(&self, index: usize) -> &Key
        requires known { index < length self.now.keys }
        ensures variables { length result.now.monomial.exponents ≡ self.now.variables }
        ensures lead { key_of self.now.variables result.now ≡ leads (sums_shown self.now) index }
    {
        &self.keys[index]
    }

    /// The first sixteen exponents of the lead with this index, with zeros behind the last.
    pub(crate) fn row(&self, index: usize) -> &[u16; 16]
        requires known { index < length self.now.keys }
        ensures { result.now ≡ lead_row self.now index }
    {
        &self.rows[index]
    }

    /// Compares two monomials of the ring by its order.
    pub fn compare(&self, a: &Mono, b: &Mono) -> Ordering
        requires left { IsWeighed self.now.variables self.now.weights a.now }
        requires right { IsWeighed self.now.variables self.now.weights b.now }
        ensures { let n = self.now.variables in result ≡ key_comparison self.now.module_order self.now.order self.now.weights n
            (0, exponents_of n a.now.exponents) (0, exponents_of n b.now.exponents) }
    {
        self.module_order
            .cmp_at(&self.order, &self.weights, 0, a, 0, b)
    }

    /// A number for a monomial of the ring, by which most compare.
    pub fn hint(&self, m: &Mono) -> u64 {
        self.order.hint(&self.weights, m)
    }

    /// Appends leads. After an error the list is as before.
    pub fn append(&mut self, keys: &mut Vec<Key>) -> Result<(), NoMemory>
        requires { Each (λ k. IsWeighed self.old.variables self.old.weights k.monomial) keys.old.items }
        ensures ok { OnOk result (self.new ≡ record self.old { keys = self.old.keys ++ keys.old.items }) }
        ensures err { OnErr result (self.new ≡ self.old) }
    {
        self.rows.reserve(keys.len())?;
        self.keys.append(keys)?;
        push_rows(&self.keys, &mut self.rows);
        Ok(())
    }

    /// Drops the leads from this index on.
    pub fn truncate(&mut self, count: usize)
        ensures { self.new ≡ record self.old { keys = take count self.old.keys } }
    {
        self.keys.truncate(count);
        self.rows.truncate(count);
    }
}
