// The pairs of new members.
ghost use Rattle.std.specs.Prelude.{◌≡◌, ◌<◌, ◌≤◌, ◌+◌, ◌&&◌, cond, length, ltb, nat_eq, IfOk, OnOk};
ghost use Rattle.formal_sums.specs.FormalSums.{Each};
ghost use Rattle.basis_steps.specs.Pairs.{Pair as PlainPair, count, is_same_pair};
ghost use Rattle.basis_steps.specs.Queues.{is_new_pair};
ghost use Rattle.pair_updates.specs.Leads.{sums_shown};
ghost use Rattle.pair_updates.specs.Pairs.{HasLcm, pairs_of};
ghost use Rattle.pair_updates.specs.Queueing.{are_together};

use crate::leads::Leads;
use module_vectors::NoMemory;
use pair_criteria::{Pair, pair_of};
use std::alloc::Global;

/// Appends the pair of two members if their leads stand at the same position.
pub(crate) fn push_pair(
    alloc: Global,
    leads: &Leads,
    i: usize,
    j: usize,
    pairs: &mut Vec<Pair>,
) -> Result<(), NoMemory>
    requires order { i < j }
    requires known { j < length leads.now.keys }
    requires lcms { Each (HasLcm leads.now) pairs.old.items }
    ensures lcms { OnOk result (Each (HasLcm leads.now) pairs.new.items) }
    ensures same { OnOk result ((x : PlainPair) → count x (pairs_of pairs.new.items)
        ≡ count x (pairs_of pairs.old.items) + cond (is_same_pair x (i, j) && are_together (sums_shown leads.now) i j) 1 0) }
{
    match pair_of(alloc, leads.weights(), leads.keys(), i as u64, j as u64)? {
        Some(pair) => pairs.push(pair)?,
        None => {}
    }
    Ok(())
}

// Appends the pairs of member j with every earlier one whose lead stands at the same position.
fn push_pairs(alloc: Global, leads: &Leads, j: usize, pairs: &mut Vec<Pair>) -> Result<(), NoMemory>
    requires known { j < length leads.now.keys }
    requires lcms { Each (HasLcm leads.now) pairs.old.items }
    ensures lcms { OnOk result (Each (HasLcm leads.now) pairs.new.items) }
    ensures same { OnOk result ((x : PlainPair) → count x (pairs_of pairs.new.items)
        ≡ count x (pairs_of pairs.old.items) + cond (nat_eq x.1 j && (ltb x.0 j && are_together (sums_shown leads.now) x.0 j)) 1 0) }
{
    for i in 0..j {
        push_pair(alloc, leads, i, j, pairs)?;
    }
    Ok(())
}

/// The pairs that new members, those from number `first` on, bring to the queue: each with every earlier member whose lead
/// stands at the same position.
pub fn new_pairs(alloc: Global, leads: &Leads, first: usize) -> Result<Vec<Pair>, NoMemory>
    requires first { first ≤ length leads.now.keys }
    ensures lcms { IfOk result (λ pairs. Each (HasLcm leads.now) pairs.items) }
    ensures same { IfOk result (λ pairs. (x : PlainPair) → count x (pairs_of pairs.items) ≡ cond (is_new_pair first (sums_shown leads.now) x) 1 0) }
{
    let mut pairs = Vec::new(alloc);
    for j in first..leads.len() {
        push_pairs(alloc, leads, j, &mut pairs)?;
    }
    Ok(pairs)
}
