// The leads of the members, by which the pairs know them.
ghost use Rattle.std.specs.Prelude.{◌≡◌, ◌<◌, ◌≤◌, IfOk, [], drop, length, map};
ghost use Rattle.formal_sums.specs.FormalSums.{Each};
ghost use Rattle.term_lists.specs.Rings.{variables};
ghost use Rattle.term_lists.specs.Vectors.{IsMonomialOver};
ghost use Rattle.basis_steps.specs.Divisions.{IsMonicMember};
ghost use Rattle.basis_steps.specs.Updates.{QueuesPairs};
ghost use Rattle.basis_steps.specs.States.{vectors};
ghost use Rattle.basis_core.specs.Jobs.{pairs_of};
ghost use Rattle.basis_core.specs.Leads.{first_key, leads_shown_of};
ghost use Rattle.basis_core.specs.Members.{AreMonic, members_of, setting_of};

use crate::members::Members;
use module_vectors::{Key, NoMemory, Vect};
use pair_queue::PairQueue;
use queue_updates::Update;
use std::alloc::Global;

// The key of the lead of a vector that is not zero.
fn lead_key(alloc: Global, v: &Vect) -> Result<Key, NoMemory>
    requires { 0 < length v.now }
    ensures { IfOk result (λ key. key ≡ first_key v.now) }
{
    v.terms()[0].0.try_copy(alloc)
}

/// The keys of the leads of the members from number `first` on.
pub(crate) fn lead_keys(
    alloc: Global,
    members: &Members,
    first: usize,
) -> Result<Vec<Key>, NoMemory>
    requires first { first ≤ length members.now.list }
    requires monic { let n = variables members.now.shared.ring in Each (IsMonicMember (setting_of n members.now.shared)) (vectors (members_of n members.now.list)) }
    ensures weighed { IfOk result (λ keys. Each (λ k. IsMonomialOver members.now.shared.ring k.monomial) keys.items) }
    ensures leads { IfOk result (λ keys. keys.items ≡ drop first (leads_shown_of members.now.shared members.now.list).keys) }
{
    let mut keys = Vec::new(alloc);
    for index in first..members.len() {
        let key = lead_key(alloc, &members.get(index).vector)?;
        keys.push(key)?;
    }
    Ok(keys)
}

/// The pairs of the members at the beginning of a run: all are queued, or those that the update leaves.
pub(crate) fn first_pairs(
    alloc: Global,
    members: &Members,
    update: Update,
) -> Result<PairQueue, NoMemory>
    requires { AreMonic members.now.shared members.now.list }
    ensures leads { IfOk result (λ q. q.leads ≡ leads_shown_of members.now.shared members.now.list) }
    ensures queues { let n = variables members.now.shared.ring in IfOk result
        (λ q. QueuesPairs update (setting_of n members.now.shared) 0 (vectors (members_of n members.now.list)) [] [] (pairs_of q.queue) q.dropped) }
    ensures out { IfOk result (λ q. q.out ≡ []) }
    ensures update { IfOk result (λ q. q.update ≡ update) }
{
    let shared = members.shared();
    let ring = &shared.ring;
    let weights = ring.weights.try_copy(alloc)?;
    let mut pairs = PairQueue::new(
        alloc,
        ring.order,
        ring.module_order,
        weights,
        shared.rank,
        update,
    );
    let keys = lead_keys(alloc, members, 0)?;
    pairs.add(alloc, keys)?;
    Ok(pairs)
}
