// New pairs join the queue.
ghost use Rattle.std.specs.Prelude.{ℕ, ◌≡◌, ◌<◌, ◌≤◌, List, length, take, OnOk, OnErr};
ghost use Rattle.formal_sums.specs.FormalSums.{Each};
ghost use Rattle.basis_steps.specs.Pairs.{Pair as PlainPair};
ghost use Rattle.basis_steps.specs.Queues.{IsSorted, QueuesNewPairs};
ghost use Rattle.basis_steps.specs.States.{pairs_out};
ghost use Rattle.basis_steps.specs.Updates.{QueuesPairs, Updates};
ghost use Rattle.queue_updates.specs.declared.Update.TheVariants as updates;
ghost use Rattle.pair_updates.specs.Dropping.{drops_of};
ghost use Rattle.pair_updates.specs.Leads.{lead_sums, setting_of_leads, sums_shown};
ghost use Rattle.pair_updates.specs.Pairs.{IsRealPair, pairs_of, AreIndices};
ghost use Rattle.pair_queue.specs.Reaches.{IsReach};
ghost use Rattle.pair_queue.specs.Skipping.{IsKnown};
ghost use Rattle.pair_queue.specs.Tables.{HasSameFlags, IsFlagTable, flag, member_count};

use crate::flags::flag_pairs;
use crate::queue::Queue;
use crate::reach::Reach;
use crate::table::Table;
use module_vectors::NoMemory;
use pair_updates::{Dropped, Leads, merge, new_pairs, sort_pairs, updated};
use queue_updates::Update;
use std::alloc::Global;
use std::mem::replace;

// Does the update with each of the members from number `first` on, in their order: pairs leave the queue, and of the new ones
// those join it, each in its place, that the rules leave; the others are dropped. After an error queue and dropped pairs are
// as before.
fn update_queue(
    alloc: Global,
    leads: &Leads,
    first: usize,
    queue: &mut Queue,
    dropped: &mut Vec<Dropped>,
) -> Result<(), NoMemory>
    requires first { first ≤ length leads.now.keys }
    requires real { Each (IsRealPair leads.now) queue.old.items }
    requires earlier { Each (AreIndices first) (pairs_of queue.old.items) }
    requires sorted { IsSorted (setting_of_leads leads.now.variables leads.now) (sums_shown leads.now) (pairs_of queue.old.items) }
    ensures real { OnOk result (Each (IsRealPair leads.now) queue.new.items) }
    ensures updates { OnOk result (Updates (setting_of_leads leads.now.variables leads.now) first (sums_shown leads.now)
        (pairs_of queue.old.items) (drops_of dropped.old.items) (pairs_of queue.new.items) (drops_of dropped.new.items)) }
    ensures queue_kept { OnErr result (queue.new.items ≡ queue.old.items) }
    ensures dropped_kept { OnErr result (dropped.new.items ≡ dropped.old.items) }
{
    if first >= leads.len() {
        return Ok(());
    }
    let (pairs, mut added) = updated(alloc, leads, first, queue.as_slice())?;
    dropped.append(&mut added)?;
    *queue = Queue::from_vec(pairs);
    Ok(())
}

/// Queues the pairs of the members from number `first` on with every earlier one whose lead stands at the same position,
/// each in its place, and flags them. After an error queue and flags are as before.
pub(crate) fn queue_new_pairs(
    alloc: Global,
    leads: &Leads,
    first: usize,
    queue: &mut Queue,
    waits: &mut Table,
    due: &mut Table,
) -> Result<(), NoMemory>
    requires first { first ≤ length leads.now.keys }
    requires real { Each (IsRealPair leads.now) queue.old.items }
    requires within { Each (AreIndices first) (pairs_of queue.old.items) }
    requires sorted { IsSorted (setting_of_leads leads.now.variables leads.now) (sums_shown leads.now) (pairs_of queue.old.items) }
    requires waits { member_count waits.old ≡ first }
    requires due { member_count due.old ≡ first }
    ensures real { OnOk result (Each (IsRealPair leads.now) queue.new.items) }
    ensures queues { OnOk result (QueuesNewPairs (setting_of_leads leads.now.variables leads.now) first
        (sums_shown leads.now) (pairs_of queue.old.items) (pairs_of queue.new.items)) }
    ensures waits { OnOk result (member_count waits.new ≡ length leads.now.keys) }
    ensures due { OnOk result (member_count due.new ≡ length leads.now.keys) }
    ensures table { OnOk result ((out : List (PlainPair × ℕ)) → Each (AreIndices first) (pairs_out out)
        → IsFlagTable (flag waits.old) (pairs_of queue.old.items) out → IsFlagTable (flag waits.new) (pairs_of queue.new.items) out) }
    ensures known { OnOk result ((out : List (PlainPair × ℕ)) → IsFlagTable (flag waits.old) (pairs_of queue.old.items) out
        → Each (IsKnown (record leads.now { keys = take first leads.now.keys }) (flag waits.old) (flag due.old)) (pairs_of queue.old.items)
        → Each (IsKnown leads.now (flag waits.new) (flag due.new)) (pairs_of queue.new.items)) }
    ensures queue_kept { OnErr result (queue.new.items ≡ queue.old.items) }
    ensures waits_kept { OnErr result (HasSameFlags waits.old waits.new) }
    ensures due_kept { OnErr result (HasSameFlags due.old due.new) }
{
    let added = new_pairs(alloc, leads, first)?;
    let pairs = sort_pairs(alloc, leads, added)?;
    let room = Vec::with_capacity(alloc, queue.as_slice().len() + pairs.len())?;
    waits.reserve(alloc, leads.len())?;
    due.reserve(alloc, leads.len())?;
    waits.grow(leads.len());
    due.grow(leads.len());
    flag_pairs(leads, &pairs, waits, due);
    let queued = replace(queue, Queue::new(alloc)).into_pairs();
    *queue = Queue::from_vec(merge(leads, queued, pairs, room));
    Ok(())
}

/// The members from number `first` on come: the exponents that their leads reach are told, and all their pairs are queued, and flagged;
/// or the update with each of them is done. After an error all is as before, but for bits of the new members.
pub(crate) fn queue_by(
    alloc: Global,
    update: Update,
    leads: &Leads,
    first: usize,
    queue: &mut Queue,
    dropped: &mut Vec<Dropped>,
    reach: &mut Reach,
    waits: &mut Table,
    due: &mut Table,
) -> Result<(), NoMemory>
    requires first { first ≤ length leads.now.keys }
    requires real { Each (IsRealPair leads.now) queue.old.items }
    requires within { Each (AreIndices first) (pairs_of queue.old.items) }
    requires sorted { IsSorted (setting_of_leads leads.now.variables leads.now) (sums_shown leads.now) (pairs_of queue.old.items) }
    requires reach { update ≡ updates.Plain → IsReach (record leads.now { keys = take first leads.now.keys }) reach.old }
    requires waits { update ≡ updates.Plain → member_count waits.old ≡ first }
    requires due { update ≡ updates.Plain → member_count due.old ≡ first }
    ensures real { OnOk result (Each (IsRealPair leads.now) queue.new.items) }
    ensures queues { OnOk result (QueuesPairs update (setting_of_leads leads.now.variables leads.now) first (sums_shown leads.now)
        (pairs_of queue.old.items) (drops_of dropped.old.items) (pairs_of queue.new.items) (drops_of dropped.new.items)) }
    ensures sorted { OnOk result (IsSorted (setting_of_leads leads.now.variables leads.now) (sums_shown leads.now) (pairs_of queue.new.items)) }
    ensures reach { OnOk result (update ≡ updates.Plain → IsReach leads.now reach.new) }
    ensures waits { OnOk result (update ≡ updates.Plain → member_count waits.new ≡ length leads.now.keys) }
    ensures due { OnOk result (update ≡ updates.Plain → member_count due.new ≡ length leads.now.keys) }
    ensures table { OnOk result (update ≡ updates.Plain → (out : List (PlainPair × ℕ)) → Each (AreIndices first) (pairs_out out)
        → IsFlagTable (flag waits.old) (pairs_of queue.old.items) out → IsFlagTable (flag waits.new) (pairs_of queue.new.items) out) }
    ensures known { OnOk result (update ≡ updates.Plain → (out : List (PlainPair × ℕ)) → IsFlagTable (flag waits.old) (pairs_of queue.old.items) out
        → Each (IsKnown (record leads.now { keys = take first leads.now.keys }) (flag waits.old) (flag due.old)) (pairs_of queue.old.items)
        → Each (IsKnown leads.now (flag waits.new) (flag due.new)) (pairs_of queue.new.items)) }
    ensures queue_kept { OnErr result (queue.new.items ≡ queue.old.items) }
    ensures dropped_kept { OnErr result (dropped.new.items ≡ dropped.old.items) }
    ensures reach_kept { OnErr result (update ≡ updates.Plain → IsReach (record leads.now { keys = take first leads.now.keys }) reach.new) }
    ensures waits_kept { OnErr result (HasSameFlags waits.old waits.new) }
    ensures due_kept { OnErr result (HasSameFlags due.old due.new) }
{
    match update {
        Update::Plain => {
            reach.add(leads, first)?;
            queue_new_pairs(alloc, leads, first, queue, waits, due)?;
            Ok(())
        }
        Update::Gebauer => {
            update_queue(alloc, leads, first, queue, dropped)?;
            Ok(())
        }
    }
}
