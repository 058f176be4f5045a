// What a Put does to the fields of a state.
ghost use Rattle.std.specs.Prelude.{◌≡◌, ◌≤◌, ◌+◌, ◌*◌, OnOk, OnErr, IfErr, length, map, take};
ghost use Rattle.std.specs.Vec.{vec_capacity};
ghost use Rattle.formal_sums.specs.FormalSums.{Each};
ghost use Rattle.term_lists.specs.Rings.{variables};
ghost use Rattle.basis_steps.specs.Updates.{QueuesPairs};
ghost use Rattle.basis_steps.specs.States.{vectors};
ghost use Rattle.basis_core.specs.Jobs.{pairs_of};
ghost use Rattle.basis_core.specs.Leads.{leads_shown_of};
ghost use Rattle.basis_core.specs.Makings.{HaveMadeRows, StopsRow, StopsWork};
ghost use Rattle.basis_core.specs.Members.{AreMonic, IsRunRow, members_of, setting_of};

use crate::event::Event;
use crate::leading::lead_keys;
use crate::members::Members;
use crate::outcome::Outcome;
use crate::row_division::{RowStop, make_member};
use crate::trails::put_stop;
use member_products::Reduct;
use module_vectors::{NoMemory, Vect, WorkStop};
use pair_queue::PairQueue;
use std::alloc::Global;

/// Divides each row by the members of that moment, and appends what is left of it unless it is zero. After an error the
/// members are those that the rows before the failing one made.
pub(crate) fn make_members(
    alloc: Global,
    members: &mut Members,
    rows: &[Reduct],
) -> Result<(), RowStop>
    requires over { Each (IsRunRow members.old.shared (length members.old.list)) rows.now }
    requires monic { AreMonic members.old.shared members.old.list }
    ensures shared { members.new.shared ≡ members.old.shared }
    ensures monic { AreMonic members.old.shared members.new.list }
    ensures made { let n = variables members.old.shared.ring in OnOk result (HaveMadeRows n members.old.shared members.old.list rows.now members.new.list) }
    ensures stop { let n = variables members.old.shared.ring in IfErr result (StopsRow n members.old.shared members.old.list rows.now members.new.list) }
{
    let none = Vect::zero(alloc);
    for row in rows {
        if let Err(stop) = make_member(alloc, members, row, &none) {
            return Err(stop);
        }
    }
    Ok(())
}

/// Takes all memory that the members from number `first` on need in a state: for their leads and pairs, which are queued or dropped,
/// and for this event and those that take no memory. After an error the pairs are as before.
pub(crate) fn add_pairs(
    alloc: Global,
    members: &Members,
    first: usize,
    workers: u32,
    history: &mut Vec<Event>,
    pairs: &mut PairQueue,
) -> Result<(), NoMemory>
    requires first { first ≤ length members.now.list }
    requires monic { AreMonic members.now.shared members.now.list }
    requires leads { pairs.old.leads ≡ leads_shown_of members.now.shared (take first members.now.list) }
    ensures history { history.new.items ≡ history.old.items }
    ensures history_kept { vec_capacity history.old ≤ vec_capacity history.new }
    ensures history_room { OnOk result (length history.old.items + (3 * workers + 1) ≤ vec_capacity history.new) }
    ensures leads { OnOk result (pairs.new.leads ≡ leads_shown_of members.now.shared members.now.list) }
    ensures queues { let n = variables members.now.shared.ring in OnOk result
        (QueuesPairs pairs.old.update (setting_of n members.now.shared) first (vectors (members_of n members.now.list))
        (pairs_of pairs.old.queue) pairs.old.dropped (pairs_of pairs.new.queue) pairs.new.dropped) }
    ensures out { OnOk result (pairs.new.out ≡ pairs.old.out) }
    ensures update { OnOk result (pairs.new.update ≡ pairs.old.update) }
    ensures kept { OnErr result (pairs.new ≡ pairs.old) }
{
    history.reserve(3 * workers as usize + 1)?;
    let keys = lead_keys(alloc, members, first)?;
    pairs.add(alloc, keys)?;
    Ok(())
}

// The members that the rows of the outcome make are appended. After an error they are as before.
fn make_rows(alloc: Global, outcome: &Outcome, members: &mut Members) -> Result<(), WorkStop>
    requires shared { outcome.now.job.shared ≡ members.old.shared }
    requires had { length outcome.now.job.members ≤ length members.old.list }
    requires base { outcome.now.job.members ≡ take (length outcome.now.job.members) members.old.list }
    requires monic { AreMonic members.old.shared members.old.list }
    ensures shared { members.new.shared ≡ members.old.shared }
    ensures monic { AreMonic members.old.shared members.new.list }
    ensures made { let n = variables members.old.shared.ring in OnOk result
        (HaveMadeRows n members.old.shared members.old.list outcome.now.rows members.new.list) }
    ensures err { OnErr result (members.new ≡ members.old) }
    ensures stop { let n = variables members.old.shared.ring in IfErr result (StopsWork n members.old.shared members.old.list outcome.now) }
{
    let first = members.len();
    outcome.kept();
    match make_members(alloc, members, outcome.rows()) {
        Ok(()) => Ok(()),
        Err(stop) => {
            members.kept();
            let stop = put_stop(alloc, members, outcome, stop);
            members.truncate(first);
            Err(stop)
        }
    }
}

/// The members that the rows of the outcome make are appended, and their pairs are queued; there is room for the events
/// that may come. After an error members and pairs are as before.
pub(crate) fn add_members(
    alloc: Global,
    outcome: &Outcome,
    workers: u32,
    members: &mut Members,
    history: &mut Vec<Event>,
    pairs: &mut PairQueue,
) -> Result<(), WorkStop>
    requires shared { outcome.now.job.shared ≡ members.old.shared }
    requires had { length outcome.now.job.members ≤ length members.old.list }
    requires base { outcome.now.job.members ≡ take (length outcome.now.job.members) members.old.list }
    requires monic { AreMonic members.old.shared members.old.list }
    requires leads { pairs.old.leads ≡ leads_shown_of members.old.shared members.old.list }
    ensures shared { members.new.shared ≡ members.old.shared }
    ensures made { let n = variables members.old.shared.ring in OnOk result
        (HaveMadeRows n members.old.shared members.old.list outcome.now.rows members.new.list) }
    ensures history { history.new.items ≡ history.old.items }
    ensures history_kept { vec_capacity history.old ≤ vec_capacity history.new }
    ensures history_room { OnOk result (length history.old.items + (3 * workers + 1) ≤ vec_capacity history.new) }
    ensures leads { OnOk result (pairs.new.leads ≡ leads_shown_of members.old.shared members.new.list) }
    ensures queues { let n = variables members.old.shared.ring in OnOk result
        (QueuesPairs pairs.old.update (setting_of n members.old.shared) (length members.old.list) (vectors (members_of n members.new.list))
        (pairs_of pairs.old.queue) pairs.old.dropped (pairs_of pairs.new.queue) pairs.new.dropped) }
    ensures out { OnOk result (pairs.new.out ≡ pairs.old.out) }
    ensures update { OnOk result (pairs.new.update ≡ pairs.old.update) }
    ensures err { OnErr result ((members.new ≡ members.old) × (pairs.new ≡ pairs.old)) }
    ensures stop { let n = variables members.old.shared.ring in IfErr result (StopsWork n members.old.shared members.old.list outcome.now) }
{
    let first = members.len();
    if let Err(stop) = make_rows(alloc, outcome, members) {
        return Err(stop);
    }
    if let Err(NoMemory) = add_pairs(alloc, members, first, workers, history, pairs) {
        members.truncate(first);
        return Err(WorkStop::Memory);
    }
    Ok(())
}
