// Pairs that go out with a worker, and come back.
ghost use Rattle.std.specs.Prelude.{ℕ, ◌≡◌, ◌<◌, ◌≤◌, ◌+◌, ◌++◌, List, [], length};
ghost use Rattle.std.specs.Vec.{vec_capacity};
ghost use Rattle.formal_sums.specs.FormalSums.{Each};
ghost use Rattle.basis_steps.specs.Pairs.{Pair as PlainPair, count};
ghost use Rattle.basis_steps.specs.States.{job_of, with_others};
ghost use Rattle.basis_steps.specs.Steps.{out_with};
ghost use Rattle.queue_updates.specs.declared.Update.TheVariants as updates;
ghost use Rattle.pair_queue.specs.Giving.{HasCleared};
ghost use Rattle.pair_queue.specs.Outs.{outs_of};
ghost use Rattle.pair_updates.specs.Pairs.{pairs_of, AreIndices};
ghost use Rattle.pair_queue.specs.Reaches.{IsReach};
ghost use Rattle.pair_queue.specs.Skipping.{IsKnown};
ghost use Rattle.pair_queue.specs.Tables.{IsFlagTable, flag, member_count};

use crate::closing::pass;
use crate::out::Out;
use crate::reach::Reach;
use crate::table::Table;
use pair_criteria::Pair;
use pair_updates::Leads;
use queue_updates::Update;

/// The pairs go out with the worker. There is room for them.
pub(crate) fn give(worker: u32, pairs: &[Pair], out: &mut Vec<Out>, given: &mut Vec<(u64, u64)>)
    requires room { length out.old.items + length pairs.now ≤ vec_capacity out.old }
    requires given { (given.old.items ≡ []) × (length pairs.now ≤ vec_capacity given.old) }
    ensures given { given.new.items ≡ pairs_of pairs.now }
    ensures out { outs_of out.new.items ≡ outs_of out.old.items ++ out_with worker (pairs_of pairs.now) }
{
    for k in 0..pairs.len() {
        let x = &pairs[k];
        out.push_reserved(Out {
            i: x.i,
            j: x.j,
            worker,
        });
        given.push_reserved((x.i, x.j));
    }
}

// The pairs of the worker wait no more.
fn pass_all(
    worker: u32,
    out: &[Out],
    leads: &Leads,
    reach: &Reach,
    waits: &mut Table,
    due: &mut Table,
)
    requires within { Each (λ o. AreIndices (length leads.now.keys) (o.i, o.j)) out.now }
    requires reach { IsReach leads.now reach.now }
    requires waits { member_count waits.old ≡ length leads.now.keys }
    requires due { member_count due.old ≡ length leads.now.keys }
    ensures waits_size { member_count waits.new ≡ member_count waits.old }
    ensures due_size { member_count due.new ≡ member_count due.old }
    ensures flags { HasCleared (job_of worker (outs_of out.now)) (flag waits.old) (flag waits.new) }
    ensures known { (x : PlainPair) → x.0 < x.1 → count x (job_of worker (outs_of out.now)) ≡ 0
        → IsKnown leads.now (flag waits.old) (flag due.old) x → IsKnown leads.now (flag waits.new) (flag due.new) x }
{
    for o in out {
        if o.worker == worker {
            pass(leads, reach, waits, due, o.i as usize, o.j as usize);
        }
    }
}

// The pairs of the worker are out no more, nor do they wait. It takes no memory.
fn close_job(
    worker: u32,
    out: &mut Vec<Out>,
    leads: &Leads,
    reach: &Reach,
    waits: &mut Table,
    due: &mut Table,
)
    requires within { Each (λ o. AreIndices (length leads.now.keys) (o.i, o.j)) out.old.items }
    requires reach { IsReach leads.now reach.now }
    requires waits { member_count waits.old ≡ length leads.now.keys }
    requires due { member_count due.old ≡ length leads.now.keys }
    ensures out { outs_of out.new.items ≡ with_others worker (outs_of out.old.items) }
    ensures waits_size { member_count waits.new ≡ member_count waits.old }
    ensures due_size { member_count due.new ≡ member_count due.old }
    ensures table { (queue : List PlainPair) → IsFlagTable (flag waits.old) queue (outs_of out.old.items)
        → IsFlagTable (flag waits.new) queue (outs_of out.new.items) }
    ensures known { (queue : List PlainPair) → Each (AreIndices (length leads.now.keys)) queue → IsFlagTable (flag waits.old) queue (outs_of out.old.items)
        → Each (IsKnown leads.now (flag waits.old) (flag due.old)) queue → Each (IsKnown leads.now (flag waits.new) (flag due.new)) queue }
{
    pass_all(worker, out, leads, reach, waits, due);
    out.retain(|o| o.worker != worker);
}

/// The pairs of the worker are out no more, nor do they wait. It takes no memory. Where new members drop pairs no flags are kept.
pub(crate) fn close_by_update(
    update: Update,
    worker: u32,
    out: &mut Vec<Out>,
    leads: &Leads,
    reach: &Reach,
    waits: &mut Table,
    due: &mut Table,
)
    requires within { Each (λ o. AreIndices (length leads.now.keys) (o.i, o.j)) out.old.items }
    requires reach { update ≡ updates.Plain → IsReach leads.now reach.now }
    requires waits { update ≡ updates.Plain → member_count waits.old ≡ length leads.now.keys }
    requires due { update ≡ updates.Plain → member_count due.old ≡ length leads.now.keys }
    ensures out { outs_of out.new.items ≡ with_others worker (outs_of out.old.items) }
    ensures waits_size { update ≡ updates.Plain → member_count waits.new ≡ member_count waits.old }
    ensures due_size { update ≡ updates.Plain → member_count due.new ≡ member_count due.old }
    ensures table { update ≡ updates.Plain → (queue : List PlainPair) → IsFlagTable (flag waits.old) queue (outs_of out.old.items)
        → IsFlagTable (flag waits.new) queue (outs_of out.new.items) }
    ensures known { update ≡ updates.Plain → (queue : List PlainPair) → Each (AreIndices (length leads.now.keys)) queue
        → IsFlagTable (flag waits.old) queue (outs_of out.old.items)
        → Each (IsKnown leads.now (flag waits.old) (flag due.old)) queue → Each (IsKnown leads.now (flag waits.new) (flag due.new)) queue }
{
    match update {
        Update::Plain => close_job(worker, out, leads, reach, waits, due),
        Update::Gebauer => out.retain(|o| o.worker != worker),
    }
}
