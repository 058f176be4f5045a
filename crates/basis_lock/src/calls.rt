//! The core's calls under the lock.
ghost use Rattle.std.specs.Prelude.{◌≡◌, IfOk, IfErr, OnErr, OnOk, true};
ghost use Rattle.ruled_lock.specs.Plays.{IsIdle, Holds};
ghost use Rattle.basis_lock.specs.Acts.{acts_of, has_stop};
ghost use Rattle.basis_lock.specs.Calls.{Finishes, HandsIn, IsWorkStopSeen, MayFinish, MayHandIn, MayReport, MayTakeJob, ReportsStop, TakesJob};
ghost use Rattle.basis_core.specs.Logs.{base, by};

use crate::note::{Note, RunBase};
use basis_core::{BasisState, Ending, Outcome, StopReason, Taken};
use module_vectors::{NoMemory, WorkStop};
use ruled_lock::{Lock, WorkerSeat};
use std::alloc::Global;
use std::sync::Wait;

/// The lock round the state of a run.
pub type BasisLock = Lock<BasisState, Note, RunBase>;

/// The seat of one worker: what it has seen of the one history, and its own events.
pub type BasisSeat = WorkerSeat<BasisState, Note, RunBase>;

/// Asks for a job of at most `most` pairs: one hold, in which the core skips pairs and gives some of those left.
///
/// The worker has not ended and has no pair out, by its own events. It is told `Empty` or `Stopped` exactly where the core
/// is at this point. After `NoMemory` there was no event, and the run is as before. It waits for the turn.
pub fn take_job<R: Wait>(
    rt: &R,
    alloc: Global,
    lock: &BasisLock,
    seat: &mut BasisSeat,
    most: u64,
) -> Result<Taken, NoMemory>
    requires seat { IsIdle lock.now.table.shared.table_id (base lock.now.table.shared.key.value) seat.old.place }
    requires may { MayTakeJob (base lock.now.table.shared.key.value) seat.old.place.me.0 most }
    ensures seat { IsIdle lock.now.table.shared.table_id (base lock.now.table.shared.key.value) seat.new.place }
    ensures took { IfOk result (λ answer. TakesJob (base lock.now.table.shared.key.value) seat.old.place.me.0 most answer seat.new.place.me.0) }
    ensures err { OnErr result (Holds by seat.old.place.me.0 seat.new.place.me.0) }
{
    let mut state = lock.take(rt, &mut seat.place);
    state.kept();
    match state.take(alloc, seat.worker, most) {
        Ok(taken) => {
            state.kept();
            lock.put_event(&mut seat.place, state);
            Ok(taken)
        }
        Err(error) => {
            lock.put(&mut seat.place, state);
            Err(error)
        }
    }
}

/// Hands in the outcome of the worker's job: one hold, in which its rows become members and their pairs are queued.
///
/// The worker has not ended, and the outcome is of the pairs that it has out by its own events and of the first members that
/// it has seen. `Degree` comes with a trail of what was seen to a product of degree above 65,535, `Memory` where there
/// is none; after both there was no event, and the outcome comes back. It waits for the turn.
pub fn hand_in<R: Wait>(
    rt: &R,
    alloc: Global,
    lock: &BasisLock,
    seat: &mut BasisSeat,
    outcome: Outcome,
) -> Result<(), (WorkStop, Outcome)>
    requires seat { IsIdle lock.now.table.shared.table_id (base lock.now.table.shared.key.value) seat.old.place }
    requires may { MayHandIn (base lock.now.table.shared.key.value) seat.old.place.me.0 outcome }
    ensures seat { IsIdle lock.now.table.shared.table_id (base lock.now.table.shared.key.value) seat.new.place }
    ensures put { OnOk result (HandsIn (base lock.now.table.shared.key.value) seat.old.place.me.0 outcome seat.new.place.me.0) }
    ensures err { OnErr result (Holds by seat.old.place.me.0 seat.new.place.me.0) }
    ensures back { IfErr result (λ e. e.1 ≡ outcome) }
    ensures stop { IfErr result (λ e. IsWorkStopSeen (base lock.now.table.shared.key.value) seat.new.place.me.0.seen e.0) }
{
    let mut state = lock.take(rt, &mut seat.place);
    state.kept();
    match state.put(alloc, outcome) {
        Ok(()) => {
            state.kept();
            lock.put_event(&mut seat.place, state);
            Ok(())
        }
        Err(back) => {
            lock.put(&mut seat.place, state);
            Err(back)
        }
    }
}

/// Asks to end: one hold, in which the worker ends or is told that there is more work.
///
/// The worker has not ended by its own events; and a Stop was seen, or it has no pair out and took since it asked last. It
/// ends where a Stop was seen. It takes no memory and has no error. It waits for the turn.
pub fn finish<R: Wait>(rt: &R, lock: &BasisLock, seat: &mut BasisSeat) -> Ending
    requires seat { IsIdle lock.now.table.shared.table_id (base lock.now.table.shared.key.value) seat.old.place }
    requires may { MayFinish (base lock.now.table.shared.key.value) seat.old.place.me.0 }
    ensures seat { IsIdle lock.now.table.shared.table_id (base lock.now.table.shared.key.value) seat.new.place }
    ensures end { Finishes (base lock.now.table.shared.key.value) seat.old.place.me.0 result seat.new.place.me.0 }
    ensures stopped { has_stop (acts_of seat.old.place.me.0.seen) ≡ true → result ≡ Ending.Ended }
{
    let mut state = lock.take(rt, &mut seat.place);
    state.kept();
    let ending = state.end(seat.worker);
    state.kept();
    lock.put_event(&mut seat.place, state);
    ending
}

/// Stops the run for a reason: one hold. The first reason of a run is kept.
///
/// The worker has stopped no run before, by its own events; the reason is not the budget, and a stop by the degree has a
/// trail of what was seen. It takes no memory and has no error. It waits for the turn.
pub fn report_stop<R: Wait>(rt: &R, lock: &BasisLock, seat: &mut BasisSeat, reason: StopReason)
    requires seat { IsIdle lock.now.table.shared.table_id (base lock.now.table.shared.key.value) seat.old.place }
    requires may { MayReport (base lock.now.table.shared.key.value) seat.old.place.me.0 reason }
    ensures seat { IsIdle lock.now.table.shared.table_id (base lock.now.table.shared.key.value) seat.new.place }
    ensures stop { ReportsStop (base lock.now.table.shared.key.value) seat.old.place.me.0 reason seat.new.place.me.0 }
{
    let mut state = lock.take(rt, &mut seat.place);
    state.kept();
    state.stop(seat.worker, reason);
    state.kept();
    lock.put_event(&mut seat.place, state);
}
