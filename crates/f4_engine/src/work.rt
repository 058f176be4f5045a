// What one worker does.
ghost use Rattle.std.specs.Prelude.{◌≡◌, ◌<◌, List};
ghost use Rattle.ruled_lock.specs.Plays.{IsIdle};
ghost use Rattle.basis_core.specs.Logs.{Base, Noted, base};
ghost use Rattle.f4_engine.specs.Workers.{AreDone, HasDone, HasJob, HasNone, IsFresh, IsSameWorker, IsWorking, MayGiveUp, RoundEnds};
ghost use Rattle.basis_lock.specs.Calls.{IsReasonSeen, IsWorkStopSeen, own};

use basis_core::{Ending, Job, StopReason, Taken};
use basis_lock::{BasisLock, BasisSeat, finish, hand_in, report_stop, take_job};
use f4_job::solve;
use module_vectors::WorkStop;
use std::alloc::Global;
use std::sync::{Mutex, MutexGuard, Wait};
use std::thread;
use std::thread::Threads;
use worker_gate::{Gate, Point, SharedGate};

// How many pairs a worker asks for, the most that it may: the more of one degree stand in one matrix, the fewer members a
// run makes.
const PAIRS: u64 = 512;

// From so many pairs on a job is long. While a worker has a long job no other takes one, and the others wait for its rows, since
// jobs of one degree that are out together find the same ones. Where the last long job of the degree gave no rows, the others are
// likely to give none, and nobody waits.
const LONG: usize = 8;

/// The last long job that was handed in: its degree, and whether it gave rows. A worker locks it while it takes a job, and as long
/// as its own is long.
#[derive(Clone, Copy)]
pub(crate) struct LongJob {
    pub(crate) degree: u128,
    pub(crate) gave_rows: bool,
}

// The degree of the job's pairs.
fn degree_of(job: &Job) -> u128 {
    match job.pairs().first() {
        Some(pair) => pair.lcm.monomial.degree(),
        None => 0,
    }
}

// The reason of a stop.
fn reason_for(stop: WorkStop) -> StopReason
    ensures { (b : Base) (seen : List Noted) → IsWorkStopSeen b seen stop → IsReasonSeen b seen result }
{
    match stop {
        WorkStop::Memory => StopReason::Memory,
        WorkStop::Degree(trail) => StopReason::Degree(trail),
    }
}

// Stops the run, and ends.
fn give_up<R: Wait>(rt: &R, lock: &BasisLock, seat: &mut BasisSeat, stop: WorkStop)
    requires idle { IsIdle lock.now.table.shared.table_id (base lock.now.table.shared.key.value) seat.old.place }
    requires may { MayGiveUp (base lock.now.table.shared.key.value) seat.old.place.me.0 stop }
    ensures idle { IsIdle lock.now.table.shared.table_id (base lock.now.table.shared.key.value) seat.new.place }
    ensures same { IsSameWorker seat.old.place.me.0 seat.new.place.me.0 }
    ensures done { AreDone (own seat.new.place.me.0) }
{
    report_stop(rt, lock, seat, reason_for(stop));
    // A stop is kept, so the worker has ended.
    finish(rt, lock, seat);
}

// Ends, or goes on where there is more work. Is the worker done?
fn ask_to_end<R: Wait>(rt: &R, lock: &BasisLock, seat: &mut BasisSeat) -> bool
    requires idle { IsIdle lock.now.table.shared.table_id (base lock.now.table.shared.key.value) seat.old.place }
    requires none { HasNone (base lock.now.table.shared.key.value) seat.old.place.me.0 }
    ensures idle { IsIdle lock.now.table.shared.table_id (base lock.now.table.shared.key.value) seat.new.place }
    ensures ends { RoundEnds (base lock.now.table.shared.key.value) seat.old.place.me.0 seat.new.place.me.0 result }
{
    match finish(rt, lock, seat) {
        Ending::Ended => true,
        Ending::MoreWork => {
            thread::yield_now();
            false
        }
    }
}

// Solves a job with helpers and hands it in, or gives up. Is the worker done, and did the job give rows?
fn do_job<R: Threads + Wait + Sync>(
    rt: &R,
    alloc: Global,
    lock: &BasisLock,
    helpers: u32,
    thread: usize,
    gate: &SharedGate,
    seat: &mut BasisSeat,
    job: Job,
) -> (bool, bool)
    requires idle { IsIdle lock.now.table.shared.table_id (base lock.now.table.shared.key.value) seat.old.place }
    requires job { HasJob (base lock.now.table.shared.key.value) seat.old.place.me.0 job }
    requires helpers { 0 < helpers }
    ensures idle { IsIdle lock.now.table.shared.table_id (base lock.now.table.shared.key.value) seat.new.place }
    ensures ends { RoundEnds (base lock.now.table.shared.key.value) seat.old.place.me.0 seat.new.place.me.0 result.0 }
{
    gate.pass(seat.worker, Point::JobTaken);
    match solve(rt, alloc, job, helpers, thread, gate) {
        Ok(outcome) => {
            let gave_rows = !outcome.rows().is_empty();
            match hand_in(rt, alloc, lock, seat, outcome) {
                Ok(()) => (false, gave_rows),
                Err((stop, _outcome)) => {
                    give_up(rt, lock, seat, stop);
                    (true, false)
                }
            }
        }
        Err((stop, _job)) => {
            give_up(rt, lock, seat, stop);
            (true, false)
        }
    }
}

// Solves a job and hands it in, or gives up. Nobody takes a job meanwhile where this one is long, unless the last long job of its
// degree gave no rows. Is the worker done?
fn do_taken_job<R: Threads + Wait + Sync>(
    rt: &R,
    alloc: Global,
    lock: &BasisLock,
    helpers: u32,
    thread: usize,
    gate: &SharedGate,
    long: &Mutex<LongJob>,
    mut last_long: MutexGuard<'_, LongJob>,
    seat: &mut BasisSeat,
    job: Job,
) -> bool
    requires idle { IsIdle lock.now.table.shared.table_id (base lock.now.table.shared.key.value) seat.old.place }
    requires job { HasJob (base lock.now.table.shared.key.value) seat.old.place.me.0 job }
    requires helpers { 0 < helpers }
    ensures idle { IsIdle lock.now.table.shared.table_id (base lock.now.table.shared.key.value) seat.new.place }
    ensures ends { RoundEnds (base lock.now.table.shared.key.value) seat.old.place.me.0 seat.new.place.me.0 result }
{
    let degree = degree_of(&job);
    let last = *last_long;
    if job.pairs().len() < LONG || (last.degree == degree && !last.gave_rows) {
        drop(last_long);
        let (done, gave_rows) = do_job(rt, alloc, lock, helpers, thread, gate, seat, job);
        if gave_rows && !last.gave_rows {
            *long.lock(rt) = LongJob { degree, gave_rows };
        }
        return done;
    }
    let (done, gave_rows) = do_job(rt, alloc, lock, helpers, thread, gate, seat, job);
    *last_long = LongJob { degree, gave_rows };
    drop(last_long);
    done
}

// One round: a job, or the answer that there is none. Is the worker done?
fn do_round<R: Threads + Wait + Sync>(
    rt: &R,
    alloc: Global,
    lock: &BasisLock,
    helpers: u32,
    thread: usize,
    gate: &SharedGate,
    long: &Mutex<LongJob>,
    seat: &mut BasisSeat,
) -> bool
    requires idle { IsIdle lock.now.table.shared.table_id (base lock.now.table.shared.key.value) seat.old.place }
    requires works { IsWorking (base lock.now.table.shared.key.value) seat.old.place.me.0 }
    requires helpers { 0 < helpers }
    ensures idle { IsIdle lock.now.table.shared.table_id (base lock.now.table.shared.key.value) seat.new.place }
    ensures ends { RoundEnds (base lock.now.table.shared.key.value) seat.old.place.me.0 seat.new.place.me.0 result }
{
    let last_long = long.lock(rt);
    match take_job(rt, alloc, lock, seat, PAIRS) {
        Ok(Taken::Job(job)) => do_taken_job(
            rt, alloc, lock, helpers, thread, gate, long, last_long, seat, job,
        ),
        Ok(Taken::Empty) => {
            drop(last_long);
            ask_to_end(rt, lock, seat)
        }
        Ok(Taken::Stopped) => {
            drop(last_long);
            ask_to_end(rt, lock, seat)
        }
        Err(_) => {
            drop(last_long);
            give_up(rt, lock, seat, WorkStop::Memory);
            true
        }
    }
}

/// The rounds of one worker, until it has ended.
pub(crate) fn work<R: Threads + Wait + Sync>(
    rt: &R,
    alloc: Global,
    lock: &BasisLock,
    helpers: u32,
    thread: usize,
    gate: &SharedGate,
    long: &Mutex<LongJob>,
    seat: BasisSeat,
) -> BasisSeat
    requires idle { IsIdle lock.now.table.shared.table_id (base lock.now.table.shared.key.value) seat.place }
    requires fresh { IsFresh seat.worker seat.place.me.0 }
    requires known { seat.worker < (base lock.now.table.shared.key.value).workers }
    requires helpers { 0 < helpers }
    ensures idle { IsIdle lock.now.table.shared.table_id (base lock.now.table.shared.key.value) result.place }
    ensures done { HasDone seat.worker result.place.me.0 }
{
    let mut seat = seat;
    for _ in rt.forever() {
        if do_round(rt, alloc, lock, helpers, thread, gate, long, &mut seat) {
            return seat;
        }
    }
    unreachable!()
}
