// All workers of a run: the first in the caller's thread, others in threads of their own, as many as there is work for.
ghost use Rattle.std.specs.Prelude.{◌≡◌, ◌<◌, ◌≤◌, ◌+◌};
ghost use Rattle.std.specs.Thread.{IsSync};
ghost use Rattle.ruled_lock.specs.Plays.{IsIdle};
ghost use Rattle.basis_core.specs.Logs.{base};
ghost use Rattle.f4_engine.specs.Workers.{AllWorkersDone, HasDone, IsFresh, IsFirstView};

use crate::work::{LongJob, work};
use basis_lock::{BasisLock, BasisSeat};
use std::alloc::Global;
use std::sync::{Mutex, Wait};
use std::thread::{Threads, join};
use worker_gate::SharedGate;

// The seat of the last worker.
fn part(lock: &BasisLock, seat: &mut BasisSeat, n: u32, last: u32) -> BasisSeat
    requires idle { IsIdle lock.now.table.shared.table_id (base lock.now.table.shared.key.value) seat.old.place }
    requires ready { IsFirstView n seat.old.place.me.0 }
    requires last { (last < n) × (0 < last) }
    ensures idle { IsIdle lock.now.table.shared.table_id (base lock.now.table.shared.key.value) seat.new.place
        × IsFirstView last seat.new.place.me.0 }
    ensures other { IsIdle lock.now.table.shared.table_id (base lock.now.table.shared.key.value) result.place
        × (result.worker ≡ last) × IsFresh last result.place.me.0 }
{
    lock.split(seat, last)
}

// The seat after the last worker has come back.
fn unite(lock: &BasisLock, seat: BasisSeat, other: BasisSeat, n: u32, last: u32) -> BasisSeat
    requires idle { IsIdle lock.now.table.shared.table_id (base lock.now.table.shared.key.value) seat.place
        × IsIdle lock.now.table.shared.table_id (base lock.now.table.shared.key.value) other.place }
    requires done { AllWorkersDone last seat.place.me.0 × HasDone last other.place.me.0 }
    requires last { last + 1 ≡ n }
    ensures idle { IsIdle lock.now.table.shared.table_id (base lock.now.table.shared.key.value) result.place }
    ensures done { AllWorkersDone n result.place.me.0 }
{
    let mut seat = seat;
    lock.join(&mut seat, other);
    seat
}

// The first worker, where it is alone.
fn work_alone<R: Threads + Wait + Sync>(
    rt: &R,
    alloc: Global,
    lock: &BasisLock,
    helpers: u32,
    thread: usize,
    gate: &SharedGate,
    long: &Mutex<LongJob>,
    seat: BasisSeat,
    n: u32,
) -> BasisSeat
    requires idle { IsIdle lock.now.table.shared.table_id (base lock.now.table.shared.key.value) seat.place }
    requires ready { IsFirstView n seat.place.me.0 × (n ≤ 1) }
    requires known { 0 < (base lock.now.table.shared.key.value).workers }
    requires helpers { 0 < helpers }
    ensures idle { IsIdle lock.now.table.shared.table_id (base lock.now.table.shared.key.value) result.place }
    ensures done { AllWorkersDone n result.place.me.0 }
{
    work(rt, alloc, lock, helpers, thread, gate, long, seat)
}

// The last worker, after those before it have ended.
fn work_late<R: Threads + Wait + Sync>(
    rt: &R,
    alloc: Global,
    lock: &BasisLock,
    helpers: u32,
    thread: usize,
    gate: &SharedGate,
    long: &Mutex<LongJob>,
    seat: BasisSeat,
    other: BasisSeat,
    n: u32,
    last: u32,
) -> BasisSeat
    requires idle { IsIdle lock.now.table.shared.table_id (base lock.now.table.shared.key.value) seat.place
        × IsIdle lock.now.table.shared.table_id (base lock.now.table.shared.key.value) other.place }
    requires done { AllWorkersDone last seat.place.me.0 }
    requires fresh { (other.worker ≡ last) × IsFresh last other.place.me.0 }
    requires last { (last + 1 ≡ n) × (last < (base lock.now.table.shared.key.value).workers) }
    requires helpers { 0 < helpers }
    ensures idle { IsIdle lock.now.table.shared.table_id (base lock.now.table.shared.key.value) result.place }
    ensures done { AllWorkersDone n result.place.me.0 }
{
    let worked = work(rt, alloc, lock, helpers, thread, gate, long, other);
    unite(lock, seat, worked, n, last)
}

/// The workers below n, of which the seat is the first. Those below `threads` work side by side, the others after them, one
/// after another in the caller's thread.
pub(crate) fn work_all<R: Threads + Wait + Sync>(
    rt: &R,
    alloc: Global,
    lock: &BasisLock,
    helpers: u32,
    thread: usize,
    gate: &SharedGate,
    long: &Mutex<LongJob>,
    mut seat: BasisSeat,
    n: u32,
    threads: u32,
) -> BasisSeat
    requires idle { IsIdle lock.now.table.shared.table_id (base lock.now.table.shared.key.value) seat.place }
    requires ready { IsFirstView n seat.place.me.0 }
    requires known { (n ≤ (base lock.now.table.shared.key.value).workers) × (0 < (base lock.now.table.shared.key.value).workers) }
    requires helpers { 0 < helpers }
    ensures idle { IsIdle lock.now.table.shared.table_id (base lock.now.table.shared.key.value) result.place }
    ensures done { AllWorkersDone n result.place.me.0 }
{
    if n <= 1 {
        return work_alone(rt, alloc, lock, helpers, thread, gate, long, seat, n);
    }
    let last = n - 1;
    let other = part(lock, &mut seat, n, last);
    if threads <= last {
        let seat = work_all(
            rt, alloc, lock, helpers, thread, gate, long, seat, last, threads,
        );
        return work_late(
            rt, alloc, lock, helpers, thread, gate, long, seat, other, n, last,
        );
    }
    let (theirs, ours) = join(
        rt,
        || -> BasisSeat
            requires { IsSync R.row × IsIdle lock.now.table.shared.table_id (base lock.now.table.shared.key.value) other.place
                × IsFresh other.worker other.place.me.0 × (other.worker < (base lock.now.table.shared.key.value).workers)
                × (0 < helpers) }
            ensures { IsIdle lock.entry.now.table.shared.table_id (base lock.entry.now.table.shared.key.value) result.place
                × HasDone other.worker result.place.me.0 }
        { work(rt, alloc, lock, helpers, thread, gate, long, other) },
        || -> BasisSeat
            requires { IsSync R.row × IsIdle lock.now.table.shared.table_id (base lock.now.table.shared.key.value) seat.place
                × IsFirstView last seat.place.me.0 × (last ≤ (base lock.now.table.shared.key.value).workers)
                × (0 < (base lock.now.table.shared.key.value).workers) × (0 < helpers) }
            ensures { IsIdle lock.entry.now.table.shared.table_id (base lock.entry.now.table.shared.key.value) result.place
                × AllWorkersDone last result.place.me.0 }
        {
            work_all(
                rt, alloc, lock, helpers, thread, gate, long, seat, last, threads,
            )
        },
    );
    unite(lock, ours, theirs, n, last)
}
