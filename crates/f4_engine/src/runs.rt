// A run of the engine.
ghost use Rattle.std.specs.Prelude.{◌≡◌, ◌<◌, IfOk, IfErr, IfSome};
ghost use Rattle.formal_sums.specs.FormalSums.{Each};
ghost use Rattle.term_lists.specs.Rings.{ring_comparison, variables};
ghost use Rattle.term_lists.specs.Vectors.{AreVectorsOver, HasPositions};
ghost use Rattle.basis_core.specs.Answers.{BeginningStops, IsRunOf};
ghost use Rattle.groebner_iface.specs.Runs.{IsReducedBasisOf};
ghost use Rattle.run_endings.specs.Stops.{IsRunBy, OfState, RunStops, shared_on};
ghost use Rattle.f4_engine.specs.Runs.{EndsAs, IsFinished, IsLeft, IsFreshState, IsWorkedByAll};

use crate::work::LongJob;
use crate::workers::work_all;
use basis_core::{BasisState, StopReason};
use module_vectors::{KeptTrail, Ring, Vect, VectList, WorkStop};
use monomial_orders::Order;
use queue_updates::Update;
use ruled_lock::Lock;
use run_endings::{RunStop, close, copy_trail};
use std::alloc::Global;
use std::sync::{Mutex, Wait};
use std::thread::Threads;
use worker_gate::SharedGate;

// The run at its beginning.
fn begin(
    alloc: Global,
    pairs: u64,
    workers: u32,
    update: Update,
    ring: &Ring,
    rank: u128,
    list: &VectList,
) -> Result<BasisState, WorkStop>
    requires workers { 0 < workers }
    requires vectors { AreVectorsOver ring.now (ring_comparison ring.now) list.now }
    requires positions { Each (HasPositions rank) list.now }
    ensures run { IfOk result (IsRunOf (shared_on ring.now rank list.now) pairs workers update) }
    ensures new { IfOk result IsFreshState }
    ensures stop { IfErr result (BeginningStops (variables ring.now) (shared_on ring.now rank list.now)) }
{
    let ring = ring.try_copy(alloc)?;
    let generators = VectList::copy_of(alloc, list)?;
    BasisState::begin(alloc, ring, rank, generators, pairs, workers, update)
}

// Have all terms of the vector one degree?
fn is_homogeneous(v: &Vect) -> bool {
    let Some(lead) = v.lead() else {
        return true;
    };
    let degree = lead.key.monomial.degree();
    for term in v.terms() {
        if term.0.monomial.degree() != degree {
            return false;
        }
    }
    true
}

// Do the pairs come by degree, whoever takes them? In another order than the graded one the lead of a vector tells little of its
// tail where the list is not homogeneous: what a run makes, and how much of it, hangs on who takes when.
fn goes_by_degree(state: &BasisState) -> bool {
    if state.members().ring().order == Order::Grevlex {
        return true;
    }
    for v in state.generators().as_slice() {
        if !is_homogeneous(v) {
            return false;
        }
    }
    true
}

// How many workers go side by side: as many as have a pair to begin with, and at least one. Where pairs do not come by degree the
// workers go one after another, so that such a run is the same each time.
fn threads_for(state: &BasisState) -> u32 {
    if !goes_by_degree(state) {
        return 1;
    }
    let pairs = u32::try_from(state.queued().len()).unwrap_or(u32::MAX);
    state.workers().min(pairs).max(1)
}

// The state after all workers have ended; None where there was no memory for the lock.
fn let_work<R: Threads + Wait + Sync>(
    rt: &R,
    alloc: Global,
    helpers: u32,
    thread: usize,
    gate: &SharedGate,
    state: BasisState,
) -> Option<BasisState>
    requires new { IsFreshState state }
    requires helpers { 0 < helpers }
    ensures { IfSome result (IsLeft state) }
{
    let workers = state.workers();
    let threads = threads_for(&state);
    match Lock::new(alloc, state) {
        Ok((lock, seat)) => {
            let long = Mutex::new(LongJob {
                degree: 0,
                gave_rows: true,
            });
            let seat = work_all(
                rt, alloc, &lock, helpers, thread, gate, &long, seat, workers, threads,
            );
            let state = lock.close(seat);
            state.kept();
            Some(state)
        }
        Err(_state) => None,
    }
}

// How a run ended, by the stop that its state keeps: none, or this one with a copy of its trail.
#[derive(Drop)]
enum Ended {
    Finished,
    Pairs,
    Memory,
    Degree(KeptTrail),
}

fn how_ended(alloc: Global, state: &BasisState) -> Ended
    ensures { EndsAs state.now result }
{
    state.kept();
    match state.stop_reason() {
        None => Ended::Finished,
        Some(StopReason::Pairs) => Ended::Pairs,
        Some(StopReason::Memory) => Ended::Memory,
        Some(StopReason::Degree(trail)) => match copy_trail(alloc, trail) {
            Ok(copy) => Ended::Degree(copy),
            Err(_) => Ended::Memory,
        },
    }
}

/// The reduced basis of the list, by so many workers with at most so many pairs, each job with so many helpers. IVA chapter 2,
/// section 10.
pub(crate) fn run<R: Threads + Wait + Sync>(
    rt: &R,
    alloc: Global,
    pairs: u64,
    workers: u32,
    helpers: u32,
    update: Update,
    thread: usize,
    gate: &SharedGate,
    ring: &Ring,
    rank: u128,
    list: &VectList,
) -> Result<(VectList, BasisState), RunStop>
    requires workers { 0 < workers }
    requires helpers { 0 < helpers }
    requires vectors { AreVectorsOver ring.now (ring_comparison ring.now) list.now }
    requires positions { Each (HasPositions rank) list.now }
    ensures basis { IfOk result (λ t. IsReducedBasisOf ring.now rank list.now t.0) }
    ensures shared { IfOk result (λ t. t.1.shared ≡ shared_on ring.now rank list.now) }
    ensures finished { IfOk result (λ t. IsRunBy pairs workers update t.1 × IsWorkedByAll t.1 × IsFinished t.1) }
    ensures stop { IfErr result (RunStops pairs workers update (shared_on ring.now rank list.now)) }
    ensures stopped { IfErr result (OfState IsWorkedByAll) }
{
    let state = match begin(alloc, pairs, workers, update, ring, rank, list) {
        Ok(state) => state,
        Err(WorkStop::Memory) => return Err(RunStop::Memory),
        Err(WorkStop::Degree(trail)) => return Err(RunStop::Beginning(trail)),
    };
    let Some(state) = let_work(rt, alloc, helpers, thread, gate, state) else {
        return Err(RunStop::Memory);
    };
    match how_ended(alloc, &state) {
        Ended::Finished => close(rt, alloc, state),
        Ended::Pairs => Err(RunStop::Pairs(state)),
        Ended::Memory => Err(RunStop::Memory),
        Ended::Degree(trail) => Err(RunStop::Degree(state, trail)),
    }
}
