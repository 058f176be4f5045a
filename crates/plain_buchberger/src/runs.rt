// A run of the engine.
ghost use Rattle.std.specs.Prelude.{ℕ, IfOk, IfErr};
ghost use Rattle.formal_sums.specs.FormalSums.{Each};
ghost use Rattle.term_lists.specs.Rings.{ring_comparison, variables};
ghost use Rattle.term_lists.specs.Vectors.{AreVectorsOver, HasPositions};
ghost use Rattle.queue_updates.specs.declared.Update.{Update};
ghost use Rattle.basis_core.specs.Answers.{BeginningStops, IsRunOf};
ghost use Rattle.groebner_iface.specs.Runs.{IsReducedBasisOf};
ghost use Rattle.run_endings.specs.Stops.{IsRunBy, RunStops, shared_on};
ghost use Rattle.plain_buchberger.specs.Rounds.{IsFree, RoundStops};
ghost use Rattle.plain_buchberger.specs.Runs.{StopLeaves};

use crate::rounds::look_at_pairs;
use basis_core::{BasisState, StopReason};
use module_vectors::{Ring, VectList, WorkStop};
use queue_updates::Update;
use run_endings::{RunStop, close};
use std::alloc::Global;
use std::thread::Threads;

// The run at its beginning, with one worker.
fn begin(
    alloc: Global,
    pairs: u64,
    update: Update,
    ring: &Ring,
    rank: u128,
    list: &VectList,
) -> Result<BasisState, WorkStop>
    requires vectors { AreVectorsOver ring.now (ring_comparison ring.now) list.now }
    requires positions { Each (HasPositions rank) list.now }
    ensures run { IfOk result (IsRunOf (shared_on ring.now rank list.now) pairs 1 update) }
    ensures free { IfOk result IsFree }
    ensures stop { IfErr result (BeginningStops (variables ring.now) (shared_on ring.now rank list.now)) }
{
    let ring = ring.try_copy(alloc)?;
    let generators = VectList::copy_of(alloc, list)?;
    BasisState::begin(alloc, ring, rank, generators, pairs, 1, update)
}

// What is kept of a run that its rounds stopped.
fn stop_of_rounds(state: BasisState, stop: StopReason) -> RunStop
    requires { RoundStops state stop }
    ensures stop { (pairs workers : ℕ) (update : Update) → IsRunBy pairs workers update state → RunStops pairs workers update state.shared result }
    ensures left { StopLeaves result }
{
    match stop {
        StopReason::Pairs => RunStop::Pairs(state),
        StopReason::Memory => RunStop::Memory,
        StopReason::Degree(trail) => RunStop::Degree(state, trail),
    }
}

/// The reduced basis of the list, by Buchberger's algorithm with at most so many pairs. IVA chapter 2, section 10.
pub(crate) fn run<R: Threads + Sync>(
    rt: &R,
    alloc: Global,
    pairs: u64,
    update: Update,
    ring: &Ring,
    rank: u128,
    list: &VectList,
) -> Result<VectList, RunStop>
    requires vectors { AreVectorsOver ring.now (ring_comparison ring.now) list.now }
    requires positions { Each (HasPositions rank) list.now }
    ensures basis { IfOk result (IsReducedBasisOf ring.now rank list.now) }
    ensures stop { IfErr result (RunStops pairs 1 update (shared_on ring.now rank list.now)) }
    ensures left { IfErr result StopLeaves }
{
    let mut state = match begin(alloc, pairs, update, ring, rank, list) {
        Ok(state) => state,
        Err(WorkStop::Memory) => return Err(RunStop::Memory),
        Err(WorkStop::Degree(trail)) => return Err(RunStop::Beginning(trail)),
    };
    match look_at_pairs(alloc, &mut state) {
        Ok(()) => match close(rt, alloc, state) {
            Ok((basis, _state)) => Ok(basis),
            Err(stop) => Err(stop),
        },
        Err(stop) => Err(stop_of_rounds(state, stop)),
    }
}
