// Rounds: a pair is taken, solved, and what is left handed in.
ghost use Rattle.std.specs.Prelude.{◌≡◌, ◌<◌, IfOk, IfErr, OnOk};
ghost use Rattle.basis_core.specs.Views.{IsSameRun};
ghost use Rattle.run_endings.specs.Endings.{IsClosed};
ghost use Rattle.plain_buchberger.specs.Rounds.{IsFree, IsOut, IsRunning, KeepsDegree, PairRoundEnds, RoundStops, WorkFails, StateStops};

use basis_core::{BasisState, Job, Outcome, StopReason, Taken};
use module_vectors::WorkStop;
use run_endings::copy_trail;
use s_vectors::solve;
use std::alloc::Global;

/// What a round of a run comes to.
#[derive(Clone, Copy, Debug, PartialEq, Eq)]
pub(crate) enum Round {
    /// A pair was looked at.
    Pair,
    /// No pair is left, and the worker has ended.
    Closed,
}

// The trail that the state keeps, again.
fn kept_trail(alloc: Global, state: &BasisState) -> WorkStop
    requires { KeepsDegree state.now }
    ensures { WorkFails state.now result }
{
    state.kept();
    match state.stop_reason() {
        Some(StopReason::Degree(trail)) => match copy_trail(alloc, trail) {
            Ok(copy) => WorkStop::Degree(copy),
            Err(_) => WorkStop::Memory,
        },
        Some(StopReason::Pairs | StopReason::Memory) | None => unreachable!(),
    }
}

// Stops the run by the degree; a copy of the trail is given back. Memory is not kept, as the run is then forgotten.
fn stop_work(alloc: Global, state: &mut BasisState, stop: WorkStop) -> WorkStop
    requires runs { IsRunning state.old }
    requires stop { StateStops state.old stop }
    ensures run { IsSameRun state.old state.new }
    ensures stop { WorkFails state.new result }
{
    match stop {
        WorkStop::Memory => WorkStop::Memory,
        WorkStop::Degree(trail) => {
            state.stop(0, StopReason::Degree(trail));
            kept_trail(alloc, state)
        }
    }
}

// Hands in the outcome of the job that is out.
fn hand_in(alloc: Global, state: &mut BasisState, outcome: Outcome) -> Result<(), WorkStop>
    requires { IsOut state.old outcome.job }
    ensures run { IsSameRun state.old state.new }
    ensures free { OnOk result (IsFree state.new × (state.new.taken ≡ state.old.taken)) }
    ensures stop { IfErr result (WorkFails state.new) }
{
    match state.put(alloc, outcome) {
        Ok(()) => Ok(()),
        Err((stop, _outcome)) => Err(stop_work(alloc, state, stop)),
    }
}

// Solves the job that is out, and hands in its outcome.
fn do_job(alloc: Global, state: &mut BasisState, job: Job) -> Result<(), WorkStop>
    requires { IsOut state.old job }
    ensures run { IsSameRun state.old state.new }
    ensures free { OnOk result (IsFree state.new × (state.new.taken ≡ state.old.taken)) }
    ensures stop { IfErr result (WorkFails state.new) }
{
    match solve(alloc, job) {
        Ok(outcome) => hand_in(alloc, state, outcome),
        Err((stop, _job)) => Err(stop_work(alloc, state, stop)),
    }
}

// One round: a pair is looked at, or the run ends.
fn do_round(alloc: Global, state: &mut BasisState) -> Result<Round, StopReason>
    requires { IsFree state.old }
    ensures run { IsSameRun state.old state.new }
    ensures round { IfOk result (PairRoundEnds state.old state.new) }
    ensures stop { IfErr result (RoundStops state.new) }
{
    match state.take(alloc, 0, 1) {
        Ok(Taken::Job(job)) => {
            job.kept();
            match do_job(alloc, state, job) {
                Ok(()) => {
                    state.kept();
                    Ok(Round::Pair)
                }
                Err(WorkStop::Memory) => Err(StopReason::Memory),
                Err(WorkStop::Degree(trail)) => Err(StopReason::Degree(trail)),
            }
        }
        Ok(Taken::Empty) => {
            state.end(0);
            Ok(Round::Closed)
        }
        Ok(Taken::Stopped) => Err(StopReason::Pairs),
        Err(_) => Err(StopReason::Memory),
    }
}

/// Looks at pairs until none is left. IVA chapter 2, section 10.
pub(crate) fn look_at_pairs(alloc: Global, state: &mut BasisState) -> Result<(), StopReason>
    requires { IsFree state.old }
    ensures run { IsSameRun state.old state.new }
    ensures closed { OnOk result (IsClosed state.new) }
    ensures stop { IfErr result (RoundStops state.new) }
{
    loop {
        match do_round(alloc, state) {
            Ok(Round::Pair) => {}
            Ok(Round::Closed) => return Ok(()),
            Err(stop) => return Err(stop),
        }
    }
}
