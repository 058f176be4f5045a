// A state, and the outcomes that its workers have not handed in yet.
ghost use Rattle.std.specs.Prelude.{ℕ, ◌≡◌, ◌<◌, None, Option, Some, IfOk, get_or};
ghost use Rattle.basis_steps.specs.Histories.{HasStopped};
ghost use Rattle.basis_steps.specs.Steps.{MayEnd, MayTake};
ghost use Rattle.basis_core.specs.Outcomes.{OutcomeShown};
ghost use Rattle.basis_core.specs.Views.{run_of, state_of, variables_of};
ghost use Rattle.core_histories.specs.Waiting.{AreWaiting};

use crate::described::write_stop;
use crate::desk::Input;
use basis_core::{BasisState, Ending, Job, Outcome, StopReason, Taken, pending_outcomes};
use check_texts::{NoValue, Sheet, ring_of, vectors_of};
use module_vectors::{NoMemory, WorkStop};
use std::alloc::Global;
use std::marker::Model;
use std::thread::Threads;
use worker_gate::SharedGate;

/// What became of a turn.
#[derive(Clone, Copy)]
pub enum Turn {
    /// The event may not be.
    Illegal,
    NoMemory,
    /// A job was taken, and solved.
    Job,
    Empty,
    Stopped,
    /// An outcome was handed in, or a stop was reported.
    Done,
    /// A job that was taken was not solved, or an outcome was refused.
    Failed,
    Ended,
    MoreWork,
}

// Puts an outcome at a worker's place, if it has one.
fn put_aside(waiting: &mut Vec<Option<Outcome>>, worker: u32, outcome: Outcome)
    requires { get_or waiting.old.items worker None ≡ None }
    ensures here { (o : OutcomeShown) → get_or waiting.new.items worker None ≡ Some o → o ≡ outcome }
    ensures others { (v : ℕ) → (v ≡ worker → ⊥) → get_or waiting.new.items v None ≡ get_or waiting.old.items v None }
{
    if (worker as usize) < waiting.len() {
        waiting[worker as usize] = Some(outcome);
    }
}

// Takes away what waits at a worker's place.
fn take_back(waiting: &mut Vec<Option<Outcome>>, worker: u32) -> Option<Outcome>
    ensures value { result ≡ get_or waiting.old.items worker None }
    ensures here { get_or waiting.new.items worker None ≡ None }
    ensures others { (v : ℕ) → (v ≡ worker → ⊥) → get_or waiting.new.items v None ≡ get_or waiting.old.items v None }
{
    if (worker as usize) < waiting.len() {
        waiting[worker as usize].take()
    } else {
        None
    }
}

// Solves a job by its matrix, with so many helpers, or by plain division.
fn solve<R: Threads + Sync>(
    rt: &R,
    alloc: Global,
    helpers: Option<u32>,
    job: Job,
) -> Result<Outcome, (WorkStop, Job)>
    ensures job { IfOk result (λ o. o.job ≡ job) }
{
    match helpers {
        Some(helpers) => f4_job::solve(rt, alloc, job, helpers.max(1), 0, &SharedGate::open()),
        None => s_vectors::solve(alloc, job),
    }
}

// A Take, whose job is solved at once.
fn take<R: Threads + Sync>(
    rt: &R,
    alloc: Global,
    state: &mut BasisState,
    waiting: &mut Vec<Option<Outcome>>,
    failure: &mut Option<WorkStop>,
    helpers: Option<u32>,
    worker: u32,
    most: u64,
) -> Turn
    requires may { let n = variables_of state.old in MayTake (run_of n state.old) (state_of n state.old) worker most }
    requires waiting { AreWaiting state.old waiting.old.items }
    ensures { AreWaiting state.new waiting.new.items }
{
    pending_outcomes();
    drop(take_back(waiting, worker));
    let job = match state.take(alloc, worker, most) {
        Ok(Taken::Job(job)) => job,
        Ok(Taken::Empty) => return Turn::Empty,
        Ok(Taken::Stopped) => return Turn::Stopped,
        Err(NoMemory) => return Turn::NoMemory,
    };
    match solve(rt, alloc, helpers, job) {
        Ok(outcome) => {
            put_aside(waiting, worker, outcome);
            Turn::Job
        }
        Err((stop, _)) => {
            *failure = Some(stop);
            Turn::Failed
        }
    }
}

// A Put of what waits at the worker's place.
fn put(
    alloc: Global,
    state: &mut BasisState,
    waiting: &mut Vec<Option<Outcome>>,
    failure: &mut Option<WorkStop>,
    worker: u32,
) -> Turn
    requires { AreWaiting state.old waiting.old.items }
    ensures { AreWaiting state.new waiting.new.items }
{
    pending_outcomes();
    let Some(outcome) = take_back(waiting, worker) else {
        return Turn::Illegal;
    };
    match state.put(alloc, outcome) {
        Ok(()) => Turn::Done,
        Err((stop, _)) => {
            *failure = Some(stop);
            Turn::Failed
        }
    }
}

// An End. Where the worker stopped with an outcome, that is lost.
fn end(state: &mut BasisState, waiting: &mut Vec<Option<Outcome>>, worker: u32) -> Turn
    requires may { let n = variables_of state.old in MayEnd (run_of n state.old) (state_of n state.old) worker }
    requires waiting { AreWaiting state.old waiting.old.items }
    ensures { AreWaiting state.new waiting.new.items }
{
    pending_outcomes();
    drop(take_back(waiting, worker));
    match state.end(worker) {
        Ending::Ended => Turn::Ended,
        Ending::MoreWork => Turn::MoreWork,
    }
}

// A Stop for want of memory, whatever waits.
fn stop(state: &mut BasisState, waiting: &mut Vec<Option<Outcome>>, worker: u32)
    requires known { worker < state.old.workers }
    requires first { let n = variables_of state.old in HasStopped worker (state_of n state.old).history → ⊥ }
    requires waiting { AreWaiting state.old waiting.old.items }
    ensures { AreWaiting state.new waiting.new.items }
{
    pending_outcomes();
    let _waiting = waiting;
    state.stop(worker, StopReason::Memory);
}

// No outcome waits at the places of so many workers.
fn no_outcomes(alloc: Global, workers: u32) -> Result<Vec<Option<Outcome>>, NoMemory>
    ensures { IfOk result (λ waiting. (w : ℕ) → get_or waiting.items w None ≡ None) }
{
    let mut waiting = Vec::new(alloc);
    for _ in 0..workers {
        waiting.push(None)?;
    }
    Ok(waiting)
}

/// A state, and for each worker the outcome of its job until it is handed in.
#[derive(Drop)]
pub struct Play {
    state: BasisState,
    waiting: Vec<Option<Outcome>>,
    failure: Option<WorkStop>,
    helpers: Option<u32>,
}

impl Model for Play {
    ghost use Rattle.core_histories.specs.Waiting.{AreWaiting, PlayShown};

    ghost Value = { PlayShown };

    ghost view = { λ p. record { state = p.state; waiting = p.waiting.items } };

    ghost invariant = { λ p. AreWaiting p.state p.waiting.items };
}

impl Play {
    /// A state in which nobody has a job. Jobs are solved by their matrices, with so many helpers, or by plain division.
    pub fn new(alloc: Global, state: BasisState, helpers: Option<u32>) -> Result<Play, NoMemory> {
        let waiting = no_outcomes(alloc, state.workers())?;
        Ok(Play {
            state,
            waiting,
            failure: None,
            helpers,
        })
    }

    /// The state.
    pub fn state(&self) -> &BasisState {
        &self.state
    }

    /// The outcome that the worker has not handed in.
    pub fn outcome(&self, worker: u32) -> Option<&Outcome> {
        match self.waiting.get(worker as usize) {
            Some(place) => place.as_ref(),
            None => None,
        }
    }

    /// Why work failed last.
    pub fn failure(&self) -> Option<&WorkStop> {
        self.failure.as_ref()
    }

    /// The worker asks for a job, and solves it.
    pub fn take<R: Threads + Sync>(
        &mut self,
        rt: &R,
        alloc: Global,
        worker: u32,
        most: u64,
    ) -> Turn {
        if self.state.may_take(worker, most) {
            take(
                rt,
                alloc,
                &mut self.state,
                &mut self.waiting,
                &mut self.failure,
                self.helpers,
                worker,
                most,
            )
        } else {
            Turn::Illegal
        }
    }

    /// The worker hands in its outcome.
    pub fn put(&mut self, alloc: Global, worker: u32) -> Turn {
        put(
            alloc,
            &mut self.state,
            &mut self.waiting,
            &mut self.failure,
            worker,
        )
    }

    /// The worker ends.
    pub fn end(&mut self, worker: u32) -> Turn {
        if self.state.may_end(worker) {
            end(&mut self.state, &mut self.waiting, worker)
        } else {
            Turn::Illegal
        }
    }

    /// The worker reports that there is no memory.
    pub fn stop(&mut self, worker: u32) -> Turn {
        if self.state.may_stop(worker) {
            stop(&mut self.state, &mut self.waiting, worker);
            Turn::Done
        } else {
            Turn::Illegal
        }
    }
}

// A run's beginning, if the texts are those of a ring and of its vectors.
fn begun(
    alloc: Global,
    input: &Input,
    budget: u64,
    workers: u32,
) -> Result<Result<BasisState, WorkStop>, NoValue> {
    if workers == 0 {
        return Err(NoValue);
    }
    let ring = ring_of(alloc, &input.ring)?;
    let list = vectors_of(alloc, &ring, input.rank, &input.generators)?;
    Ok(BasisState::begin(alloc, ring, input.rank, list, budget, workers, input.update))
}

/// A run at its beginning; where there is none it writes why.
pub fn begin(
    alloc: Global,
    sheet: &mut Sheet,
    input: &Input,
    budget: u64,
    workers: u32,
    helpers: Option<u32>,
) -> Option<Play> {
    match begun(alloc, input, budget, workers) {
        Ok(Ok(state)) => Play::new(alloc, state, helpers).ok(),
        Ok(Err(stop)) => {
            write_stop(sheet, &stop);
            sheet.text("\n");
            None
        }
        Err(NoValue) => {
            sheet.text("no run\n");
            None
        }
    }
}
