// The engine.
ghost use Rattle.std.specs.Prelude.{◌≡◌, ◌<◌, IfErr, IfOk, IfSome, MatchOption, None, OnOk, Some};
ghost use Rattle.formal_sums.specs.FormalSums.{Each};
ghost use Rattle.term_lists.specs.Rings.{ring_comparison};
ghost use Rattle.term_lists.specs.Vectors.{AreVectorsOver, HasPositions};
ghost use Rattle.basis_core.specs.Members.{Shared};
ghost use Rattle.groebner_iface.specs.Runs.{IsReducedBasisOf, StoppedRun};
ghost use Rattle.risen_counts.specs.Counts.{next_count};
ghost use Rattle.run_endings.specs.Stops.{IsRunBy, IsStop, OfState, RunStops, shared_on, stopped_run};
ghost use Rattle.f4_engine.specs.Engines.{KeepsAnswered, CountsF4Stop, F4Stops, IsKeptByF4, f4_with_run};
ghost use Rattle.f4_engine.specs.Runs.{IsFinished, IsWorkedByAll};

use crate::runs::run;
use basis_core::BasisState;
use groebner_iface::{Groebner, Stop};
use module_vectors::{KeptTrail, NoMemory, Ring, VectList};
use queue_updates::Update;
use run_endings::RunStop;
use std::alloc::Global;
use std::marker::Model;
use std::mem::replace;
use std::sync::Wait;
use std::thread::Threads;
use worker_gate::{Gate, SharedGate};

/// Buchberger's algorithm by running workers, each of which solves its jobs with helpers. The last run that stopped early is
/// kept: by its budget of pairs, its state; by a degree above 65,535, a trail and its state, or the trail alone where the
/// beginning of the run met it. So is the state of the last run that answered.
pub struct F4Engine {
    pairs: u64,
    workers: u32,
    helpers: u32,
    update: Update,
    thread: usize,
    gate: SharedGate,
    runs: u64,
    stops: u64,
    state: Option<BasisState>,
    trail: Option<KeptTrail>,
    last: Option<BasisState>,
}

// By hand, so that each drop of one is a call.
impl Drop for F4Engine {
    fn drop(self) {
        let F4Engine {
            pairs: _,
            workers: _,
            helpers: _,
            update: _,
            thread: _,
            gate: _,
            runs: _,
            stops: _,
            state: _,
            trail: _,
            last: _,
        } = self;
    }
}

impl Model for F4Engine {
    ghost use Rattle.f4_engine.specs.Engines.{F4Shown, IsKeptByF4};

    ghost Value = { F4Shown };

    ghost view = { λ e. record {
      pairs = e.pairs;
      workers = e.workers;
      helpers = e.helpers;
      update = e.update;
      runs = e.runs;
      stops = e.stops;
      state = e.state;
      trail = e.trail;
      last = e.last;
    } };

    ghost invariant = { λ e. IsKeptByF4 (record {
      pairs = e.pairs;
      workers = e.workers;
      helpers = e.helpers;
      update = e.update;
      runs = e.runs;
      stops = e.stops;
      state = e.state;
      trail = e.trail;
      last = e.last;
    }) };
}

impl F4Engine {
    /// An engine whose runs take at most so many pairs each, by so many workers, each of which solves its jobs with so many
    /// helpers: one in its own thread, and one more for each `thread` additions that a pass over rows makes. This is what its runs
    /// queue as members come. The workers pass this gate with each job, and the helpers with each row whose lead column they claim.
    pub fn new(
        pairs: u64,
        workers: u32,
        helpers: u32,
        update: Update,
        thread: usize,
        gate: SharedGate,
    ) -> F4Engine
        requires workers { 0 < workers }
        requires helpers { 0 < helpers }
        ensures pairs { result.pairs ≡ pairs }
        ensures workers { result.workers ≡ workers }
        ensures helpers { result.helpers ≡ helpers }
        ensures update { result.update ≡ update }
        ensures runs { result.runs ≡ 0 }
        ensures stops { result.stops ≡ 0 }
        ensures state { result.state ≡ None }
        ensures trail { result.trail ≡ None }
        ensures last { result.last ≡ None }
    {
        F4Engine {
            pairs,
            workers,
            helpers,
            update,
            thread,
            gate,
            runs: 0,
            stops: 0,
            state: None,
            trail: None,
            last: None,
        }
    }

    /// The most pairs that a run takes.
    pub fn pairs(&self) -> u64
        ensures { result ≡ self.now.pairs }
    {
        self.pairs
    }

    /// The number of workers.
    pub fn workers(&self) -> u32
        ensures workers { result ≡ self.now.workers }
        ensures some { 0 < result }
    {
        self.workers
    }

    /// The number of helpers that reduce the matrix of one job.
    pub fn helpers(&self) -> u32
        ensures helpers { result ≡ self.now.helpers }
        ensures some { 0 < result }
    {
        self.helpers
    }

    /// What its runs queue as members come.
    pub fn update(&self) -> Update
        ensures { result ≡ self.now.update }
    {
        self.update
    }

    /// How many additions of a pass are worth a helper more.
    pub fn thread(&self) -> usize {
        self.thread
    }

    /// The gate that its workers and their helpers pass.
    pub fn gate(&self) -> &SharedGate {
        &self.gate
    }

    /// How often it ran, whatever the answer, up to 2^64 - 1.
    pub fn runs(&self) -> u64
        ensures { result ≡ self.now.runs }
    {
        self.runs
    }

    /// How many runs stopped early, up to 2^64 - 1.
    pub fn stops(&self) -> u64
        ensures { result ≡ self.now.stops }
    {
        self.stops
    }

    /// The state of the last run that answered a basis, if there was one.
    pub fn last_run(&self) -> Option<&BasisState>
        ensures state { MatchOption result (self.now.last ≡ None) (λ s. self.now.last ≡ Some s.now) }
        ensures kept { IsKeptByF4 self.now }
    {
        self.last.as_ref()
    }

    /// What is kept of the last run that stopped early: its state unless its beginning stopped it, and a trail where a
    /// degree stopped it; neither before a run has stopped.
    pub fn last_stop(&self) -> (Option<&BasisState>, Option<&KeptTrail>)
        ensures state { MatchOption result.0 (self.now.state ≡ None) (λ s. self.now.state ≡ Some s.now) }
        ensures trail { MatchOption result.1 (self.now.trail ≡ None) (λ t. self.now.trail ≡ Some t.now) }
        ensures kept { IsKeptByF4 self.now }
    {
        (self.state.as_ref(), self.trail.as_ref())
    }

    /// The same, without taking memory.
    pub fn into_stop(self) -> (Option<BasisState>, Option<KeptTrail>)
        ensures state { result.0 ≡ self.state }
        ensures trail { result.1 ≡ self.trail }
        ensures kept { IsKeptByF4 self }
    {
        let F4Engine {
            pairs: _,
            workers: _,
            helpers: _,
            update: _,
            thread: _,
            gate: _,
            runs: _,
            stops: _,
            state,
            trail,
            last: _,
        } = self;
        (state, trail)
    }

    // One with the same settings, which has not run.
    fn another(&self) -> F4Engine {
        F4Engine::new(
            self.pairs(),
            self.workers(),
            self.helpers(),
            self.update(),
            self.thread(),
            self.gate.shared(),
        )
    }

    // Counts a run.
    fn count_run(&mut self)
        ensures { self.new ≡ f4_with_run self.old }
    {
        self.runs = self.runs.saturating_add(1);
    }

    // Counts a run that stopped, and keeps this of it.
    fn keep(&mut self, state: Option<BasisState>, trail: Option<KeptTrail>)
        requires some { (run : StoppedRun) × (stopped_run state trail ≡ Some run) }
        requires stop { IsStop self.old.pairs self.old.workers self.old.update state trail }
        requires by_all { IfSome state IsWorkedByAll }
        ensures counts { CountsF4Stop self.old self.new }
        ensures state { self.new.state ≡ state }
        ensures trail { self.new.trail ≡ trail }
    {
        self.stops = self.stops.saturating_add(1);
        drop(replace(&mut self.state, state));
        drop(replace(&mut self.trail, trail));
    }

    // Counts and keeps a run that stopped, unless memory was wanting.
    fn keep_stop(&mut self, stop: RunStop) -> Stop
        requires stop { (shared : Shared) × RunStops self.old.pairs self.old.workers self.old.update shared stop }
        requires by_all { OfState IsWorkedByAll stop }
        ensures stop { (shared : Shared) → RunStops self.old.pairs self.old.workers self.old.update shared stop → F4Stops self.old self.new shared result }
        ensures runs { self.new.runs ≡ self.old.runs }
    {
        match stop {
            RunStop::Memory => Stop::Memory,
            RunStop::Pairs(state) => {
                self.keep(Some(state), None);
                Stop::Pairs
            }
            RunStop::Beginning(trail) => {
                self.keep(None, Some(trail));
                Stop::Degree
            }
            RunStop::Degree(state, trail) => {
                self.keep(Some(state), Some(trail));
                Stop::Degree
            }
        }
    }

    // Keeps the state of a run that answered.
    fn keep_last(&mut self, state: BasisState)
        requires by { IsRunBy self.old.pairs self.old.workers self.old.update state × IsWorkedByAll state }
        requires finished { IsFinished state }
        ensures { KeepsAnswered self.old self.new state.shared }
    {
        drop(replace(&mut self.last, Some(state)));
    }

    /// The reduced Gröbner basis of the list in a free module of this rank, by descending leads in the ring's own order. It
    /// does what the trait's `reduced` does, and more is said of it: the state of a run that answers is kept.
    pub fn run<R: Threads + Wait + Sync>(
        &mut self,
        rt: &R,
        alloc: Global,
        ring: &Ring,
        rank: u128,
        list: &VectList,
    ) -> Result<VectList, Stop>
        requires vectors { AreVectorsOver ring.now (ring_comparison ring.now) list.now }
        requires positions { Each (HasPositions rank) list.now }
        ensures basis { IfOk result (IsReducedBasisOf ring.now rank list.now) }
        ensures answers { OnOk result (KeepsAnswered (f4_with_run self.old) self.new (shared_on ring.now rank list.now)) }
        ensures stop { IfErr result (F4Stops (f4_with_run self.old) self.new (shared_on ring.now rank list.now)) }
        ensures run { self.new.runs ≡ next_count self.old.runs }
    {
        self.count_run();
        match run(
            rt,
            alloc,
            self.pairs,
            self.workers,
            self.helpers,
            self.update,
            self.thread,
            &self.gate,
            ring,
            rank,
            list,
        ) {
            Ok((basis, state)) => {
                self.keep_last(state);
                Ok(basis)
            }
            Err(stop) => Err(self.keep_stop(stop)),
        }
    }
}

impl Groebner for F4Engine {
    ghost use Rattle.std.specs.Prelude.{[], ◌∷◌};
    ghost use Rattle.run_endings.specs.Stops.{number_of_update, stopped_run};

    ghost stops = { λ e. e.stops };

    ghost runs = { λ e. e.runs };

    ghost stopped = { λ e. stopped_run e.state e.trail };

    ghost settings = { λ e. e.pairs ∷ e.workers ∷ e.helpers ∷ number_of_update e.update ∷ [] };

    fn reduced<R: Threads + Wait + Sync>(
        &mut self,
        rt: &R,
        alloc: Global,
        ring: &Ring,
        rank: u128,
        list: &VectList,
    ) -> Result<VectList, Stop> {
        self.run(rt, alloc, ring, rank, list)
    }

    fn attempted<R: Threads + Wait + Sync>(
        &self,
        rt: &R,
        alloc: Global,
        ring: &Ring,
        rank: u128,
        list: &VectList,
    ) -> Result<Option<VectList>, NoMemory> {
        let mut engine = self.another();
        match engine.run(rt, alloc, ring, rank, list) {
            Ok(basis) => Ok(Some(basis)),
            Err(Stop::Memory) => Err(NoMemory),
            Err(Stop::Pairs | Stop::Degree) => Ok(None),
        }
    }
}
