// The engine.
ghost use Rattle.std.specs.Prelude.{◌≡◌, IfErr, IfOk, MatchOption, None, OnOk, Some};
ghost use Rattle.formal_sums.specs.FormalSums.{Each};
ghost use Rattle.term_lists.specs.Rings.{ring_comparison};
ghost use Rattle.term_lists.specs.Vectors.{AreVectorsOver, HasPositions};
ghost use Rattle.basis_core.specs.Members.{Shared};
ghost use Rattle.groebner_iface.specs.Runs.{IsReducedBasisOf, StoppedRun};
ghost use Rattle.risen_counts.specs.Counts.{next_count};
ghost use Rattle.plain_buchberger.specs.Engines.{CountsPlainStop, PlainStops, IsKeptByPlain, plain_with_run};
ghost use Rattle.plain_buchberger.specs.Runs.{KeptLeaves, StopLeaves};
ghost use Rattle.run_endings.specs.Stops.{IsStop, RunStops, shared_on, stopped_run};

use crate::runs::run;
use basis_core::BasisState;
use groebner_iface::{Groebner, Stop};
use module_vectors::{KeptTrail, NoMemory, Ring, VectList};
use queue_updates::Update;
use run_endings::RunStop;
use std::alloc::Global;
use std::marker::Model;
use std::mem::replace;
use std::sync::Wait;
use std::thread::Threads;

/// Buchberger's algorithm on one thread. The last run that stopped early is kept: by its budget of pairs, its state; by a
/// degree above 65,535, a trail and its state, or the trail alone where the beginning of the run met it.
pub struct PlainEngine {
    pairs: u64,
    update: Update,
    runs: u64,
    stops: u64,
    state: Option<BasisState>,
    trail: Option<KeptTrail>,
}

// By hand, so that each drop of one is a call.
impl Drop for PlainEngine {
    fn drop(self) {
        let PlainEngine {
            pairs: _,
            update: _,
            runs: _,
            stops: _,
            state: _,
            trail: _,
        } = self;
    }
}

impl Model for PlainEngine {
    ghost use Rattle.plain_buchberger.specs.Engines.{PlainShown, IsKeptByPlain};

    ghost Value = { PlainShown };

    ghost view = { λ e. record { pairs = e.pairs; update = e.update; runs = e.runs; stops = e.stops; state = e.state; trail = e.trail } };

    ghost invariant = { λ e. IsKeptByPlain (record { pairs = e.pairs; update = e.update; runs = e.runs; stops = e.stops; state = e.state; trail = e.trail }) };
}

impl PlainEngine {
    /// An engine whose runs take at most so many pairs each, and queue this as members come.
    pub fn new(pairs: u64, update: Update) -> PlainEngine
        ensures pairs { result.pairs ≡ pairs }
        ensures update { result.update ≡ update }
        ensures runs { result.runs ≡ 0 }
        ensures stops { result.stops ≡ 0 }
        ensures state { result.state ≡ None }
        ensures trail { result.trail ≡ None }
    {
        PlainEngine {
            pairs,
            update,
            runs: 0,
            stops: 0,
            state: None,
            trail: None,
        }
    }

    /// The most pairs that a run takes.
    pub fn pairs(&self) -> u64
        ensures { result ≡ self.now.pairs }
    {
        self.pairs
    }

    /// What its runs queue as members come.
    pub fn update(&self) -> Update
        ensures { result ≡ self.now.update }
    {
        self.update
    }

    /// How often it ran, whatever the answer, up to 2^64 - 1.
    pub fn runs(&self) -> u64
        ensures { result ≡ self.now.runs }
    {
        self.runs
    }

    /// How many runs stopped early, up to 2^64 - 1.
    pub fn stops(&self) -> u64
        ensures { result ≡ self.now.stops }
    {
        self.stops
    }

    /// What is kept of the last run that stopped early: its state unless its beginning stopped it, and a trail where a
    /// degree stopped it; neither before a run has stopped.
    pub fn last_stop(&self) -> (Option<&BasisState>, Option<&KeptTrail>)
        ensures state { MatchOption result.0 (self.now.state ≡ None) (λ s. self.now.state ≡ Some s.now) }
        ensures trail { MatchOption result.1 (self.now.trail ≡ None) (λ t. self.now.trail ≡ Some t.now) }
        ensures kept { IsKeptByPlain self.now }
    {
        (self.state.as_ref(), self.trail.as_ref())
    }

    /// The same, without taking memory.
    pub fn into_stop(self) -> (Option<BasisState>, Option<KeptTrail>)
        ensures state { result.0 ≡ self.state }
        ensures trail { result.1 ≡ self.trail }
        ensures kept { IsKeptByPlain self }
    {
        let PlainEngine {
            pairs: _,
            update: _,
            runs: _,
            stops: _,
            state,
            trail,
        } = self;
        (state, trail)
    }

    /// The reduced Gröbner basis of the list in a free module of this rank, by descending leads in the ring's own order. It
    /// does what the trait's `reduced` does, and more is said of it: the basis and `Memory` leave the engine as it was, but for
    /// the count of its runs.
    pub fn run<R: Threads + Sync>(
        &mut self,
        rt: &R,
        alloc: Global,
        ring: &Ring,
        rank: u128,
        list: &VectList,
    ) -> Result<VectList, Stop>
        requires vectors { AreVectorsOver ring.now (ring_comparison ring.now) list.now }
        requires positions { Each (HasPositions rank) list.now }
        ensures basis { IfOk result (IsReducedBasisOf ring.now rank list.now) }
        ensures same { OnOk result (self.new ≡ plain_with_run self.old) }
        ensures stop { IfErr result (PlainStops (plain_with_run self.old) self.new (shared_on ring.now rank list.now)) }
        ensures run { self.new.runs ≡ next_count self.old.runs }
    {
        self.count_run();
        match run(rt, alloc, self.pairs, self.update, ring, rank, list) {
            Ok(basis) => Ok(basis),
            Err(stop) => Err(self.keep_stop(stop)),
        }
    }

    // Counts a run.
    fn count_run(&mut self)
        ensures { self.new ≡ plain_with_run self.old }
    {
        self.runs = self.runs.saturating_add(1);
    }

    // Counts a run that stopped, and keeps this of it.
    fn keep(&mut self, state: Option<BasisState>, trail: Option<KeptTrail>)
        requires some { (run : StoppedRun) × (stopped_run state trail ≡ Some run) }
        requires stop { IsStop self.old.pairs 1 self.old.update state trail }
        requires left { KeptLeaves state trail }
        ensures counts { CountsPlainStop self.old self.new }
        ensures state { self.new.state ≡ state }
        ensures trail { self.new.trail ≡ trail }
    {
        self.stops = self.stops.saturating_add(1);
        drop(replace(&mut self.state, state));
        drop(replace(&mut self.trail, trail));
    }

    // Counts and keeps a run that stopped, unless memory was wanting.
    fn keep_stop(&mut self, stop: RunStop) -> Stop
        requires stop { (shared : Shared) × RunStops self.old.pairs 1 self.old.update shared stop }
        requires left { StopLeaves stop }
        ensures stop { (shared : Shared) → RunStops self.old.pairs 1 self.old.update shared stop → PlainStops self.old self.new shared result }
        ensures runs { self.new.runs ≡ self.old.runs }
    {
        match stop {
            RunStop::Memory => Stop::Memory,
            RunStop::Pairs(state) => {
                self.keep(Some(state), None);
                Stop::Pairs
            }
            RunStop::Beginning(trail) => {
                self.keep(None, Some(trail));
                Stop::Degree
            }
            RunStop::Degree(state, trail) => {
                self.keep(Some(state), Some(trail));
                Stop::Degree
            }
        }
    }
}

impl Groebner for PlainEngine {
    ghost use Rattle.std.specs.Prelude.{[], ◌∷◌};
    ghost use Rattle.run_endings.specs.Stops.{number_of_update, stopped_run};

    ghost stops = { λ e. e.stops };

    ghost runs = { λ e. e.runs };

    ghost stopped = { λ e. stopped_run e.state e.trail };

    ghost settings = { λ e. e.pairs ∷ 1 ∷ number_of_update e.update ∷ [] };

    fn reduced<R: Threads + Wait + Sync>(
        &mut self,
        rt: &R,
        alloc: Global,
        ring: &Ring,
        rank: u128,
        list: &VectList,
    ) -> Result<VectList, Stop> {
        self.run(rt, alloc, ring, rank, list)
    }

    fn attempted<R: Threads + Wait + Sync>(
        &self,
        rt: &R,
        alloc: Global,
        ring: &Ring,
        rank: u128,
        list: &VectList,
    ) -> Result<Option<VectList>, NoMemory> {
        let mut engine = PlainEngine::new(self.pairs, self.update);
        match engine.run(rt, alloc, ring, rank, list) {
            Ok(basis) => Ok(Some(basis)),
            Err(Stop::Memory) => Err(NoMemory),
            Err(Stop::Pairs | Stop::Degree) => Ok(None),
        }
    }
}
