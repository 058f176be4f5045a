//! The state of a run.
ghost use Rattle.std.specs.Prelude.{◌≡◌, ◌<◌, ℕ, List, None, Some, [], get_or, length, true, IfOk, IfErr, MatchOption, OnOk, OnErr, false};
ghost use Rattle.std.specs.Arc.{arc_value};
ghost use Rattle.formal_sums.specs.FormalSums.{Each};
ghost use Rattle.term_lists.specs.Rings.{variables};
ghost use Rattle.basis_steps.specs.Invariant.{HoldsInvariant};
ghost use Rattle.basis_steps.specs.States.{IsLawfulRun};
ghost use Rattle.basis_steps.specs.Histories.{HasStopped};
ghost use Rattle.basis_steps.specs.Steps.{Begins, Ends, FindsStop, MayEnd, MayTake, Replays, Stops};
ghost use Rattle.member_products.specs.Generators.{AreGenerators};
ghost use Rattle.basis_core.specs.Answers.{AnswersTake, BeginningStops, IsJobOut, IsReason, IsRunOf, IsTaken, PutStops, PutsOutcome};
ghost use Rattle.basis_core.specs.Members.{MemberShown, shared_of};
ghost use Rattle.basis_core.specs.Stops.{reason_of};
ghost use Rattle.basis_core.specs.Inside.{IsEventRead, IsStopOver};
ghost use Rattle.basis_core.specs.Logs.{Adds, End as EndNote, Stop as StopNote, Take as TakeNote};
ghost use Rattle.basis_core.specs.Jobs.{HasLcmOfMembers, pairs_of};
ghost use Rattle.pair_updates.specs.Dropping.{drops_of};
ghost use Rattle.basis_core.specs.Pending.{HaveGrown};
ghost use Rattle.basis_core.specs.Views.{ending_of, outs_of, run_of, state_of, variables_of, IsSameRun};

use crate::beginning::{make_generators, nobody_ended};
use crate::ending::Ending;
use crate::ends::{ending_at, keep_first, mark_ended};
use crate::event::Event;
use crate::leading::first_pairs;
use crate::members::Members;
use crate::outcome::Outcome;
use crate::putting::add_members;
use crate::stop::StopReason;
use crate::taken::Taken;
use crate::taking::{answer, keep_stop};
use member_products::Shared;
use module_vectors::{NoMemory, Ring, VectList, WorkStop};
use pair_criteria::Pair;
use pair_queue::{Dropped, Out, PairQueue};
use queue_updates::Update;
use std::alloc::Global;
use std::marker::Model;
use std::sync::Arc;

/// The state of a basis run: what never changes in it, its members, the pairs that are queued or out, who has ended, the
/// stop that is kept, and its history. Workers have the numbers below its number of workers.
pub struct BasisState {
    budget: u64,
    workers: u32,
    members: Members,
    // By the leads of the members.
    pairs: PairQueue,
    taken: u64,
    ended: Vec<bool>,
    stop: Option<StopReason>,
    // Behind its events it has room for the Ends and Stops that may come.
    history: Vec<Event>,
}

// By hand, so that each drop of one is a call.
impl Drop for BasisState {
    fn drop(self) {
        let BasisState {
            budget: _,
            workers: _,
            members: _,
            pairs: _,
            taken: _,
            ended: _,
            stop: _,
            history: _,
        } = self;
    }
}

impl Model for BasisState {
    ghost use Rattle.basis_core.specs.Shown.{Shown};

    ghost Value = { Shown };

    ghost use Rattle.basis_core.specs.Inside.{shown, IsCoherentState};

    ghost view = { shown };

    ghost invariant = { IsCoherentState };
}

impl BasisState {
    /// What holds of each state: it replays its history from its beginning, and so holds the invariant of a run.
    pub fn kept(&self)
        ensures lawful { let n = variables_of self.now in IsLawfulRun (run_of n self.now) }
        ensures replays { let n = variables_of self.now in Replays (run_of n self.now) (state_of n self.now) }
        ensures holds { let n = variables_of self.now in HoldsInvariant (run_of n self.now) (state_of n self.now) }
        ensures stop { IsStopOver self.now self.now.stop }
        ensures read { Each (IsEventRead (length self.now.members) self.now.stop) self.now.history }
    {
        self.members.domain();
    }

    /// The run on these generators at its beginning: they are divided by each other until no lead is divisible by an
    /// earlier one, and all pairs are queued, or those that the update leaves. IVA chapter 2, section 7; Gebauer and Möller
    /// 1988.
    ///
    /// `generators` are vectors of the ring, with positions below `rank`; `budget` is the most pairs that are taken;
    /// `workers` is at least 1; `update` is what is queued as members come. `Degree` comes with a trail to a product of degree above 65,535, `Memory` where
    /// there is none.
    pub fn begin(
        alloc: Global,
        ring: Ring,
        rank: u128,
        generators: VectList,
        budget: u64,
        workers: u32,
        update: Update,
    ) -> Result<BasisState, WorkStop>
        requires workers { 0 < workers }
        requires generators { AreGenerators ring rank generators }
        ensures run { IfOk result (IsRunOf (record { ring = ring; rank = rank; generators = generators }) budget workers update) }
        ensures begins { let n = variables ring in IfOk result (λ s. Begins (run_of n s) (state_of n s)) }
        ensures stop { IfErr result (BeginningStops (variables ring) (record { ring = ring; rank = rank; generators = generators })) }
    {
        let shared = Arc::new(
            alloc,
            Shared {
                ring,
                rank,
                generators,
            },
        )?;
        let mut members = Members::new(alloc, shared);
        make_generators(alloc, &mut members)?;
        let pairs = first_pairs(alloc, &members, update)?;
        let ended = nobody_ended(alloc, workers)?;
        // Ends and Stops take no memory: there is room for three events of each worker.
        let history = Vec::with_capacity(alloc, 3 * workers as usize)?;
        Ok(BasisState {
            budget,
            workers,
            members,
            pairs,
            taken: 0,
            ended,
            stop: None,
            history,
        })
    }

    /// Skips queued pairs to which a criterion applies, or none where new members drop pairs, and gives a worker that has none
    /// out some of those left: at most `most`, within the budget. IVA chapter 2, section 10.
    ///
    /// After `NoMemory` the state is as before.
    pub fn take(&mut self, alloc: Global, worker: u32, most: u64) -> Result<Taken, NoMemory>
        requires { let n = variables_of self.old in MayTake (run_of n self.old) (state_of n self.old) worker most }
        ensures step { let n = variables_of self.old in IfOk result (λ t. IsTaken n self.old worker most t self.new) }
        ensures answer { IfOk result (AnswersTake worker self.new) }
        ensures run { IsSameRun self.old self.new }
        ensures members { self.new.members ≡ self.old.members }
        ensures err { OnErr result (self.new ≡ self.old) }
    {
        if self.stop.is_some() {
            self.find_stop(alloc, worker)?;
            return Ok(Taken::Stopped);
        }
        self.take_pairs(alloc, worker, most)
    }

    // A Take that finds a stop. After `NoMemory` the state is as before.
    fn find_stop(&mut self, alloc: Global, worker: u32) -> Result<(), NoMemory>
        requires may { let n = variables_of self.old in (most : ℕ) × MayTake (run_of n self.old) (state_of n self.old) worker most }
        requires stopped { (reason : _) × (self.old.stop ≡ Some reason) }
        ensures step { let n = variables_of self.old in OnOk result (FindsStop (state_of n self.old) worker [] [] (state_of n self.new)) }
        ensures event { OnOk result (Adds (TakeNote worker [] []) self.old self.new) }
        ensures run { IsSameRun self.old self.new }
        ensures members { self.new.members ≡ self.old.members }
        ensures stop { self.new.stop ≡ self.old.stop }
        ensures err { OnErr result (self.new ≡ self.old) }
    {
        // The Take, and three more events of each worker that may come before it takes again.
        self.history.reserve(3 * self.workers as usize + 1)?;
        self.history
            .push_reserved(Event::Take(worker, Vec::new(alloc), Vec::new(alloc)));
        Ok(())
    }

    // A Take that finds no stop. After `NoMemory` the state is as before.
    fn take_pairs(&mut self, alloc: Global, worker: u32, most: u64) -> Result<Taken, NoMemory>
        requires may { let n = variables_of self.old in MayTake (run_of n self.old) (state_of n self.old) worker most }
        requires unstopped { self.old.stop ≡ None }
        ensures step { let n = variables_of self.old in IfOk result (λ t. IsTaken n self.old worker most t self.new) }
        ensures answer { IfOk result (AnswersTake worker self.new) }
        ensures run { IsSameRun self.old self.new }
        ensures members { self.new.members ≡ self.old.members }
        ensures err { OnErr result (self.new ≡ self.old) }
    {
        self.members.domain();
        self.history.reserve(3 * self.workers as usize + 1)?;
        let members = self.members.share(alloc)?;
        // The last call that wants memory.
        let given = self
            .pairs
            .take(alloc, worker, self.budget, self.workers, self.taken, most)?;
        keep_stop(self.budget, self.taken, given.none_left, &mut self.stop);
        self.taken += given.pairs.len() as u64;
        self.history
            .push_reserved(Event::Take(worker, given.skipped, given.given));
        Ok(answer(worker, members, &self.stop, given.pairs))
    }

    /// Takes in the outcome of a job that is out: each row is divided by the members of that moment and becomes a member
    /// where it is not zero, and the new members' pairs are queued, or the update with each of them is done. IVA chapter 2,
    /// section 10; Gebauer and Möller 1988.
    ///
    /// `Degree` comes with a trail to a product of degree above 65,535, `Memory` where there is none; both give the
    /// outcome back and leave the state as it was.
    pub fn put(&mut self, alloc: Global, outcome: Outcome) -> Result<(), (WorkStop, Outcome)>
        requires known { outcome.job.worker < self.old.workers }
        requires works { get_or self.old.ended outcome.job.worker true ≡ false }
        requires out { IsJobOut self.old outcome }
        ensures step { let n = variables_of self.old in OnOk result
            ((made : List MemberShown) × PutsOutcome n self.old outcome made self.new) }
        ensures run { IsSameRun self.old self.new }
        ensures members { OnOk result (HaveGrown self.old.members self.new.members) }
        ensures err { OnErr result (self.new ≡ self.old) }
        ensures outcome { IfErr result (λ e. e.1 ≡ outcome) }
        ensures stop { let n = variables_of self.old in IfErr result (λ e. PutStops n self.old outcome e.0) }
    {
        self.kept();
        outcome.kept();
        let worker = outcome.job().worker();
        let first = self.members.len();
        if let Err(stop) = add_members(
            alloc,
            &outcome,
            self.workers,
            &mut self.members,
            &mut self.history,
            &mut self.pairs,
        ) {
            return Err((stop, outcome));
        }
        self.pairs.give_back(worker);
        let count = self.members.len() - first;
        self.history
            .push_reserved(Event::Put(worker, first as u64, count as u64));
        Ok(())
    }

    /// Ends a worker that has done its work where a stop is kept or no pair is queued, and else tells it that there is more
    /// work. It takes no memory: the place of the event was reserved before.
    pub fn end(&mut self, worker: u32) -> Ending
        requires { let n = variables_of self.old in MayEnd (run_of n self.old) (state_of n self.old) worker }
        ensures step { let n = variables_of self.old in Ends (run_of n self.old) (state_of n self.old) worker (ending_of result) (state_of n self.new) }
        ensures event { Adds (EndNote worker (ending_of result)) self.old self.new }
        ensures run { IsSameRun self.old self.new }
        ensures members { self.new.members ≡ self.old.members }
    {
        let ending = ending_at(&self.stop, self.pairs.queued());
        mark_ended(&mut self.ended, worker, ending);
        self.history.push_reserved(Event::End(worker, ending));
        ending
    }

    /// Stops the run for a worker, once. The first reason is kept. It takes no memory: the place of the event was reserved
    /// before.
    pub fn stop(&mut self, worker: u32, reason: StopReason)
        requires known { worker < self.old.workers }
        requires first { let n = variables_of self.old in HasStopped worker (state_of n self.old).history → ⊥ }
        requires reason { let n = variables_of self.old in IsReason n self.old reason }
        ensures step { let n = variables_of self.old in Stops (run_of n self.old) (state_of n self.old) worker (reason_of n reason) (state_of n self.new) }
        ensures event { Adds (StopNote worker) self.old self.new }
        ensures run { IsSameRun self.old self.new }
        ensures members { self.new.members ≡ self.old.members }
    {
        let later = keep_first(&mut self.stop, reason);
        self.history.push_reserved(Event::Stop(worker, later));
    }

    /// Ring, rank and generators of the run.
    pub fn shared(&self) -> &Arc<Shared, Global>
        ensures { shared_of (arc_value result.now) ≡ self.now.shared }
    {
        self.members.shared()
    }

    /// The generators of the run.
    pub fn generators(&self) -> &VectList
        ensures { result.now ≡ self.now.shared.generators }
    {
        &self.members.shared().generators
    }

    /// The members so far.
    pub fn members(&self) -> &Members
        ensures shared { result.now.shared ≡ self.now.shared }
        ensures list { result.now.list ≡ self.now.members }
    {
        &self.members
    }

    /// The queued pairs, each with its lcm, in their order: by the degree of the lcm, its monomial, the later member and the
    /// earlier one.
    pub fn queued(&self) -> &[Pair]
        ensures pairs { pairs_of result.now ≡ self.now.queue }
        ensures lcms { Each (HasLcmOfMembers (variables_of self.now) self.now.shared.ring.weights self.now.members) result.now }
    {
        self.pairs.queued()
    }

    /// What is queued as members come.
    pub fn update(&self) -> Update
        ensures { result ≡ self.now.update }
    {
        self.pairs.update()
    }

    /// The pairs that new members dropped, in the order in which they did.
    pub fn dropped(&self) -> &[Dropped]
        ensures { drops_of result.now ≡ self.now.dropped }
    {
        self.pairs.dropped()
    }

    /// The pairs that are out.
    pub fn out(&self) -> &[Out]
        ensures { outs_of result.now ≡ self.now.out }
    {
        self.pairs.out()
    }

    /// How many pairs were taken.
    pub fn taken(&self) -> u64
        ensures { result ≡ self.now.taken }
    {
        self.taken
    }

    /// The most pairs that are taken.
    pub fn budget(&self) -> u64
        ensures { result ≡ self.now.budget }
    {
        self.budget
    }

    /// The number of workers.
    pub fn workers(&self) -> u32
        ensures { result ≡ self.now.workers }
    {
        self.workers
    }

    /// Has the worker ended?
    pub fn has_ended(&self, worker: u32) -> bool
        requires { worker < self.now.workers }
        ensures { result ≡ get_or self.now.ended worker true }
    {
        self.ended[worker as usize]
    }

    /// The events so far.
    pub fn history(&self) -> &[Event]
        ensures { result.now ≡ self.now.history }
    {
        &self.history
    }

    /// The stop that is kept.
    pub fn stop_reason(&self) -> Option<&StopReason>
        ensures { MatchOption result (self.now.stop ≡ None) (λ reason. self.now.stop ≡ Some reason.now) }
    {
        self.stop.as_ref()
    }
}
