// What a caller must know before an event, as tests.
ghost use Rattle.std.specs.Prelude.{ℕ, ◌≡◌, ◌<◌, ◌∷◌, ◌↔◌, IsTrue, List, Option, [], false, get_or, true};
ghost use Rattle.basis_steps.specs.States.{job_of};
ghost use Rattle.basis_steps.specs.Histories.{HasStopped, took_since};
ghost use Rattle.basis_steps.specs.Steps.{MayEnd, MayTake};
ghost use Rattle.basis_core.specs.Members.{MemberShown};
ghost use Rattle.basis_core.specs.Views.{history_of, outs_of, run_of, state_of, variables_of};

use crate::event::Event;
use crate::state::BasisState;
use pair_queue::Out;

/// Has the worker no pair out?
fn is_free(out: &[Out], worker: u32) -> bool
    ensures { IsTrue result ↔ (job_of worker (outs_of out.now) ≡ []) }
{
    for pair in out {
        if pair.worker == worker {
            return false;
        }
    }
    true
}

// Has the worker a Take behind its last End, after this event, where it had or had not one before it?
fn took_after(event: &Event, worker: u32, took: bool) -> bool
    ensures { (n : ℕ) (ms : List MemberShown) (kept : Option _) → result ≡ took_since worker (history_of n ms kept (event.now ∷ [])) took }
{
    match event {
        Event::Take(other, _, _) if *other == worker => true,
        Event::End(other, _) if *other == worker => false,
        _ => took,
    }
}

/// Has the worker a Take behind its last End?
fn took_since_end(history: &[Event], worker: u32) -> bool
    ensures { (n : ℕ) (ms : List MemberShown) (kept : Option _) → result ≡ took_since worker (history_of n ms kept history.now) false }
{
    let mut took = false;
    for event in history {
        took = took_after(event, worker, took);
    }
    took
}

// Is the event a Stop of the worker?
fn is_stop(event: &Event, worker: u32) -> bool
    ensures { (n : ℕ) (ms : List MemberShown) (kept : Option _) → IsTrue result ↔ HasStopped worker (history_of n ms kept (event.now ∷ [])) }
{
    match event {
        Event::Stop(other, _) => *other == worker,
        _ => false,
    }
}

/// Has the worker a Stop?
fn has_stopped(history: &[Event], worker: u32) -> bool
    ensures { (n : ℕ) (ms : List MemberShown) (kept : Option _) → IsTrue result ↔ HasStopped worker (history_of n ms kept history.now) }
{
    for event in history {
        if is_stop(event, worker) {
            return true;
        }
    }
    false
}

impl BasisState {
    /// Is this a worker that has not ended?
    pub fn is_working(&self, worker: u32) -> bool
        ensures { IsTrue result ↔ ((worker < self.now.workers) × (get_or self.now.ended worker true ≡ false)) }
    {
        worker < self.workers() && !self.has_ended(worker)
    }

    /// May the worker ask for at most `most` pairs?
    pub fn may_take(&self, worker: u32, most: u64) -> bool
        ensures { let n = variables_of self.now in IsTrue result ↔ MayTake (run_of n self.now) (state_of n self.now) worker most }
    {
        most > 0 && self.is_working(worker) && is_free(self.out(), worker)
    }

    /// May the worker end?
    pub fn may_end(&self, worker: u32) -> bool
        ensures { let n = variables_of self.now in IsTrue result ↔ MayEnd (run_of n self.now) (state_of n self.now) worker }
    {
        if !self.is_working(worker) {
            return false;
        }
        if self.stop_reason().is_some() {
            return true;
        }
        is_free(self.out(), worker) && took_since_end(self.history(), worker)
    }

    /// May the worker stop the run?
    pub fn may_stop(&self, worker: u32) -> bool
        ensures { let n = variables_of self.now in IsTrue result ↔ ((worker < self.now.workers) × (HasStopped worker (state_of n self.now).history → ⊥)) }
    {
        worker < self.workers() && !has_stopped(self.history(), worker)
    }
}
