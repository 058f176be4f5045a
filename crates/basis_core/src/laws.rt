//! What stays true of an outcome that waits to be handed in.

ghost use Rattle.std.specs.Prelude.{ℕ, ◌≡◌, List};
ghost use Rattle.basis_steps.specs.States as plain;
ghost use Rattle.basis_steps.specs.Steps.{Ends, MayTake, Stops};
ghost use Rattle.basis_core.specs.declared.taken.Taken.{Taken};
ghost use Rattle.basis_core.specs.declared.taken.Taken.TheVariants as taken;
ghost use Rattle.basis_core.specs.Answers.{AnswersTake, IsTaken, PutsOutcome};
ghost use Rattle.basis_core.specs.Members.{MemberShown};
ghost use Rattle.basis_core.specs.Outcomes.{OutcomeShown};
ghost use Rattle.basis_core.specs.Pending.{MayPutOutcome};
ghost use Rattle.basis_core.specs.Shown.{Shown};
ghost use Rattle.basis_core.specs.Views.{IsSameRun, run_of, state_of, variables_of};

/// An outcome of a job that a Take gave may be handed in, and stays so over each event of another worker and over each
/// Stop.
pub fn pending_outcomes()
    ensures taken { (s t : Shown) (w most : ℕ) (answer : Taken) (o : OutcomeShown)
        → MayTake (run_of (variables_of s) s) (state_of (variables_of s) s) w most → IsTaken (variables_of s) s w most answer t → IsSameRun s t
        → AnswersTake w t answer → answer ≡ taken.Job o.job → MayPutOutcome t o }
    ensures take { (s t : Shown) (w most : ℕ) (answer : Taken) (o : OutcomeShown)
        → IsTaken (variables_of s) s w most answer t → IsSameRun s t → t.members ≡ s.members
        → (w ≡ o.job.worker → ⊥) → MayPutOutcome s o → MayPutOutcome t o }
    ensures put { (s t : Shown) (given o : OutcomeShown) (made : List MemberShown)
        → PutsOutcome (variables_of s) s given made t → IsSameRun s t
        → (given.job.worker ≡ o.job.worker → ⊥) → MayPutOutcome s o → MayPutOutcome t o }
    ensures end { (s t : Shown) (w : ℕ) (ending : plain.Ending) (o : OutcomeShown)
        → Ends (run_of (variables_of s) s) (state_of (variables_of s) s) w ending (state_of (variables_of s) t) → IsSameRun s t → t.members ≡ s.members
        → (w ≡ o.job.worker → ⊥) → MayPutOutcome s o → MayPutOutcome t o }
    ensures stop { (s t : Shown) (w : ℕ) (reason : plain.StopReason (variables_of s)) (o : OutcomeShown)
        → Stops (run_of (variables_of s) s) (state_of (variables_of s) s) w reason (state_of (variables_of s) t) → IsSameRun s t → t.members ≡ s.members
        → MayPutOutcome s o → MayPutOutcome t o }
{}
