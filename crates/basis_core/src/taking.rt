// What a Take gives out, and its answer.
ghost use Rattle.std.specs.Prelude.{ℕ, ◌≡◌, ◌<◌, ⊤, List, [], MatchOption, None, length};
ghost use Rattle.basis_steps.specs.States.{Run};
ghost use Rattle.basis_steps.specs.Pairs.{Pair as PlainPair};
ghost use Rattle.basis_steps.specs.Steps.{is_empty, stop_of_take};
ghost use Rattle.basis_core.specs.Answers.{AnswersTake, pairs_given};
ghost use Rattle.basis_core.specs.Jobs.{IsJobOver, pairs_of};
ghost use Rattle.basis_core.specs.Shown.{Shown};
ghost use Rattle.basis_core.specs.Stops.{stop_of};
ghost use Rattle.basis_core.specs.declared.stop.StopReason.TheVariants as reasons;

use crate::job::Job;
use crate::members::Members;
use crate::stop::StopReason;
use crate::taken::Taken;
use pair_criteria::Pair;

/// Keeps the stop of the budget where a pair is left and the budget is met.
pub(crate) fn keep_stop(budget: u64, taken: u64, none_left: bool, stop: &mut Option<StopReason>)
    requires { stop.old ≡ None }
    ensures stop { (n : ℕ) (r : Run n) (left : List PlainPair) → r.budget ≡ budget → none_left ≡ is_empty left
        → stop_of n stop.new ≡ stop_of_take r taken left }
    ensures kind { MatchOption stop.new ⊤ (λ reason. (reason ≡ reasons.Pairs) × (taken ≡ budget)) }
{
    if !none_left && taken == budget {
        *stop = Some(StopReason::Pairs);
    }
}

/// The answer that gives these pairs.
pub(crate) fn answer(
    worker: u32,
    members: Members,
    stop: &Option<StopReason>,
    pairs: Vec<Pair>,
) -> Taken
    requires unstopped { 0 < length pairs.items → stop.now ≡ None }
    requires job { 0 < length pairs.items → IsJobOver (record { shared = members.shared; worker = worker; members = members.list; pairs = pairs.items }) }
    ensures given { pairs_given result ≡ pairs_of pairs.items }
    ensures answers { (t : Shown) → t.stop ≡ stop.now → t.shared ≡ members.shared → t.members ≡ members.list
        → (stop.now ≡ None → pairs.items ≡ [] → t.queue ≡ []) → AnswersTake worker t result }
{
    if stop.is_some() {
        return Taken::Stopped;
    }
    if pairs.is_empty() {
        return Taken::Empty;
    }
    Taken::Job(Job::new(worker, members, pairs))
}
