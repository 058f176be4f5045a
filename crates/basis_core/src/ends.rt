// How a worker ends or stops.
ghost use Rattle.std.specs.Prelude.{◌≡◌, ◌<◌, ℕ, None, Some, cond, length, slice_set, true};
ghost use Rattle.basis_steps.specs.States as plain;
ghost use Rattle.basis_steps.specs.Steps.{is_empty, is_stopped};
ghost use Rattle.basis_core.specs.Jobs.{pairs_of};
ghost use Rattle.basis_core.specs.Stops.{stop_of};
ghost use Rattle.basis_core.specs.Views.{ending_of};

use crate::ending::Ending;
use crate::stop::StopReason;
use pair_criteria::Pair;

/// There is more work exactly where no stop is kept and a pair is queued.
pub(crate) fn ending_at(stop: &Option<StopReason>, queue: &[Pair]) -> Ending
    ensures { (n : ℕ) → ending_of result ≡ cond (is_stopped (stop_of n stop.now)) plain.Ended
        (cond (is_empty (pairs_of queue.now)) plain.Ended plain.MoreWork) }
{
    if stop.is_none() && !queue.is_empty() {
        Ending::MoreWork
    } else {
        Ending::Ended
    }
}

/// Marks a worker that has ended.
pub(crate) fn mark_ended(ended: &mut Vec<bool>, worker: u32, ending: Ending)
    requires { worker < length ended.old.items }
    ensures marks { ending ≡ Ending.Ended → ended.new.items ≡ slice_set ended.old.items worker true }
    ensures leaves { ending ≡ Ending.MoreWork → ended.new.items ≡ ended.old.items }
{
    match ending {
        Ending::Ended => ended[worker as usize] = true,
        Ending::MoreWork => {}
    }
}

/// Keeps the reason where none is kept, and else gives it back.
pub(crate) fn keep_first(kept: &mut Option<StopReason>, reason: StopReason) -> Option<StopReason>
    ensures first { kept.old ≡ None → (kept.new ≡ Some reason) × (result ≡ None) }
    ensures later { (one : StopReason) → kept.old ≡ Some one → (kept.new ≡ Some one) × (result ≡ Some reason) }
{
    if kept.is_none() {
        kept.replace(reason)
    } else {
        Some(reason)
    }
}
