// How many pairs a job gets.
ghost use Rattle.std.specs.Prelude.{◌≡◌, ◌<◌, ◌≤◌, ◌-◌, length};
ghost use Rattle.formal_sums.specs.FormalSums.{Each};
ghost use Rattle.basis_steps.specs.Queues.{IsSorted, number_of_least_degree, share};
ghost use Rattle.basis_steps.specs.States.{Run};
ghost use Rattle.pair_updates.specs.Pairs.{HasLcm, pairs_of};
ghost use Rattle.pair_updates.specs.Leads.{LeadsShown, setting_of_leads, sums_shown};

use pair_criteria::Pair;

// How many pairs of the queue have lcms of the degree of its first: in a sorted queue they stand before all others.
fn count_least_degree(queue: &[Pair]) -> u64
    ensures count { (m : LeadsShown) → Each (HasLcm m) queue.now → IsSorted (setting_of_leads m.variables m) (sums_shown m) (pairs_of queue.now)
        → result ≡ number_of_least_degree (setting_of_leads m.variables m) (sums_shown m) (pairs_of queue.now) }
    ensures few { result ≤ length queue.now }
{
    if queue.is_empty() {
        return 0;
    }
    let least = queue[0].lcm.monomial.degree();
    for k in 0..queue.len() {
        if queue[k].lcm.monomial.degree() != least {
            return k as u64;
        }
    }
    queue.len() as u64
}

/// How many of the queued pairs a job gets: at most what is asked for and what the budget leaves, and a worker's share of
/// those of the least degree.
pub(crate) fn share_of(budget: u64, workers: u32, taken: u64, most: u64, queue: &[Pair]) -> u64
    requires workers { 0 < workers }
    requires taken { taken ≤ budget }
    ensures share { (m : LeadsShown) (r : Run m.variables) → r.budget ≡ budget → r.workers ≡ workers → r.setting.weights ≡ m.weights
        → Each (HasLcm m) queue.now → IsSorted (setting_of_leads m.variables m) (sums_shown m) (pairs_of queue.now)
        → result ≡ share r (sums_shown m) taken most (pairs_of queue.now) }
    ensures few { result ≤ length queue.now }
    ensures budget { result ≤ budget - taken }
    ensures most { result ≤ most }
{
    let least = count_least_degree(queue);
    most.min(budget - taken)
        .min(least.div_ceil(u64::from(workers)))
}
