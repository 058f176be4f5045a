// The order of the queue.
ghost use Rattle.std.specs.Prelude.{◌≡◌};
ghost use Rattle.basis_steps.specs.Queues.{compare_pairs as compare_plain};
ghost use Rattle.pair_updates.specs.Pairs.{HasLcm, index_pair_of};
ghost use Rattle.pair_updates.specs.Leads.{setting_of_leads, sums_shown};

use crate::leads::Leads;
use pair_criteria::Pair;
use std::cmp::Ordering;

/// Compares two pairs by the degree of the lcm, its monomial, the later member and the earlier one: the normal strategy
/// (IVA chapter 2, section 10).
pub(crate) fn compare_pairs(leads: &Leads, x: &Pair, y: &Pair) -> Ordering
    requires left { HasLcm leads.now x.now }
    requires right { HasLcm leads.now y.now }
    ensures { let m = leads.now in result ≡ compare_plain (setting_of_leads m.variables m) (sums_shown m) (index_pair_of x.now) (index_pair_of y.now) }
{
    let left = &x.lcm.monomial;
    let right = &y.lcm.monomial;
    match left.degree().cmp(&right.degree()) {
        Ordering::Equal => match leads.compare(left, right) {
            Ordering::Equal => x.j.cmp(&y.j).then(x.i.cmp(&y.i)),
            other => other,
        },
        other => other,
    }
}
