// The flags of the pairs of new members.
ghost use Rattle.std.specs.Prelude.{◌≡◌, ◌<◌, cond, false, true, length, ltb};
ghost use Rattle.formal_sums.specs.FormalSums.{Each};
ghost use Rattle.basis_steps.specs.Criteria.{IsPair};
ghost use Rattle.basis_steps.specs.Pairs.{Pair as PlainPair, count};
ghost use Rattle.pair_updates.specs.LeadCriteria.{ProductSpares};
ghost use Rattle.pair_updates.specs.Leads.{sums_shown};
ghost use Rattle.pair_updates.specs.Pairs.{index_pair_of, pairs_of};
ghost use Rattle.pair_queue.specs.Tables.{flag, member_count};

use crate::table::Table;
use pair_criteria::Pair;
use pair_updates::{Leads, product_spares};

/// The pairs wait, and those are due to which the product criterion does not apply.
pub(crate) fn flag_pairs(leads: &Leads, pairs: &[Pair], waits: &mut Table, due: &mut Table)
    requires real { Each (λ x. IsPair (sums_shown leads.now) (index_pair_of x)) pairs.now }
    requires waits { member_count waits.old ≡ length leads.now.keys }
    requires due { member_count due.old ≡ length leads.now.keys }
    ensures waits_size { member_count waits.new ≡ member_count waits.old }
    ensures due_size { member_count due.new ≡ member_count due.old }
    ensures waits { (x : PlainPair) → (flag waits.new) x ≡ cond (ltb 0 (count x (pairs_of pairs.now))) true ((flag waits.old) x) }
    ensures others { (x : PlainPair) → count x (pairs_of pairs.now) ≡ 0 → (flag due.new) x ≡ (flag due.old) x }
    ensures shut { (x : PlainPair) → 0 < count x (pairs_of pairs.now) → (flag due.new) x ≡ false → ProductSpares leads.now x }
    ensures free { (x : PlainPair) → 0 < count x (pairs_of pairs.now) → (flag due.new) x ≡ true → ProductSpares leads.now x → ⊥ }
{
    for k in 0..pairs.len() {
        let x = &pairs[k];
        let i = x.i as usize;
        let j = x.j as usize;
        waits.put(i, j, true);
        due.put(i, j, !product_spares(leads, i, j));
    }
}
