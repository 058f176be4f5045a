//! What engines have in common. The function's contract is a law, proved here.

ghost use Rattle.std.specs.Prelude.{◌≡◌, ℕ, List};
ghost use Rattle.term_lists.specs.declared.key.Key.{Key as KeyValue};
ghost use Rattle.groebner_iface.specs.Runs.{IsReducedBasisOf};

use module_vectors::{Ring, lawful_setting};

/// A list has one reduced basis, as a list of lists of terms: so any two engines answer the same for one run (IVA
/// chapter 2, section 7).
pub fn one_basis(ring: &Ring)
    ensures { (rank : ℕ) (list left right : List (List (KeyValue × ℕ)))
        → IsReducedBasisOf ring.now rank list left → IsReducedBasisOf ring.now rank list right → left ≡ right }
{
    lawful_setting(ring);
}
