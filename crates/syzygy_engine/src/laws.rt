//! Kernels and lifts. Each function's contract is a law, proved here.

ghost use Rattle.std.specs.Prelude.{◌≡◌, ℕ, List, length};
ghost use Rattle.formal_sums.specs.FormalSums.{Each};
ghost use Rattle.monomial_orders.specs.declared.order.ModOrder.TheVariants.{Pot};
ghost use Rattle.term_lists.specs.Rings.{ring_comparison, variables};
ghost use Rattle.term_lists.specs.Vectors.{AreVectorsOver, HasPositions, IsVectorOver, sums_of};
ghost use Rattle.term_lists.specs.declared.key.Key.{Key as KeyValue};
ghost use Rattle.groebner_iface.specs.Runs.{IsReducedBasisOf};
ghost use Rattle.syzygy_engine.specs.Kernels.{GeneratesSyzygies, IsKernelOf};
ghost use Rattle.syzygy_engine.specs.Lifts.{IsLiftOf};

use module_vectors::{Ring, lawful_setting};

/// The kernel that a basis of the marked list shows generates the syzygies, and is the reduced basis of these where the
/// ring's order is by position first (UAG chapter 5, section 3).
pub fn shown_kernels(ring: &Ring)
    ensures generate { let n = variables ring.now in (rank : ℕ) (list kernel : List (List (KeyValue × ℕ)))
        → Each (HasPositions rank) list → IsKernelOf ring.now rank list kernel
        → GeneratesSyzygies ring.now.modulus.value (sums_of n list) (sums_of n kernel) }
    ensures reduced { (rank : ℕ) (list kernel : List (List (KeyValue × ℕ)))
        → Each (HasPositions rank) list → IsKernelOf ring.now rank list kernel → AreVectorsOver ring.now (ring_comparison ring.now) kernel
        → ring.now.module_order ≡ Pot → IsReducedBasisOf ring.now (length list) kernel kernel }
{
    lawful_setting(ring);
}

/// A vector has one lift to a list, as a list of terms (UAG chapter 5, section 3).
pub fn one_lift(ring: &Ring)
    ensures { (list : List (List (KeyValue × ℕ))) (v a b : List (KeyValue × ℕ))
        → IsVectorOver ring.now (ring_comparison ring.now) a → IsVectorOver ring.now (ring_comparison ring.now) b
        → IsLiftOf ring.now list v a → IsLiftOf ring.now list v b → a ≡ b }
{
    lawful_setting(ring);
}
