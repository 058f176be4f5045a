//! Vectors and the theorems on bases. Each function's contract is a law, proved here.

ghost use Rattle.std.specs.Prelude.{◌≡◌, ◌∷◌, ℕ, List};
ghost use Rattle.std.specs.declared.cmp.Ordering.{Ordering};
ghost use Rattle.residues.specs.Residues.{IsDomain};
ghost use Rattle.formal_sums.specs.FormalSums.{FormalSum, IsOfRank, IsSame, Key as KeyOf};
ghost use Rattle.orders.specs.KeyOrders.{IsKeyOrder};
ghost use Rattle.bases.specs.Settings.{IsLawful};
ghost use Rattle.bases.specs.Leads.{IsLead, IsNormal};
ghost use Rattle.term_lists.specs.declared.key.Key.{Key as KeyValue};
ghost use Rattle.term_lists.specs.declared.ring.Ring.{Ring as RingValue};
ghost use Rattle.term_lists.specs.Rings.{setting, variables};
ghost use Rattle.term_lists.specs.Vectors.{key_of, sum_of, HasPositions, IsVectorOver, StandsFor};

use crate::Frame;

/// The setting of a frame's ring and order is lawful, at each rank.
pub fn lawful_setting<F: Frame>(frame: &F)
    ensures { (rank : ℕ) → IsLawful (setting (F.over frame.now) (variables (F.over frame.now)) (F.compare frame.now (variables (F.over frame.now))) rank) }
{
    frame.ring().modulus.domain();
}

/// Two vectors that stand for one formal sum are one list of terms.
pub fn one_list()
    ensures { (ring : RingValue) (compare : (n : ℕ) → KeyOf n → KeyOf n → Ordering) (rank : ℕ) (v w : List (KeyValue × ℕ))
        → IsLawful (setting ring (variables ring) (compare (variables ring)) rank) → IsVectorOver ring compare v → IsVectorOver ring compare w
        → IsSame ring.modulus.value (sum_of (variables ring) v) (sum_of (variables ring) w) → v ≡ w }
{}

/// A vector of rank m has positions below m.
pub fn positions_of_rank()
    ensures { (ring : RingValue) (compare : (n : ℕ) → KeyOf n → KeyOf n → Ordering) (rank m : ℕ)
        (v : List (KeyValue × ℕ)) (w : FormalSum (variables ring))
        → IsLawful (setting ring (variables ring) (compare (variables ring)) rank) → IsVectorOver ring compare v → StandsFor ring v w
        → IsOfRank ring.modulus.value m w → HasPositions m v }
{}

/// A vector is in normal form, and its first key is its lead.
pub fn normal_vectors()
    ensures normal { (ring : RingValue) (compare : (n : ℕ) → KeyOf n → KeyOf n → Ordering) (rank : ℕ) (v : List (KeyValue × ℕ))
        → IsVectorOver ring compare v → IsNormal (setting ring (variables ring) (compare (variables ring)) rank) (sum_of (variables ring) v) }
    ensures lead { (ring : RingValue) (compare : (n : ℕ) → KeyOf n → KeyOf n → Ordering) (rank : ℕ) (t : KeyValue × ℕ) (v : List (KeyValue × ℕ))
        → IsLawful (setting ring (variables ring) (compare (variables ring)) rank) → IsVectorOver ring compare (t ∷ v)
        → IsLead (setting ring (variables ring) (compare (variables ring)) rank) (sum_of (variables ring) (t ∷ v)) (key_of (variables ring) t.0) }
{}
