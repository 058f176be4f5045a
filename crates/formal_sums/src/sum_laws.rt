//! Formal sums by their coefficients.

ghost use Rattle.std.specs.Prelude.{ℕ, ◌≡◌, ◌+◌, ◌<◌, ◌++◌, ◌⊎◌};
ghost use Rattle.monomials.specs.Exponents.{Exponents};
ghost use Rattle.residues.specs.Residues.{IsCongruent};
ghost use Rattle.formal_sums.specs.FormalSums.{Each, FormalSum, Key, coefficient, weighted_sum, shift, scale, IsSame};

/// Coefficients add up, and each weighted sum depends on the coefficients alone, and on the weights where there are any.
pub fn coefficients()
    ensures sum { (n : ℕ) (v w : FormalSum n) (k : Key n)
        → coefficient (v ++ w) k ≡ coefficient v k + coefficient w k }
    ensures weighted { (n p : ℕ) (f : Key n → ℕ) (v w : FormalSum n)
        → 0 < p → IsSame p v w → IsCongruent p (weighted_sum f v) (weighted_sum f w) }
    ensures agree { (n p : ℕ) (f g : Key n → ℕ) (v : FormalSum n)
        → 0 < p → ((k : Key n) → IsCongruent p (f k) (g k) ⊎ IsCongruent p (coefficient v k) 0)
        → IsCongruent p (weighted_sum f v) (weighted_sum g v) }
{}

/// Sameness is an equivalence that sums and multiples keep.
pub fn same_vectors()
    ensures reflexive { (n p : ℕ) (v : FormalSum n) → IsSame p v v }
    ensures symmetric { (n p : ℕ) (v w : FormalSum n) → IsSame p v w → IsSame p w v }
    ensures transitive { (n p : ℕ) (u v w : FormalSum n)
        → IsSame p u v → IsSame p v w → IsSame p u w }
    ensures sums { (n p : ℕ) (v w x y : FormalSum n)
        → IsSame p v w → IsSame p x y → IsSame p (v ++ x) (w ++ y) }
    ensures multiples { (n p c : ℕ) (m : Exponents n) (v w : FormalSum n)
        → 0 < p → IsSame p v w → IsSame p (scale c m v) (scale c m w) }
{}

/// Two vectors are the same where their coefficients agree at the keys of their terms: sameness is decided by a list.
pub fn compared_keys()
    ensures { (n p : ℕ) (v w : FormalSum n)
        → Each (λ t. IsCongruent p (coefficient v t.0) (coefficient w t.0)) (v ++ w) → IsSame p v w }
{}
