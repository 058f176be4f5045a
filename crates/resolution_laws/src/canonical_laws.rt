//! Canonical resolutions.

ghost use Rattle.std.specs.Prelude.{ℕ, ◌≡◌, ◌<◌, ◌≤◌, ◌↔◌, List, [], ◌∷◌, get_or, length};
ghost use Rattle.formal_sums.specs.FormalSums.{FormalSum, IsOfRank, IsSame};
ghost use Rattle.bases.specs.Settings.{Setting, IsLawful};
ghost use Rattle.bases.specs.Leads.{IsMonicList, IsNormal};
ghost use Rattle.resolution_laws.specs.Resolutions.{IsCanonical, IsCanonicalFrom, IsExactFrom};

/// A canonical resolution is exact.
pub fn canonical_exact()
    ensures { (n : ℕ) (S : Setting n) (F : List (FormalSum n)) (maps : List (List (FormalSum n)))
        → IsCanonicalFrom S F maps → IsExactFrom S.modulus F maps }
{}

/// A canonical resolution over n variables, n at least 1, has at most n maps (Eisenbud, section 15.5).
pub fn canonical_length()
    ensures { (n : ℕ) (S : Setting n) (A : List (FormalSum n)) (maps : List (List (FormalSum n)))
        → IsLawful S → ((i : ℕ) → i < length A → IsOfRank S.modulus S.rank (get_or A i []))
        → 0 < n → IsCanonical S A maps → length maps ≤ n }
{}

/// There is one canonical resolution.
pub fn canonical_unique()
    ensures { (n : ℕ) (S : Setting n) (A : List (FormalSum n)) (maps others : List (List (FormalSum n)))
        → IsLawful S → ((i : ℕ) → i < length A → IsOfRank S.modulus S.rank (get_or A i []))
        → IsCanonical S A maps → IsCanonical S A others → maps ≡ others }
{}

/// One monic vector in normal form resolves its module.
pub fn canonical_vector()
    ensures { (n : ℕ) (S : Setting n) (g : FormalSum n)
        → IsLawful S → IsNormal S g → IsMonicList S (g ∷ []) → IsCanonical S (g ∷ []) ((g ∷ []) ∷ []) }
{}

/// The resolution of a zero module has no maps; the list without maps resolves no other module.
pub fn canonical_zero()
    ensures only { (n : ℕ) (S : Setting n) (A : List (FormalSum n)) (maps : List (List (FormalSum n)))
        → IsLawful S → ((i : ℕ) → i < length A → IsSame S.modulus (get_or A i []) []) → IsCanonical S A maps → maps ≡ [] }
    ensures itself { (n : ℕ) (S : Setting n) (A : List (FormalSum n))
        → IsCanonical S A [] ↔ ((i : ℕ) → i < length A → IsSame S.modulus (get_or A i []) []) }
{}
