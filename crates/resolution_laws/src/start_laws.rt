//! The first maps of canonical resolutions.

ghost use Rattle.std.specs.Prelude.{ℕ, ◌≡◌, ◌<◌, ◌≤◌, List, [], get_or, length, take};
ghost use Rattle.formal_sums.specs.FormalSums.{FormalSum, IsOfRank};
ghost use Rattle.bases.specs.Settings.{Setting, IsLawful};
ghost use Rattle.resolution_laws.specs.Resolutions.{IsCanonical, IsCanonicalStart};

/// The first maps of a canonical resolution are a start of it.
pub fn canonical_starts()
    ensures { (n count : ℕ) (S : Setting n) (A : List (FormalSum n)) (maps : List (List (FormalSum n)))
        → IsCanonical S A maps → IsCanonicalStart S A count (take count maps) }
{}

/// A module has one start of so many maps.
pub fn start_unique()
    ensures { (n count : ℕ) (S : Setting n) (A : List (FormalSum n)) (maps others : List (List (FormalSum n)))
        → IsLawful S → ((i : ℕ) → i < length A → IsOfRank S.modulus S.rank (get_or A i []))
        → IsCanonicalStart S A count maps → IsCanonicalStart S A count others → maps ≡ others }
{}

/// A start has at most so many maps, and one with fewer is the whole resolution.
pub fn start_counts()
    ensures count { (n count : ℕ) (S : Setting n) (A : List (FormalSum n)) (maps : List (List (FormalSum n)))
        → IsCanonicalStart S A count maps → length maps ≤ count }
    ensures whole { (n count : ℕ) (S : Setting n) (A : List (FormalSum n)) (maps : List (List (FormalSum n)))
        → IsCanonicalStart S A count maps → length maps < count → IsCanonical S A maps }
{}
