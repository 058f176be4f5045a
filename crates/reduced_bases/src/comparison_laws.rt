//! What equal reduced bases say.

ghost use Rattle.std.specs.Prelude.{ℕ, ◌≡◌, ◌<◌, ◌↔◌, List, [], get_or, length};
ghost use Rattle.formal_sums.specs.FormalSums.{FormalSum, IsOfRank};
ghost use Rattle.formal_sums.specs.Combinations.{IsSameModule};
ghost use Rattle.bases.specs.Settings.{Setting, IsLawful};
ghost use Rattle.bases.specs.Bases.{IsReducedBasis};

/// Lists that generate one module have the same reduced bases (IVA chapter 2, section 7).
pub fn same_reduced_basis()
    ensures { (n : ℕ) (S : Setting n) (F H G : List (FormalSum n))
        → IsLawful S → IsSameModule S.modulus F H → IsReducedBasis S F G → IsReducedBasis S H G }
{}

/// Two lists of the setting's rank have equal reduced bases exactly where they generate one module
/// (IVA chapter 2, section 7).
pub fn equal_bases()
    ensures { (n : ℕ) (S : Setting n) (F H G K : List (FormalSum n))
        → IsLawful S
        → ((i : ℕ) → i < length F → IsOfRank S.modulus S.rank (get_or F i []))
        → ((i : ℕ) → i < length H → IsOfRank S.modulus S.rank (get_or H i []))
        → IsReducedBasis S F G → IsReducedBasis S H K
        → G ≡ K ↔ IsSameModule S.modulus F H }
{}
