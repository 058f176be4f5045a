//! Lifts: the cofactors of a member, up to syzygies.

ghost use Rattle.std.specs.Prelude.{ℕ, ◌≡◌, ◌<◌, ◌++◌, ◌-◌, List, length};
ghost use Rattle.monomials.specs.Exponents.{unit};
ghost use Rattle.formal_sums.specs.FormalSums.{FormalSum, scale, IsOfRank, IsSame};
ghost use Rattle.formal_sums.specs.Combinations.{combination, IsMember, IsSyzygy};
ghost use Rattle.bases.specs.Settings.{Setting, IsLawful};
ghost use Rattle.bases.specs.Leads.{IsNormal};
ghost use Rattle.bases.specs.Bases.{HasFreeTerms, IsGroebnerBasis};

/// Cofactors of one vector differ by a syzygy; without keys that the leads of a Gröbner basis Z of the syzygies cover
/// they are the same, and in normal form one list. H generates the syzygies of F, T is a setting of the cofactors
/// (UAG chapter 5, section 3; IVA chapter 2, section 6).
pub fn lifts()
    ensures differ { (n p : ℕ) (F : List (FormalSum n)) (a b : FormalSum n)
        → IsOfRank p (length F) a → IsOfRank p (length F) b → 0 < p
        → IsSame p (combination F a) (combination F b)
        → IsSyzygy p F (a ++ scale (p - 1) (unit n) b) }
    ensures same { (n : ℕ) (T : Setting n) (F H Z : List (FormalSum n)) (a b : FormalSum n)
        → IsLawful T → IsGroebnerBasis T H Z
        → ((c : FormalSum n) → IsSyzygy T.modulus F c → IsMember T.modulus H c)
        → IsOfRank T.modulus (length F) a → IsOfRank T.modulus (length F) b
        → IsSame T.modulus (combination F a) (combination F b)
        → HasFreeTerms T Z a → HasFreeTerms T Z b → IsSame T.modulus a b }
    ensures equal { (n : ℕ) (T : Setting n) (F H Z : List (FormalSum n)) (a b : FormalSum n)
        → IsLawful T → IsGroebnerBasis T H Z
        → ((c : FormalSum n) → IsSyzygy T.modulus F c → IsMember T.modulus H c)
        → IsOfRank T.modulus (length F) a → IsOfRank T.modulus (length F) b
        → IsSame T.modulus (combination F a) (combination F b)
        → IsNormal T a → IsNormal T b → HasFreeTerms T Z a → HasFreeTerms T Z b → a ≡ b }
{}
