//! Remainders of a division.

ghost use Rattle.std.specs.Prelude.{ℕ, ◌≡◌, ◌↔◌, ◌-◌, ◌++◌, List, []};
ghost use Rattle.monomials.specs.Exponents.{unit};
ghost use Rattle.formal_sums.specs.FormalSums.{FormalSum, Key, scale, IsSame};
ghost use Rattle.formal_sums.specs.Combinations.{IsMember};
ghost use Rattle.bases.specs.Settings.{Setting, IsLawful};
ghost use Rattle.bases.specs.Leads.{IsLead, IsNormal};
ghost use Rattle.bases.specs.Bases.{HasFreeTerms, IsCovered, IsGroebnerBasis};

/// A member without a covered lead is 0: the test for membership (IVA chapter 2, section 6).
pub fn zero_remainder()
    ensures { (n : ℕ) (S : Setting n) (F G : List (FormalSum n)) (v : FormalSum n)
        → IsLawful S → IsGroebnerBasis S F G → IsMember S.modulus F v
        → ((k : Key n) → IsLead S v k → IsCovered S G k → ⊥) → IsSame S.modulus v [] }
{}

/// Two remainders of one vector are the same: they differ by a member, and have no covered key (IVA chapter 2, section 6).
pub fn one_remainder()
    ensures { (n : ℕ) (S : Setting n) (F G : List (FormalSum n)) (v w : FormalSum n)
        → IsLawful S → IsGroebnerBasis S F G
        → IsMember S.modulus F (v ++ scale (S.modulus - 1) (unit n) w)
        → HasFreeTerms S G v → HasFreeTerms S G w → IsSame S.modulus v w }
{}

/// Remainders in normal form of vectors that differ by a member are one list: the normal form by a Gröbner basis
/// (IVA chapter 2, section 6).
pub fn one_normal_form()
    ensures { (n : ℕ) (S : Setting n) (F G : List (FormalSum n)) (v w : FormalSum n)
        → IsLawful S → IsGroebnerBasis S F G
        → IsMember S.modulus F (v ++ scale (S.modulus - 1) (unit n) w)
        → IsNormal S v → IsNormal S w → HasFreeTerms S G v → HasFreeTerms S G w → v ≡ w }
{}

/// A vector is a member exactly where its normal form w is empty (IVA chapter 2, section 6).
pub fn membership_test()
    ensures { (n : ℕ) (S : Setting n) (F G : List (FormalSum n)) (v w : FormalSum n)
        → IsLawful S → IsGroebnerBasis S F G
        → IsMember S.modulus F (v ++ scale (S.modulus - 1) (unit n) w)
        → IsNormal S w → HasFreeTerms S G w
        → IsMember S.modulus F v ↔ w ≡ [] }
{}
