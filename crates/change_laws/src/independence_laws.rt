//! Independence modulo an ideal.

ghost use Rattle.std.specs.Prelude.{ℕ, ◌<◌, ◌≤◌, ◌++◌, List, length};
ghost use Rattle.residues.specs.Residues.{IsDomain};
ghost use Rattle.monomials.specs.Exponents.{Exponents};
ghost use Rattle.formal_sums.specs.FormalSums.{FormalSum, IsSame, scale};
ghost use Rattle.formal_sums.specs.Combinations.{IsMember};
ghost use Rattle.bases.specs.Settings.{Setting, IsLawful};
ghost use Rattle.bases.specs.Bases.{IsCovered, IsGroebnerBasis};
ghost use Rattle.change_laws.specs.Standard.{AreDistinct, Has};
ghost use Rattle.change_laws.specs.Combinations.{AreIndependent, IsSameModulo};
ghost use Rattle.change_laws.specs.Echelons.{AreEchelonRows};

/// To be the same modulo a module is an equivalence, which sums and multiples keep, and so is to be a member.
pub fn same_modulo()
    ensures same { (n p : ℕ) (F : List (FormalSum n)) (v w : FormalSum n) → IsSame p v w → IsSameModulo p F v w }
    ensures symmetric { (n p : ℕ) (F : List (FormalSum n)) (v w : FormalSum n) → IsSameModulo p F v w → IsSameModulo p F w v }
    ensures transitive { (n p : ℕ) (F : List (FormalSum n)) (u v w : FormalSum n)
        → IsSameModulo p F u v → IsSameModulo p F v w → IsSameModulo p F u w }
    ensures sums { (n p : ℕ) (F : List (FormalSum n)) (u v w x : FormalSum n)
        → IsSameModulo p F u v → IsSameModulo p F w x → IsSameModulo p F (u ++ w) (v ++ x) }
    ensures multiples { (n p c : ℕ) (F : List (FormalSum n)) (m : Exponents n) (v w : FormalSum n)
        → 0 < p → IsSameModulo p F v w → IsSameModulo p F (scale c m v) (scale c m w) }
    ensures members { (n p : ℕ) (F : List (FormalSum n)) (v w : FormalSum n)
        → 0 < p → IsSameModulo p F v w → IsMember p F v → IsMember p F w }
{}

/// Distinct monomials that no lead of a Gröbner basis divides are independent modulo its module (IVA chapter 5, section 3).
pub fn uncovered_monomials()
    ensures { (n : ℕ) (S : Setting n) (F G : List (FormalSum n)) (B : List (Exponents n))
        → IsLawful S → IsGroebnerBasis S F G → AreDistinct B → ((m : Exponents n) → Has B m → IsCovered S G (0, m) → ⊥)
        → AreIndependent S.modulus F B }
{}

/// Monomials whose normal forms by independent monomials have rows in echelon form are independent, and not more than these.
pub fn echelon_rows()
    ensures independent { (n p : ℕ) (F : List (FormalSum n)) (B N : List (Exponents n)) (r c : ℕ → ℕ → ℕ) (q : ℕ → ℕ)
        → IsDomain p → AreEchelonRows p F B N r c q → AreIndependent p F B → AreIndependent p F N }
    ensures few { (n p : ℕ) (F : List (FormalSum n)) (B N : List (Exponents n)) (r c : ℕ → ℕ → ℕ) (q : ℕ → ℕ)
        → IsDomain p → AreEchelonRows p F B N r c q → length N ≤ length B }
{}
