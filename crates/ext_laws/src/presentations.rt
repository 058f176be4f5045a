//! The whole free module, and presentations of the zero module.

ghost use Rattle.std.specs.Prelude.{ℕ, ◌≡◌, ◌<◌, List, length, ◌↔◌};
ghost use Rattle.formal_sums.specs.FormalSums.{Each, FormalSum, IsOfRank, IsSame};
ghost use Rattle.formal_sums.specs.Combinations.{IsMember, combination};
ghost use Rattle.bases.specs.Bases.{IsReducedBasis};
ghost use Rattle.bases.specs.Settings.{Setting, IsLawful};
ghost use Rattle.operation_laws.specs.Operations.{IsSyzygyModulo};
ghost use Rattle.ext_laws.specs.Transposes.{HasDescendingUnits, unit_vectors};

/// The unit vectors are the reduced basis of the whole free module.
pub fn whole_modules()
    ensures members { (n p m : ℕ) (v : FormalSum n) → IsMember p (unit_vectors m) v ↔ IsOfRank p m v }
    ensures basis { (n : ℕ) (S : Setting n)
        → IsLawful S → HasDescendingUnits S → IsReducedBasis S (unit_vectors S.rank) (unit_vectors S.rank) }
{}

/// A vector of the module of Z stands for zero in what the relations of Z modulo I present exactly where it is in the module of I,
/// by whatever cofactors it is a combination of Z.
pub fn presented_vectors()
    ensures { (n p : ℕ) (Z I Q : List (FormalSum n)) (a v : FormalSum n)
        → ((b : FormalSum n) → IsMember p Q b ↔ IsSyzygyModulo p Z I b) → IsOfRank p (length Z) a → IsSame p (combination Z a) v
        → IsMember p Q a ↔ IsMember p I v }
{}

/// The module of Z is in that of I exactly where the reduced basis of the relations of Z modulo I is that of the whole module:
/// such relations present the zero module.
pub fn zero_presentations()
    ensures { (n : ℕ) (S : Setting n) (Z I Q : List (FormalSum n))
        → IsLawful S → HasDescendingUnits S → S.rank ≡ length Z → IsReducedBasis S Q Q
        → ((a : FormalSum n) → IsMember S.modulus Q a ↔ IsSyzygyModulo S.modulus Z I a)
        → Q ≡ unit_vectors (length Z) ↔ Each (IsMember S.modulus I) Z }
{}
