//! A substitution is a map of rings.

ghost use Rattle.std.specs.Prelude.{ℕ, ◌≡◌, ◌<◌, ◌++◌, ◌∷◌, List, [], get_or, length, map};
ghost use Rattle.monomials.specs.Exponents.{Exponents, unit};
ghost use Rattle.formal_sums.specs.FormalSums.{FormalSum, HasRank, IsSame, Each, product, scale};
ghost use Rattle.formal_sums.specs.Combinations.{IsMember};
ghost use Rattle.operation_laws.specs.Operations.{basis_vector};
ghost use Rattle.map_laws.specs.Graphs.{variable_monomial};
ghost use Rattle.map_laws.specs.Substitution.{substituted};

/// A substitution keeps sums, products with polynomials, constants and sameness, takes each variable to its polynomial, and
/// members of a module to members of the one that the images of its list generate (IVA chapter 3, section 3).
pub fn substitutions()
    ensures sums { (n m : ℕ) (F : List (FormalSum m)) (v w : FormalSum n) → substituted F (v ++ w) ≡ substituted F v ++ substituted F w }
    ensures same { (n m p : ℕ) (F : List (FormalSum m)) (v w : FormalSum n) → 0 < p → IsSame p v w → IsSame p (substituted F v) (substituted F w) }
    ensures multiples { (n m p c : ℕ) (F : List (FormalSum m)) (v : FormalSum n)
        → 0 < p → IsSame p (substituted F (scale c (unit n) v)) (scale c (unit m) (substituted F v)) }
    ensures products { (n m p : ℕ) (F : List (FormalSum m)) (u v : FormalSum n)
        → 0 < p → IsSame p (substituted F (product u v)) (product (substituted F u) (substituted F v)) }
    ensures variables { (n m p i : ℕ) (F : List (FormalSum m))
        → 0 < p → i < n → HasRank 1 (get_or F i []) → IsSame p (substituted F (((0, variable_monomial n i), 1) ∷ [])) (get_or F i []) }
    ensures constants { (n m p j : ℕ) (F : List (FormalSum m)) → 0 < p → IsSame p (substituted F (basis_vector {n = n} j)) (basis_vector j) }
    ensures members { (n m p : ℕ) (F : List (FormalSum m)) (L : List (FormalSum n)) (v : FormalSum n)
        → 0 < p → IsMember p L v → IsMember p (map (substituted F) L) (substituted F v) }
{}
