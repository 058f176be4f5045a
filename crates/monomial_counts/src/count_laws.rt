//! How many monomials of a degree a list leaves.

ghost use Rattle.std.specs.Prelude.{ℕ, ◌≡◌, ◌+◌, ◌<◌, ◌↔◌, List, ◌∷◌, map, true};
ghost use Rattle.monomials.specs.Exponents.{Divides, Exponents, quotient};
ghost use Rattle.monomials.specs.Weights.{weighted_degree};
ghost use Rattle.monomial_counts.specs.Counts.{is_divisor, standard_count, multiple_count, sum_of_degree};

/// One more monomial takes its multiples away from the standard monomials of each degree from its own on, and none
/// below (IVA chapter 9, section 2).
pub fn standard_counts()
    ensures more { (n : ℕ) (ws : List ℕ) (ms : List (Exponents n)) (m : Exponents n) (d : ℕ)
        → standard_count ws (m ∷ ms) (weighted_degree ws m + d) + multiple_count ws ms m d
        ≡ standard_count ws ms (weighted_degree ws m + d) }
    ensures below { (n : ℕ) (ws : List ℕ) (ms : List (Exponents n)) (m : Exponents n) (d : ℕ)
        → d < weighted_degree ws m → standard_count ws (m ∷ ms) d ≡ standard_count ws ms d }
{}

/// The multiples of m that no monomial of ms divides are m times the standard monomials of the quotients of ms by m
/// (IVA chapter 4, section 4: the ideal quotient).
pub fn multiple_counts()
    ensures { (n : ℕ) (ws : List ℕ) (ms : List (Exponents n)) (m : Exponents n) (d : ℕ)
        → multiple_count ws ms m d ≡ standard_count ws (map (λ s. quotient s m) ms) d }
{}

/// A sum over a degree adds up, and has each monomial of that degree once and no other: so a count of monomials counts
/// what it says.
pub fn sums_of_degree()
    ensures sum { (n d : ℕ) (ws : List ℕ) (f g : Exponents n → ℕ)
        → sum_of_degree ws n d (λ v. f v + g v) ≡ sum_of_degree ws n d f + sum_of_degree ws n d g }
    ensures once { (n d : ℕ) (ws : List ℕ) (v : Exponents n) (f : Exponents n → ℕ)
        → weighted_degree ws v ≡ d → ((w : Exponents n) → (w ≡ v → ⊥) → f w ≡ 0) → sum_of_degree ws n d f ≡ f v }
    ensures other { (n d : ℕ) (ws : List ℕ) (v : Exponents n) (f : Exponents n → ℕ)
        → (weighted_degree ws v ≡ d → ⊥) → ((w : Exponents n) → (w ≡ v → ⊥) → f w ≡ 0)
        → sum_of_degree ws n d f ≡ 0 }
{}

/// The test of divisibility is exact.
pub fn divisor_tests()
    ensures { (n : ℕ) (m v : Exponents n) → (is_divisor m v ≡ true) ↔ Divides m v }
{}
