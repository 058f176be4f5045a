//! Standard monomials.

ghost use Rattle.std.specs.Prelude.{ℕ, ◌≡◌, ◌<◌, ◌≤◌, ◌*◌, ◌↔◌, List, get_or, length};
ghost use Rattle.monomials.specs.Exponents.{Exponents, exponents_of, times, unit};
ghost use Rattle.monomials.specs.Weights.{weighted_degree};
ghost use Rattle.change_laws.specs.Standard.{AreStandard, Has, HasMany, IsStandard, power};

/// A list that has 1, where it is standard, and each standard multiple of an item by a variable has all standard monomials.
pub fn listed_standard()
    ensures { (n : ℕ) (L ms : List (Exponents n))
        → (IsStandard L (unit n) → Has ms (unit n))
        → ((k i : ℕ) → k < length ms → i < n → IsStandard L (times (power n i 1) (get_or ms k (unit n)))
        → Has ms (times (power n i 1) (get_or ms k (unit n))))
        → (m : Exponents n) → IsStandard L m → Has ms m }
{}

/// Where a list of at most 256 has them all, there are not more than 256.
pub fn few_standard()
    ensures { (n : ℕ) (L ms : List (Exponents n)) → AreStandard L ms → length ms ≤ 256 → HasMany L → ⊥ }
{}

/// A monomial is a power of a variable exactly where its degree by weights above 0 comes from that variable alone.
pub fn variable_powers()
    ensures { (n : ℕ) (ws xs : List ℕ) (i : ℕ)
        → length ws ≡ n → ((k : ℕ) → k < length ws → 0 < get_or ws k 0) → i < n
        → (weighted_degree ws (exponents_of n xs) ≡ get_or ws i 0 * get_or xs i 0) ↔ ((a : ℕ) × (exponents_of n xs ≡ power n i a)) }
{}
