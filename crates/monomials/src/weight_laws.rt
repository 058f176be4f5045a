//! Degrees by weights.

ghost use Rattle.std.specs.Prelude.{ℕ, List, [], ◌≡◌, ◌+◌, ◌*◌};
ghost use Rattle.monomials.specs.Exponents.{Exponents, IsWithin, cons, degree, times, unit};
ghost use Rattle.monomials.specs.Weights.{first_weight, other_weights, weighted_degree};

/// Weighted degrees add up, and 1 alone has weighted degree 0; the exponents are within it, since no weight is below 1. Without
/// weights it is the total degree.
pub fn weighted_degrees()
    ensures sum { (n : ℕ) (ws : List ℕ) (a b : Exponents n)
        → weighted_degree ws (times a b) ≡ weighted_degree ws a + weighted_degree ws b }
    ensures unit { (n : ℕ) (ws : List ℕ) → weighted_degree ws (unit n) ≡ 0 }
    ensures zero { (n : ℕ) (ws : List ℕ) (a : Exponents n) → weighted_degree ws a ≡ 0 → a ≡ unit n }
    ensures within { (n : ℕ) (ws : List ℕ) (a : Exponents n) → IsWithin (weighted_degree ws a) a }
    ensures first { (n : ℕ) (ws : List ℕ) (a : ℕ) (v : Exponents n)
        → weighted_degree ws (cons a v) ≡ first_weight ws * a + weighted_degree (other_weights ws) v }
    ensures none { (n : ℕ) (a : Exponents n) → weighted_degree [] a ≡ degree a }
{}
