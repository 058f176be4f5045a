//! Powers of polynomials, and the degrees of products and powers.

ghost use Rattle.std.specs.Prelude.{ℕ, List, ◌≡◌, ◌+◌, ◌*◌, ◌<◌, ◌≤◌, ◌++◌};
ghost use Rattle.residues.specs.Residues.{IsDomain};
ghost use Rattle.monomials.specs.Exponents.{Exponents, times};
ghost use Rattle.monomials.specs.Weights.{weighted_degree};
ghost use Rattle.formal_sums.specs.FormalSums.{FormalSum, IsPolynomial, IsSame, product};
ghost use Rattle.sparse_poly.specs.Degrees.{HasDegreeWithin};
ghost use Rattle.sparse_poly.specs.Binomials.{binary_form, choose};
ghost use Rattle.sparse_poly.specs.Powers.{polynomial_power};
ghost use Rattle.sparse_poly.specs.Stops.{OccursInPolynomial, PowersFit};
ghost use Rattle.sparse_poly.specs.TermPowers.{raised_monomials};
ghost use Rattle.bases.specs.Leads.{IsLead};
ghost use Rattle.bases.specs.Settings.{Setting, IsLawful};

/// Products depend on the coefficients of both factors alone and associate; so powers depend on the coefficients alone,
/// and exponents add up. Powers are polynomials.
pub fn powers()
    ensures products { (n p : ℕ) (u v w x : FormalSum n)
        → 0 < p → IsSame p u w → IsSame p v x → IsSame p (product u v) (product w x) }
    ensures associative { (n p : ℕ) (u v w : FormalSum n)
        → IsSame p (product (product u v) w) (product u (product v w)) }
    ensures same { (n p k : ℕ) (v w : FormalSum n)
        → 0 < p → IsSame p v w → IsSame p (polynomial_power v k) (polynomial_power w k) }
    ensures sum { (n p i j : ℕ) (v : FormalSum n)
        → 0 < p → IsSame p (polynomial_power v (i + j)) (product (polynomial_power v i) (polynomial_power v j)) }
    ensures polynomial { (n k : ℕ) (v : FormalSum n) → IsPolynomial (polynomial_power v k) }
{}

/// By whatever weights, the degree of a product is at most the sum of the degrees, and that of a power at most its exponent times the degree.
pub fn degrees()
    ensures product { (n p d e : ℕ) (ws : List ℕ) (u v : FormalSum n)
        → HasDegreeWithin ws p d u → HasDegreeWithin ws p e v → HasDegreeWithin ws p (d + e) (product u v) }
    ensures power { (n p d k : ℕ) (ws : List ℕ) (v : FormalSum n)
        → HasDegreeWithin ws p d v → HasDegreeWithin ws p (k * d) (polynomial_power v k) }
{}

/// In a domain the lead of a product of polynomials is the product of the leads (IVA chapter 2, section 2). So where the
/// monomials of two powers fit, by whatever weights, those of all powers fit whose exponents sum to no more.
pub fn top_degrees()
    ensures product { (n : ℕ) (S : Setting n) (u v : FormalSum n) (a b : Exponents n)
        → IsLawful S → IsPolynomial u → IsPolynomial v → IsLead S u (0, a) → IsLead S v (0, b)
        → IsLead S (product u v) (0, times a b) }
    ensures powers { (n p i j : ℕ) (ws : List ℕ) (v : FormalSum n)
        → IsDomain p → IsPolynomial v
        → ((a b : Exponents n) → OccursInPolynomial p (polynomial_power v i) a → OccursInPolynomial p (polynomial_power v j) b
        → weighted_degree ws a + weighted_degree ws b ≤ 65535)
        → PowersFit ws p v (i + j) }
{}

/// The binomial theorem; and modulo a prime p the power p of a polynomial is the sum of its terms with their monomials to the
/// power p, whose coefficients stay (the Frobenius map; Fermat).
pub fn prime_powers()
    ensures binomial { (n p k : ℕ) (u v : FormalSum n)
        → 0 < p → IsPolynomial u → IsPolynomial v → IsSame p (polynomial_power (u ++ v) k) (binary_form (choose k) u v (k + 1)) }
    ensures frobenius { (n p : ℕ) (v : FormalSum n)
        → IsDomain p → IsPolynomial v → IsSame p (polynomial_power v p) (raised_monomials p v) }
{}
