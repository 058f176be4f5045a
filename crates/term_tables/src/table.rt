// A table with a sum for each number of a monomial.
ghost use Rattle.std.specs.Prelude.{List, ℕ, ◌≡◌, ◌<◌, ◌≤◌, ◌+◌, ◌*◌, ◌++◌, ◌∷◌};
ghost use Rattle.std.specs.Vec.{vec_len};
ghost use Rattle.residues.specs.Residues.{IsCongruent};
ghost use Rattle.formal_sums.specs.FormalSums.{Each, IsSame, product, scale};
ghost use Rattle.term_tables.specs.Digits.{EachPair, HaveNoCarry, monomial_at, packed_sum};
ghost use Rattle.term_tables.specs.Tables.{table_sum};

/// The sum of two numbers but for a multiple of the modulus: `square` is one, and taken away where the first number has it.
pub(crate) fn added(square: u64, sum: u64, c: u64) -> u64
    requires small { c ≤ square }
    requires half { square < 9223372036854775808 }
    ensures { (p : ℕ) → IsCongruent p square 0 → IsCongruent p result (c + sum) }
{
    let rest = if sum < square { sum } else { sum - square };
    rest + c
}

/// The product of two residues.
pub(crate) fn times(a: u32, b: u32) -> u64
    ensures { result ≡ a * b }
{
    u64::from(a) * u64::from(b)
}

/// Adds c at the place k.
fn add_at(square: u64, sums: &mut Vec<u64>, k: usize, c: u64)
    requires place { k < vec_len sums.old }
    requires small { c ≤ square }
    requires half { square < 9223372036854775808 }
    ensures len { vec_len sums.new ≡ vec_len sums.old }
    ensures sum { (n p : ℕ) (bs : List (ℕ × ℕ)) → IsCongruent p square 0
        → IsSame p (table_sum n bs 0 sums.new.items) (((0, monomial_at n bs k), c) ∷ table_sum n bs 0 sums.old.items) }
{
    sums[k] = added(square, sums[k], c);
}

/// Adds c times the monomial `key` times each of the terms.
fn add_multiple(square: u64, sums: &mut Vec<u64>, key: usize, c: u32, terms: &[(usize, u32)])
    requires places { Each (λ t. key + t.0 < vec_len sums.old) terms.now }
    requires small { Each (λ t. c * t.1 ≤ square) terms.now }
    requires half { square < 9223372036854775808 }
    ensures len { vec_len sums.new ≡ vec_len sums.old }
    ensures sum { (n p : ℕ) (bs : List (ℕ × ℕ)) → IsCongruent p square 0 → Each (λ t. HaveNoCarry bs key t.0) terms.now
        → IsSame p (table_sum n bs 0 sums.new.items)
        (scale c (monomial_at n bs key) (packed_sum n bs terms.now) ++ table_sum n bs 0 sums.old.items) }
{
    let mut rest = terms;
    while let Some((t, more)) = rest.split_first() {
        add_at(square, sums, key + t.0, times(c, t.1));
        rest = more;
    }
}

/// Adds the products of each term of `a` with each of `b`.
pub(crate) fn add_products(square: u64, sums: &mut Vec<u64>, a: &[(usize, u32)], b: &[(usize, u32)])
    requires places { EachPair (λ s t. s.0 + t.0 < vec_len sums.old) a.now b.now }
    requires small { EachPair (λ s t. s.1 * t.1 ≤ square) a.now b.now }
    requires half { square < 9223372036854775808 }
    ensures sum { (n p : ℕ) (bs : List (ℕ × ℕ)) → IsCongruent p square 0 → EachPair (λ s t. HaveNoCarry bs s.0 t.0) a.now b.now
        → IsSame p (table_sum n bs 0 sums.new.items)
        (product (packed_sum n bs a.now) (packed_sum n bs b.now) ++ table_sum n bs 0 sums.old.items) }
{
    let mut rest = a;
    while let Some((s, more)) = rest.split_first() {
        add_multiple(square, sums, s.0, s.1, b);
        rest = more;
    }
}
