// Powers of sums of two terms.
ghost use Rattle.std.specs.Prelude.{◌≡◌, ◌∷◌, [], ◌+◌, ◌*◌, ◌%◌, ◌<◌, ◌≤◌, IfOk};
ghost use Rattle.term_lists.specs.Rings.{variables};
ghost use Rattle.term_lists.specs.Vectors.{AreTermsOver, StandsFor, sum_of};
ghost use Rattle.sparse_poly.specs.Binomials.{choose};
ghost use Rattle.sparse_poly.specs.Powers.{polynomial_power};
ghost use Rattle.sparse_poly.specs.TermPowers.{IsTermWithin};

use crate::term_powers::mixed_term;
use module_vectors::{Key, NoMemory, Ring};
use std::alloc::Global;
use zp_field::Modulus;

/// A number of at most 32 bits.
fn narrow(n: u128) -> u32
    requires { n < 4294967296 }
    ensures { result ≡ n }
{
    n as u32
}

/// The binomial coefficient n over i + 1 from that over i, modulo a prime above n: the latter times n - i by i + 1.
fn next_coefficient(modulus: &Modulus, n: u128, i: u128, c: u32) -> u32
    requires below { n < modulus.now.value }
    requires index { i ≤ n }
    requires coefficient { c ≡ choose n i % modulus.now.value }
    ensures value { result ≡ choose n (i + 1) % modulus.now.value }
    ensures small { result < modulus.now.value }
{
    modulus.domain();
    if i == n {
        return 0;
    }
    let next = narrow(i + 1);
    let left = narrow(n - i);
    match modulus.invert(next) {
        Some(inverse) => modulus.mul(modulus.mul(c, left), inverse),
        None => unreachable!(),
    }
}

/// The terms of (a + b)^n for two terms of a degree of at most d, n being below the modulus: its binomial coefficients
/// (IVA chapter 1, section 1) times a^(n - i) b^i.
pub(crate) fn binomial_terms(
    alloc: Global,
    ring: &Ring,
    a: &(Key, u32),
    b: &(Key, u32),
    d: u128,
    n: u128,
) -> Result<Vec<(Key, u32)>, NoMemory>
    requires left { IsTermWithin ring.now d a.now }
    requires right { IsTermWithin ring.now d b.now }
    requires small { n * d ≤ 65535 }
    requires below { n < ring.now.modulus.value }
    ensures terms { IfOk result (λ v. AreTermsOver ring.now v.items) }
    ensures power { IfOk result (λ v. StandsFor ring.now v.items (polynomial_power (sum_of (variables ring.now) (a.now ∷ b.now ∷ [])) n)) }
{
    let modulus = &ring.modulus;
    modulus.domain();
    let mut terms = Vec::with_capacity(alloc, n as usize)?;
    let mut coefficient = 1;
    for i in 0..n + 1 {
        let term = mixed_term(alloc, ring, coefficient, a, n - i, b, i)?;
        terms.push(term)?;
        coefficient = next_coefficient(modulus, n, i, coefficient);
    }
    Ok(terms)
}

/// The term of a^n for a term of a degree of at most d.
pub(crate) fn single_terms(
    alloc: Global,
    ring: &Ring,
    a: &(Key, u32),
    d: u128,
    n: u128,
) -> Result<Vec<(Key, u32)>, NoMemory>
    requires term { IsTermWithin ring.now d a.now }
    requires small { n * d ≤ 65535 }
    ensures terms { IfOk result (λ v. AreTermsOver ring.now v.items) }
    ensures power { IfOk result (λ v. StandsFor ring.now v.items (polynomial_power (sum_of (variables ring.now) (a.now ∷ [])) n)) }
{
    ring.modulus.domain();
    let mut terms = Vec::with_capacity(alloc, 1)?;
    let term = mixed_term(alloc, ring, 1, a, n, a, 0)?;
    terms.push(term)?;
    Ok(terms)
}
