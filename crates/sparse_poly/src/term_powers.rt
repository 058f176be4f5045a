// Powers of monomials and of terms.
ghost use Rattle.std.specs.Prelude.{◌≡◌, ◌<◌, ◌≤◌, ◌+◌, ◌*◌, IfOk, length, map, slice_index};
ghost use Rattle.monomials.specs.Exponents.{exponents_of, times};
ghost use Rattle.monomial_orders.specs.Kept.{IsWeighed};
ghost use Rattle.term_lists.specs.Vectors.{IsMonomialOver};
ghost use Rattle.sparse_poly.specs.TermPowers.{IsMixedTerm, IsRaisedTerm, monomial_power};

use module_vectors::{Key, NoMemory, Ring};
use monomial_orders::{Mono, MonoStop, Weights};
use std::alloc::Global;

/// An exponent times k.
#[tactic(auto, using(crate::proofs::TermPowers::product_small))]
fn multiple(m: &Mono, i: usize, k: u128) -> u16
    requires index { i < length m.now.exponents }
    requires small { k * m.now.degree ≤ 65535 }
    ensures { result ≡ k * slice_index m.now.exponents i }
{
    m.bounds();
    (k * u128::from(m.exponent(i))) as u16
}

/// Each exponent times k.
fn multiplied(alloc: Global, m: &Mono, k: u128) -> Result<Vec<u16>, NoMemory>
    requires { k * m.now.degree ≤ 65535 }
    ensures { IfOk result (λ v. v.items ≡ map (λ e. k * e) m.now.exponents) }
{
    let mut raised = Vec::with_capacity(alloc, m.variables())?;
    for i in 0..m.variables() {
        raised.push(multiple(m, i, k))?;
    }
    Ok(raised)
}

/// The monomial to the power k, of a degree of at most 65,535.
pub(crate) fn raised_monomial(
    alloc: Global,
    weights: &Weights,
    m: &Mono,
    k: u128,
) -> Result<Mono, NoMemory>
    requires weighed { IsWeighed (length weights.now) weights.now m.now }
    requires small { k * m.now.degree ≤ 65535 }
    ensures weighed { IfOk result (IsWeighed (length weights.now) weights.now) }
    ensures exponents { let n = length weights.now in
        IfOk result (λ r. exponents_of n r.exponents ≡ monomial_power k (exponents_of n m.now.exponents)) }
    ensures degree { IfOk result (λ r. r.degree ≡ k * m.now.degree) }
{
    let raised = multiplied(alloc, m, k)?;
    match Mono::from_exponents(alloc, weights, &raised) {
        Ok(power) => Ok(power),
        Err(MonoStop::Memory) => Err(NoMemory),
        Err(MonoStop::Degree) => unreachable!(),
    }
}

/// The term with its monomial to the power p, modulo the prime p.
pub(crate) fn raised_term(
    alloc: Global,
    ring: &Ring,
    t: &(Key, u32),
) -> Result<(Key, u32), NoMemory>
    requires weighed { IsMonomialOver ring.now t.now.0.monomial }
    requires reduced { t.now.1 < ring.now.modulus.value }
    requires small { ring.now.modulus.value * t.now.0.monomial.degree ≤ 65535 }
    ensures { IfOk result (IsRaisedTerm ring.now t.now) }
{
    let p = u128::from(ring.modulus.value());
    let monomial = raised_monomial(alloc, &ring.weights, &t.0.monomial, p)?;
    Ok((
        Key {
            position: t.0.position,
            monomial,
        },
        t.1,
    ))
}

/// The product of two monomials, of a degree of at most 65,535.
fn product_within(alloc: Global, _weights: &Weights, a: &Mono, b: &Mono) -> Result<Mono, NoMemory>
    requires left { IsWeighed (length _weights.now) _weights.now a.now }
    requires right { IsWeighed (length _weights.now) _weights.now b.now }
    requires small { a.now.degree + b.now.degree ≤ 65535 }
    ensures weighed { IfOk result (IsWeighed (length _weights.now) _weights.now) }
    ensures exponents { let n = length _weights.now in
        IfOk result (λ m. exponents_of n m.exponents ≡ times (exponents_of n a.now.exponents) (exponents_of n b.now.exponents)) }
{
    match Mono::mul(alloc, a, b) {
        Ok(product) => Ok(product),
        Err(MonoStop::Memory) => Err(NoMemory),
        Err(MonoStop::Degree) => unreachable!(),
    }
}

/// The term c a^i b^j of two terms, of a degree of at most 65,535, at position 0.
pub(crate) fn mixed_term(
    alloc: Global,
    ring: &Ring,
    c: u32,
    a: &(Key, u32),
    i: u128,
    b: &(Key, u32),
    j: u128,
) -> Result<(Key, u32), NoMemory>
    requires factor { c < ring.now.modulus.value }
    requires left { IsMonomialOver ring.now a.now.0.monomial }
    requires left_residue { a.now.1 < ring.now.modulus.value }
    requires right { IsMonomialOver ring.now b.now.0.monomial }
    requires right_residue { b.now.1 < ring.now.modulus.value }
    requires small { i * a.now.0.monomial.degree + j * b.now.0.monomial.degree ≤ 65535 }
    ensures { IfOk result (IsMixedTerm ring.now c i j a.now b.now) }
{
    let left = raised_monomial(alloc, &ring.weights, &a.0.monomial, i)?;
    let right = raised_monomial(alloc, &ring.weights, &b.0.monomial, j)?;
    let monomial = product_within(alloc, &ring.weights, &left, &right)?;
    let modulus = &ring.modulus;
    let first = modulus.power(a.1, i);
    let second = modulus.power(b.1, j);
    let residues = modulus.mul(first, second);
    let residue = modulus.mul(c, residues);
    let key = Key {
        position: 0,
        monomial,
    };
    Ok((key, residue))
}
