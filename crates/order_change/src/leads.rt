// Monomials against the leads of a basis.
ghost use Rattle.std.specs.Prelude.{◌≡◌, ◌<◌, ◌≤◌, ◌+◌, ◌↔◌, ℕ, IfNone, IfOk, IfSome, IsTrue, get_or, length};
ghost use Rattle.monomials.specs.Exponents.{exponents_of, times, unit};
ghost use Rattle.monomial_orders.specs.Kept.{IsWeighed, monomials};
ghost use Rattle.change_laws.specs.Standard.{Has, IsInfinite, IsStandard, power};
ghost use Rattle.order_change.specs.Lists.{AreMonomials};

use monomial_orders::{Mono, MonoStop, NoMemory, Weights};
use std::alloc::Global;

/// Does no monomial of the list divide m?
pub(crate) fn is_standard(weights: &Weights, leads: &[Mono], m: &Mono) -> bool
    requires leads { AreMonomials (length weights.now) weights.now leads.now }
    requires monomial { IsWeighed (length weights.now) weights.now m.now }
    ensures { let n = length weights.now in IsTrue result ↔ IsStandard (monomials n leads.now) (exponents_of n m.now.exponents) }
{
    for lead in leads {
        if lead.divides(m) {
            return false;
        }
    }
    true
}

/// Where m stands in the list.
pub(crate) fn position(weights: &Weights, list: &[Mono], m: &Mono) -> Option<usize>
    requires list { AreMonomials (length weights.now) weights.now list.now }
    requires monomial { IsWeighed (length weights.now) weights.now m.now }
    ensures some { let n = length weights.now in
        IfSome result (λ k. (k < length list.now) × (get_or (monomials n list.now) k (unit n) ≡ exponents_of n m.now.exponents)) }
    ensures none { let n = length weights.now in IfNone result (Has (monomials n list.now) (exponents_of n m.now.exponents) → ⊥) }
{
    for i in 0..list.len() {
        if list[i].equal(m) {
            return Some(i);
        }
    }
    None
}

/// Is m a power of the variable with this index? Then its degree comes from this variable alone.
fn is_power(weights: &Weights, i: usize, m: &Mono) -> bool
    requires index { i < length weights.now }
    requires monomial { IsWeighed (length weights.now) weights.now m.now }
    ensures { let n = length weights.now in IsTrue result ↔ ((a : ℕ) × (exponents_of n m.now.exponents ≡ power n i a)) }
{
    m.degree() == u128::from(weights.as_slice()[i]) * u128::from(m.exponent(i))
}

/// Has the variable with this index a power in the list?
fn has_power(weights: &Weights, leads: &[Mono], i: usize) -> bool
    requires leads { AreMonomials (length weights.now) weights.now leads.now }
    requires index { i < length weights.now }
    ensures { let n = length weights.now in IsTrue result ↔ ((a : ℕ) × Has (monomials n leads.now) (power n i a)) }
{
    for lead in leads {
        if is_power(weights, i, lead) {
            return true;
        }
    }
    false
}

/// Has some variable no power in the list?
pub(crate) fn is_infinite(weights: &Weights, leads: &[Mono]) -> bool
    requires { AreMonomials (length weights.now) weights.now leads.now }
    ensures { let n = length weights.now in IsTrue result ↔ IsInfinite (monomials n leads.now) }
{
    for i in 0..weights.len() {
        if !has_power(weights, leads, i) {
            return true;
        }
    }
    false
}

/// The product of m and the variable with this index, where m leaves room for it.
pub(crate) fn multiple(
    alloc: Global,
    weights: &Weights,
    i: usize,
    m: &Mono,
) -> Result<Mono, NoMemory>
    requires index { i < length weights.now }
    requires monomial { IsWeighed (length weights.now) weights.now m.now }
    requires room { m.now.degree ≤ 65280 }
    ensures weighed { IfOk result (IsWeighed (length weights.now) weights.now) }
    ensures product { let n = length weights.now in
        IfOk result (λ p. exponents_of n p.exponents ≡ times (power n i 1) (exponents_of n m.now.exponents)) }
    ensures degree { IfOk result (λ p. p.degree ≤ m.now.degree + 255) }
{
    let _weight = weights.as_slice()[i];
    let variable = Mono::variable(alloc, weights, i)?;
    match Mono::mul(alloc, &variable, m) {
        Ok(product) => Ok(product),
        Err(MonoStop::Memory) => Err(NoMemory),
        Err(MonoStop::Degree) => unreachable!(),
    }
}
