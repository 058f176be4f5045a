// Lists of generators.
ghost use Rattle.std.specs.Prelude.{◌≡◌, ◌≤◌, ◌++◌, ◌∷◌, [], IfOk, IfSome, IsTrue, List, OnOk, length, map, suc};
ghost use Rattle.monomials.specs.Exponents.{Exponents, exponents_of, quotient};
ghost use Rattle.monomial_counts.specs.Counts.{has_divisor};
ghost use Rattle.monomial_orders.specs.Kept.{IsWeighed, monomials};
ghost use Rattle.hilbert_series.specs.Generators.{AreCoprimeToAll, AreMonomialGenerators, HaveSameMultiples, IsCoprimeToAll, IsShorter};

use monomial_orders::{Mono, MonoStop, NoMemory, Weights};
use std::alloc::Global;

/// Does one of the list divide m?
fn is_multiple(weights: &Weights, list: &[Mono], m: &Mono) -> bool
    requires generators { AreMonomialGenerators (length weights.now) weights.now list.now }
    requires monomial { IsWeighed (length weights.now) weights.now m.now }
    ensures { let n = length weights.now in result ≡ has_divisor (monomials n list.now) (exponents_of n m.now.exponents) }
{
    for generator in list {
        if generator.divides(m) {
            return true;
        }
    }
    false
}

/// The generators that none behind them divides, the last one first.
fn without_earlier_multiples(
    alloc: Global,
    weights: &Weights,
    mut list: Vec<Mono>,
) -> Result<Vec<Mono>, NoMemory>
    requires generators { AreMonomialGenerators (length weights.now) weights.now list.items }
    ensures shorter { IfOk result (λ v. IsShorter (length weights.now) weights.now list.items v.items) }
{
    let mut kept = Vec::with_capacity(alloc, list.len())?;
    while let Some(m) = list.pop() {
        if !is_multiple(weights, kept.as_slice(), &m) {
            kept.push(m)?;
        }
    }
    Ok(kept)
}

/// The generators that no other divides, of which one stands for all that are equal, by degree.
pub(crate) fn without_multiples(
    alloc: Global,
    weights: &Weights,
    mut list: Vec<Mono>,
) -> Result<Vec<Mono>, NoMemory>
    requires generators { AreMonomialGenerators (length weights.now) weights.now list.items }
    ensures shorter { IfOk result (λ v. IsShorter (length weights.now) weights.now list.items v.items) }
{
    // A divisor has the lower degree, so it is kept before its multiples are looked at.
    list.sort_by_key(|m| u128::MAX - m.degree())?;
    without_earlier_multiples(alloc, weights, list)
}

/// Puts a copy of the monomial at the end.
pub(crate) fn push_copy(alloc: Global, to: &mut Vec<Mono>, m: &Mono) -> Result<(), NoMemory>
    ensures ok { OnOk result (to.new.items ≡ to.old.items ++ (m.now ∷ [])) }
{
    to.push(m.try_copy(alloc)?)?;
    Ok(())
}

/// The generators that p does not divide, and p.
pub(crate) fn with_generator(
    alloc: Global,
    weights: &Weights,
    list: &[Mono],
    p: &Mono,
) -> Result<Vec<Mono>, NoMemory>
    requires generators { AreMonomialGenerators (length weights.now) weights.now list.now }
    requires monomial { IsWeighed (length weights.now) weights.now p.now }
    ensures generators { IfOk result (λ v. AreMonomialGenerators (length weights.now) weights.now v.items) }
    ensures same { let n = length weights.now in
        IfOk result (λ v. HaveSameMultiples (monomials n v.items) (exponents_of n p.now.exponents ∷ monomials n list.now)) }
    ensures apart { let n = length weights.now in IfOk result (λ v. (ms : List (Exponents n)) → IsCoprimeToAll ms (exponents_of n p.now.exponents)
        → AreCoprimeToAll n ms list.now → AreCoprimeToAll n ms v.items) }
{
    let mut all = Vec::with_capacity(alloc, list.len())?;
    push_copy(alloc, &mut all, p)?;
    for generator in list {
        if !p.divides(generator) {
            push_copy(alloc, &mut all, generator)?;
        }
    }
    Ok(all)
}

/// The generator s / gcd(s, p).
fn quotient_by(alloc: Global, weights: &Weights, s: &Mono, p: &Mono) -> Result<Mono, NoMemory>
    requires left { IsWeighed (length weights.now) weights.now s.now }
    requires right { IsWeighed (length weights.now) weights.now p.now }
    ensures weighed { IfOk result (IsWeighed (length weights.now) weights.now) }
    ensures value { let n = length weights.now in
        IfOk result (λ q. exponents_of n q.exponents ≡ quotient (exponents_of n s.now.exponents) (exponents_of n p.now.exponents)) }
{
    let multiple = Mono::lcm(alloc, weights, s, p)?;
    match Mono::quotient(alloc, &multiple, p)? {
        Some(q) => Ok(q),
        None => Err(NoMemory),
    }
}

/// Generators of the quotient by p.
pub(crate) fn quotients(
    alloc: Global,
    weights: &Weights,
    list: &[Mono],
    p: &Mono,
) -> Result<Vec<Mono>, NoMemory>
    requires generators { AreMonomialGenerators (length weights.now) weights.now list.now }
    requires monomial { IsWeighed (length weights.now) weights.now p.now }
    ensures generators { IfOk result (λ v. AreMonomialGenerators (length weights.now) weights.now v.items) }
    ensures long { IfOk result (λ v. length v.items ≡ length list.now) }
    ensures items { let n = length weights.now in IfOk result
        (λ v. monomials n v.items ≡ map (λ s. quotient s (exponents_of n p.now.exponents)) (monomials n list.now)) }
{
    let mut all = Vec::with_capacity(alloc, list.len())?;
    for generator in list {
        all.push(quotient_by(alloc, weights, generator, p)?)?;
    }
    Ok(all)
}

/// Has p no variable in common with any generator?
pub(crate) fn is_apart(weights: &Weights, list: &[Mono], p: &Mono) -> bool
    requires generators { AreMonomialGenerators (length weights.now) weights.now list.now }
    requires monomial { IsWeighed (length weights.now) weights.now p.now }
    ensures { let n = length weights.now in IsTrue result
        → map (λ s. quotient s (exponents_of n p.now.exponents)) (monomials n list.now) ≡ monomials n list.now }
{
    for generator in list {
        if !generator.coprime(p) {
            return false;
        }
    }
    true
}

/// The exponents of the variable with this index in the generators that it occurs in, ascending.
fn exponents_at(alloc: Global, list: &[Mono], i: usize) -> Result<Vec<u16>, NoMemory> {
    let mut found: Vec<u16> = Vec::with_capacity(alloc, list.len())?;
    for generator in list {
        let exponents = generator.exponents();
        if i < exponents.len() && exponents[i] > 0 {
            found.push(exponents[i])?;
        }
    }
    found.sort()?;
    Ok(found)
}

/// The power of a variable to divide by: the variable that occurs most often, to the lower of its middle exponents;
/// none where no variable occurs twice. No clause says which power it is, or that there is one: the numerator is the same
/// by any, and only the number of steps hangs on it.
pub(crate) fn pivot(
    alloc: Global,
    weights: &Weights,
    list: &[Mono],
) -> Result<Option<Mono>, NoMemory>
    ensures weighed { IfOk result (λ p. IfSome p (IsWeighed (length weights.now) weights.now)) }
{
    let mut best: Vec<u16> = Vec::new(alloc);
    let mut place = 0;
    for i in 0..weights.len() {
        let found = exponents_at(alloc, list, i)?;
        if found.len() > best.len() {
            best = found;
            place = i;
        }
    }
    if best.len() < 2 {
        return Ok(None);
    }
    power(alloc, weights, place, best[(best.len() - 1) / 2])
}

/// The power of a variable; none where its degree is above 65,535.
fn power(
    alloc: Global,
    weights: &Weights,
    place: usize,
    exponent: u16,
) -> Result<Option<Mono>, NoMemory>
    ensures weighed { IfOk result (λ p. IfSome p (IsWeighed (length weights.now) weights.now)) }
{
    let mut exponents: Vec<u16> = Vec::with_capacity(alloc, weights.len())?;
    for i in 0..weights.len() {
        exponents.push(if i == place { exponent } else { 0 })?;
    }
    match Mono::from_exponents(alloc, weights, exponents.as_slice()) {
        Ok(m) => Ok(Some(m)),
        Err(MonoStop::Memory) => Err(NoMemory),
        Err(MonoStop::Degree) => Ok(None),
    }
}
