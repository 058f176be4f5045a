// The recurrence for numerators.
ghost use Rattle.std.specs.Prelude.{◌+◌, ◌≡◌, ◌≤◌, IfOk, IfSome, length};
ghost use Rattle.monomial_orders.specs.Kept.{IsWeighed, monomials};
ghost use Rattle.hilbert_series.specs.Generators.{AreCoprimeToAll, AreMonomialGenerators, IsNumeratorOf, IsNumeratorWith, IsNumeratorSplit};

use crate::coefficients::{minus_shifted, plus_shifted};
use crate::generators::{is_apart, pivot, quotients, with_generator, without_multiples};
use crate::parts::{Parts, parted};
use monomial_orders::{Mono, NoMemory, Weights};
use std::alloc::Global;

// How many steps of the recurrence, by a pivot or by parts, may follow each other; behind them a generator is taken at a
// time. A pivot is a middle exponent of its variable: it leaves that variable in at most half of the generators that had it
// and one more. So of each variable at most seven follow each other, and over 16 variables this bound is not met.
const STEPS: u16 = 128;

/// The degree as a length.
fn degree_of(m: &Mono) -> Result<usize, NoMemory>
    ensures { IfOk result (λ d. d ≡ m.now.degree) }
{
    match usize::try_from(m.degree()) {
        Ok(d) => Ok(d),
        Err(_) => Err(NoMemory),
    }
}

/// The generators with a pivot, and their quotients by it.
#[derive(Drop)]
struct Branches {
    left: Vec<Mono>,
    right: Vec<Mono>,
    degree: usize,
}

/// Splits the generators by this pivot; none where the pivot takes no generator away.
fn split_by(
    alloc: Global,
    weights: &Weights,
    done: &[Mono],
    list: &[Mono],
    p: &Mono,
) -> Result<Option<Branches>, NoMemory>
    requires done { AreMonomialGenerators (length weights.now) weights.now done.now }
    requires generators { AreMonomialGenerators (length weights.now) weights.now list.now }
    requires monomial { IsWeighed (length weights.now) weights.now p.now }
    requires apart { let n = length weights.now in AreCoprimeToAll n (monomials n done.now) list.now }
    ensures split { let n = length weights.now in IfOk result (λ o. IfSome o
        (λ s. IsNumeratorSplit n weights.now (monomials n done.now) list.now s.left.items s.right.items s.degree)) }
{
    if !is_apart(weights, done, p) {
        return Ok(None);
    }
    let left = with_generator(alloc, weights, list, p)?;
    if left.len() > list.len() {
        return Ok(None);
    }
    let all = quotients(alloc, weights, list, p)?;
    let right = without_multiples(alloc, weights, all)?;
    let degree = degree_of(p)?;
    Ok(Some(Branches {
        left,
        right,
        degree,
    }))
}

/// Splits the generators by a pivot, where some variable occurs in two.
fn split(
    alloc: Global,
    weights: &Weights,
    done: &[Mono],
    list: &[Mono],
) -> Result<Option<Branches>, NoMemory>
    requires done { AreMonomialGenerators (length weights.now) weights.now done.now }
    requires generators { AreMonomialGenerators (length weights.now) weights.now list.now }
    requires apart { let n = length weights.now in AreCoprimeToAll n (monomials n done.now) list.now }
    ensures split { let n = length weights.now in IfOk result (λ o. IfSome o
        (λ s. IsNumeratorSplit n weights.now (monomials n done.now) list.now s.left.items s.right.items s.degree)) }
{
    match pivot(alloc, weights, list)? {
        Some(p) => split_by(alloc, weights, done, list, &p),
        None => Ok(None),
    }
}

/// From the numerator of the generators that are done, that of these with the generators, a generator at a time.
fn by_generators(
    alloc: Global,
    weights: &Weights,
    done: &Vec<Mono>,
    start: &Vec<i128>,
    mut list: Vec<Mono>,
) -> Result<Vec<i128>, NoMemory>
    requires generators { AreMonomialGenerators (length weights.now) weights.now list.items }
    requires few { length done.now.items + length list.items ≤ 120 }
    requires apart { let n = length weights.now in AreCoprimeToAll n (monomials n done.now.items) list.items }
    requires start { IsNumeratorOf (length weights.now) weights.now done.now.items start.now.items }
    ensures numerator { let n = length weights.now in
        IfOk result (λ v. IsNumeratorWith n weights.now (monomials n done.now.items) list.items v.items) }
{
    let Some(last) = list.pop() else {
        let same = Vec::from_slice(alloc, start.as_slice())?;
        return Ok(same);
    };
    let degree = degree_of(&last)?;
    if is_apart(weights, list.as_slice(), &last) {
        let left = by_generators(alloc, weights, done, start, list)?;
        return minus_shifted(alloc, left.as_slice(), degree, left.as_slice());
    }
    let quotient = quotients(alloc, weights, list.as_slice(), &last)?;
    let left = by_generators(alloc, weights, done, start, list)?;
    let right = by_generators(alloc, weights, done, start, quotient)?;
    minus_shifted(alloc, left.as_slice(), degree, right.as_slice())
}

/// From the numerator of the generators that are done, that of these with the generators, which have no variable in common
/// with those: by parts without a common variable, and by pivots, with this many steps at most.
fn by_steps(
    alloc: Global,
    weights: &Weights,
    steps: u16,
    done: &Vec<Mono>,
    start: &Vec<i128>,
    list: Vec<Mono>,
) -> Result<Vec<i128>, NoMemory>
    requires done { AreMonomialGenerators (length weights.now) weights.now done.now.items }
    requires generators { AreMonomialGenerators (length weights.now) weights.now list.items }
    requires few { length done.now.items + length list.items ≤ 120 }
    requires apart { let n = length weights.now in AreCoprimeToAll n (monomials n done.now.items) list.items }
    requires start { IsNumeratorOf (length weights.now) weights.now done.now.items start.now.items }
    ensures numerator { let n = length weights.now in
        IfOk result (λ v. IsNumeratorWith n weights.now (monomials n done.now.items) list.items v.items) }
{
    if steps == 0 || list.len() < 3 {
        return by_generators(alloc, weights, done, start, list);
    }
    let halves = parted(alloc, weights, done.as_slice(), list.as_slice())?;
    if let Some(Parts { first, both, other }) = halves {
        let between = by_steps(alloc, weights, steps - 1, done, start, first)?;
        return by_steps(alloc, weights, steps - 1, &both, &between, other);
    }
    let Some(branches) = split(alloc, weights, done.as_slice(), list.as_slice())? else {
        return by_generators(alloc, weights, done, start, list);
    };
    let left = by_steps(alloc, weights, steps - 1, done, start, branches.left)?;
    let right = by_steps(alloc, weights, steps - 1, done, start, branches.right)?;
    plus_shifted(alloc, left.as_slice(), branches.degree, right.as_slice())
}

/// The numerator of the ideal of these generators.
pub(crate) fn ideal_numerator(
    alloc: Global,
    weights: &Weights,
    generators: Vec<Mono>,
) -> Result<Vec<i128>, NoMemory>
    requires generators { AreMonomialGenerators (length weights.now) weights.now generators.items }
    requires few { length generators.items ≤ 120 }
    ensures numerator { IfOk result (λ v. IsNumeratorOf (length weights.now) weights.now generators.items v.items) }
{
    let least = without_multiples(alloc, weights, generators)?;
    let none = Vec::new(alloc);
    let mut one = Vec::new(alloc);
    one.push(1)?;
    by_steps(alloc, weights, STEPS, &none, &one, least)
}
