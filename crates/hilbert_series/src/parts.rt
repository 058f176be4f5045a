// Parts of a list of generators that have no variable in common.
ghost use Rattle.std.specs.Prelude.{◌++◌, ◌∷◌, ◌≡◌, [], IfOk, IfSome, IsTrue, OnOk, if◌then◌else◌, length};
ghost use Rattle.hilbert_series.specs.Generators.{AreCoprimeToAll, AreMonomialGenerators, IsParted, IsSieved};
ghost use Rattle.monomial_orders.specs.Kept.{monomials};

use crate::generators::{is_apart, push_copy};
use monomial_orders::{Mono, NoMemory, Weights};
use std::alloc::Global;

/// Has the monomial one of the marked variables?
fn meets(m: &Mono, marks: &[bool]) -> bool {
    for (exponent, mark) in m.exponents().iter().zip(marks) {
        if *mark && *exponent > 0 {
            return true;
        }
    }
    false
}

/// Marks the monomial's variables. Was one of them without a mark?
fn mark(m: &Mono, marks: &mut Vec<bool>) -> bool {
    let exponents = m.exponents();
    let mut grown = false;
    for i in 0..marks.len() {
        if i < exponents.len() && exponents[i] > 0 && !marks[i] {
            marks[i] = true;
            grown = true;
        }
    }
    grown
}

/// Marks the variables of the monomials that have a marked one. Was one of them without a mark?
fn mark_linked(list: &[Mono], marks: &mut Vec<bool>) -> bool {
    let mut grown = false;
    for m in list {
        if meets(m, marks.as_slice()) && mark(m, marks) {
            grown = true;
        }
    }
    grown
}

/// Marks of the variables that hang together with those of the first generator.
fn linked_variables(
    alloc: Global,
    weights: &Weights,
    list: &[Mono],
) -> Result<Vec<bool>, NoMemory> {
    let mut marks: Vec<bool> = Vec::with_capacity(alloc, weights.len())?;
    for _ in 0..weights.len() {
        marks.push(false)?;
    }
    if let Some(first) = list.first() {
        mark(first, &mut marks);
    }
    for _ in 0..weights.len() {
        if !mark_linked(list, &mut marks) {
            return Ok(marks);
        }
    }
    Ok(marks)
}

/// Do all monomials have a marked variable?
fn all_meet(list: &[Mono], marks: &[bool]) -> bool {
    for m in list {
        if !meets(m, marks) {
            return false;
        }
    }
    true
}

/// Puts copies of the monomials at the end.
fn push_copies(alloc: Global, to: &mut Vec<Mono>, list: &[Mono]) -> Result<(), NoMemory>
    ensures ok { OnOk result (to.new.items ≡ to.old.items ++ list.now) }
{
    for m in list {
        match push_copy(alloc, to, m) {
            Ok(()) => {}
            Err(stop) => return Err(stop),
        }
    }
    Ok(())
}

/// Puts a copy of the monomial at the end of the first list or of the other.
fn push_either(
    alloc: Global,
    is_first: bool,
    first: &mut Vec<Mono>,
    other: &mut Vec<Mono>,
    m: &Mono,
) -> Result<(), NoMemory>
    ensures first { OnOk result (first.new.items ≡ (if is_first then first.old.items ++ (m.now ∷ []) else first.old.items)) }
    ensures other { OnOk result (other.new.items ≡ (if is_first then other.old.items else other.old.items ++ (m.now ∷ []))) }
{
    if is_first {
        return push_copy(alloc, first, m);
    }
    push_copy(alloc, other, m)
}

/// Puts copies of the monomials with a marked variable into the first list, and of the others into the other.
fn sieve(
    alloc: Global,
    weights: &Weights,
    list: &[Mono],
    marks: &[bool],
    first: &mut Vec<Mono>,
    other: &mut Vec<Mono>,
) -> Result<(), NoMemory>
    requires generators { AreMonomialGenerators (length weights.now) weights.now list.now }
    requires first { first.old.items ≡ [] }
    requires other { other.old.items ≡ [] }
    ensures ok { OnOk result (IsSieved (length weights.now) weights.now list.now first.new.items other.new.items) }
{
    let _weights = weights;
    for m in list {
        let is_first = meets(m, marks);
        match push_either(alloc, is_first, first, other, m) {
            Ok(()) => {}
            Err(stop) => return Err(stop),
        }
    }
    Ok(())
}

/// Has no monomial of the one list a variable in common with one of the other?
fn are_apart(weights: &Weights, first: &[Mono], other: &[Mono]) -> bool
    requires first { AreMonomialGenerators (length weights.now) weights.now first.now }
    requires other { AreMonomialGenerators (length weights.now) weights.now other.now }
    ensures { let n = length weights.now in IsTrue result → AreCoprimeToAll n (monomials n first.now) other.now }
{
    for m in other {
        if !is_apart(weights, first, m) {
            return false;
        }
    }
    true
}

/// A part of the generators, this behind the generators that are done, and the others.
#[derive(Drop)]
pub(crate) struct Parts {
    pub(crate) first: Vec<Mono>,
    pub(crate) both: Vec<Mono>,
    pub(crate) other: Vec<Mono>,
}

/// Parts the generators into two lists that have no variable in common; none where all hang together.
pub(crate) fn parted(
    alloc: Global,
    weights: &Weights,
    done: &[Mono],
    list: &[Mono],
) -> Result<Option<Parts>, NoMemory>
    requires done { AreMonomialGenerators (length weights.now) weights.now done.now }
    requires generators { AreMonomialGenerators (length weights.now) weights.now list.now }
    requires apart { let n = length weights.now in AreCoprimeToAll n (monomials n done.now) list.now }
    ensures parted { let n = length weights.now in IfOk result (λ o. IfSome o
        (λ p. IsParted n weights.now (monomials n done.now) list.now p.first.items p.both.items p.other.items)) }
{
    let marks = linked_variables(alloc, weights, list)?;
    if all_meet(list, marks.as_slice()) {
        return Ok(None);
    }
    let mut first = Vec::new(alloc);
    let mut other = Vec::new(alloc);
    sieve(
        alloc,
        weights,
        list,
        marks.as_slice(),
        &mut first,
        &mut other,
    )?;
    if !are_apart(weights, first.as_slice(), other.as_slice()) {
        return Ok(None);
    }
    let mut both = Vec::with_capacity(alloc, done.len())?;
    push_copies(alloc, &mut both, done)?;
    push_copies(alloc, &mut both, first.as_slice())?;
    Ok(Some(Parts { first, both, other }))
}
