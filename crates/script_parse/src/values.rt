//! What the polynomials of a line are worth: a list of them, or a vector that has them for its entries.

ghost use Rattle.std.specs.Prelude.{◌≡◌, ◌<◌, ◌++◌, IfOk, OnOk, length};
ghost use Rattle.std.specs.List.{AllByRecursion};
ghost use Rattle.term_lists.specs.Rings.{ring_comparison};
ghost use Rattle.term_lists.specs.Vectors.{HasPositions, IsVectorOver};
ghost use Rattle.script_parse.specs.Tests.{AreVectorWorths, AreWorths, HasEntryTerms, IsWorkable, IsWorth, StandsForEntries, moved_to};

use module_vectors::{Key, NoMemory, Ring, Vect, VectList};
use poly_grammar::PolyStep;
use poly_value::polynomial_value;
use std::alloc::Global;

/// The vectors of rank 1 that polynomials are worth.
pub fn list_value(
    alloc: Global,
    ring: &Ring,
    line: &[u8],
    polynomials: &[Vec<PolyStep>],
) -> Result<VectList, NoMemory>
    requires { AllByRecursion (IsWorkable ring.now line.now) polynomials.now }
    ensures { IfOk result (λ list. AreWorths ring.now line.now polynomials.now list) }
{
    let mut list = VectList::new(alloc);
    for steps in polynomials {
        let value = polynomial_value(alloc, ring, line, steps)?;
        list.push(value)?;
    }
    Ok(list)
}

/// Moves terms to a position.
fn move_terms(position: u64, terms: &mut Vec<(Key, u32)>)
    ensures { terms.new.items ≡ moved_to position terms.old.items }
{
    for i in 0..terms.len() {
        terms[i].0.position = position;
    }
}

/// Puts the terms of the polynomial that the steps are worth behind the others, moved to this position. The steps are a `Vec`,
/// since the clauses speak of one.
fn push_entry(
    alloc: Global,
    ring: &Ring,
    line: &[u8],
    steps: &Vec<PolyStep>,
    position: u64,
    all: &mut Vec<(Key, u32)>,
) -> Result<(), NoMemory>
    requires { IsWorkable ring.now line.now steps.now }
    ensures { OnOk result ((u : _) × (all.new.items ≡ all.old.items ++ moved_to position u) × IsWorth ring.now line.now steps.now.items u) }
{
    let value = polynomial_value(alloc, ring, line, steps)?;
    let mut terms = value.into_terms();
    move_terms(position, &mut terms);
    all.append(&mut terms)?;
    Ok(())
}

/// The terms of the vector that has these polynomials for its entries, in any order.
fn entry_terms(
    alloc: Global,
    ring: &Ring,
    line: &[u8],
    polynomials: &[Vec<PolyStep>],
) -> Result<Vec<(Key, u32)>, NoMemory>
    requires { AllByRecursion (IsWorkable ring.now line.now) polynomials.now }
    ensures { IfOk result (λ terms. HasEntryTerms ring.now line.now polynomials.now terms.items) }
{
    let mut all = Vec::new(alloc);
    for i in 0..polynomials.len() {
        push_entry(alloc, ring, line, &polynomials[i], i as u64, &mut all)?;
    }
    Ok(all)
}

/// The vector that has these polynomials for its entries: entry i at position i, from 0.
pub fn vector_value(
    alloc: Global,
    ring: &Ring,
    line: &[u8],
    polynomials: &[Vec<PolyStep>],
) -> Result<Vect, NoMemory>
    requires { AllByRecursion (IsWorkable ring.now line.now) polynomials.now }
    ensures vector { IfOk result (λ v. IsVectorOver ring.now (ring_comparison ring.now) v) }
    ensures positions { IfOk result (λ v. HasPositions (length polynomials.now) v) }
    ensures entries { IfOk result (λ v. StandsForEntries ring.now line.now polynomials.now v) }
{
    let terms = entry_terms(alloc, ring, line, polynomials)?;
    Vect::from_terms(alloc, ring, terms)
}

/// The vectors that have each so many of the polynomials for their entries, one behind the other.
pub fn vectors_value(
    alloc: Global,
    ring: &Ring,
    line: &[u8],
    rank: usize,
    polynomials: &[Vec<PolyStep>],
) -> Result<VectList, NoMemory>
    requires rank { 0 < rank }
    requires workable { AllByRecursion (IsWorkable ring.now line.now) polynomials.now }
    ensures { IfOk result (λ list. AreVectorWorths ring.now line.now rank polynomials.now list) }
{
    let mut list = VectList::new(alloc);
    let mut rest = polynomials;
    while !rest.is_empty() {
        let (front, behind) = rest.split_at(rank.min(rest.len()));
        let value = vector_value(alloc, ring, line, front)?;
        list.push(value)?;
        rest = behind;
    }
    Ok(list)
}
