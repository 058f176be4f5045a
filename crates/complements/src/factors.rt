// The combination of columns that takes away a vector's entries in the rows of one degree.
ghost use Rattle.std.specs.Prelude.{◌<◌, IfOk, OnOk, length};
ghost use Rattle.term_lists.specs.Rings.{ring_comparison};
ghost use Rattle.term_lists.specs.Vectors.{AreTermsOver, IsMonomialOver, IsVectorOver};

use crate::elimination::{Step, Work, take_steps};
use module_vectors::{Key, NoMemory, Ring, Vect, lawful_setting};
use monomial_orders::Mono;
use std::alloc::Global;

// Is it the turn of the row?
fn is_turn(turns: &[u32], row: u64, turn: u32) -> bool {
    if row >= turns.len() as u64 {
        return false;
    }
    turns[row as usize] == turn
}

// Puts a copy of the term behind the others.
fn push_copy(
    alloc: Global,
    ring: &Ring,
    term: &(Key, u32),
    terms: &mut Vec<(Key, u32)>,
) -> Result<(), NoMemory>
    requires monomial { IsMonomialOver ring.now term.now.0.monomial }
    requires residue { term.now.1 < ring.now.modulus.value }
    requires terms { AreTermsOver ring.now terms.old.items }
    ensures { OnOk result (AreTermsOver ring.now terms.new.items) }
{
    let _ring = ring;
    let key = term.0.try_copy(alloc)?;
    terms.push((key, term.1))?;
    Ok(())
}

// Copies of the terms whose rows have this turn, those of one monomial behind one another.
fn terms_at(
    alloc: Global,
    ring: &Ring,
    turns: &[u32],
    turn: u32,
    v: &Vect,
) -> Result<Vec<(Key, u32)>, NoMemory>
    requires { AreTermsOver ring.now v.now }
    ensures { IfOk result (λ terms. AreTermsOver ring.now terms.items) }
{
    let mut terms = Vec::new(alloc);
    for term in v.terms() {
        if is_turn(turns, term.0.position, turn) {
            push_copy(alloc, ring, term, &mut terms)?;
        }
    }
    terms.sort_unstable_by(|a, b| a.0.monomial.exponents().cmp(b.0.monomial.exponents()));
    Ok(terms)
}

// Has the next term another monomial, or is there none?
fn is_last(terms: &[(Key, u32)], i: usize) -> bool
    requires { i < length terms.now }
{
    let (_, behind) = terms.split_at(i);
    match behind {
        [here, next, ..] => !here.0.monomial.equal(&next.0.monomial),
        _ => true,
    }
}

// Puts the multiple of the monomial in the column behind the others.
fn push_factor(
    alloc: Global,
    ring: &Ring,
    monomial: &Mono,
    entry: (usize, u32),
    factors: &mut Vec<(Key, u32)>,
) -> Result<(), NoMemory>
    requires monomial { IsMonomialOver ring.now monomial.now }
    requires residue { entry.1 < ring.now.modulus.value }
    requires factors { AreTermsOver ring.now factors.old.items }
    ensures { OnOk result (AreTermsOver ring.now factors.new.items) }
{
    let _ring = ring;
    let key = Key {
        position: entry.0 as u64,
        monomial: monomial.try_copy(alloc)?,
    };
    factors.push((key, entry.1))?;
    Ok(())
}

// Puts the columns' sums, each times the monomial, behind the others.
fn push_factors(
    alloc: Global,
    ring: &Ring,
    monomial: &Mono,
    work: &mut Work,
    factors: &mut Vec<(Key, u32)>,
) -> Result<(), NoMemory>
    requires monomial { IsMonomialOver ring.now monomial.now }
    requires factors { AreTermsOver ring.now factors.old.items }
    ensures { OnOk result (AreTermsOver ring.now factors.new.items) }
{
    let taken = work.columns.take(alloc, &ring.modulus)?;
    for entry in &taken {
        push_factor(alloc, ring, monomial, *entry, factors)?;
    }
    Ok(())
}

/// The cofactors of the columns by which the vector's entries in the rows of this turn are taken away.
pub(crate) fn factors_at(
    alloc: Global,
    ring: &Ring,
    steps: &[Step],
    turns: &[u32],
    turn: u32,
    v: &Vect,
    work: &mut Work,
) -> Result<Vect, NoMemory>
    requires { IsVectorOver ring.now (ring_comparison ring.now) v.now }
    ensures { IfOk result (IsVectorOver ring.now (ring_comparison ring.now)) }
{
    lawful_setting(ring);
    let modulus = &ring.modulus;
    let terms = terms_at(alloc, ring, turns, turn, v)?;
    let mut factors = Vec::new(alloc);
    for i in 0..terms.len() {
        let term = &terms[i];
        work.rows.add(modulus, term.0.position as usize, 1, term.1)?;
        if is_last(&terms, i) {
            take_steps(modulus, steps, work)?;
            work.rows.clear();
            push_factors(alloc, ring, &term.0.monomial, work, &mut factors)?;
        }
    }
    Vect::from_terms(alloc, ring, factors)
}
