// The least leads of the pairs' syzygies.
ghost use Rattle.std.specs.Prelude.{◌≡◌, ◌<◌, ◌++◌, ◌↔◌, ℕ, Contains, IfOk, IsTrue, OnOk, [], length, map, reverse};
ghost use Rattle.monomials.specs.Exponents.{Divides, exponents_of, lcm, quotient};
ghost use Rattle.formal_sums.specs.FormalSums.{Each};
ghost use Rattle.monomial_orders.specs.Kept.{Monomial};
ghost use Rattle.term_lists.specs.Rings.{variables};
ghost use Rattle.term_lists.specs.Vectors.{AreVectorsOver, IsMonomialOver, key_of, sums_of};
ghost use Rattle.module_vectors.specs.Trails.{lead_at};
ghost use Rattle.vector_division.specs.Progress.{AreWeighed};
ghost use Rattle.induced_leads.specs.PairLeads.{ArePairLeads, IsBase};
ghost use Rattle.induced_leads.specs.Pairs.{AreLeastSoFar, ArePairMonomials, AreNonzero, IsPairPut, IsPutUnlessCovered, key_at_position};
ghost use Rattle.induced_leads.specs.Spans.{IsIndexOf};

use crate::divisors::{LeadIndex, index_leads};
use module_vectors::{Frame, Key, NoMemory, Ring, Vect, VectList, lawful_setting};
use monomial_orders::Mono;
use std::alloc::Global;

/// The monomial that takes the first of the two to their least common multiple: that of a pair's syzygy at its first member (UAG
/// chapter 5, section 3).
pub fn pair_monomial(alloc: Global, ring: &Ring, a: &Mono, b: &Mono) -> Result<Mono, NoMemory>
    requires left { IsMonomialOver ring.now a.now }
    requires right { IsMonomialOver ring.now b.now }
    ensures weighed { IfOk result (IsMonomialOver ring.now) }
    ensures quotient { let n = variables ring.now in IfOk result (λ m. exponents_of n m.exponents
        ≡ quotient (lcm (exponents_of n a.now.exponents) (exponents_of n b.now.exponents)) (exponents_of n a.now.exponents)) }
{
    let lcm = Mono::lcm(alloc, &ring.weights, a, b)?;
    match Mono::quotient(alloc, &lcm, a)? {
        Some(monomial) => Ok(monomial),
        None => unreachable!(),
    }
}

/// The key of a column's lead. The columns are not zero.
pub fn lead_key<'a>(ring: &Ring, columns: &'a [Vect], index: usize) -> &'a Key
    requires index { index < length columns.now }
    requires leads { AreNonzero columns.now }
    requires weighed { AreWeighed (variables ring.now) ring.now.weights columns.now }
    ensures lead { (n : ℕ) → lead_at n columns.now index ≡ key_of n result.now }
    ensures weighed { IsMonomialOver ring.now result.now.monomial }
{
    let _ring = ring;
    &columns[index].terms()[0].0
}

// Puts the monomial of the pair of two leads behind the others, where they stand at one position.
fn push_pair(
    alloc: Global,
    ring: &Ring,
    a: &Key,
    b: &Key,
    found: &mut Vec<Mono>,
) -> Result<(), NoMemory>
    requires left { IsMonomialOver ring.now a.now.monomial }
    requires right { IsMonomialOver ring.now b.now.monomial }
    ensures { OnOk result (IsPairPut (variables ring.now) ring.now.weights a.now b.now found.old.items found.new.items) }
{
    if a.position != b.position {
        return Ok(());
    }
    found.push(pair_monomial(alloc, ring, &a.monomial, &b.monomial)?)?;
    Ok(())
}

// The monomials of the pairs of a column and each later one.
fn pair_monomials(
    alloc: Global,
    ring: &Ring,
    columns: &[Vect],
    leads: &LeadIndex,
    index: usize,
) -> Result<Vec<Mono>, NoMemory>
    requires index { index < length columns.now }
    requires indexed { IsIndexOf columns.now leads.now }
    requires leads { AreNonzero columns.now }
    requires weighed { AreWeighed (variables ring.now) ring.now.weights columns.now }
    ensures { IfOk result (λ found. ArePairMonomials (variables ring.now) ring.now.weights columns.now index (length columns.now) found.items) }
{
    let mut found = Vec::new(alloc);
    let left = lead_key(ring, columns, index);
    let end = leads.end(columns, left.position);
    for j in index + 1..end {
        let right = lead_key(ring, columns, j);
        push_pair(alloc, ring, left, right, &mut found)?;
    }
    Ok(found)
}

// Does one of these divide the monomial?
fn is_divided(ring: &Ring, kept: &[Mono], m: &Mono) -> bool
    requires kept { Each (IsMonomialOver ring.now) kept.now }
    requires monomial { IsMonomialOver ring.now m.now }
    ensures { let n = variables ring.now in
        IsTrue result ↔ ((k : Monomial) × Contains kept.now k × Divides (exponents_of n k.exponents) (exponents_of n m.now.exponents)) }
{
    let _ring = ring;
    for k in kept {
        if k.divides(m) {
            return true;
        }
    }
    false
}

// Puts the monomial behind the others, unless one of them divides it.
fn take_least(alloc: Global, ring: &Ring, m: &Mono, kept: &mut Vec<Mono>) -> Result<(), NoMemory>
    requires kept { Each (IsMonomialOver ring.now) kept.old.items }
    requires monomial { IsMonomialOver ring.now m.now }
    ensures { OnOk result (IsPutUnlessCovered (variables ring.now) m.now kept.old.items kept.new.items) }
{
    if is_divided(ring, kept, m) {
        return Ok(());
    }
    kept.push(m.try_copy(alloc)?)?;
    Ok(())
}

// The least of the monomials by division, lex-ascending.
fn least(alloc: Global, ring: &Ring, candidates: Vec<Mono>) -> Result<Vec<Mono>, NoMemory>
    requires { Each (IsMonomialOver ring.now) candidates.items }
    ensures { IfOk result (λ kept. AreLeastSoFar (variables ring.now) candidates.items [] kept.items) }
{
    let mut sorted = candidates;
    sorted.sort_unstable_by(|a, b| a.exponents().cmp(b.exponents()));
    let mut kept = Vec::new(alloc);
    for m in &sorted {
        take_least(alloc, ring, m, &mut kept)?;
    }
    Ok(kept)
}

// Puts the keys of these monomials at a position behind the others, the last one first.
fn push_keys(position: u64, monomials: Vec<Mono>, keys: &mut Vec<Key>) -> Result<(), NoMemory>
    ensures { OnOk result (keys.new.items ≡ keys.old.items ++ map (key_at_position position) (reverse monomials.items)) }
{
    let mut rest = monomials;
    while let Some(monomial) = rest.pop() {
        keys.push(Key { position, monomial })?;
    }
    Ok(())
}

/// The least leads of the pairs' syzygies, by position ascending and then by lex-descending monomial: the leads of the next
/// map's columns, where these are a Gröbner basis (Schreyer's theorem; Eisenbud, section 15.5).
pub fn pair_leads<F: Frame>(
    alloc: Global,
    frame: &F,
    columns: &VectList,
) -> Result<Vec<Key>, NoMemory>
    requires vectors { AreVectorsOver (F.over frame.now) (F.compare frame.now) columns.now }
    requires base { IsBase (F.over frame.now) (F.compare frame.now) columns.now }
    ensures monomials { IfOk result (λ keys. Each (λ k. IsMonomialOver (F.over frame.now) k.monomial) keys.items) }
    ensures pairs { let n = variables (F.over frame.now) in IfOk result (λ keys. ArePairLeads (sums_of n columns.now) (map (key_of n) keys.items)) }
{
    lawful_setting(frame);
    let ring = frame.ring();
    let leads = index_leads(alloc, columns.as_slice())?;
    let mut keys = Vec::new(alloc);
    for i in 0..columns.len() {
        let candidates = pair_monomials(alloc, ring, columns.as_slice(), &leads, i)?;
        let monomials = least(alloc, ring, candidates)?;
        push_keys(i as u64, monomials, &mut keys)?;
    }
    Ok(keys)
}
