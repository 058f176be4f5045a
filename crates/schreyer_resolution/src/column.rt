// A column of the next map.
ghost use Rattle.std.specs.Prelude.{◌≡◌, ◌<◌, ◌∷◌, [], IfErr, IfOk, OnOk, Some, length, map};
ghost use Rattle.formal_sums.specs.FormalSums.{Each};
ghost use Rattle.term_lists.specs.Rings.{variables};
ghost use Rattle.term_lists.specs.Vectors.{AreVectorsOver, HasPositions, IsMonomialOver, IsVectorOver, key_of, sums_of};
ghost use Rattle.vector_division.specs.Runs.{AreBelow, total};
ghost use Rattle.resolution_maps.specs.Inducing.{tower_comparison};
ghost use Rattle.induced_leads.specs.Spans.{IsFoundLast, IsIndexOf};
ghost use Rattle.induced_leads.specs.PairLeads.{IsBase, IsPairKey};
ghost use Rattle.schreyer_resolution.specs.Columns.{ColumnStops, IsAbove, IsColumnOf, IsProductDivided, IsProductOf, IsColumnUnderway, negated_term};
ghost use Rattle.schreyer_resolution.specs.Covered.{AreCoveredPut};

use crate::trails::{first_stop, later_stop};
use induced_leads::{Induced, LeadIndex, covered_terms, last_divisor};
use module_vectors::{Frame, Key, NoMemory, Vect, VectList, WorkStop, lawful_setting};
use monomial_orders::Mono;
use std::alloc::Global;
use std::collections::VecDeque;
use vector_division::{Buckets, Run, ScaledProduct, subtract_lead};
use zp_field::Modulus;

// The product of the key's monomial and its column.
fn first_product<F: Frame>(
    alloc: Global,
    frame: &F,
    below: &[VectList],
    columns: &VectList,
    key: &Key,
) -> Result<Vect, WorkStop>
    requires vectors { AreVectorsOver (F.over frame.now) (F.compare frame.now) columns.now }
    requires base { IsBase (F.over frame.now) (F.compare frame.now) columns.now }
    requires monomial { IsMonomialOver (F.over frame.now) key.now.monomial }
    requires pair { let n = variables (F.over frame.now) in IsPairKey (sums_of n columns.now) (key_of n key.now) }
    ensures product { IfOk result (IsProductOf (F.over frame.now) (F.compare frame.now) columns.now key.now) }
    ensures stop { IfErr result (ColumnStops (F.over frame.now) below.now columns.now) }
{
    lawful_setting(frame);
    let mut product = Vect::zero(alloc);
    let g = &columns.as_slice()[key.position as usize];
    match product.add_scaled(alloc, frame, 1, &key.monomial, g) {
        Ok(()) => Ok(product),
        Err(stop) => Err(first_stop(alloc, frame, below, columns, key, stop)),
    }
}

// The last column whose lead divides that of what is left, by its index, and the quotient. There is one, since no other terms
// were kept.
fn next_divisor<F: Frame>(
    alloc: Global,
    frame: &F,
    columns: &VectList,
    index: &LeadIndex,
    key: &Key,
    quotients: &[ScaledProduct],
    term: &(Key, u32),
    buckets: &Buckets,
) -> Result<(u64, Mono), NoMemory>
    requires vectors { AreVectorsOver (F.over frame.now) (F.compare frame.now) columns.now }
    requires base { IsBase (F.over frame.now) (F.compare frame.now) columns.now }
    requires index { IsIndexOf columns.now index.now }
    requires pair { let n = variables (F.over frame.now) in IsPairKey (sums_of n columns.now) (key_of n key.now) }
    requires variables { IsMonomialOver (F.over frame.now) term.now.0.monomial }
    requires nonzero { 0 < term.now.1 }
    requires reduced { term.now.1 < (F.over frame.now).modulus.value }
    requires below { let n = variables (F.over frame.now) in AreBelow n (F.compare frame.now n) (key_of n term.now.0) buckets.now }
    requires underway { let n = variables (F.over frame.now) in
        IsColumnUnderway (F.over frame.now) (F.compare frame.now) columns.now key.now quotients.now buckets.now
        ((key_of n term.now.0, term.now.1) ∷ total n buckets.now) }
    ensures { let n = variables (F.over frame.now) in
        IfOk result (λ s. IsFoundLast n (F.over frame.now).weights columns.now (key_of n term.now.0) (Some s)) }
{
    lawful_setting(frame);
    let _key = key;
    let _quotients = quotients;
    let _buckets = buckets;
    match last_divisor(alloc, frame.ring(), columns.as_slice(), index, &term.0)? {
        Some(divisor) => Ok(divisor),
        None => unreachable!(),
    }
}

// Puts the terms of the vector that leads of the columns divide into the lists.
fn put_covered<F: Frame>(
    alloc: Global,
    frame: &F,
    columns: &VectList,
    index: &LeadIndex,
    v: Vect,
    buckets: &mut Buckets,
) -> Result<(), NoMemory>
    requires vectors { AreVectorsOver (F.over frame.now) (F.compare frame.now) columns.now }
    requires index { IsIndexOf columns.now index.now }
    requires vector { IsVectorOver (F.over frame.now) (F.compare frame.now) v }
    requires runs { AreVectorsOver (F.over frame.now) (F.compare frame.now) buckets.old }
    ensures { OnOk result (AreCoveredPut (F.over frame.now) (F.compare frame.now) columns.now v buckets.old buckets.new) }
{
    let kept = covered_terms(alloc, frame, columns, index, v)?;
    buckets.add(alloc, frame, Run::from_vect(kept))?;
    Ok(())
}

// Takes away the product of the last column whose lead divides the key of this term, which is the greatest of what is left
// and not in the lists any more. After an error the lists are lost.
fn take_last<F: Frame>(
    alloc: Global,
    frame: &F,
    below: &[VectList],
    columns: &VectList,
    index: &LeadIndex,
    key: &Key,
    term: (Key, u32),
    quotients: &mut Vec<ScaledProduct>,
    buckets: &mut Buckets,
) -> Result<(), WorkStop>
    requires vectors { AreVectorsOver (F.over frame.now) (F.compare frame.now) columns.now }
    requires base { IsBase (F.over frame.now) (F.compare frame.now) columns.now }
    requires index { IsIndexOf columns.now index.now }
    requires monomial { IsMonomialOver (F.over frame.now) key.now.monomial }
    requires pair { let n = variables (F.over frame.now) in IsPairKey (sums_of n columns.now) (key_of n key.now) }
    requires variables { IsMonomialOver (F.over frame.now) term.0.monomial }
    requires nonzero { 0 < term.1 }
    requires reduced { term.1 < (F.over frame.now).modulus.value }
    requires below { let n = variables (F.over frame.now) in AreBelow n (F.compare frame.now n) (key_of n term.0) buckets.old }
    requires underway { let n = variables (F.over frame.now) in
        IsColumnUnderway (F.over frame.now) (F.compare frame.now) columns.now key.now quotients.old.items buckets.old
        ((key_of n term.0, term.1) ∷ total n buckets.old) }
    ensures below { let n = variables (F.over frame.now) in OnOk result (AreBelow n (F.compare frame.now n) (key_of n term.0) buckets.new) }
    ensures underway { let n = variables (F.over frame.now) in
        OnOk result (IsColumnUnderway (F.over frame.now) (F.compare frame.now) columns.now key.now quotients.new.items buckets.new (total n buckets.new)) }
    ensures stop { IfErr result (ColumnStops (F.over frame.now) below.now columns.now) }
{
    lawful_setting(frame);
    let (at, monomial) = next_divisor(
        alloc, frame, columns, index, key, quotients, &term, buckets,
    )?;
    let g = &columns.as_slice()[at as usize];
    let taken = subtract_lead(alloc, frame, &monomial, g, &term);
    drop(term);
    match taken {
        Ok((rest, residue)) => {
            put_covered(alloc, frame, columns, index, rest, buckets)?;
            quotients.push(ScaledProduct {
                index: at,
                residue,
                monomial,
            })?;
            Ok(())
        }
        Err(stop) => {
            let failing = (at, monomial);
            Err(later_stop(alloc, frame, below, columns, key, quotients, failing, stop))
        }
    }
}

// The term 1 at the key, with room for so many terms.
fn first_term(alloc: Global, key: &Key, count: usize) -> Result<Vec<(Key, u32)>, NoMemory>
    ensures { IfOk result (λ terms. terms.items ≡ (key.now, 1) ∷ []) }
{
    let copy = key.try_copy(alloc)?;
    let mut terms = Vec::with_capacity(alloc, count)?;
    terms.push((copy, 1))?;
    Ok(terms)
}

/// The terms of the column: 1 at its lead, and minus the quotients.
pub(crate) fn column_terms(
    alloc: Global,
    modulus: &Modulus,
    key: &Key,
    quotients: Vec<ScaledProduct>,
) -> Result<Vec<(Key, u32)>, NoMemory>
    requires { Each (λ q. q.residue < modulus.now.value) quotients.items }
    ensures { IfOk result (λ terms. terms.items ≡ (key.now, 1) ∷ map (negated_term modulus.now.value) quotients.items) }
{
    let mut terms = first_term(alloc, key, quotients.len() + 1)?;
    let mut rest = VecDeque::from_vec(quotients);
    while let Some(quotient) = rest.pop_front() {
        let term = Key {
            position: quotient.index,
            monomial: quotient.monomial,
        };
        terms.push((term, modulus.neg(quotient.residue)))?;
    }
    Ok(terms)
}

// Deals with the term that was taken from the lists, whose residue may be 0.
fn advance<F: Frame>(
    alloc: Global,
    frame: &F,
    below: &[VectList],
    columns: &VectList,
    index: &LeadIndex,
    key: &Key,
    term: (Key, u32),
    quotients: &mut Vec<ScaledProduct>,
    buckets: &mut Buckets,
) -> Result<(), WorkStop>
    requires vectors { AreVectorsOver (F.over frame.now) (F.compare frame.now) columns.now }
    requires base { IsBase (F.over frame.now) (F.compare frame.now) columns.now }
    requires index { IsIndexOf columns.now index.now }
    requires monomial { IsMonomialOver (F.over frame.now) key.now.monomial }
    requires pair { let n = variables (F.over frame.now) in IsPairKey (sums_of n columns.now) (key_of n key.now) }
    requires variables { IsMonomialOver (F.over frame.now) term.0.monomial }
    requires reduced { term.1 < (F.over frame.now).modulus.value }
    requires below { let n = variables (F.over frame.now) in AreBelow n (F.compare frame.now n) (key_of n term.0) buckets.old }
    requires underway { let n = variables (F.over frame.now) in
        IsColumnUnderway (F.over frame.now) (F.compare frame.now) columns.now key.now quotients.old.items buckets.old
        ((key_of n term.0, term.1) ∷ total n buckets.old) }
    ensures below { let n = variables (F.over frame.now) in OnOk result (AreBelow n (F.compare frame.now n) (key_of n term.0) buckets.new) }
    ensures underway { let n = variables (F.over frame.now) in
        OnOk result (IsColumnUnderway (F.over frame.now) (F.compare frame.now) columns.now key.now quotients.new.items buckets.new (total n buckets.new)) }
    ensures stop { IfErr result (ColumnStops (F.over frame.now) below.now columns.now) }
{
    lawful_setting(frame);
    if term.1 == 0 {
        return Ok(());
    }
    take_last(
        alloc, frame, below, columns, index, key, term, quotients, buckets,
    )
}

// The quotients of the key's product by the columns, each of the last one that divides the lead. Nothing is left.
fn divided<F: Frame>(
    alloc: Global,
    frame: &F,
    below: &[VectList],
    columns: &VectList,
    index: &LeadIndex,
    key: &Key,
) -> Result<Vec<ScaledProduct>, WorkStop>
    requires vectors { AreVectorsOver (F.over frame.now) (F.compare frame.now) columns.now }
    requires base { IsBase (F.over frame.now) (F.compare frame.now) columns.now }
    requires index { IsIndexOf columns.now index.now }
    requires monomial { IsMonomialOver (F.over frame.now) key.now.monomial }
    requires pair { let n = variables (F.over frame.now) in IsPairKey (sums_of n columns.now) (key_of n key.now) }
    ensures done { IfOk result (λ quotients. IsProductDivided (F.over frame.now) (F.compare frame.now) columns.now key.now quotients.items) }
    ensures stop { IfErr result (ColumnStops (F.over frame.now) below.now columns.now) }
{
    lawful_setting(frame);
    let product = match first_product(alloc, frame, below, columns, key) {
        Ok(product) => product,
        Err(stop) => return Err(stop),
    };
    let kept = covered_terms(alloc, frame, columns, index, product)?;
    let mut buckets = Buckets::from_run(alloc, Run::from_vect(kept))?;
    let mut quotients = Vec::new(alloc);
    let mut next = buckets.take_top(alloc, frame)?;
    loop {
        match next {
            None => return Ok(quotients),
            Some(term) => {
                advance(
                    alloc,
                    frame,
                    below,
                    columns,
                    index,
                    key,
                    term,
                    &mut quotients,
                    &mut buckets,
                )?;
                next = buckets.take_top(alloc, frame)?;
            }
        }
    }
}

/// The column of the next map with this lead, which is that of a pair: its monomial times its column, from which products of
/// columns are taken away, each of the last one that divides the lead. Nothing is left, and the quotients, with the other
/// sign, stand behind the lead; no tail is to be reduced any more, as each divisor is the last one (Schreyer's theorem;
/// Eisenbud, section 15.5).
///
/// `Degree` comes with a trail that begins with a pair of the columns, `Memory` where there is none.
pub(crate) fn column<F: Frame>(
    alloc: Global,
    frame: &F,
    induced: &Induced<'_>,
    below: &[VectList],
    columns: &VectList,
    index: &LeadIndex,
    key: &Key,
) -> Result<Vect, WorkStop>
    requires over { induced.now.ring ≡ F.over frame.now }
    requires above { IsAbove (F.over frame.now) (F.compare frame.now) columns.now induced.now }
    requires vectors { AreVectorsOver (F.over frame.now) (F.compare frame.now) columns.now }
    requires base { IsBase (F.over frame.now) (F.compare frame.now) columns.now }
    requires index { IsIndexOf columns.now index.now }
    requires monomial { IsMonomialOver (F.over frame.now) key.now.monomial }
    requires pair { let n = variables (F.over frame.now) in IsPairKey (sums_of n columns.now) (key_of n key.now) }
    ensures vector { IfOk result (IsVectorOver (F.over frame.now) (tower_comparison induced.now)) }
    ensures positions { IfOk result (HasPositions (length columns.now)) }
    ensures column { IfOk result (IsColumnOf (F.over frame.now) (F.compare frame.now) columns.now key.now) }
    ensures stop { IfErr result (ColumnStops (F.over frame.now) below.now columns.now) }
{
    lawful_setting(frame);
    let quotients = match divided(alloc, frame, below, columns, index, key) {
        Ok(quotients) => quotients,
        Err(stop) => return Err(stop),
    };
    let terms = column_terms(alloc, &frame.ring().modulus, key, quotients)?;
    let made = Vect::from_terms(alloc, induced, terms)?;
    Ok(made)
}
