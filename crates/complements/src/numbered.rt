// Combinations of columns by numbers of keys.
//
// The products of the factors are added to one sum of residues for each key. What is not 0 at the end is put in order once.
ghost use Rattle.std.specs.Prelude.{◌≡◌, ◌<◌, [], IfOk, IfSome, IsTrue, OnOk, length};
ghost use Rattle.formal_sums.specs.FormalSums.{Each};
ghost use Rattle.term_lists.specs.Rings.{ring_comparison, variables};
ghost use Rattle.term_lists.specs.Vectors.{AreVectorsOver, HasPositions, IsMonomialOver, IsTerm, IsVectorOver};
ghost use Rattle.vector_division.specs.Progress.{AreWeighed};
ghost use Rattle.row_matrix.specs.Rows.{AreKeys};
ghost use Rattle.numbered_sums.specs.KeySums.{AreTouched, AreZeroSums};
ghost use Rattle.numbered_sums.specs.ProductEntries.{AreReduced};
ghost use Rattle.complements.specs.Combining.{AreGathered, AreTermsOfSums, HasZeroSums, IsSumTaken, IsTermTaken};
ghost use Rattle.complements.specs.Complements.{IsComplement};

use crate::accumulator::{Accumulator, no_sums};
use module_vectors::{Frame, Key, NoMemory, Ring, Vect, VectList, VectStop, lawful_setting};
use numbered_sums::{add_multiple, column_hashes, numbered_product, residue_at};
use row_matrix::{KeyTable, ProductStop};
use std::alloc::Global;

// With more keys than these a table is given up for a new one.
const MOST_KEYS: usize = 1 << 18;

// A combination of fewer products, or of fewer terms in them, is made from the terms themselves.
const FEWEST_PRODUCTS: usize = 4;

const FEWEST_TERMS: usize = 64;

// Adds the product of the factor and its column to the sums.
fn add_product(
    alloc: Global,
    ring: &Ring,
    columns: &[Vect],
    factor: &(Key, u32),
    accumulator: &mut Accumulator,
) -> Result<(), ProductStop>
    requires position { factor.now.0.position < length columns.now }
    requires monomial { IsMonomialOver ring.now factor.now.0.monomial }
    requires residue { factor.now.1 < ring.now.modulus.value }
    requires weighed { AreWeighed (variables ring.now) ring.now.weights columns.now }
    requires reduced { AreReduced ring.now.modulus.value columns.now }
    requires gathered { AreGathered ring.now columns.now accumulator.old }
    ensures { OnOk result (AreGathered ring.now columns.now accumulator.new) }
{
    let modulus = &ring.modulus;
    modulus.domain();
    let at = factor.0.position as usize;
    let row = numbered_product(
        alloc,
        ring,
        columns,
        at,
        &factor.0.monomial,
        &accumulator.hashes[at],
        &mut accumulator.numbers,
    )?;
    accumulator.sums.resize(accumulator.numbers.len(), 0)?;
    add_multiple(
        modulus,
        factor.1,
        &row,
        accumulator.sums.as_mut_slice(),
        &mut accumulator.touched,
    )?;
    Ok(())
}

// Adds the products of the factors and their columns to the sums.
fn add_products(
    alloc: Global,
    ring: &Ring,
    columns: &[Vect],
    factors: &[(Key, u32)],
    accumulator: &mut Accumulator,
) -> Result<(), ProductStop>
    requires positions { HasPositions (length columns.now) factors.now }
    requires monomials { Each (λ t. IsMonomialOver ring.now t.0.monomial) factors.now }
    requires residues { Each (λ t. t.1 < ring.now.modulus.value) factors.now }
    requires weighed { AreWeighed (variables ring.now) ring.now.weights columns.now }
    requires reduced { AreReduced ring.now.modulus.value columns.now }
    requires gathered { AreGathered ring.now columns.now accumulator.old }
    ensures { OnOk result (AreGathered ring.now columns.now accumulator.new) }
{
    for factor in factors {
        add_product(alloc, ring, columns, factor, accumulator)?;
    }
    Ok(())
}

// Puts the term with this number and residue behind the others, unless it is 0.
fn push_term(
    alloc: Global,
    ring: &Ring,
    numbers: &KeyTable,
    number: usize,
    residue: u32,
    terms: &mut Vec<(Key, u32)>,
) -> Result<(), NoMemory>
    requires number { number < length numbers.now }
    requires residue { residue < ring.now.modulus.value }
    requires keys { AreKeys (variables ring.now) ring.now.weights numbers.now }
    ensures { OnOk result (IsTermTaken ring.now numbers.now number residue terms.old.items terms.new.items) }
{
    let _ring = ring;
    if residue == 0 {
        return Ok(());
    }
    let key = numbers.keys()[number].try_copy(alloc)?;
    terms.push((key, residue))?;
    Ok(())
}

// The touched numbers, each behind the hint of its key, mostly the greatest key first: then the terms stand in order as they come.
// That is not proved, since terms in another order are put in order later.
fn ordered_numbers(
    alloc: Global,
    ring: &Ring,
    numbers: &KeyTable,
    touched: &[u32],
) -> Result<Vec<(u64, u32)>, NoMemory> {
    let keys = numbers.keys();
    let mut hinted = Vec::with_capacity(alloc, touched.len())?;
    for number in touched {
        let at = *number as usize;
        if at < keys.len() {
            hinted.push((ring.hint(&keys[at]), *number))?;
        }
    }
    hinted.sort_unstable_by(|left, right| right.0.cmp(&left.0));
    Ok(hinted)
}

// The term of the sum with this number, which is set to 0, goes behind the others. Is there such a sum?
fn take_term(
    alloc: Global,
    ring: &Ring,
    numbers: &KeyTable,
    number: u32,
    sums: &mut Vec<u64>,
    terms: &mut Vec<(Key, u32)>,
) -> Result<bool, NoMemory>
    requires keys { AreKeys (variables ring.now) ring.now.weights numbers.now }
    requires count { length sums.old.items ≡ length numbers.now }
    ensures { IfOk result (λ there. IsTrue there → IsSumTaken ring.now numbers.now number sums.old.items sums.new.items terms.old.items terms.new.items) }
{
    let modulus = &ring.modulus;
    modulus.domain();
    let at = number as usize;
    if at >= sums.len() {
        return Ok(false);
    }
    let residue = residue_at(modulus, sums.as_slice(), number);
    push_term(alloc, ring, numbers, at, residue, terms)?;
    sums[at] = 0;
    Ok(true)
}

// The terms of the touched sums, which are set to 0; none where a number has no sum.
fn terms_of_sums(
    alloc: Global,
    ring: &Ring,
    numbers: &KeyTable,
    touched: &[u32],
    sums: &mut Vec<u64>,
) -> Result<Option<Vec<(Key, u32)>>, NoMemory>
    requires keys { AreKeys (variables ring.now) ring.now.weights numbers.now }
    requires count { length sums.old.items ≡ length numbers.now }
    requires touched { AreTouched touched.now sums.old.items }
    ensures terms { IfOk result (λ made. IfSome made (λ terms. AreTermsOfSums ring.now numbers.now sums.old.items terms.items)) }
    ensures zero { IfOk result (λ made. IfSome made (λ _. AreZeroSums sums.new.items)) }
    ensures count { IfOk result (λ made. IfSome made (λ _. length sums.new.items ≡ length sums.old.items)) }
{
    let hinted = ordered_numbers(alloc, ring, numbers, touched)?;
    let mut terms = Vec::with_capacity(alloc, touched.len())?;
    for one in &hinted {
        if !take_term(alloc, ring, numbers, one.1, sums, &mut terms)? {
            return Ok(None);
        }
    }
    // Nothing is left by now. By this pass it is proved so whatever the order was.
    for number in touched {
        if !take_term(alloc, ring, numbers, *number, sums, &mut terms)? {
            return Ok(None);
        }
    }
    Ok(Some(terms))
}

// Gives up a table of too many keys for a new one.
fn renew(
    alloc: Global,
    ring: &Ring,
    columns: &[Vect],
    accumulator: &mut Accumulator,
) -> Result<(), NoMemory>
    requires { HasZeroSums ring.now columns.now accumulator.old }
    ensures { OnOk result (HasZeroSums ring.now columns.now accumulator.new) }
{
    if accumulator.numbers.len() <= MOST_KEYS {
        return Ok(());
    }
    *accumulator = no_sums(alloc, ring, columns)?;
    Ok(())
}

// Makes the hashes of the columns' keys, unless they are there.
fn begin(
    alloc: Global,
    ring: &Ring,
    columns: &[Vect],
    accumulator: &mut Accumulator,
) -> Result<(), NoMemory>
    requires { HasZeroSums ring.now columns.now accumulator.old }
    ensures { OnOk result (AreGathered ring.now columns.now accumulator.new) }
{
    let _ring = ring;
    if accumulator.hashes.len() == columns.len() {
        return Ok(());
    }
    accumulator.hashes = column_hashes(alloc, columns)?;
    Ok(())
}

// What was gathered as a vector. The sums are 0 from then on.
fn gathered_vector(
    alloc: Global,
    ring: &Ring,
    columns: &[Vect],
    accumulator: &mut Accumulator,
) -> Result<Option<Vect>, NoMemory>
    requires { AreGathered ring.now columns.now accumulator.old }
    ensures vector { IfOk result (λ made. IfSome made (IsVectorOver ring.now (ring_comparison ring.now))) }
    ensures sum { IfOk result (λ made. IfSome made (IsComplement ring.now columns.now [])) }
    ensures cleared { IfOk result (λ made. IfSome made (λ _. HasZeroSums ring.now columns.now accumulator.new)) }
{
    let _columns = columns;
    lawful_setting(ring);
    let made = terms_of_sums(
        alloc,
        ring,
        &accumulator.numbers,
        accumulator.touched.as_slice(),
        &mut accumulator.sums,
    )?;
    accumulator.touched.clear();
    match made {
        None => Ok(None),
        Some(terms) => Ok(Some(Vect::from_terms(alloc, ring, terms)?)),
    }
}

// The combination of the columns by these factors.
fn numbered_combination(
    alloc: Global,
    ring: &Ring,
    columns: &[Vect],
    factors: &[(Key, u32)],
    accumulator: &mut Accumulator,
) -> Result<Option<Vect>, ProductStop>
    requires positions { HasPositions (length columns.now) factors.now }
    requires factors { Each (IsTerm (variables ring.now) ring.now.weights ring.now.modulus.value) factors.now }
    requires columns { AreVectorsOver ring.now (ring_comparison ring.now) columns.now }
    requires cleared { HasZeroSums ring.now columns.now accumulator.old }
    ensures vector { IfOk result (λ made. IfSome made (IsVectorOver ring.now (ring_comparison ring.now))) }
    ensures sum { IfOk result (λ made. IfSome made (IsComplement ring.now columns.now [])) }
    ensures cleared { IfOk result (λ made. IfSome made (λ _. HasZeroSums ring.now columns.now accumulator.new)) }
{
    renew(alloc, ring, columns, accumulator)?;
    begin(alloc, ring, columns, accumulator)?;
    add_products(alloc, ring, columns, factors, accumulator)?;
    Ok(gathered_vector(alloc, ring, columns, accumulator)?)
}

// The same. None where a product is too great, or there is no room for all keys.
fn by_numbers(
    alloc: Global,
    ring: &Ring,
    columns: &[Vect],
    factors: &[(Key, u32)],
    accumulator: &mut Accumulator,
) -> Option<Vect>
    requires positions { HasPositions (length columns.now) factors.now }
    requires factors { Each (IsTerm (variables ring.now) ring.now.weights ring.now.modulus.value) factors.now }
    requires columns { AreVectorsOver ring.now (ring_comparison ring.now) columns.now }
    requires cleared { HasZeroSums ring.now columns.now accumulator.old }
    ensures vector { IfSome result (IsVectorOver ring.now (ring_comparison ring.now)) }
    ensures sum { IfSome result (IsComplement ring.now columns.now []) }
    ensures cleared { IfSome result (λ _. HasZeroSums ring.now columns.now accumulator.new) }
{
    match numbered_combination(alloc, ring, columns, factors, accumulator) {
        Ok(made) => made,
        Err(_stop) => None,
    }
}

// The combination from the terms themselves.
fn by_terms(
    alloc: Global,
    ring: &Ring,
    columns: &VectList,
    factors: &Vect,
) -> Result<Vect, VectStop>
    requires columns { AreVectorsOver ring.now (ring_comparison ring.now) columns.now }
    requires factors { IsVectorOver ring.now (ring_comparison ring.now) factors.now }
    requires positions { HasPositions (length columns.now) factors.now }
    ensures vector { IfOk result (IsVectorOver ring.now (ring_comparison ring.now)) }
    ensures sum { IfOk result (IsComplement ring.now columns.now []) }
{
    Vect::combine(alloc, ring, factors, columns)
}

// Are the factors' products few, or have they few terms?
fn has_few_terms(columns: &[Vect], factors: &[(Key, u32)]) -> bool {
    if factors.len() < FEWEST_PRODUCTS {
        return true;
    }
    let mut count: usize = 0;
    for factor in factors {
        let at = factor.0.position;
        if at < columns.len() as u64 {
            count = count.saturating_add(columns[at as usize].terms().len());
        }
    }
    count < FEWEST_TERMS
}

/// The combination of the columns by these factors.
pub(crate) fn combination_of(
    alloc: Global,
    ring: &Ring,
    columns: &VectList,
    factors: &Vect,
    accumulator: &mut Accumulator,
) -> Result<Vect, VectStop>
    requires columns { AreVectorsOver ring.now (ring_comparison ring.now) columns.now }
    requires factors { IsVectorOver ring.now (ring_comparison ring.now) factors.now }
    requires positions { HasPositions (length columns.now) factors.now }
    requires cleared { HasZeroSums ring.now columns.now accumulator.old }
    ensures vector { IfOk result (IsVectorOver ring.now (ring_comparison ring.now)) }
    ensures sum { IfOk result (IsComplement ring.now columns.now []) }
    ensures cleared { OnOk result (HasZeroSums ring.now columns.now accumulator.new) }
{
    let list = columns.as_slice();
    if has_few_terms(list, factors.terms()) {
        return by_terms(alloc, ring, columns, factors);
    }
    match by_numbers(alloc, ring, list, factors.terms(), accumulator) {
        Some(sum) => Ok(sum),
        None => {
            *accumulator = no_sums(alloc, ring, list)?;
            by_terms(alloc, ring, columns, factors)
        }
    }
}
