// Vectors and lists of vectors.
ghost use Rattle.std.specs.Prelude.{◌≡◌, ◌<◌, IfOk, OnOk};
ghost use Rattle.formal_sums.specs.FormalSums.{Each};
ghost use Rattle.term_lists.specs.Rings.{ring_comparison};
ghost use Rattle.term_lists.specs.Vectors.{AreTermsOver, AreVectorsOver, HasPositions, IsMonomialOver, IsVectorOver};
ghost use Rattle.member_products.specs.Generators.{AreGenerators, IsRanked};

use crate::no_value::NoValue;
use crate::products::multiple_of;
use module_vectors::{Key, Ring, Vect, VectList};
use std::alloc::Global;

// The term of a number times a text `PRODUCT` or `PRODUCT@POSITION`.
fn term_of(
    alloc: Global,
    ring: &Ring,
    position: u64,
    number: u128,
    text: &str,
) -> Result<(Key, u32), NoValue>
    ensures over { IfOk result (λ t. IsMonomialOver ring.now t.0.monomial) }
    ensures residue { IfOk result (λ t. t.1 < ring.now.modulus.value) }
{
    let (product, place) = text.split_once('@').unwrap_or((text, ""));
    let position = place.parse::<u64>().unwrap_or(position);
    let (monomial, residue) = multiple_of(alloc, ring, number, product)?;
    Ok((Key { position, monomial }, residue))
}

// Appends the terms of `TERM{-TERM}`.
fn append_differences(
    alloc: Global,
    ring: &Ring,
    position: u64,
    text: &str,
    terms: &mut Vec<(Key, u32)>,
) -> Result<(), NoValue>
    requires { AreTermsOver ring.now terms.old.items }
    ensures { OnOk result (AreTermsOver ring.now terms.new.items) }
{
    let minus_one = u128::from(ring.modulus.value()).wrapping_sub(1);
    let mut sign = 1;
    for part in text.split('-') {
        if !part.is_empty() {
            terms.push(term_of(alloc, ring, position, sign, part)?)?;
        }
        sign = minus_one;
    }
    Ok(())
}

// Appends the terms of a sum.
fn append_entry(
    alloc: Global,
    ring: &Ring,
    position: u64,
    text: &str,
    terms: &mut Vec<(Key, u32)>,
) -> Result<(), NoValue>
    requires { AreTermsOver ring.now terms.old.items }
    ensures { OnOk result (AreTermsOver ring.now terms.new.items) }
{
    for part in text.split('+') {
        append_differences(alloc, ring, position, part, terms)?;
    }
    Ok(())
}

// The terms of a vector.
fn terms_of(alloc: Global, ring: &Ring, text: &str) -> Result<Vec<(Key, u32)>, NoValue>
    ensures { IfOk result (λ terms. AreTermsOver ring.now terms.items) }
{
    let inner = text
        .strip_prefix("[")
        .and_then(|rest| rest.strip_suffix("]"))
        .unwrap_or(text);
    let mut terms = Vec::new(alloc);
    for (position, entry) in inner.split(',').enumerate() {
        append_entry(alloc, ring, position as u64, entry, &mut terms)?;
    }
    Ok(terms)
}

/// The vector of a text `SUM` or `[SUM{,SUM}]`, entry i at position i, if its positions are below the rank. A term of a
/// SUM is a product of numbers, variables and powers `NAME^NUM`; behind it `@I` puts it at position I.
pub fn vector_of(alloc: Global, ring: &Ring, rank: u128, text: &str) -> Result<Vect, NoValue>
    ensures ranked { IfOk result (IsRanked ring.now rank) }
    ensures vector { IfOk result (IsVectorOver ring.now (ring_comparison ring.now)) }
    ensures positions { IfOk result (HasPositions rank) }
{
    let terms = terms_of(alloc, ring, text)?;
    let v = Vect::from_terms(alloc, ring, terms)?;
    if v.has_positions(rank) {
        Ok(v)
    } else {
        Err(NoValue)
    }
}

/// The vectors of a text `VECTOR{;VECTOR}`, and none of the empty text.
pub fn vectors_of(alloc: Global, ring: &Ring, rank: u128, text: &str) -> Result<VectList, NoValue>
    ensures ranked { IfOk result (AreGenerators ring.now rank) }
    ensures vectors { IfOk result (AreVectorsOver ring.now (ring_comparison ring.now)) }
    ensures positions { IfOk result (Each (HasPositions rank)) }
{
    let mut list = VectList::new(alloc);
    if text.is_empty() {
        return Ok(list);
    }
    for part in text.split(';') {
        list.push(vector_of(alloc, ring, rank, part)?)?;
    }
    Ok(list)
}
