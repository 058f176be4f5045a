// The rest of a division.
ghost use Rattle.std.specs.Prelude.{◌≡◌, [], IfErr, IfOk, IfSome, OnOk};
ghost use Rattle.term_lists.specs.Rings.{ring_comparison, variables};
ghost use Rattle.term_lists.specs.Vectors.{AreVectorsOver, IsVectorOver};
ghost use Rattle.vector_division.specs.Divisions.{DivisionStops};
ghost use Rattle.row_matrix.specs.Rows.{AreKeys};
ghost use Rattle.remainders.specs.Leaving.{AreEntriesOf};
ghost use Rattle.remainders.specs.Remainders.{IsRemainderOf};
ghost use Rattle.remainders.specs.UnderWay.{IsUnderWay};

use crate::substituting::{left_terms, take_all};
use crate::work::{FIRST_KEYS, Work, begin};
use induced_leads::index_leads;
use module_vectors::{NoMemory, Ring, Vect, VectList, WorkStop, lawful_setting};
use monomial_orders::Mono;
use row_matrix::{KeyTable, ProductStop, TermHashes, product_row};
use std::alloc::Global;
use vector_division::{Reduction, divisors_from_last, reduce_by};

// The vector's entries by numbers of its keys.
fn numbered_terms(
    alloc: Global,
    ring: &Ring,
    v: &Vect,
    numbers: &mut KeyTable,
) -> Result<Vec<(u32, u32)>, ProductStop>
    requires vector { IsVectorOver ring.now (ring_comparison ring.now) v.now }
    requires keys { numbers.old ≡ [] }
    ensures entries { IfOk result (λ entries. AreEntriesOf ring.now numbers.new v.now entries.items) }
    ensures keys { OnOk result (AreKeys (variables ring.now) ring.now.weights numbers.new) }
{
    let one = Mono::unit(alloc, ring.vars.len())?;
    let hashes = TermHashes::of(alloc, v.terms())?;
    product_row(alloc, numbers, &one, v.terms(), &hashes)
}

// What is left as a vector. None where a key is left that a lead divides.
fn left_of(
    alloc: Global,
    ring: &Ring,
    list: &[Vect],
    numbers: &KeyTable,
    v: &Vect,
    mut work: Work,
) -> Result<Option<Vect>, NoMemory>
    requires keys { AreKeys (variables ring.now) ring.now.weights numbers.now }
    requires way { IsUnderWay ring.now list.now numbers.now v.now work }
    ensures rest { IfOk result (λ rest. IfSome rest (IsVectorOver ring.now (ring_comparison ring.now))) }
    ensures remainder { IfOk result (λ rest. IfSome rest (IsRemainderOf ring.now list.now v.now)) }
{
    let _v = v;
    lawful_setting(ring);
    let left = left_terms(
        alloc,
        ring,
        list,
        numbers,
        &work.free,
        work.touched.as_slice(),
        &mut work.sums,
    )?;
    match left {
        None => Ok(None),
        Some(terms) => Ok(Some(Vect::from_terms(alloc, ring, terms)?)),
    }
}

// What is left of the vector. None where there is too much to do.
fn numbered_rest(
    alloc: Global,
    ring: &Ring,
    v: &Vect,
    list: &[Vect],
) -> Result<Option<Vect>, ProductStop>
    requires vector { IsVectorOver ring.now (ring_comparison ring.now) v.now }
    requires list { AreVectorsOver ring.now (ring_comparison ring.now) list.now }
    ensures rest { IfOk result (λ rest. IfSome rest (IsVectorOver ring.now (ring_comparison ring.now))) }
    ensures remainder { IfOk result (λ rest. IfSome rest (IsRemainderOf ring.now list.now v.now)) }
{
    let mut numbers = KeyTable::with_room(alloc, FIRST_KEYS)?;
    let start = numbered_terms(alloc, ring, v, &mut numbers)?;
    let index = index_leads(alloc, list)?;
    let mut work = begin(alloc, ring, list, &numbers, v, &start)?;
    take_all(alloc, ring, list, &index, v, &mut numbers, &mut work)?;
    Ok(left_of(alloc, ring, list, &numbers, v, work)?)
}

// What is left of the vector by numbers of keys. None where a product is too great, or there is no room for all keys.
fn by_products(alloc: Global, ring: &Ring, v: &Vect, list: &VectList) -> Option<Vect>
    requires vector { IsVectorOver ring.now (ring_comparison ring.now) v.now }
    requires list { AreVectorsOver ring.now (ring_comparison ring.now) list.now }
    ensures rest { IfSome result (IsVectorOver ring.now (ring_comparison ring.now)) }
    ensures remainder { IfSome result (IsRemainderOf ring.now list.now v.now) }
{
    match numbered_rest(alloc, ring, v, list.as_slice()) {
        Ok(rest) => rest,
        Err(_stop) => None,
    }
}

// What was left.
fn rest_of(reduction: Reduction) -> Vect
    ensures { result ≡ reduction.rest }
{
    reduction.rest
}

// The same, from term to term. Of the vectors whose leads divide a key the last is taken.
fn by_terms(alloc: Global, ring: &Ring, v: &Vect, list: &VectList) -> Result<Vect, WorkStop>
    requires vector { IsVectorOver ring.now (ring_comparison ring.now) v.now }
    requires list { AreVectorsOver ring.now (ring_comparison ring.now) list.now }
    ensures rest { IfOk result (IsVectorOver ring.now (ring_comparison ring.now)) }
    ensures remainder { IfOk result (IsRemainderOf ring.now list.now v.now) }
    ensures stop { IfErr result (DivisionStops ring.now v.now list.now) }
{
    let divisors = divisors_from_last(alloc, list)?;
    match reduce_by(alloc, ring, v, list, &divisors) {
        Ok(reduction) => Ok(rest_of(reduction)),
        Err(stop) => Err(stop),
    }
}

/// What a division of the vector by the list leaves: of the vectors whose leads divide a key the last is taken, in a list by
/// descending leads that with the smallest lead, so that products stay small (IVA chapter 2, section 3).
///
/// `Degree` comes with a trail to a product of degree above 65,535, `Memory` where a growth was refused.
pub fn remainder(alloc: Global, ring: &Ring, v: &Vect, list: &VectList) -> Result<Vect, WorkStop>
    requires vector { IsVectorOver ring.now (ring_comparison ring.now) v.now }
    requires list { AreVectorsOver ring.now (ring_comparison ring.now) list.now }
    ensures rest { IfOk result (IsVectorOver ring.now (ring_comparison ring.now)) }
    ensures remainder { IfOk result (IsRemainderOf ring.now list.now v.now) }
    ensures stop { IfErr result (DivisionStops ring.now v.now list.now) }
{
    match by_products(alloc, ring, v, list) {
        Some(rest) => Ok(rest),
        None => by_terms(alloc, ring, v, list),
    }
}
