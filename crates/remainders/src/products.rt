// Products of vectors of the list, made when they are needed.
ghost use Rattle.std.specs.Prelude.{◌<◌, Contains, IfOk, IfSome, OnOk, length};
ghost use Rattle.formal_sums.specs.FormalSums.{Each};
ghost use Rattle.term_lists.specs.Rings.{variables};
ghost use Rattle.term_lists.specs.Vectors.{IsMonomialOver};
ghost use Rattle.vector_division.specs.Progress.{AreWeighed};
ghost use Rattle.row_matrix.specs.Naming.{IsGrown};
ghost use Rattle.row_matrix.specs.Rows.{AreKeys};
ghost use Rattle.numbered_sums.specs.ProductEntries.{AreReduced, IsProductEntries};
ghost use Rattle.remainders.specs.Hashed.{HaveHashes};
ghost use Rattle.remainders.specs.Leaving.{AreFactors, IsLonger, IsRowOfList};

use crate::hashes::keep_hashes;
use module_vectors::{Ring, Vect};
use monomial_orders::Mono;
use row_matrix::{KeyTable, ProductStop, TermHashes, product_row_in};
use std::alloc::Global;

// The product of a monomial and the vector with this index, in the room of another one. Its keys have numbers from then on.
fn hashed_product(
    alloc: Global,
    ring: &Ring,
    list: &[Vect],
    index: usize,
    monomial: &Mono,
    hashes: &mut Vec<TermHashes>,
    numbers: &mut KeyTable,
    room: Vec<(u32, u32)>,
) -> Result<Vec<(u32, u32)>, ProductStop>
    requires index { index < length list.now }
    requires monomial { IsMonomialOver ring.now monomial.now }
    requires weighed { AreWeighed (variables ring.now) ring.now.weights list.now }
    requires reduced { AreReduced ring.now.modulus.value list.now }
    requires hashed { HaveHashes list.now hashes.old.items }
    requires keys { AreKeys (variables ring.now) ring.now.weights numbers.old }
    ensures hashed { OnOk result (HaveHashes list.now hashes.new.items) }
    ensures row { IfOk result (λ row. IsProductEntries ring.now list.now numbers.new index monomial.now row.items) }
    ensures keys { OnOk result (AreKeys (variables ring.now) ring.now.weights numbers.new) }
    ensures grown { IfOk result (λ row. IsGrown numbers.old numbers.new row.items) }
{
    keep_hashes(alloc, list, hashes, index)?;
    let _ring = ring;
    product_row_in(
        alloc,
        numbers,
        monomial,
        list[index].terms(),
        &hashes[index],
        room,
    )
}

// The factors for the key with this number, if they are known.
fn factors_at<'a>(
    factors: &'a [(u64, Mono)],
    places: &[u32],
    number: u32,
) -> Option<&'a (u64, Mono)>
    ensures { IfSome result (λ found. Contains factors.now found.now) }
{
    let at = number as usize;
    if at >= places.len() {
        return None;
    }
    let place = places[at] as usize;
    if place >= factors.len() {
        return None;
    }
    Some(&factors[place])
}

/// The product that has the key with this number as its lead, by numbers of its keys, in the room of another one; none where it is not
/// known to have one.
pub(crate) fn product_for(
    alloc: Global,
    ring: &Ring,
    list: &[Vect],
    number: u32,
    places: &[u32],
    factors: &[(u64, Mono)],
    hashes: &mut Vec<TermHashes>,
    numbers: &mut KeyTable,
    room: Vec<(u32, u32)>,
) -> Result<Option<Vec<(u32, u32)>>, ProductStop>
    requires factors { Each (AreFactors ring.now list.now) factors.now }
    requires weighed { AreWeighed (variables ring.now) ring.now.weights list.now }
    requires reduced { AreReduced ring.now.modulus.value list.now }
    requires hashed { HaveHashes list.now hashes.old.items }
    requires keys { AreKeys (variables ring.now) ring.now.weights numbers.old }
    ensures hashed { OnOk result (HaveHashes list.now hashes.new.items) }
    ensures row { IfOk result (λ made. IfSome made (λ row. IsRowOfList ring.now list.now numbers.new row.items)) }
    ensures keys { OnOk result (AreKeys (variables ring.now) ring.now.weights numbers.new) }
    ensures longer { IfOk result (λ made. IsLonger numbers.old numbers.new) }
{
    match factors_at(factors, places, number) {
        None => Ok(None),
        Some(found) => {
            let row = hashed_product(
                alloc,
                ring,
                list,
                found.0 as usize,
                &found.1,
                hashes,
                numbers,
                room,
            )?;
            Ok(Some(row))
        }
    }
}
