// The division as a forward substitution, with a sum of products of residues for each key.
ghost use Rattle.std.specs.Prelude.{◌≡◌, ◌<◌, IfOk, IfSome, IsTrue, OnOk, length};
ghost use Rattle.term_lists.specs.Rings.{variables};
ghost use Rattle.term_lists.specs.Vectors.{sums_of};
ghost use Rattle.vector_division.specs.Divisions.{IsUncovered};
ghost use Rattle.vector_division.specs.Progress.{AreWeighed};
ghost use Rattle.row_matrix.specs.Rows.{AreKeys, column_key};
ghost use Rattle.induced_leads.specs.Spans.{IsIndexOf};
ghost use Rattle.numbered_sums.specs.KeySums.{AreTouched};
ghost use Rattle.numbered_sums.specs.ProductEntries.{AreReduced};
ghost use Rattle.remainders.specs.Hashed.{HaveHashes};
ghost use Rattle.remainders.specs.Leaving.{AreFreeFlags, AreLeft, AreTakenAway, IsRowOfList, IsTermKept};
ghost use Rattle.remainders.specs.UnderWay.{IsUnderWay};

use crate::hashes::no_hashes;
use crate::products::product_for;
use crate::work::{NOWHERE, Work, keep_factors, wait, widen};
use induced_leads::{LeadIndex, last_divisor};
use module_vectors::{Key, NoMemory, Ring, Vect};
use numbered_sums::{add_multiple, residue_at};
use row_matrix::{KeyTable, ProductStop, TermHashes};
use std::alloc::Global;
use std::mem::replace;
use zp_field::Modulus;

// More keys than these are not numbered.
const MOST_KEYS: usize = 1 << 20;

// Numbers are not taken more often than this. A number is taken again where its key has the hint of one that comes later.
const MOST_TURNS: usize = 1 << 21;

// The factor with which the product takes this residue away from its lead.
fn factor_for(modulus: &Modulus, product: &[(u32, u32)], residue: u32) -> u32
    requires { residue < modulus.now.value }
    ensures { result < modulus.now.value }
{
    modulus.domain();
    let negated = modulus.neg(residue);
    match product.first() {
        None => negated,
        Some(lead) => {
            if lead.1 == 1 || lead.1 == 0 || lead.1 >= modulus.value() {
                return negated;
            }
            match modulus.invert(lead.1) {
                None => negated,
                Some(inverse) => modulus.mul(negated, inverse),
            }
        }
    }
}

// Takes the product away so often as its lead has this residue.
fn take_product(
    ring: &Ring,
    list: &[Vect],
    numbers: &KeyTable,
    v: &Vect,
    product: &[(u32, u32)],
    residue: u32,
    sums: &mut Vec<u64>,
    touched: &mut Vec<u32>,
) -> Result<(), NoMemory>
    requires residue { residue < ring.now.modulus.value }
    requires product { IsRowOfList ring.now list.now numbers.now product.now }
    requires taken { AreTakenAway ring.now list.now numbers.now v.now sums.old.items touched.old.items }
    ensures { OnOk result (AreTakenAway ring.now list.now numbers.now v.now sums.new.items touched.new.items) }
{
    let _list = list;
    let _numbers = numbers;
    let _v = v;
    let modulus = &ring.modulus;
    modulus.domain();
    add_multiple(
        modulus,
        factor_for(modulus, product, residue),
        product,
        sums.as_mut_slice(),
        touched,
    )?;
    Ok(())
}

// Sets the sum with this number to 0 where that is its residue, so that the number is touched again by what is added later.
fn settle(
    ring: &Ring,
    list: &[Vect],
    numbers: &KeyTable,
    v: &Vect,
    number: u32,
    touched: &[u32],
    sums: &mut Vec<u64>,
)
    requires { AreTakenAway ring.now list.now numbers.now v.now sums.old.items touched.now }
    ensures { AreTakenAway ring.now list.now numbers.now v.now sums.new.items touched.now }
{
    let _list = list;
    let _numbers = numbers;
    let _v = v;
    let _touched = touched;
    let at = number as usize;
    if at >= sums.len() {
        return;
    }
    if residue_at(&ring.modulus, sums.as_slice(), number) == 0 {
        sums[at] = 0;
    }
}

// Keeps that no lead of the list divides the key with this number.
fn keep_flag(ring: &Ring, list: &[Vect], numbers: &KeyTable, number: u32, free: &mut Vec<bool>)
    requires number { number < length numbers.now }
    requires uncovered { let n = variables ring.now in IsUncovered (sums_of n list.now) (column_key n numbers.now number) }
    requires flags { AreFreeFlags (variables ring.now) list.now numbers.now free.old.items }
    ensures { AreFreeFlags (variables ring.now) list.now numbers.now free.new.items }
{
    let _ring = ring;
    let _list = list;
    let _numbers = numbers;
    let at = number as usize;
    if at < free.len() {
        free[at] = true;
    }
}

// Is it known that no lead divides the key with this number?
fn is_free(number: u32, work: &Work) -> bool {
    let at = number as usize;
    at < work.free.len() && work.free[at]
}

// Are the factors known for the key with this number?
fn is_known(number: u32, work: &Work) -> bool {
    let at = number as usize;
    at < work.places.len() && work.places[at] != NOWHERE
}

// Is a touched number to wait: does a lead divide its key? What divides it is looked for when it is touched first.
fn look_at(
    alloc: Global,
    ring: &Ring,
    list: &[Vect],
    index: &LeadIndex,
    numbers: &KeyTable,
    v: &Vect,
    number: u32,
    work: &mut Work,
) -> Result<bool, NoMemory>
    requires weighed { AreWeighed (variables ring.now) ring.now.weights list.now }
    requires index { IsIndexOf list.now index.now }
    requires keys { AreKeys (variables ring.now) ring.now.weights numbers.now }
    requires way { IsUnderWay ring.now list.now numbers.now v.now work.old }
    ensures way { OnOk result (IsUnderWay ring.now list.now numbers.now v.now work.new) }
    ensures touched { OnOk result (work.new.touched ≡ work.old.touched) }
{
    let _v = v;
    if number as usize >= numbers.len() || is_free(number, work) {
        return Ok(false);
    }
    if is_known(number, work) {
        return Ok(true);
    }
    let key = &numbers.keys()[number as usize];
    match last_divisor(alloc, ring, list, index, key)? {
        None => {
            keep_flag(ring, list, numbers, number, &mut work.free);
            Ok(false)
        }
        Some(found) => {
            keep_factors(number, found, &mut work.places, &mut work.factors)?;
            Ok(true)
        }
    }
}

// Looks at the numbers that were touched from this one on.
fn look_at_touched(
    alloc: Global,
    ring: &Ring,
    list: &[Vect],
    index: &LeadIndex,
    numbers: &KeyTable,
    v: &Vect,
    from: usize,
    work: &mut Work,
) -> Result<(), NoMemory>
    requires weighed { AreWeighed (variables ring.now) ring.now.weights list.now }
    requires index { IsIndexOf list.now index.now }
    requires keys { AreKeys (variables ring.now) ring.now.weights numbers.now }
    requires way { IsUnderWay ring.now list.now numbers.now v.now work.old }
    ensures { OnOk result (IsUnderWay ring.now list.now numbers.now v.now work.new) }
{
    for k in from..work.touched.len() {
        let number = work.touched[k];
        let waits = look_at(alloc, ring, list, index, numbers, v, number, work)?;
        wait(ring, numbers, number, waits, &work.hints, &mut work.queue)?;
    }
    Ok(())
}

// Takes the residue of this number away by the product that has its key as its lead, if there is one.
fn take_residue(
    alloc: Global,
    ring: &Ring,
    list: &[Vect],
    index: &LeadIndex,
    v: &Vect,
    number: u32,
    hashes: &mut Vec<TermHashes>,
    numbers: &mut KeyTable,
    work: &mut Work,
) -> Result<(), ProductStop>
    requires weighed { AreWeighed (variables ring.now) ring.now.weights list.now }
    requires reduced { AreReduced ring.now.modulus.value list.now }
    requires index { IsIndexOf list.now index.now }
    requires hashed { HaveHashes list.now hashes.old.items }
    requires keys { AreKeys (variables ring.now) ring.now.weights numbers.old }
    requires way { IsUnderWay ring.now list.now numbers.old v.now work.old }
    ensures hashed { OnOk result (HaveHashes list.now hashes.new.items) }
    ensures keys { OnOk result (AreKeys (variables ring.now) ring.now.weights numbers.new) }
    ensures way { OnOk result (IsUnderWay ring.now list.now numbers.new v.now work.new) }
{
    let residue = residue_at(&ring.modulus, work.sums.as_slice(), number);
    if residue == 0 {
        return Ok(());
    }
    let room = replace(&mut work.room, Vec::new(alloc));
    let made = product_for(
        alloc,
        ring,
        list,
        number,
        &work.places,
        &work.factors,
        hashes,
        numbers,
        room,
    )?;
    widen(ring, list, numbers, v, work)?;
    match made {
        None => Ok(()),
        Some(product) => {
            let from = work.touched.len();
            take_product(
                ring,
                list,
                numbers,
                v,
                &product,
                residue,
                &mut work.sums,
                &mut work.touched,
            )?;
            work.room = product;
            look_at_touched(alloc, ring, list, index, numbers, v, from, work)?;
            Ok(())
        }
    }
}

// Takes the residue of this number away, unless no lead divides its key.
fn take_number(
    alloc: Global,
    ring: &Ring,
    list: &[Vect],
    index: &LeadIndex,
    v: &Vect,
    number: u32,
    hashes: &mut Vec<TermHashes>,
    numbers: &mut KeyTable,
    work: &mut Work,
) -> Result<(), ProductStop>
    requires weighed { AreWeighed (variables ring.now) ring.now.weights list.now }
    requires reduced { AreReduced ring.now.modulus.value list.now }
    requires index { IsIndexOf list.now index.now }
    requires hashed { HaveHashes list.now hashes.old.items }
    requires keys { AreKeys (variables ring.now) ring.now.weights numbers.old }
    requires way { IsUnderWay ring.now list.now numbers.old v.now work.old }
    ensures hashed { OnOk result (HaveHashes list.now hashes.new.items) }
    ensures keys { OnOk result (AreKeys (variables ring.now) ring.now.weights numbers.new) }
    ensures way { OnOk result (IsUnderWay ring.now list.now numbers.new v.now work.new) }
{
    take_residue(alloc, ring, list, index, v, number, hashes, numbers, work)?;
    settle(
        ring,
        list,
        numbers,
        v,
        number,
        work.touched.as_slice(),
        &mut work.sums,
    );
    Ok(())
}

/// Takes residues away until none is left whose key a lead divides, or there is too much to do.
pub(crate) fn take_all(
    alloc: Global,
    ring: &Ring,
    list: &[Vect],
    index: &LeadIndex,
    v: &Vect,
    numbers: &mut KeyTable,
    work: &mut Work,
) -> Result<(), ProductStop>
    requires weighed { AreWeighed (variables ring.now) ring.now.weights list.now }
    requires reduced { AreReduced ring.now.modulus.value list.now }
    requires index { IsIndexOf list.now index.now }
    requires keys { AreKeys (variables ring.now) ring.now.weights numbers.old }
    requires way { IsUnderWay ring.now list.now numbers.old v.now work.old }
    ensures keys { OnOk result (AreKeys (variables ring.now) ring.now.weights numbers.new) }
    ensures way { OnOk result (IsUnderWay ring.now list.now numbers.new v.now work.new) }
{
    let mut hashes = no_hashes(alloc, list)?;
    look_at_touched(alloc, ring, list, index, numbers, v, 0, work)?;
    for _ in 0..MOST_TURNS {
        if numbers.len() > MOST_KEYS {
            return Ok(());
        }
        match work.queue.pop() {
            None => return Ok(()),
            Some((_hint, number)) => {
                take_number(
                    alloc,
                    ring,
                    list,
                    index,
                    v,
                    number.0,
                    &mut hashes,
                    numbers,
                    work,
                )?;
            }
        }
    }
    Ok(())
}

// Puts the term with this residue behind the others, unless it is 0. Does no lead divide its key?
fn keep_left(
    alloc: Global,
    ring: &Ring,
    list: &[Vect],
    numbers: &KeyTable,
    free: &[bool],
    number: usize,
    residue: u32,
    terms: &mut Vec<(Key, u32)>,
) -> Result<bool, NoMemory>
    requires number { number < length numbers.now }
    requires residue { residue < ring.now.modulus.value }
    requires keys { AreKeys (variables ring.now) ring.now.weights numbers.now }
    requires flags { AreFreeFlags (variables ring.now) list.now numbers.now free.now }
    ensures { IfOk result (λ is_free. IsTrue is_free → IsTermKept ring.now list.now numbers.now number residue terms.old.items terms.new.items) }
{
    let _ring = ring;
    let _list = list;
    if residue == 0 {
        return Ok(true);
    }
    if number >= free.len() || !free[number] {
        return Ok(false);
    }
    let key = numbers.keys()[number].try_copy(alloc)?;
    terms.push((key, residue))?;
    Ok(true)
}

/// The terms of the sums that are left, which are set to 0; none where one of them has a key that a lead divides.
pub(crate) fn left_terms(
    alloc: Global,
    ring: &Ring,
    list: &[Vect],
    numbers: &KeyTable,
    free: &[bool],
    touched: &[u32],
    sums: &mut Vec<u64>,
) -> Result<Option<Vec<(Key, u32)>>, NoMemory>
    requires keys { AreKeys (variables ring.now) ring.now.weights numbers.now }
    requires flags { AreFreeFlags (variables ring.now) list.now numbers.now free.now }
    requires count { length sums.old.items ≡ length numbers.now }
    requires touched { AreTouched touched.now sums.old.items }
    ensures { IfOk result (λ left. IfSome left (λ terms. AreLeft ring.now list.now numbers.now sums.old.items terms.items)) }
{
    let modulus = &ring.modulus;
    modulus.domain();
    let mut terms = Vec::new(alloc);
    for number in touched {
        let at = *number as usize;
        if at >= sums.len() {
            return Ok(None);
        }
        let residue = residue_at(modulus, sums.as_slice(), *number);
        if !keep_left(alloc, ring, list, numbers, free, at, residue, &mut terms)? {
            return Ok(None);
        }
        sums[at] = 0;
    }
    Ok(Some(terms))
}
