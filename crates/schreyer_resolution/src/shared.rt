// The columns of the next map by products that they share.
ghost use Rattle.std.specs.Prelude.{◌≡◌, ◌<◌, ◌++◌, ◌∷◌, [], IfOk, IfSome, OnOk, length, map};
ghost use Rattle.formal_sums.specs.FormalSums.{Each};
ghost use Rattle.orders.specs.KeyOrders.{Descends};
ghost use Rattle.term_lists.specs.Rings.{variables};
ghost use Rattle.term_lists.specs.Vectors.{AreVectorsOver, IsMonomialOver, key_of, sum_of, sums_of};
ghost use Rattle.vector_division.specs.Progress.{AreWeighed};
ghost use Rattle.resolution_maps.specs.Inducing.{tower_comparison};
ghost use Rattle.induced_leads.specs.Pairs.{AreNonzero};
ghost use Rattle.induced_leads.specs.Spans.{IsIndexOf};
ghost use Rattle.induced_leads.specs.PairLeads.{ArePairLeads, IsBase};
ghost use Rattle.schreyer_resolution.specs.Columns.{AreColumnsTo, IsAbove};
ghost use Rattle.numbered_sums.specs.KeySums.{AreZeroSums};
ghost use Rattle.numbered_sums.specs.ProductEntries.{AreReduced};
ghost use Rattle.schreyer_resolution.specs.FreeKeys.{AreFreeMembersZero, IsProductUpToFree};
ghost use Rattle.schreyer_resolution.specs.Sharing.{AreColumnsMade, AreLastProducts, ArePartProducts, AreStarts, IsColumnMade};
ghost use Rattle.schreyer_resolution.specs.Turns.{product_term};

use crate::marking::column_marks;
use crate::numbered::{all_rows, start_rows};
use crate::ordering::{descends, places_of, product_terms, sort_products, taken_terms};
use crate::products::{Products, Stretch, row_of};
use crate::substituting::take_quotients;
use induced_leads::{Induced, LeadIndex};
use module_vectors::{Frame, Key, NoMemory, Ring, Vect, VectList, lawful_setting};
use numbered_sums::{Work, no_work};
use row_matrix::{KeyTable, ProductStop};
use std::alloc::Global;

// The column with this lead; none where a test fails.
fn shared_column(
    alloc: Global,
    ring: &Ring,
    induced: &Induced<'_>,
    columns: &[Vect],
    key: &Key,
    products: &Products,
    terms: &[(Key, u32)],
    places: &[u32],
    start: &[(u32, u32)],
    taken: &mut Vec<(u32, u32)>,
    work: &mut Work,
) -> Result<Option<Vect>, NoMemory>
    requires over { induced.now.ring ≡ ring.now }
    requires monomial { IsMonomialOver ring.now key.now.monomial }
    requires base { AreFreeMembersZero ring.now columns.now }
    requires products { AreLastProducts ring.now columns.now products.now }
    requires terms { terms.now ≡ map product_term products.now.list.items }
    requires descend { let n = variables ring.now in Descends (tower_comparison induced.now n) (sum_of n terms.now) }
    requires start { IsProductUpToFree ring.now columns.now products.now.numbers key.now.position key.now.monomial start.now }
    requires count { length work.old.sums.items ≡ length products.now.numbers }
    requires idle { AreZeroSums work.old.sums.items }
    ensures made { IfOk result (λ made. IfSome made (IsColumnMade ring.now columns.now induced.now key.now)) }
    ensures idle { IfOk result (λ made. IfSome made (λ _. AreZeroSums work.new.sums.items)) }
    ensures count { IfOk result (λ made. IfSome made (λ _. length work.new.sums.items ≡ length products.now.numbers)) }
{
    ring.modulus.domain();
    let done = take_quotients(ring, columns, key, products, places, start, taken, work)?;
    if !done {
        return Ok(None);
    }
    let found = taken_terms(alloc, induced, key, terms, taken)?;
    match found {
        None => Ok(None),
        Some(made) => Ok(Some(Vect::from_ordered(induced, made))),
    }
}

// Puts the column behind the others.
fn push_column(made: Vect, next: &mut Vec<Vect>) -> Result<(), NoMemory>
    ensures { OnOk result (next.new.items ≡ next.old.items ++ made ∷ []) }
{
    next.push(made)?;
    Ok(())
}

// The columns with these leads, by the entries of the products with which they start; none where a test fails.
fn columns_by(
    alloc: Global,
    ring: &Ring,
    induced: &Induced<'_>,
    columns: &[Vect],
    keys: &[Key],
    products: &Products,
    terms: &[(Key, u32)],
    places: &[u32],
    starts: &[Stretch],
    work: &mut Work,
) -> Result<Option<Vec<Vect>>, NoMemory>
    requires over { induced.now.ring ≡ ring.now }
    requires base { AreFreeMembersZero ring.now columns.now }
    requires monomials { Each (λ k. IsMonomialOver ring.now k.monomial) keys.now }
    requires products { AreLastProducts ring.now columns.now products.now }
    requires terms { terms.now ≡ map product_term products.now.list.items }
    requires descend { let n = variables ring.now in Descends (tower_comparison induced.now n) (sum_of n terms.now) }
    requires starts { AreStarts ring.now columns.now products.now.numbers products.now.entries.items keys.now (length keys.now) starts.now }
    requires count { length work.old.sums.items ≡ length products.now.numbers }
    requires idle { AreZeroSums work.old.sums.items }
    ensures { IfOk result (λ made. IfSome made (λ next. AreColumnsMade ring.now columns.now induced.now keys.now (length keys.now) next.items)) }
{
    let mut next = Vec::with_capacity(alloc, keys.len())?;
    let mut taken = Vec::new(alloc);
    for i in 0..keys.len() {
        let start = row_of(&products.entries, starts[i]);
        match shared_column(
            alloc, ring, induced, columns, &keys[i], products, terms, places, start, &mut taken,
            work,
        )? {
            None => return Ok(None),
            Some(made) => push_column(made, &mut next)?,
        }
    }
    Ok(Some(next))
}

// How many terms the columns have.
fn count_terms(columns: &[Vect]) -> usize {
    let mut count: usize = 0;
    for column in columns {
        count = count.saturating_add(column.terms().len());
    }
    count
}

// No products yet. There is room for eight times as many as columns to be made, and for twice as many entries as the columns have terms:
// mostly there are fewer.
fn no_products(
    alloc: Global,
    ring: &Ring,
    columns: &[Vect],
    count: usize,
) -> Result<Products, NoMemory>
    ensures part { IfOk result (ArePartProducts ring.now columns.now) }
{
    let _ring = ring;
    let room = count.saturating_mul(8);
    Ok(Products {
        numbers: KeyTable::with_room(alloc, room)?,
        free: Vec::with_capacity(alloc, room)?,
        list: Vec::with_capacity(alloc, room)?,
        entries: Vec::with_capacity(alloc, count_terms(columns).saturating_mul(2))?,
    })
}

// The columns with these leads; none where a test fails.
fn made_columns<F: Frame>(
    alloc: Global,
    frame: &F,
    ring: &Ring,
    induced: &Induced<'_>,
    columns: &[Vect],
    index: &LeadIndex,
    keys: &[Key],
) -> Result<Option<Vec<Vect>>, ProductStop>
    requires frame { F.over frame.now ≡ ring.now }
    requires over { induced.now.ring ≡ ring.now }
    requires base { AreFreeMembersZero ring.now columns.now }
    requires some { AreNonzero columns.now }
    requires index { IsIndexOf columns.now index.now }
    requires positions { Each (λ k. k.position < length columns.now) keys.now }
    requires monomials { Each (λ k. IsMonomialOver ring.now k.monomial) keys.now }
    requires weighed { AreWeighed (variables ring.now) ring.now.weights columns.now }
    requires reduced { AreReduced ring.now.modulus.value columns.now }
    ensures { IfOk result (λ made. IfSome made (λ next. AreColumnsMade ring.now columns.now induced.now keys.now (length keys.now) next.items)) }
{
    // No column stands above those of the last map, which are many.
    if keys.is_empty() {
        return Ok(Some(Vec::new(alloc)));
    }
    let marks = column_marks(alloc, columns, index)?;
    let mut products = no_products(alloc, ring, columns, keys.len())?;
    let starts = start_rows(alloc, ring, columns, index, &marks, keys, &mut products)?;
    all_rows(alloc, ring, columns, index, &marks, &mut products)?;
    let places = places_of(alloc, frame, &products.numbers, &products.list)?;
    sort_products(&places, &mut products.list);
    let terms = product_terms(alloc, &products.list)?;
    if !descends(induced, &terms) {
        return Ok(None);
    }
    let mut work = no_work(alloc, products.numbers.len())?;
    let made = columns_by(
        alloc, ring, induced, columns, keys, &products, &terms, &places, &starts, &mut work,
    )?;
    Ok(made)
}

/// The columns with these leads, each product of a column made once for all of them. None where a product is too great or
/// there is no room for all of them.
pub(crate) fn shared_columns<F: Frame>(
    alloc: Global,
    frame: &F,
    induced: &Induced<'_>,
    columns: &VectList,
    index: &LeadIndex,
    keys: &[Key],
) -> Option<VectList>
    requires over { induced.now.ring ≡ F.over frame.now }
    requires above { IsAbove (F.over frame.now) (F.compare frame.now) columns.now induced.now }
    requires vectors { AreVectorsOver (F.over frame.now) (F.compare frame.now) columns.now }
    requires base { IsBase (F.over frame.now) (F.compare frame.now) columns.now }
    requires index { IsIndexOf columns.now index.now }
    requires monomials { Each (λ k. IsMonomialOver (F.over frame.now) k.monomial) keys.now }
    requires pairs { let n = variables (F.over frame.now) in ArePairLeads (sums_of n columns.now) (map (key_of n) keys.now) }
    ensures { IfSome result (AreColumnsTo (F.over frame.now) (F.compare frame.now) columns.now induced.now keys.now (length keys.now)) }
{
    lawful_setting(frame);
    let ring = frame.ring();
    let made = made_columns(alloc, frame, ring, induced, columns.as_slice(), index, keys);
    match made {
        Ok(Some(next)) => Some(VectList::from_vec(next)),
        Ok(None) => None,
        Err(_stop) => None,
    }
}
