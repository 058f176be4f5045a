// The rows of products over numbers of keys.
ghost use Rattle.std.specs.Prelude.{◌≡◌, ◌<◌, [], List, true, false, ℕ, IfOk, IsTrue, OnOk, length};
ghost use Rattle.formal_sums.specs.FormalSums.{Each};
ghost use Rattle.term_lists.specs.Rings.{variables};
ghost use Rattle.term_lists.specs.Vectors.{IsMonomialOver, key_of, sums_of};
ghost use Rattle.vector_division.specs.Divisions.{IsUncovered};
ghost use Rattle.vector_division.specs.Progress.{AreWeighed};
ghost use Rattle.row_matrix.specs.Hashes.{key_product};
ghost use Rattle.induced_leads.specs.Pairs.{AreNonzero};
ghost use Rattle.induced_leads.specs.Reaching.{OccurAmong, positions_of};
ghost use Rattle.induced_leads.specs.Spans.{IsIndexOf};
ghost use Rattle.numbered_sums.specs.ProductEntries.{AreReduced};
ghost use Rattle.schreyer_resolution.specs.FreeKeys.{HasMore};
ghost use Rattle.schreyer_resolution.specs.Marking.{AreColumnMarks, IsTermMark};
ghost use Rattle.schreyer_resolution.specs.Sharing.{AreLastProducts, ArePartProducts, AreStarts, HaveMore, IsRowOf};

use crate::marking::{ColumnMarks, TermMark};
use crate::products::{Products, Stretch, push_entry};
use induced_leads::LeadIndex;
use module_vectors::{Key, Ring, Vect};
use monomial_orders::Mono;
use row_matrix::{ProductStop, hash_of_factor};
use std::alloc::Global;
use vector_division::occurring_variables;

// No more products are made than these.
const MOST_PRODUCTS: usize = 1 << 22;

// Can a lead divide the product of t, in which these variables occur, and the key with this mark? Where not, none does.
fn may_be_covered(
    columns: &[Vect],
    index: &LeadIndex,
    t: &Mono,
    variables: u64,
    key: &Key,
    mark: TermMark,
) -> bool
    requires index { IsIndexOf columns.now index.now }
    requires variables { OccurAmong t.now.exponents variables }
    requires mark { IsTermMark columns.now (positions_of index.now) key.now mark }
    ensures reached { IsTrue result → mark.is_reached ≡ true }
    ensures never { (result ≡ false) → (n : ℕ) (ws : List ℕ) → AreWeighed n ws columns.now → length t.now.exponents ≡ n
        → length key.now.monomial.exponents ≡ n → IsUncovered (sums_of n columns.now) (key_of n (key_product t.now key.now)) }
{
    let _columns = columns;
    let _t = t;
    if mark.is_reached {
        return mark.is_sure || index.may_divide(key.position, mark.variables | variables);
    }
    false
}

/// Puts the entries of the product of t and the column with this index behind the others, without those whose keys no lead divides.
pub(crate) fn push_row(
    alloc: Global,
    ring: &Ring,
    columns: &[Vect],
    index: &LeadIndex,
    marks: &[ColumnMarks],
    at: usize,
    t: &Mono,
    products: &mut Products,
) -> Result<Stretch, ProductStop>
    requires at { at < length columns.now }
    requires monomial { IsMonomialOver ring.now t.now }
    requires some { AreNonzero columns.now }
    requires weighed { AreWeighed (variables ring.now) ring.now.weights columns.now }
    requires reduced { AreReduced ring.now.modulus.value columns.now }
    requires index { IsIndexOf columns.now index.now }
    requires marks { AreColumnMarks columns.now (positions_of index.now) marks.now }
    requires part { ArePartProducts ring.now columns.now products.old }
    ensures part { OnOk result (ArePartProducts ring.now columns.now products.new) }
    ensures more { OnOk result (HaveMore products.old products.new) }
    ensures row { IfOk result (IsRowOf ring.now columns.now products.new.numbers products.new.entries.items at t.now) }
{
    let from = products.entries.len();
    let terms = columns[at].terms();
    let of_column = &marks[at];
    let added = hash_of_factor(t);
    let told = products
        .numbers
        .tells(t, index.positions() as u64, of_column.degree);
    let variables = occurring_variables(t);
    for k in 0..terms.len() {
        let mark = of_column.marks[k];
        let term = &terms[k];
        if may_be_covered(columns, index, t, variables, &term.0, mark) {
            term.0.monomial.bounds();
            push_entry(
                alloc, ring, columns, index, t, added, told, term, k, mark.hash, products,
            )?;
        }
    }
    Ok(Stretch {
        from,
        to: products.entries.len(),
    })
}

/// Puts the entries of the products of these keys' monomials and their columns behind the others.
pub(crate) fn start_rows(
    alloc: Global,
    ring: &Ring,
    columns: &[Vect],
    index: &LeadIndex,
    marks: &[ColumnMarks],
    keys: &[Key],
    products: &mut Products,
) -> Result<Vec<Stretch>, ProductStop>
    requires positions { Each (λ k. k.position < length columns.now) keys.now }
    requires monomials { Each (λ k. IsMonomialOver ring.now k.monomial) keys.now }
    requires some { AreNonzero columns.now }
    requires weighed { AreWeighed (variables ring.now) ring.now.weights columns.now }
    requires reduced { AreReduced ring.now.modulus.value columns.now }
    requires index { IsIndexOf columns.now index.now }
    requires marks { AreColumnMarks columns.now (positions_of index.now) marks.now }
    requires part { ArePartProducts ring.now columns.now products.old }
    ensures part { OnOk result (ArePartProducts ring.now columns.now products.new) }
    ensures starts { IfOk result (λ rows. AreStarts ring.now columns.now products.new.numbers products.new.entries.items keys.now (length keys.now) rows.items) }
{
    let mut rows = Vec::with_capacity(alloc, keys.len())?;
    for key in keys {
        rows.push_reserved(push_row(
            alloc,
            ring,
            columns,
            index,
            marks,
            key.position as usize,
            &key.monomial,
            products,
        )?);
    }
    Ok(rows)
}

/// Puts the entries of each product of the list behind the others. Products that come to be in the list are made as well.
pub(crate) fn all_rows(
    alloc: Global,
    ring: &Ring,
    columns: &[Vect],
    index: &LeadIndex,
    marks: &[ColumnMarks],
    products: &mut Products,
) -> Result<(), ProductStop>
    requires some { AreNonzero columns.now }
    requires weighed { AreWeighed (variables ring.now) ring.now.weights columns.now }
    requires reduced { AreReduced ring.now.modulus.value columns.now }
    requires index { IsIndexOf columns.now index.now }
    requires marks { AreColumnMarks columns.now (positions_of index.now) marks.now }
    requires part { ArePartProducts ring.now columns.now products.old }
    ensures part { OnOk result (ArePartProducts ring.now columns.now products.new) }
    ensures numbers { OnOk result (HasMore products.old.numbers products.new.numbers) }
    ensures entries { OnOk result (HasMore products.old.entries.items products.new.entries.items) }
    ensures last { OnOk result (AreLastProducts ring.now columns.now products.new) }
{
    for at in 0..MOST_PRODUCTS {
        if at >= products.list.len() {
            return Ok(());
        }
        let t = products.list[at].monomial.try_copy(alloc)?;
        let index_of_column = products.list[at].index as usize;
        let stretch = push_row(
            alloc,
            ring,
            columns,
            index,
            marks,
            index_of_column,
            &t,
            products,
        )?;
        products.list[at].stretch = stretch;
    }
    Err(ProductStop::Memory)
}
