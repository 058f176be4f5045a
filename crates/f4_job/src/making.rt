// Rows of a matrix as rows of an outcome.
ghost use Rattle.std.specs.Prelude.{◌≡◌, ◌<◌, IfOk, length, map};
ghost use Rattle.formal_sums.specs.FormalSums.{Each};
ghost use Rattle.term_lists.specs.Rings.{ring_comparison, variables};
ghost use Rattle.vector_division.specs.Reductions.{term_of};
ghost use Rattle.row_matrix.specs.Rows.{AreKeys, Descend, IsRow};
ghost use Rattle.f4_job.specs.Made.{AreMadeRows, AreWeighedProducts, IsMadeRow, entry_term, source_parts};

use crate::ranking::{Ranks, ranks_of, sorted_sources};
use member_products::Reduct;
use module_vectors::{Key, NoMemory, Ring, Vect};
use monomial_orders::Mono;
use row_matrix::Row as MatrixRow;
use std::alloc::Global;

// The terms of a row.
fn row_terms(
    alloc: Global,
    columns: &[Key],
    entries: &[(u32, u32)],
) -> Result<Vec<(Key, u32)>, NoMemory>
    requires { Each (λ e. e.0 < length columns.now) entries.now }
    ensures { IfOk result (λ terms. terms.items ≡ map (λ e. entry_term columns.now e) entries.now) }
{
    let mut terms = Vec::with_capacity(alloc, entries.len())?;
    for entry in entries {
        let key = columns[entry.0 as usize].try_copy(alloc)?;
        terms.push_reserved((key, entry.1));
    }
    Ok(terms)
}

// The terms that a row's sources stand for: each one's residue times its product's monomial, at the index of the product's
// member as position.
fn source_terms(
    alloc: Global,
    products: &[(u64, Mono)],
    sources: &[(u32, u32)],
) -> Result<Vec<(Key, u32)>, NoMemory>
    requires { Each (λ e. e.0 < length products.now) sources.now }
    ensures { IfOk result (λ terms. terms.items ≡ map term_of (source_parts products.now sources.now)) }
{
    let mut terms = Vec::with_capacity(alloc, sources.len())?;
    for source in sources {
        let product = &products[source.0 as usize];
        let key = Key {
            position: product.0,
            monomial: product.1.try_copy(alloc)?,
        };
        terms.push_reserved((key, source.1));
    }
    Ok(terms)
}

// The row of an outcome that this row of a matrix is. Its sources are taken by these places of the products, so that their
// sum is in order from the start.
fn make_row(
    alloc: Global,
    ring: &Ring,
    columns: &[Key],
    products: &[(u64, Mono)],
    ranks: &Ranks,
    row: &MatrixRow,
) -> Result<Reduct, NoMemory>
    requires columns { AreKeys (variables ring.now) ring.now.weights columns.now }
    requires descend { Descend (variables ring.now) (ring_comparison ring.now (variables ring.now)) columns.now }
    requires products { AreWeighedProducts (variables ring.now) ring.now.weights products.now }
    requires row { IsRow ring.now.modulus.value (length columns.now) (length products.now) row.now }
    ensures { IfOk result (IsMadeRow ring.now columns.now products.now row.now) }
{
    let terms = row_terms(alloc, columns, row.entries())?;
    let vector = Vect::from_terms(alloc, ring, terms)?;
    let sources = sorted_sources(alloc, ranks, row.sources())?;
    let cofactors = source_terms(alloc, products, &sources)?;
    let products = Vect::from_terms(alloc, ring, cofactors)?;
    Ok(Reduct { vector, products })
}

/// The rows of an outcome that these rows of a matrix are.
pub(crate) fn make_rows(
    alloc: Global,
    ring: &Ring,
    columns: &[Key],
    products: &[(u64, Mono)],
    rows: &[MatrixRow],
) -> Result<Vec<Reduct>, NoMemory>
    requires columns { AreKeys (variables ring.now) ring.now.weights columns.now }
    requires descend { Descend (variables ring.now) (ring_comparison ring.now (variables ring.now)) columns.now }
    requires products { AreWeighedProducts (variables ring.now) ring.now.weights products.now }
    requires rows { Each (IsRow ring.now.modulus.value (length columns.now) (length products.now)) rows.now }
    ensures { IfOk result (λ made. AreMadeRows ring.now columns.now products.now rows.now made.items) }
{
    let ranks = ranks_of(alloc, ring, products, rows)?;
    let mut made = Vec::new(alloc);
    for row in rows {
        let next = make_row(alloc, ring, columns, products, &ranks, row)?;
        made.push(next)?;
    }
    Ok(made)
}
