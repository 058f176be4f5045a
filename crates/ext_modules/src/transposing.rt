// The rows of a map as vectors.
ghost use Rattle.std.specs.Prelude.{◌≡◌, ◌++◌, ◌∷◌, [], IfOk, OnOk, List};
ghost use Rattle.formal_sums.specs.FormalSums.{Each, FormalSum};
ghost use Rattle.ext_laws.specs.Transposes.{rows_of};
ghost use Rattle.term_lists.specs.Rings.{variables};
ghost use Rattle.term_lists.specs.Vectors.{AreTermsOver, HasPositions, sum_of, sums_of};
ghost use Rattle.syzygy_engine.specs.Runs.{AreVectorsFor};

use crate::rows::{Row, rows_of_columns};
use module_vectors::{NoMemory, Ring, Vect, VectList};
use std::alloc::Global;

// Puts the vector of a row behind the others. Its terms are moved.
fn take_row(alloc: Global, ring: &Ring, row: Row, vectors: &mut Vec<Vect>) -> Result<(), NoMemory>
    requires { AreTermsOver ring.now row }
    ensures { (G : List (FormalSum (variables ring.now))) → AreVectorsFor ring.now G vectors.old.items
        → OnOk result (AreVectorsFor ring.now (G ++ sum_of (variables ring.now) row ∷ []) vectors.new.items) }
{
    vectors.push(Vect::from_terms(alloc, ring, row.into_terms())?)?;
    Ok(())
}

// The rows as vectors of the ring, in its own order.
fn row_vectors(alloc: Global, ring: &Ring, rows: Vec<Row>) -> Result<VectList, NoMemory>
    requires { Each (AreTermsOver ring.now) rows.items }
    ensures { IfOk result (AreVectorsFor ring.now (sums_of (variables ring.now) rows.items)) }
{
    let mut vectors = Vec::with_capacity(alloc, rows.len())?;
    for row in rows {
        take_row(alloc, ring, row, &mut vectors)?;
    }
    Ok(VectList::from_vec(vectors))
}

/// The columns of the transposed map: the rows of a map with these columns and so many rows, as vectors of the ring in its own
/// order. The columns may be in any orders; each of their terms is read once.
pub(crate) fn transposed(
    alloc: Global,
    ring: &Ring,
    count: u64,
    columns: &VectList,
) -> Result<VectList, NoMemory>
    requires terms { Each (AreTermsOver ring.now) columns.now }
    requires positions { Each (HasPositions count) columns.now }
    ensures { IfOk result (AreVectorsFor ring.now (rows_of count (sums_of (variables ring.now) columns.now))) }
{
    let rows = rows_of_columns(alloc, count, columns)?;
    row_vectors(alloc, ring, rows)
}
