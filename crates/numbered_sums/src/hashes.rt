// Hashes of the keys of a list's vectors.
ghost use Rattle.std.specs.Prelude.{IfOk};
ghost use Rattle.numbered_sums.specs.ColumnHashes.{AreColumnHashes};

use module_vectors::{NoMemory, Vect};
use row_matrix::TermHashes;
use std::alloc::Global;

/// The hashes of each column's keys. `NoMemory` where there is none.
pub fn column_hashes(alloc: Global, columns: &[Vect]) -> Result<Vec<TermHashes>, NoMemory>
    ensures { IfOk result (λ hashes. AreColumnHashes columns.now hashes.items) }
{
    let mut hashes = Vec::with_capacity(alloc, columns.len())?;
    for column in columns {
        hashes.push_reserved(TermHashes::of(alloc, column.terms())?);
    }
    Ok(hashes)
}
