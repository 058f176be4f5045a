// Keys by their numbers, and a sum of residues for each.
ghost use Rattle.std.specs.Prelude.{IfOk};
ghost use Rattle.complements.specs.Combining.{HasZeroSums};

use module_vectors::{NoMemory, Ring, Vect};
use row_matrix::{KeyTable, TermHashes};
use std::alloc::Global;

/// Numbers of keys, for each the sum of what was added to it, and the numbers of those sums that may not be 0; besides these the
/// hashes of the columns' keys, once they are needed.
pub(crate) struct Accumulator {
    pub(crate) numbers: KeyTable,
    pub(crate) sums: Vec<u64>,
    pub(crate) touched: Vec<u32>,
    pub(crate) hashes: Vec<TermHashes>,
}

// By hand, so that each drop of one is a call.
impl Drop for Accumulator {
    fn drop(self) {
        let Accumulator {
            numbers: _,
            sums: _,
            touched: _,
            hashes: _,
        } = self;
    }
}

/// No key has a number yet.
pub(crate) fn no_sums(alloc: Global, ring: &Ring, columns: &[Vect]) -> Result<Accumulator, NoMemory>
    ensures { IfOk result (HasZeroSums ring.now columns.now) }
{
    let _ring = ring;
    let _columns = columns;
    Ok(Accumulator {
        numbers: KeyTable::new(alloc)?,
        sums: Vec::new(alloc),
        touched: Vec::new(alloc),
        hashes: Vec::new(alloc),
    })
}
