// The hashes of the keys of a list's vectors.
ghost use Rattle.std.specs.Prelude.{◌<◌, [], IfOk, OnOk, get_or, length};
ghost use Rattle.remainders.specs.Hashed.{HaveHashes, HasHashesAt};

use module_vectors::{NoMemory, Vect};
use row_matrix::TermHashes;
use std::alloc::Global;

/// For each vector no hashes yet.
pub(crate) fn no_hashes(alloc: Global, list: &[Vect]) -> Result<Vec<TermHashes>, NoMemory>
    ensures { IfOk result (λ hashes. HaveHashes list.now hashes.items) }
{
    let mut hashes = Vec::with_capacity(alloc, list.len())?;
    for _ in 0..list.len() {
        hashes.push_reserved(TermHashes::new(alloc));
    }
    Ok(hashes)
}

/// Makes the hashes of this vector's keys, unless they are there: a vector that no product is of costs nothing.
pub(crate) fn keep_hashes(
    alloc: Global,
    list: &[Vect],
    hashes: &mut Vec<TermHashes>,
    index: usize,
) -> Result<(), NoMemory>
    requires within { index < length list.now }
    requires hashed { HaveHashes list.now hashes.old.items }
    ensures hashed { OnOk result (HaveHashes list.now hashes.new.items) }
    ensures made { OnOk result (HasHashesAt hashes.new.items index (get_or list.now index [])) }
{
    let terms = list[index].terms();
    let made = &hashes[index];
    if made.len() == terms.len() {
        return Ok(());
    }
    hashes[index] = TermHashes::of(alloc, terms)?;
    Ok(())
}
