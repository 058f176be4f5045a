// The hashes of the members' keys.
ghost use Rattle.std.specs.Prelude.{◌≡◌, ◌<◌, [], IfOk, OnOk, get_or, length};
ghost use Rattle.symbolic_prep.specs.Hashed.{AreHashed, IsHashedAt};

use module_vectors::{NoMemory, Vectors};
use row_matrix::TermHashes;
use std::alloc::Global;

/// For each member no hashes yet.
pub(crate) fn no_hashes<L: Vectors>(alloc: Global, members: &L) -> Result<Vec<TermHashes>, NoMemory>
    ensures { IfOk result (λ hashes. AreHashed (L.listed members.now) hashes.items) }
{
    let mut hashes = Vec::with_capacity(alloc, members.count())?;
    for _ in 0..members.count() {
        hashes.push_reserved(TermHashes::new(alloc));
    }
    Ok(hashes)
}

/// Makes the hashes of this member's keys, unless they are there: a member that no product is of costs nothing.
pub(crate) fn keep_hashes<L: Vectors>(
    alloc: Global,
    members: &L,
    hashes: &mut Vec<TermHashes>,
    member: usize,
) -> Result<(), NoMemory>
    requires within { member < length (L.listed members.now) }
    requires hashed { AreHashed (L.listed members.now) hashes.old.items }
    ensures hashed { OnOk result (AreHashed (L.listed members.now) hashes.new.items) }
    ensures made { OnOk result (IsHashedAt hashes.new.items member (get_or (L.listed members.now) member [])) }
{
    let terms = members.at(member).terms();
    let made = &hashes[member];
    if made.len() == terms.len() {
        return Ok(());
    }
    hashes[member] = TermHashes::of(alloc, terms)?;
    Ok(())
}
