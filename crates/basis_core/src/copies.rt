// What a trail keeps of a run is copied.
ghost use Rattle.std.specs.Prelude.{◌≡◌, IfOk};
ghost use Rattle.basis_core.specs.Copies.{IsOverMembers};

use crate::members::Members;
use module_vectors::{KeptTrail, NoMemory, Ring, TrailStart, Vect, VectList};
use monomial_orders::Mono;
use std::alloc::Global;

// Ring and generators of the members again.
fn copy_shared(alloc: Global, members: &Members) -> Result<(Ring, VectList), NoMemory>
    ensures ring { IfOk result (λ copy. copy.0 ≡ members.now.shared.ring) }
    ensures generators { IfOk result (λ copy. copy.1 ≡ members.now.shared.generators) }
{
    let shared = members.shared();
    let ring = shared.ring.try_copy(alloc)?;
    let generators = VectList::copy_of(alloc, &shared.generators)?;
    Ok((ring, generators))
}

/// A trail over these members, which it has as copies.
pub(crate) fn trail_over(
    alloc: Global,
    members: &Members,
    start: TrailStart,
    vector: Vect,
    products: Vec<(u64, Mono)>,
    last: Mono,
) -> Result<KeptTrail, NoMemory>
    ensures { IfOk result (IsOverMembers members.now start vector products.items last) }
{
    let (ring, generators) = copy_shared(alloc, members)?;
    let vectors = VectList::copy_of(alloc, members)?;
    Ok(KeptTrail {
        ring,
        rank: members.shared().rank,
        generators,
        below: Vec::new(alloc),
        start,
        vector,
        members: vectors,
        products,
        last,
    })
}
