// Copies of trails.
ghost use Rattle.std.specs.Prelude.{◌≡◌, IfOk};
ghost use Rattle.run_endings.specs.Copies.{IsSameTrail};

use module_vectors::{KeptTrail, NoMemory, VectList};
use monomial_orders::Mono;
use std::alloc::Global;

// The same lists again.
fn copy_lists(alloc: Global, lists: &[VectList]) -> Result<Vec<VectList>, NoMemory>
    ensures { IfOk result (λ copy. copy.items ≡ lists.now) }
{
    let mut copy = Vec::new(alloc);
    for list in lists {
        copy.push(VectList::copy_of(alloc, list)?)?;
    }
    Ok(copy)
}

// The same products again.
fn copy_products(alloc: Global, products: &[(u64, Mono)]) -> Result<Vec<(u64, Mono)>, NoMemory>
    ensures { IfOk result (λ copy. copy.items ≡ products.now) }
{
    let mut copy = Vec::new(alloc);
    for product in products {
        copy.push((product.0, product.1.try_copy(alloc)?))?;
    }
    Ok(copy)
}

/// The same trail again.
pub fn copy_trail(alloc: Global, trail: &KeptTrail) -> Result<KeptTrail, NoMemory>
    ensures { IfOk result (IsSameTrail trail.now) }
{
    Ok(KeptTrail {
        ring: trail.ring.try_copy(alloc)?,
        rank: trail.rank,
        generators: VectList::copy_of(alloc, &trail.generators)?,
        below: copy_lists(alloc, &trail.below)?,
        start: trail.start,
        vector: trail.vector.try_copy(alloc)?,
        members: VectList::copy_of(alloc, &trail.members)?,
        products: copy_products(alloc, &trail.products)?,
        last: trail.last.try_copy(alloc)?,
    })
}
