// Why a pair is not divided.
ghost use Rattle.std.specs.Prelude.{◌≡◌, IfOk, map};
ghost use Rattle.vector_division.specs.Reductions.{unscaled};
ghost use Rattle.s_vectors.specs.declared.stops.PairStop.TheVariants.{Memory};

use module_vectors::NoMemory;
use monomial_orders::Mono;
use std::alloc::{AllocError, Global};
use std::collections::VecDeque;
use vector_division::ScaledProduct;

/// Products that come of a pair, and a monomial of the last one's member that is too great for it.
#[derive(Drop)]
pub(crate) struct Chain {
    pub(crate) products: Vec<(u64, Mono)>,
    pub(crate) last: Mono,
}

/// Why a pair is not divided.
#[derive(Drop)]
pub(crate) enum PairStop {
    Memory,
    Degree(Chain),
}

impl From<NoMemory> for PairStop {
    ghost from_gives = { λ _ stop. stop ≡ Memory };

    fn from(_error: NoMemory) -> PairStop {
        PairStop::Memory
    }
}

impl From<AllocError> for PairStop {
    ghost from_gives = { λ _ stop. stop ≡ Memory };

    fn from(_error: AllocError) -> PairStop {
        PairStop::Memory
    }
}

/// The products of the parts, without their residues.
pub(crate) fn without_residues(
    alloc: Global,
    parts: Vec<ScaledProduct>,
) -> Result<Vec<(u64, Mono)>, NoMemory>
    ensures { IfOk result (λ products. products.items ≡ map unscaled parts.items) }
{
    let mut products = Vec::with_capacity(alloc, parts.len())?;
    let mut rest = VecDeque::from_vec(parts);
    while let Some(part) = rest.pop_front() {
        products.push_reserved((part.index, part.monomial));
    }
    Ok(products)
}
