// Why a call on vectors has no answer.
ghost use Rattle.std.specs.Prelude.{◌≡◌};
ghost use Rattle.term_lists.specs.declared.stop.VectStop.TheVariants.{Memory};

use monomial_orders::Mono;
use no_memory::NoMemory;
use std::alloc::{AllocError, AllocFailed};

/// Why there is no such vector.
#[derive(Drop)]
pub enum VectStop {
    /// There was no memory.
    Memory,
    /// These two monomials had to be multiplied, and their degrees sum to more than 65,535.
    Degree(Mono, Mono),
}

impl From<AllocError> for VectStop {
    ghost from_gives = { λ _ stop. stop ≡ Memory };

    fn from(_error: AllocError) -> VectStop {
        VectStop::Memory
    }
}

impl<T: Drop> From<AllocFailed<T>> for VectStop {
    ghost from_gives = { λ _ stop. stop ≡ Memory };

    fn from(_error: AllocFailed<T>) -> VectStop {
        VectStop::Memory
    }
}

impl From<NoMemory> for VectStop {
    ghost from_gives = { λ _ stop. stop ≡ Memory };

    fn from(_error: NoMemory) -> VectStop {
        VectStop::Memory
    }
}
