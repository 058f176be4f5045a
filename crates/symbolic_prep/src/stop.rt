// Why there is no matrix.
ghost use Rattle.std.specs.Prelude.{◌≡◌};
ghost use Rattle.symbolic_prep.specs.declared.stop.PlanStop.TheVariants.{Memory};

use module_vectors::NoMemory;
use monomial_orders::Mono;
use std::alloc::{AllocError, AllocFailed};

/// Products (k, t) of member k and monomial t, each with a lead that is a pair's least common multiple or a monomial of an
/// earlier one, and a monomial of the last one's member that is too great for it.
pub struct GreatProduct {
    pub products: Vec<(u64, Mono)>,
    pub last: Mono,
}

// By hand, so that each drop of one is a call.
impl Drop for GreatProduct {
    fn drop(self) {
        let GreatProduct {
            products: _,
            last: _,
        } = self;
    }
}

/// Why there is no matrix.
#[derive(Drop)]
pub enum PrepareStop {
    /// There was no memory.
    Memory,
    /// A product of a degree above 65,535 was needed.
    Degree(GreatProduct),
}

/// Why there is no row for a product: no memory, or a monomial of its member that is too great for it.
#[derive(Drop)]
pub(crate) enum PlanStop {
    Memory,
    Degree(Mono),
}

impl From<NoMemory> for PlanStop {
    ghost from_gives = { λ _ stop. stop ≡ Memory };

    fn from(_error: NoMemory) -> PlanStop {
        PlanStop::Memory
    }
}

impl From<AllocError> for PlanStop {
    ghost from_gives = { λ _ stop. stop ≡ Memory };

    fn from(_error: AllocError) -> PlanStop {
        PlanStop::Memory
    }
}

impl<T: Drop> From<AllocFailed<T>> for PlanStop {
    ghost from_gives = { λ _ stop. stop ≡ Memory };

    fn from(_error: AllocFailed<T>) -> PlanStop {
        PlanStop::Memory
    }
}

impl From<NoMemory> for PrepareStop {
    ghost use Rattle.symbolic_prep.specs.declared.stop.PrepareStop.TheVariants.{Memory as NoRoom};

    ghost from_gives = { λ _ stop. stop ≡ NoRoom };

    fn from(_error: NoMemory) -> PrepareStop {
        PrepareStop::Memory
    }
}
