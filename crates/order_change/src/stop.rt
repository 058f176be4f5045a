// Why a change of order has no answer.
ghost use Rattle.std.specs.Prelude.{◌≡◌};

use module_vectors::NoMemory;
use std::alloc::{AllocError, AllocFailed};

/// Why the standard monomials are not listed, and the order is not changed. There is no stop for a degree above 65,535: at most
/// 256 standard monomials have exponents that sum to at most 255, weights are at most 255, and each monomial that is met
/// is one of these or the product of one with a variable.
#[derive(Clone, Copy, Debug, PartialEq, Eq)]
pub enum ChangeStop {
    /// There was no memory.
    Memory,
    /// Some variable has no power among the leads: there are infinitely many standard monomials.
    Infinite,
    /// There are more than 256 standard monomials.
    Many,
}

impl From<AllocError> for ChangeStop {
    ghost use Rattle.order_change.specs.declared.stop.ChangeStop.TheVariants.{Memory};

    ghost from_gives = { λ _ stop. stop ≡ Memory };

    fn from(_error: AllocError) -> ChangeStop {
        ChangeStop::Memory
    }
}

impl<T: Drop> From<AllocFailed<T>> for ChangeStop {
    ghost use Rattle.order_change.specs.declared.stop.ChangeStop.TheVariants.{Memory};

    ghost from_gives = { λ _ stop. stop ≡ Memory };

    fn from(_error: AllocFailed<T>) -> ChangeStop {
        ChangeStop::Memory
    }
}

impl From<NoMemory> for ChangeStop {
    ghost use Rattle.order_change.specs.declared.stop.ChangeStop.TheVariants.{Memory};

    ghost from_gives = { λ _ stop. stop ≡ Memory };

    fn from(_error: NoMemory) -> ChangeStop {
        ChangeStop::Memory
    }
}
