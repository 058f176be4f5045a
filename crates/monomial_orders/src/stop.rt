// Why a call on monomials has no answer.
ghost use Rattle.std.specs.Prelude.{◌≡◌};
ghost use Rattle.monomial_orders.specs.declared.stop.MonoStop.TheVariants.{Memory};

use std::alloc::{AllocError, AllocFailed};

/// Why there is no such monomial.
#[derive(Clone, Copy, Debug, PartialEq, Eq)]
pub enum MonoStop {
    /// There was no memory for a monomial of more than 16 variables.
    Memory,
    /// The degree is above 65,535.
    Degree,
}

impl From<AllocError> for MonoStop {
    ghost from_gives = { λ _ stop. stop ≡ Memory };

    fn from(_error: AllocError) -> MonoStop {
        MonoStop::Memory
    }
}

impl<T: Drop> From<AllocFailed<T>> for MonoStop {
    ghost from_gives = { λ _ stop. stop ≡ Memory };

    fn from(_error: AllocFailed<T>) -> MonoStop {
        MonoStop::Memory
    }
}
