// Why there is no numerator, or no dimension.
ghost use Rattle.std.specs.Prelude.{◌≡◌};
ghost use Rattle.hilbert_series.specs.declared.stop.HilbertStop.TheVariants.{Memory};

use monomial_orders::NoMemory;
use std::alloc::{AllocError, AllocFailed};

/// Why there is no numerator, or no dimension.
#[derive(Clone, Copy, Debug, PartialEq, Eq)]
pub enum HilbertStop {
    /// There was no memory.
    Memory,
    /// The first position with more than 120 leads has so many.
    Leads(u64),
    /// A coefficient of a series is 2^127 or more, or -2^127 or less.
    Large,
}

impl From<NoMemory> for HilbertStop {
    ghost from_gives = { λ _ stop. stop ≡ Memory };

    fn from(_error: NoMemory) -> HilbertStop {
        HilbertStop::Memory
    }
}

impl From<AllocError> for HilbertStop {
    ghost from_gives = { λ _ stop. stop ≡ Memory };

    fn from(_error: AllocError) -> HilbertStop {
        HilbertStop::Memory
    }
}

impl<T: Drop> From<AllocFailed<T>> for HilbertStop {
    ghost from_gives = { λ _ stop. stop ≡ Memory };

    fn from(_error: AllocFailed<T>) -> HilbertStop {
        HilbertStop::Memory
    }
}
