//! Why tokens were not read.

ghost use Rattle.std.specs.Prelude.{◌≡◌};
ghost use Rattle.poly_grammar.specs.declared.stop.ReadStop.TheVariants.{Memory};

use std::alloc::{AllocError, AllocFailed};

/// Why tokens were not read as a polynomial.
#[derive(Clone, Copy, Debug, PartialEq, Eq)]
pub enum ReadStop {
    /// A growth was refused.
    Memory,
    /// The tokens are no polynomial, or parentheses nest more than 64 deep.
    Syntax,
}

impl From<AllocError> for ReadStop {
    ghost from_gives = { λ _ e. e ≡ Memory };

    fn from(_e: AllocError) -> ReadStop {
        ReadStop::Memory
    }
}

impl<T: Drop> From<AllocFailed<T>> for ReadStop {
    ghost from_gives = { λ _ e. e ≡ Memory };

    fn from(_e: AllocFailed<T>) -> ReadStop {
        ReadStop::Memory
    }
}
