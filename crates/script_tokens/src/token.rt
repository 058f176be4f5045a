//! What a token is, and why a line has none.

ghost use Rattle.std.specs.Prelude.{◌≡◌};
ghost use Rattle.script_tokens.specs.declared.token.TokenStop.TheVariants.{Memory};

use std::alloc::{AllocError, AllocFailed};

/// What a token is: a name, a number, or which sign.
#[derive(Clone, Copy, Debug, PartialEq, Eq)]
pub enum TokenKind {
    Name,
    Number,
    Plus,
    Minus,
    Star,
    Caret,
    Open,
    Close,
    OpenBracket,
    CloseBracket,
    Comma,
    Equals,
}

/// A token: the bytes of its line from `start` up to `end`, without the byte at `end`.
#[derive(Clone, Copy, Debug, PartialEq, Eq)]
pub struct Token {
    pub kind: TokenKind,
    pub start: usize,
    pub end: usize,
}

/// Why a line was not cut into tokens.
#[derive(Debug, Drop)]
pub enum TokenStop {
    /// A growth was refused.
    Memory,
    /// The byte at this place is the first that begins no token.
    At(usize),
}

impl From<AllocError> for TokenStop {
    ghost from_gives = { λ _ e. e ≡ Memory };

    fn from(_e: AllocError) -> TokenStop {
        TokenStop::Memory
    }
}

impl<T: Drop> From<AllocFailed<T>> for TokenStop {
    ghost from_gives = { λ _ e. e ≡ Memory };

    fn from(_e: AllocFailed<T>) -> TokenStop {
        TokenStop::Memory
    }
}
