//! Why a line is refused.

ghost use Rattle.std.specs.Prelude.{◌≡◌};
ghost use Rattle.script_parse.specs.declared.kind.ParseStop.TheVariants.{Memory};

use module_vectors::NoMemory;
use std::alloc::{AllocError, AllocFailed};

/// Why a line is refused. The kinds are tried in this order, and the first that holds is answered. The last five are told of a
/// line's values, after its run: no line is refused for them when it is read.
#[derive(Clone, Copy, Debug, PartialEq, Eq)]
pub enum Kind {
    /// A byte before the comment begins no token, or the tokens are not in the grammar, or parentheses nest more than 64
    /// deep.
    Syntax,
    /// A number of the line is 2^128 or more.
    Numeral,
    /// A line that needs a ring, and none is stated; or a ring of more than 15 variables, or with a variable twice, an
    /// `elim K` with K outside 1..n, a number of weights other than n, or a weight outside 1..255, in n variables; or
    /// `eliminate B K`, or `fglm B elim K`, with K outside 1..n; or `ext A K` with K above n.
    Ring,
    /// The modulus of a ring is not in the table.
    Modulus,
    /// A name in a polynomial or in a value's place is neither a variable nor a value, or the name to be given is a
    /// variable.
    Name,
    /// A name in a polynomial is a value, or a name in a value's place is a variable, or the first operand of `product` or the
    /// value of `preimage` has a rank above 1.
    OfKind,
    /// An ideal or a module of more than 1,000 vectors; or a module's rank is outside 1..64; or the entries of a vector are not
    /// as many as the rank of the module, or of the value that divides it; or two ranks differ that `equal`, `sum`,
    /// `intersect` or `colon` want the same; or the stored list of what `syz` is asked of has a length outside 1..64; or the
    /// value of `fglm` is no ideal; or the images of `preimage` or `express` are not as many as the ring's variables.
    Rank,
    /// The formal degree, by the ring's weights, of a polynomial or of a part of it is above 1,000.
    Degree,
    /// `minres`, `betti` or `reg` of a value of which a member of the reduced basis has terms of two degrees.
    Homogeneous,
    /// `hilb` of a value some position of which has more than 120 leads.
    Leads,
    /// `hilb` of a value whose numbers do not fit.
    Large,
    /// `fglm` of an ideal some variable of which has no power among the leads of its reduced basis, the power 1 included.
    Infinite,
    /// `fglm` of an ideal of which that is not so, and more than 256 monomials are divisible by no lead.
    Many,
}

/// Why a line was not read.
#[derive(Clone, Copy, Debug, PartialEq, Eq)]
pub enum ParseStop {
    /// A growth was refused.
    Memory,
    /// The line is refused.
    Refused(Kind),
}

impl From<AllocError> for ParseStop {
    ghost from_gives = { λ _ e. e ≡ Memory };

    fn from(_e: AllocError) -> ParseStop {
        ParseStop::Memory
    }
}

impl<T: Drop> From<AllocFailed<T>> for ParseStop {
    ghost from_gives = { λ _ e. e ≡ Memory };

    fn from(_e: AllocFailed<T>) -> ParseStop {
        ParseStop::Memory
    }
}

impl From<NoMemory> for ParseStop {
    ghost from_gives = { λ _ e. e ≡ Memory };

    fn from(_e: NoMemory) -> ParseStop {
        ParseStop::Memory
    }
}
