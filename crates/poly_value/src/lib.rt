//! What the polynomials of the script language are worth in a ring.
//!
//! Steps are worked out on a stack of sums of terms, which are merged whenever they have doubled, and the end is brought to
//! normal form; no call goes deeper where the text nests deeper or is longer.
#![tactic(auto)]

mod names;
mod operands;
mod parts;
mod stack;
mod value;

pub use names::{RingNames, place};
pub use value::polynomial_value;
