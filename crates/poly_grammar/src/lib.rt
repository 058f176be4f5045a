//! The polynomials of the script language, apart from any ring: their grammar, numerals and formal degree.
//!
//! Tokens are read into a flat list of steps, which is worked out on a stack; laws tie both to the grammar's trees, once
//! and for whatever the numbers and names stand for.
#![tactic(auto)]

mod degree;
mod grammar_laws;
mod numeral;
mod reader;
mod step;
mod stop;

pub use degree::{NameWeights, formal_degree};
pub use grammar_laws::{formal_degrees, one_tree, tokens_of_steps, worths_of_steps};
pub use numeral::{number, numerals_fit, text};
pub use reader::read_polynomial;
pub use step::PolyStep;
pub use stop::ReadStop;
