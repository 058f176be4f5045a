//! Symbolic preprocessing: the products of a job's pairs, and for each monomial met that a member's lead divides a
//! reducer with that lead, as a matrix (Faugère 1999, section 2).
#![tactic(auto)]

mod divisors;
mod hashes;
mod pairs;
mod plan;
mod preparing;
mod reducers;
mod stop;
mod words;

pub use preparing::{Prepared, prepare};
pub use stop::{GreatProduct, PrepareStop};
