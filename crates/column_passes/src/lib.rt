//! A pass over the columns of a map, after which they have no constants.
//!
//! Where a column has a constant that is not 0, its row is cleared in the others by it, and both leave. The columns are met by degree,
//! and what is left of them is what the first constant each time leaves (Eisenbud, section 20.1).
#![tactic(auto)]

mod clearing;
mod constants;
mod one_pass;
mod own_order;
mod placing;
mod sorting;
mod steps;

pub use clearing::{cleared_vector, vector_without};
pub use constants::{Constant, first_constant};
pub use one_pass::{Passed, leaving_rows, pass};
pub use own_order::in_own_order;
pub use placing::{
    Leaving, columns_without, kept_items, leaves, none_leaving, one_leaving, place_of, push_place,
};
pub use sorting::by_degree;
