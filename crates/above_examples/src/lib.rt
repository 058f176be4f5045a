//! Small examples of the mathematics above bases, computed. Each function's contract is a law, proved here.
#![tactic(auto)]

mod square_laws;

pub use square_laws::{
    square_numerator, square_resolution, square_table, weighted_degree_of_two, weighted_square,
};
