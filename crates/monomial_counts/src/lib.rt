//! Hilbert functions of monomial ideals. Each function's contract is a law, proved here.
#![tactic(auto)]

mod count_laws;

pub use count_laws::{divisor_tests, multiple_counts, standard_counts, sums_of_degree};
