//! Vectors that are cleared of their entries in some rows by columns, each at once.
//!
//! The columns have constants in these rows, by which a matrix of residues is invertible: for each vector there is one combination of
//! the columns that takes its entries in the rows away, and its cofactors are found by residues alone, degree by degree.
#![tactic(auto)]

mod accumulator;
mod clearing;
mod elimination;
mod factors;
mod numbered;
mod sums;

pub use clearing::complements;
