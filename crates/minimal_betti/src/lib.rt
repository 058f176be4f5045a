//! Minimal resolutions and Betti numbers.
//!
//! Where a map of a graded resolution has a constant that is not 0, its row and its column leave the maps; what is left at the
//! end is a minimal resolution of the same module. Its table counts the positions at each step by their degrees, and is that of
//! every minimal resolution (UAG chapter 6, section 3). The constants alone, without all else in the maps, lead to the same table.
#![tactic(auto)]

mod by_constants;
mod by_steps;
mod cancelling;
mod carried;
mod complementing;
mod counting;
mod leaving;
mod splitting;
mod stopping;
mod tables;

pub use by_constants::betti_table;
pub use cancelling::minimal;
pub use tables::{BettiEntry, TableInvariants, invariants, table};
