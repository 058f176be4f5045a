//! Betti numbers. Each function's contract is a law, proved here.
#![tactic(auto)]

mod constant_laws;
mod table_laws;

pub use constant_laws::{constants_cancel, constants_stay_graded, table_of_constants};
pub use table_laws::{betti_numbers, comparison, injective_counts, table_of_cancellation};
