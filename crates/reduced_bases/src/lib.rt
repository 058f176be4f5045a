//! From a Gröbner basis to the reduced one, and what equal reduced bases say. Each function's contract is a law,
//! proved here.
#![tactic(auto)]

mod comparison_laws;
mod interreduction_laws;

pub use comparison_laws::{equal_bases, same_reduced_basis};
pub use interreduction_laws::{
    covered_leads, dropped_member, dropped_members, interreduction, reduced_tails, sorted_set,
};
