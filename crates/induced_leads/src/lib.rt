//! What the leads of a map's columns tell of the next map.
//!
//! They induce the order of its rows. It has its columns at the least leads of the syzygies of pairs, which are found by monomials
//! alone. An index of the leads finds the last column whose lead divides a key, and the terms of a vector that some lead divides
//! (Schreyer's theorem; Eisenbud, section 15.5; UAG chapter 5, section 3).
#![tactic(auto)]

mod comparing;
mod divisors;
mod head;
mod hints;
mod induced;
mod pair_syzygies;
mod sifting;

pub use divisors::{LeadIndex, index_leads, last_divisor};
pub use head::Heads;
pub use induced::Induced;
pub use pair_syzygies::{lead_key, pair_leads, pair_monomial};
pub use sifting::covered_terms;
