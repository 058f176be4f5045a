//! A job of the basis core is solved by plain division of its S-vectors by its members: what is left of each becomes a
//! row, with the products that make it. IVA chapter 2, section 7.
#![tactic(auto)]

mod division;
mod pairs;
mod solving;
mod stops;
mod sums;
mod trails;

pub use solving::solve;
