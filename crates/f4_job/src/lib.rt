//! A job of the basis core is solved by its matrix: this is brought into echelon form, and the rows whose lead is the
//! lead of no row of the matrix represent the job's pairs, together with the members (Faugère 1999, section 2).
#![tactic(auto)]

mod flags;
mod job;
mod making;
mod ranking;
mod solving;
mod stop;
mod tails;

pub use job::solve;
