//! Free resolutions by Schreyer's theorem: the canonical resolution of a module.
//!
//! By the order that the leads of a map's columns induce, the syzygies of their pairs are a Gröbner basis of the kernel. At each of
//! the least leads of these stands a column of the next map (`induced_leads` has the order and the leads), which one division
//! makes. Where each step takes the last column that can be taken, the columns come out reduced (Schreyer's theorem; Eisenbud,
//! section 15.5). What is divided is a member of the columns' module, so that terms which no lead divides cancel, and are not
//! kept.
#![tactic(auto)]

mod column;
mod marking;
mod numbered;
mod ordering;
mod products;
mod resolving;
mod shared;
mod sorting;
mod substituting;
mod trails;

pub use resolving::{resolve, resolve_to};
