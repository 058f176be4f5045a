//! What a division of a vector by a list leaves.
//!
//! The keys that the division comes to are numbered, and it is a forward substitution over one sum of residues for each number.
//! The greatest key that waits is taken first; where it has a residue, the product that has it as its lead is made, as numbers and
//! residues, and taken away. Where keys are too many, the division goes from term to term by geobuckets (`vector_division`).
#![tactic(auto)]

mod hashes;
mod hints;
mod products;
mod remaining;
mod substituting;
mod work;

pub use remaining::remainder;
