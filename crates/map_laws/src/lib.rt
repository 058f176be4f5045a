//! Substitution, and the graph of a map between polynomial rings. Each function's contract is a law, proved here.
#![tactic(auto)]

mod graph_laws;
mod substitution_laws;

pub use graph_laws::{expressions, graphs, preimages};
pub use substitution_laws::substitutions;
