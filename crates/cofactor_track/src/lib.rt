//! Vectors that carry their cofactors over the generators of a run.
#![tactic(auto)]

mod changes;
mod member;
mod runs;

pub use member::Member;
pub use runs::{run_cofactors, run_members};
