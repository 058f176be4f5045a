//! Free resolutions: exact maps, and canonical resolutions and their first maps. Each function's contract is a law, proved here.
#![tactic(auto)]

mod canonical_laws;
mod exact_laws;
mod start_laws;

pub use canonical_laws::{
    canonical_exact, canonical_length, canonical_unique, canonical_vector, canonical_zero,
};
pub use exact_laws::{basis_by_pairs, exact_by_pairs};
pub use start_laws::{canonical_starts, start_counts, start_unique};
