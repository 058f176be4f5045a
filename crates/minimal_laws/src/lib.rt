//! Minimal resolutions: grading, cancellation, and the module presented. Each function's contract is a law, proved here.
#![tactic(auto)]

mod cancellation_laws;
mod canonical_laws;
mod graded_laws;

pub use cancellation_laws::{
    cancellation, cancellation_exists, no_step, one_cancellation, split_falls, splits,
};
pub use canonical_laws::{
    canonical_grading, canonical_presentation, minimal_exists, minimal_resolution,
};
pub use graded_laws::same_maps;
