//! Transposed maps of a resolution, and presentations of their homology. Each function's contract is a law, proved here.
#![tactic(auto)]

mod presentations;
mod transposes;

pub use presentations::{presented_vectors, whole_modules, zero_presentations};
pub use transposes::{
    consecutive_transposes, first_maps_reach, images_along_starts, images_in_kernels,
    transposed_kernels,
};
