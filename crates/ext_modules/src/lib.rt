//! Ext modules against the ring, over any engine that computes reduced Gröbner bases: from the maps of a resolution, the kernel
//! of a transposed map, and its relations modulo the image of the one before (UAG chapter 6, section 1).
#![tactic(auto)]

mod homology;
mod laws;
mod presentation;
mod rows;
mod transposing;
mod units;

pub use groebner_iface::OpStop;
pub use homology::ext;
pub use laws::{first_maps_enough, images_inside, images_inside_starts, resolutions_linked};
pub use presentation::Ext;
