//! Syzygies of a list of vectors, also modulo another list, and lifts to a list, over any engine that computes reduced
//! Gröbner bases.
//!
//! A run shows both: each vector of the list gets a mark of its own, 1 at a position behind those of the rank, position
//! over term. The members of the basis that stand at the marks alone are the syzygies, and what a division leaves of a
//! vector at the marks is, with the other sign, its lift (UAG chapter 5, section 3). Vectors that the syzygies are modulo
//! stand in the run's list without marks: `kernel_modulo` computes all kernels, those of `syzygies` modulo no vectors.
#![tactic(auto)]

mod generating;
mod laws;
mod lifting;
mod lowering;
mod marked_runs;
mod marking;
mod modulo;

pub use generating::syzygies;
pub use groebner_iface::OpStop;
pub use laws::{one_lift, shown_kernels};
pub use lifting::lift;
pub use marking::{by_position, first_mark};
pub use modulo::{followed, kernel_modulo};
