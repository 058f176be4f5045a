//! Preimages of ideals under maps of a polynomial ring to itself, and polynomials as images, over any engine that computes
//! reduced Gröbner bases (IVA chapter 3, section 3 and chapter 7, section 3). Before a preimage under a map with homogeneous images has
//! its runs, it is attempted over a ring in which the graph is homogeneous too.
#![tactic(auto)]

mod by_weights;
mod expressing;
mod first_variables;
mod graph;
mod image_weights;
mod preimages;
mod second_variables;

pub use expressing::express;
pub use groebner_iface::OpStop;
pub use preimages::preimage;
