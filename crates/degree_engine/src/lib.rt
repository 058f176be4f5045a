//! An engine over another one. A long list of vectors of one term each is a basis as it stands; one that is not homogeneous is run
//! homogenised, and in an order that is not by degree the basis of an ideal with few standard monomials comes by a change of order.
//! An ideal under weights is attempted as it stands. Where an attempt has no answer the list itself is run.
#![tactic(auto)]

mod attempt;
mod by_change;
mod by_degrees;
mod directness;
mod engine;
mod homogeneity;
mod last_variable;
mod one_terms;

pub use attempt::Attempts;
pub use engine::DegreeEngine;
