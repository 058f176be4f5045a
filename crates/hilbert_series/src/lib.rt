//! Hilbert numerators by weights, with dimension and degree.
//!
//! `numerator` answers the one polynomial whose series by the weights counts the monomials that no lead divides;
//! `dimension_degree` reads dimension and degree off it.
#![tactic(auto)]

mod coefficients;
mod dimension;
mod generators;
mod leads;
mod parts;
mod recurrence;
mod stop;

pub use dimension::dimension_degree;
pub use leads::{Series, numerator};
pub use stop::HilbertStop;
