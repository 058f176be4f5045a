//! Hilbert numerators. Each function's contract is a law, proved here.
#![tactic(auto)]

mod dimension_laws;
mod numerator_laws;

pub use dimension_laws::{dimensions, division, orders_at_one};
pub use numerator_laws::{
    numerator_exists, numerator_size, numerators, one_more_generator, one_numerator, positions,
    steps_of_series,
};
