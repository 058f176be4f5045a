//! What an engine for reduced Gröbner bases promises, and why it or a call on it may have no answer.
#![tactic(auto)]

mod engine;
mod laws;
mod stop;

pub use engine::Groebner;
pub use laws::one_basis;
pub use stop::{OpStop, Stop};
