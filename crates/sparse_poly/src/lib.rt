//! Products and powers of polynomials: vectors of rank 1 in the order of a frame.
#![tactic(auto)]

mod binomial;
mod constant;
mod digits;
mod multiply;
mod power;
mod power_laws;
mod prime_power;
mod term_powers;

pub use constant::formal_constant;
pub use multiply::mul;
pub use power::pow;
pub use power_laws::{degrees, powers, prime_powers, top_degrees};
