//! Members of a basis run by the products that make them, what all of them share, and their cofactors over the
//! generators, multiplied out.
#![tactic(auto)]

mod member;
mod multiplying;
mod shared;

pub use member::{Reduct, RunMember};
pub use multiplying::{cofactors, push_cofactors};
pub use shared::Shared;
