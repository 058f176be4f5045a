//! Pairs of leads, and the two criteria that spare pairs: where one applies, the pair has an lcm representation
//! (IVA chapter 2, sections 9 and 10).
#![tactic(auto)]

mod criteria;
mod factors;
mod pair;
mod pairing;

pub use criteria::{chain_applies, product_applies};
pub use factors::factor_of;
pub use pair::Pair;
pub use pairing::pair_of;
