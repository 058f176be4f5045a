//! From a Gröbner basis to the reduced one: the members whose leads are needed, each with its tail reduced.
#![tactic(auto)]

mod batches;
mod interreduction;
mod leads;
mod member;
mod side_by_side;
mod tail_keys;
mod turns;

pub use interreduction::interreduce;
