//! Loops over the places of a row modulo p, eight at a time by vectors of the processor.
//!
//! Each function does at every place what its plain loop does there, at every length, and takes no memory.
#![tactic(auto)]

mod adding;
mod remainders;

pub use adding::axpy_dense;
pub use remainders::reduce_lanes;
