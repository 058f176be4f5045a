//! The pairs of a basis run: which are queued, which are out with a worker, and which are skipped since a criterion
//! applies. It knows the members of the run by their leads alone.
#![tactic(auto)]

mod closing;
mod flags;
mod given;
mod giving;
mod out;
mod pairs;
mod queue;
mod queueing;
mod reach;
mod row;
mod sharing;
mod skipping;
mod table;

pub use given::Given;
pub use out::Out;
pub use pair_updates::Dropped;
pub use pairs::PairQueue;
