// The events of a run.
use crate::ending::Ending;
use crate::stop::StopReason;

/// One event of a worker. Pairs are the indices of two members, the smaller one first.
#[derive(Drop)]
pub enum Event {
    /// The worker, the pairs that were skipped, and those of its job.
    Take(u32, Vec<(u64, u64)>, Vec<(u64, u64)>),
    /// The worker, the index of the first new member, and the number of new members.
    Put(u32, u64, u64),
    /// The worker, and what it was told.
    End(u32, Ending),
    /// The worker, and its reason where another one was kept before.
    Stop(u32, Option<StopReason>),
}
