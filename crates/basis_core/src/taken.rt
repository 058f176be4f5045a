// The answer of a Take.
use crate::job::Job;

/// What a worker is told that asks for a job.
#[derive(Drop)]
pub enum Taken {
    Job(Job),
    /// No pair is queued to which no criterion applies.
    Empty,
    /// A stop is kept.
    Stopped,
}
