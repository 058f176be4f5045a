// The answer to a worker that would end.

/// What a worker is told that would end.
#[derive(Clone, Copy, Debug, PartialEq, Eq)]
pub enum Ending {
    /// It has ended.
    Ended,
    /// A pair is queued, and it goes on.
    MoreWork,
}
