// A pair that was dropped.

/// The indices of a pair that a new member dropped, and the third member that it was dropped for. Gebauer and Möller 1988.
#[derive(Clone, Copy, Debug, PartialEq, Eq)]
pub struct Dropped {
    pub i: u64,
    pub j: u64,
    pub k: u64,
}
