// A pair that is out.

/// The pair of the members i < j, which is out with this worker.
#[derive(Clone, Copy, Debug, PartialEq, Eq)]
pub struct Out {
    pub i: u64,
    pub j: u64,
    pub worker: u32,
}
