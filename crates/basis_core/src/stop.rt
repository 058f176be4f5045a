// Why a run stops early.
use module_vectors::KeptTrail;

/// Why a run stops early.
#[derive(Drop)]
pub enum StopReason {
    /// As many pairs were taken as its budget has, and one more was asked for.
    Pairs,
    /// There was no memory.
    Memory,
    /// A product of degree above 65,535 was needed.
    Degree(KeptTrail),
}
