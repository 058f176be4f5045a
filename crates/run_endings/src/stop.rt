// Why a run has no reduced basis.
use basis_core::BasisState;
use module_vectors::KeptTrail;

/// Why a run has no reduced basis, with what is to be kept of it.
#[derive(Drop)]
pub enum RunStop {
    /// There was no memory.
    Memory,
    /// The budget is met.
    Pairs(BasisState),
    /// A generator's division needed a product of degree above 65,535.
    Beginning(KeptTrail),
    /// A pair's work or the interreduction needed one.
    Degree(BasisState, KeptTrail),
}
