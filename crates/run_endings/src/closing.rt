// From the members of a closed run to the reduced basis.
ghost use Rattle.std.specs.Prelude.{◌≡◌, IfOk, IfErr, List, ℕ};
ghost use Rattle.formal_sums.specs.FormalSums.{Each, FormalSum};
ghost use Rattle.bases.specs.Bases.{IsGroebnerBasis, IsReducedBasis};
ghost use Rattle.term_lists.specs.Rings.{ring_comparison, setting, variables};
ghost use Rattle.term_lists.specs.Vectors.{AreVectorsOver, HasPositions, sums_of};
ghost use Rattle.basis_core.specs.Rows.{vectors_in};
ghost use Rattle.groebner_iface.specs.Runs.{IsReducedBasisOf};
ghost use Rattle.interreduce.specs.Trails.{InterreductionStops, IsInterreductionTrail};
ghost use Rattle.run_endings.specs.Endings.{ClosingStops, IsClosed, IsInterreductionStop};
ghost use Rattle.queue_updates.specs.declared.Update.{Update};
ghost use Rattle.run_endings.specs.Stops.{IsRunBy, OfState, RunStops};

use crate::RunStop;
use basis_core::{BasisState, Members};
use interreduce::interreduce;
use module_vectors::{KeptTrail, NoMemory, Ring, VectList, WorkStop};
use std::alloc::Global;
use std::thread::Threads;

// The trail of an interreduction, as one of the run.
fn trail_of_run(
    alloc: Global,
    state: &BasisState,
    mut trail: KeptTrail,
) -> Result<KeptTrail, NoMemory>
    requires closed { IsClosed state.now }
    requires trail { IsInterreductionTrail state.now.shared.ring (vectors_in state.now.members) trail }
    ensures { IfOk result (IsInterreductionStop state.now) }
{
    trail.generators = VectList::copy_of(alloc, state.generators())?;
    trail.rank = state.shared().rank;
    Ok(trail)
}

// The reduced list of the members, which are vectors of this ring.
fn reduced_list<R: Threads + Sync>(
    rt: &R,
    alloc: Global,
    ring: &Ring,
    members: &Members,
) -> Result<VectList, WorkStop>
    requires { AreVectorsOver ring.now (ring_comparison ring.now) (vectors_in members.now.list) }
    ensures vectors { IfOk result (AreVectorsOver ring.now (ring_comparison ring.now)) }
    ensures reduced { let n = variables ring.now in IfOk result (λ answer. (rank : ℕ) (G : List (FormalSum n))
        → IsGroebnerBasis (setting ring.now n (ring_comparison ring.now n) rank) G (sums_of n (vectors_in members.now.list))
        → IsReducedBasis (setting ring.now n (ring_comparison ring.now n) rank) G (sums_of n answer)) }
    ensures positions { IfOk result (λ answer. (rank : ℕ) → Each (HasPositions rank) (vectors_in members.now.list) → Each (HasPositions rank) answer) }
    ensures stop { IfErr result (InterreductionStops ring.now (vectors_in members.now.list)) }
{
    interreduce(rt, alloc, ring, members)
}

// The reduced basis of a closed run. IVA chapter 2, section 7.
fn reduce_members<R: Threads + Sync>(
    rt: &R,
    alloc: Global,
    state: &BasisState,
) -> Result<VectList, WorkStop>
    requires { IsClosed state.now }
    ensures basis { IfOk result (IsReducedBasisOf state.now.shared.ring state.now.shared.rank state.now.shared.generators) }
    ensures stop { IfErr result (ClosingStops state.now) }
{
    state.kept();
    let members = state.members();
    members.kept();
    match reduced_list(rt, alloc, &state.shared().ring, members) {
        Ok(basis) => Ok(basis),
        Err(WorkStop::Memory) => Err(WorkStop::Memory),
        Err(WorkStop::Degree(trail)) => Err(WorkStop::Degree(trail_of_run(alloc, state, trail)?)),
    }
}

/// The reduced basis of a closed run, with its state. IVA chapter 2, section 7.
///
/// `Degree` where the division of a member by the members needed a product of degree above 65,535, with the state and
/// the trail; `Memory` where there is none.
pub fn close<R: Threads + Sync>(
    rt: &R,
    alloc: Global,
    state: BasisState,
) -> Result<(VectList, BasisState), RunStop>
    requires { IsClosed state }
    ensures basis { IfOk result (λ t. IsReducedBasisOf state.shared.ring state.shared.rank state.shared.generators t.0) }
    ensures state { IfOk result (λ t. t.1 ≡ state) }
    ensures stop { IfErr result (λ stop. (pairs workers : ℕ) (update : Update) → IsRunBy pairs workers update state → RunStops pairs workers update state.shared stop) }
    ensures stopped { IfErr result (OfState (λ s. s ≡ state)) }
{
    match reduce_members(rt, alloc, &state) {
        Ok(basis) => Ok((basis, state)),
        Err(WorkStop::Memory) => Err(RunStop::Memory),
        Err(WorkStop::Degree(trail)) => Err(RunStop::Degree(state, trail)),
    }
}
