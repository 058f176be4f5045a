// The reduced basis by that of the homogenised list.
ghost use Rattle.std.specs.Prelude.{IfOk};
ghost use Rattle.std.specs.Thread.{IsSync};
ghost use Rattle.formal_sums.specs.FormalSums.{Each};
ghost use Rattle.term_lists.specs.Rings.{ring_comparison};
ghost use Rattle.term_lists.specs.Vectors.{AreVectorsOver, HasPositions};
ghost use Rattle.groebner_iface.specs.Runs.{IsReducedBasisOf};

use crate::attempt::Unanswered;
use crate::homogeneity::{have_one_degree, have_positions};
use crate::last_variable::{lowered_list, raised_list, ring_with_last};
use groebner_iface::Groebner;
use interreduce::interreduce;
use module_vectors::{Ring, VectList, lawful_setting};
use std::alloc::Global;
use std::sync::Wait;
use std::thread::Threads;

/// The reduced basis of the list: the members of that of the homogenised list, with 1 for the last variable, interreduced
/// (IVA chapter 8, section 4). Pairs go by degree there, and no term of a member has a degree above its lead's.
pub(crate) fn by_degrees<R: Threads + Wait + Sync, E: Groebner>(
    rt: &R,
    alloc: Global,
    engine: &mut E,
    ring: &Ring,
    rank: u128,
    list: &VectList,
) -> Result<VectList, Unanswered>
    requires sync { IsSync R.row }
    requires vectors { AreVectorsOver ring.now (ring_comparison ring.now) list.now }
    requires positions { Each (HasPositions rank) list.now }
    ensures { IfOk result (IsReducedBasisOf ring.now rank list.now) }
{
    let more = ring_with_last(alloc, ring)?;
    let raised = raised_list(alloc, ring, &more, list)?;
    if !have_one_degree(&raised) {
        return Err(Unanswered::Other);
    }
    if !have_positions(&raised, rank) {
        return Err(Unanswered::Other);
    }
    let basis = engine.reduced(rt, alloc, &more, rank, &raised)?;
    if !have_one_degree(&basis) {
        return Err(Unanswered::Other);
    }
    let members = lowered_list(alloc, ring, &more, &basis)?;
    if !have_positions(&members, rank) {
        return Err(Unanswered::Other);
    }
    lawful_setting(ring);
    lawful_setting(&more);
    let reduced = interreduce(rt, alloc, ring, &members)?;
    Ok(reduced)
}
