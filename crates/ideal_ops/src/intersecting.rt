// The intersection of two modules.
ghost use Rattle.std.specs.Prelude.{◌≡◌, ◌≤◌, IfOk, IfErr, OnOk};
ghost use Rattle.formal_sums.specs.FormalSums.{Each};
ghost use Rattle.formal_sums.specs.Combinations.{IsMember};
ghost use Rattle.operation_laws.specs.Operations.{intersection_list};
ghost use Rattle.term_lists.specs.FrontVariables.{front_ring};
ghost use Rattle.term_lists.specs.Rings.{ring_comparison, variables};
ghost use Rattle.term_lists.specs.Vectors.{AreTermsOver, AreVectorsOver, HasPositions, sums_of};
ghost use Rattle.risen_counts.specs.Counts.{RoseAtMost};
ghost use Rattle.groebner_iface.specs.Calls.{CallStops};
ghost use Rattle.syzygy_engine.specs.Answers.{IsBasisOfThose};
ghost use Rattle.syzygy_engine.specs.Runs.{AreVectorsFor};
ghost use Rattle.ideal_ops.specs.FrontVariable.{AreIntersectionRuns, IsTrailOfIntersection};
ghost use Rattle.ideal_ops.specs.Products.{WorkStops};

use crate::back::basis_back;
use crate::front::{rest_multiples, variable, variable_multiples};
use groebner_iface::{Groebner, OpStop};
use module_vectors::{Ring, VectList, WorkStop, lawful_setting};
use risen_counts::counted_times;
use std::alloc::Global;
use std::sync::Wait;
use std::thread::Threads;
use syzygy_engine::followed;

// t b for the members b of the one list, and (1 - t) c for those of the other.
fn listed(
    alloc: Global,
    ring: &Ring,
    front: &Ring,
    left: &VectList,
    right: &VectList,
) -> Result<VectList, WorkStop>
    requires front { front.now ≡ front_ring ring.now }
    requires left { Each (AreTermsOver ring.now) left.now }
    requires right { Each (AreTermsOver ring.now) right.now }
    ensures list { let n = variables ring.now in IfOk result
        (AreVectorsFor (front_ring ring.now) (intersection_list ring.now.modulus.value (sums_of n left.now) (sums_of n right.now))) }
    ensures stop { IfErr result (WorkStops (IsTrailOfIntersection ring.now left.now right.now)) }
{
    let t = variable(alloc, ring, front)?;
    let first = match variable_multiples(alloc, ring, front, &t, left) {
        Ok(first) => first,
        Err(stop) => return Err(stop),
    };
    let second = match rest_multiples(alloc, ring, front, &t, right) {
        Ok(second) => second,
        Err(stop) => return Err(stop),
    };
    Ok(followed(first, second)?)
}

/// The reduced basis of the intersection of two modules of one rank: a run on t b and (1 - t) c, for a new first variable t
/// and the members b and c of the two lists, by an order that eliminates it, and, where the ring's own order is not graded
/// reverse lexicographic, term over position, one in that on the members of its basis without t (IVA chapter 4, section 3).
///
/// `Pairs` and `Degree` are those of one of the runs, which the engine counted and kept; `Trail` comes with that of t times
/// a member of the one list or 1 - t times one of the other; `Memory` where there is none.
pub fn intersect<R: Threads + Wait + Sync, B: Groebner>(
    rt: &R,
    alloc: Global,
    engine: &mut B,
    ring: &Ring,
    rank: u128,
    left: &VectList,
    right: &VectList,
) -> Result<VectList, OpStop>
    requires left { AreVectorsOver ring.now (ring_comparison ring.now) left.now }
    requires left_positions { Each (HasPositions rank) left.now }
    requires right { AreVectorsOver ring.now (ring_comparison ring.now) right.now }
    requires right_positions { Each (HasPositions rank) right.now }
    ensures basis { let n = variables ring.now in let p = ring.now.modulus.value in IfOk result
        (IsBasisOfThose ring.now rank (λ v. IsMember p (sums_of n left.now) v × IsMember p (sums_of n right.now) v)) }
    ensures same { OnOk result ((B.stops engine.new ≡ B.stops engine.old) × (B.stopped engine.new ≡ B.stopped engine.old)) }
    ensures stop { IfErr result (CallStops (AreIntersectionRuns ring.now rank left.now right.now) (IsTrailOfIntersection ring.now left.now right.now)
        (B.stops engine.old) (B.stops engine.new) (B.stopped engine.old) (B.stopped engine.new)) }
    ensures later { B.stops engine.old ≤ B.stops engine.new }
    ensures runs { RoseAtMost 2 (B.runs engine.old) (B.runs engine.new) }
    ensures settings { B.settings engine.new ≡ B.settings engine.old }
{
    counted_times();
    lawful_setting(ring);
    let front = ring.with_front_variable(alloc)?;
    let list = match listed(alloc, ring, &front, left, right) {
        Ok(list) => list,
        Err(stop) => return Err(OpStop::from(stop)),
    };
    match basis_back(rt, alloc, engine, ring, &front, rank, &list) {
        Ok(basis) => Ok(basis),
        Err(stop) => Err(stop),
    }
}
