// The sum of two modules.
ghost use Rattle.std.specs.Prelude.{◌≡◌, ◌≤◌, ◌++◌, IfOk, IfErr, OnOk};
ghost use Rattle.formal_sums.specs.FormalSums.{Each};
ghost use Rattle.formal_sums.specs.Combinations.{IsMember};
ghost use Rattle.term_lists.specs.Rings.{ring_comparison, variables};
ghost use Rattle.term_lists.specs.Vectors.{AreVectorsOver, HasPositions, sums_of};
ghost use Rattle.risen_counts.specs.Counts.{RoseAtMost};
ghost use Rattle.groebner_iface.specs.Calls.{CallStops, NoTrail};
ghost use Rattle.syzygy_engine.specs.Answers.{IsBasisOfThose};
ghost use Rattle.ideal_ops.specs.Runs.{IsRunOn};

use groebner_iface::{Groebner, OpStop};
use module_vectors::{NoMemory, Ring, VectList, lawful_setting};
use risen_counts::counted_times;
use std::alloc::Global;
use std::sync::Wait;
use std::thread::Threads;

/// The members of the one list and then those of the other.
pub(crate) fn joined(alloc: Global, left: &VectList, right: &VectList) -> Result<VectList, NoMemory>
    ensures { IfOk result (λ list. list ≡ left.now ++ right.now) }
{
    let mut list = VectList::copy_of(alloc, left)?;
    for v in right.as_slice() {
        list.push(v.try_copy(alloc)?)?;
    }
    Ok(list)
}

/// The reduced basis of the sum of two modules, of one rank (UAG chapter 5, section 3): one run, on the two lists joined.
///
/// `Pairs` and `Degree` are the run's, which the engine counted and kept; `Memory` where there is none; `Trail` never.
pub fn sum<R: Threads + Wait + Sync, B: Groebner>(
    rt: &R,
    alloc: Global,
    engine: &mut B,
    ring: &Ring,
    rank: u128,
    left: &VectList,
    right: &VectList,
) -> Result<VectList, OpStop>
    requires left { AreVectorsOver ring.now (ring_comparison ring.now) left.now }
    requires left_positions { Each (HasPositions rank) left.now }
    requires right { AreVectorsOver ring.now (ring_comparison ring.now) right.now }
    requires right_positions { Each (HasPositions rank) right.now }
    ensures basis { let n = variables ring.now in IfOk result
        (IsBasisOfThose ring.now rank (IsMember ring.now.modulus.value (sums_of n left.now ++ sums_of n right.now))) }
    ensures same { OnOk result ((B.stops engine.new ≡ B.stops engine.old) × (B.stopped engine.new ≡ B.stopped engine.old)) }
    ensures stop { IfErr result (CallStops (IsRunOn ring.now rank (left.now ++ right.now)) NoTrail
        (B.stops engine.old) (B.stops engine.new) (B.stopped engine.old) (B.stopped engine.new)) }
    ensures later { B.stops engine.old ≤ B.stops engine.new }
    ensures runs { RoseAtMost 1 (B.runs engine.old) (B.runs engine.new) }
    ensures settings { B.settings engine.new ≡ B.settings engine.old }
{
    counted_times();
    lawful_setting(ring);
    let list = joined(alloc, left, right)?;
    match engine.reduced(rt, alloc, ring, rank, &list) {
        Ok(basis) => Ok(basis),
        Err(stop) => Err(OpStop::from(stop)),
    }
}
