// Are two modules the same?
ghost use Rattle.std.specs.Prelude.{◌≡◌, ◌≤◌, ◌↔◌, ◌⊎◌, IsTrue, IfOk, IfErr, OnOk};
ghost use Rattle.formal_sums.specs.FormalSums.{Each};
ghost use Rattle.term_lists.specs.Rings.{ring_comparison, variables};
ghost use Rattle.term_lists.specs.Vectors.{AreVectorsOver, HasPositions, sums_of};
ghost use Rattle.risen_counts.specs.Counts.{RoseAtMost};
ghost use Rattle.groebner_iface.specs.Calls.{CallStops, NoTrail};
ghost use Rattle.ideal_ops.specs.Answers.{HaveSameMembers, IsInFirstAlone};
ghost use Rattle.ideal_ops.specs.Runs.{IsRunOnEither};

use groebner_iface::{Groebner, OpStop, one_basis};
use module_vectors::{Ring, Vect, VectList, lawful_setting};
use risen_counts::counted_times;
use std::alloc::Global;
use std::sync::Wait;
use std::thread::Threads;

// Are the two one list of lists of terms?
fn are_one(left: &[Vect], right: &[Vect]) -> bool
    ensures { IsTrue result ↔ (left.now ≡ right.now) }
{
    if left.len() != right.len() {
        return false;
    }
    for i in 0..left.len() {
        if !left[i].equal(&right[i]) {
            return false;
        }
    }
    true
}

/// Have the modules of the two lists, of one rank, the same members? Two runs, on the one list and on the other, whose
/// bases are compared (IVA chapter 2, section 7).
///
/// `Pairs` and `Degree` are those of one of the runs, which the engine counted and kept; `Memory` where there is none;
/// `Trail` never.
pub fn equal<R: Threads + Wait + Sync, B: Groebner>(
    rt: &R,
    alloc: Global,
    engine: &mut B,
    ring: &Ring,
    rank: u128,
    left: &VectList,
    right: &VectList,
) -> Result<bool, OpStop>
    requires left { AreVectorsOver ring.now (ring_comparison ring.now) left.now }
    requires left_positions { Each (HasPositions rank) left.now }
    requires right { AreVectorsOver ring.now (ring_comparison ring.now) right.now }
    requires right_positions { Each (HasPositions rank) right.now }
    ensures equal { let n = variables ring.now in
        IfOk result (λ yes. IsTrue yes ↔ HaveSameMembers ring.now.modulus.value (sums_of n left.now) (sums_of n right.now)) }
    ensures apart { let n = variables ring.now in IfOk result (λ yes. (IsTrue yes → ⊥)
        → IsInFirstAlone ring.now.modulus.value (sums_of n left.now) (sums_of n right.now)
        ⊎ IsInFirstAlone ring.now.modulus.value (sums_of n right.now) (sums_of n left.now)) }
    ensures same { OnOk result ((B.stops engine.new ≡ B.stops engine.old) × (B.stopped engine.new ≡ B.stopped engine.old)) }
    ensures stop { IfErr result (CallStops (IsRunOnEither ring.now rank left.now right.now) NoTrail
        (B.stops engine.old) (B.stops engine.new) (B.stopped engine.old) (B.stopped engine.new)) }
    ensures later { B.stops engine.old ≤ B.stops engine.new }
    ensures runs { RoseAtMost 2 (B.runs engine.old) (B.runs engine.new) }
    ensures settings { B.settings engine.new ≡ B.settings engine.old }
{
    counted_times();
    lawful_setting(ring);
    one_basis(ring);
    let first = match engine.reduced(rt, alloc, ring, rank, left) {
        Ok(first) => first,
        Err(stop) => return Err(OpStop::from(stop)),
    };
    let second = match engine.reduced(rt, alloc, ring, rank, right) {
        Ok(second) => second,
        Err(stop) => return Err(OpStop::from(stop)),
    };
    Ok(are_one(first.as_slice(), second.as_slice()))
}
