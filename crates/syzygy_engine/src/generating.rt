// The syzygies of a list.
ghost use Rattle.std.specs.Prelude.{◌≡◌, ◌<◌, ◌≤◌, IfOk, IfErr, OnOk, length};
ghost use Rattle.formal_sums.specs.FormalSums.{Each};
ghost use Rattle.term_lists.specs.Rings.{ring_comparison, variables};
ghost use Rattle.term_lists.specs.Vectors.{AreVectorsOver, HasPositions, sums_of};
ghost use Rattle.risen_counts.specs.Counts.{RoseAtMost};
ghost use Rattle.groebner_iface.specs.Calls.{CallStops, NoTrail};
ghost use Rattle.groebner_iface.specs.Runs.{IsReducedBasisOf};
ghost use Rattle.syzygy_engine.specs.Kernels.{GeneratesSyzygies, IsSyzygyRun, runs_in_order};

use crate::marking::by_position;
use crate::modulo::kernel_modulo;
use groebner_iface::{Groebner, OpStop};
use module_vectors::{Ring, VectList, lawful_setting};
use risen_counts::counted_times;
use std::alloc::Global;
use std::sync::Wait;
use std::thread::Threads;

/// The reduced basis, in the ring's own order, of the syzygies of the list, vectors of this rank: the vectors a by which the
/// combination of the list is zero. The component of a at position i is the cofactor of member i (UAG chapter 5, section 3).
///
/// They are the syzygies modulo no vectors (`kernel_modulo`). One run on the list with marks, position over term, shows them;
/// where the ring's order is term over position and the list has not one vector alone, a second run takes what the first one
/// shows into the ring's order.
///
/// `Pairs` and `Degree` are those of one of these runs, which the engine counted and kept; `Memory` where there is none;
/// `Trail` never.
pub fn syzygies<R: Threads + Wait + Sync, B: Groebner>(
    rt: &R,
    alloc: Global,
    engine: &mut B,
    ring: &Ring,
    rank: u128,
    list: &VectList,
) -> Result<VectList, OpStop>
    requires vectors { AreVectorsOver ring.now (ring_comparison ring.now) list.now }
    requires positions { Each (HasPositions rank) list.now }
    requires room { rank < 9223372036854775808 }
    ensures basis { IfOk result (λ answer. IsReducedBasisOf ring.now (length list.now) answer answer) }
    ensures syzygies { let n = variables ring.now in
        IfOk result (λ answer. GeneratesSyzygies ring.now.modulus.value (sums_of n list.now) (sums_of n answer)) }
    ensures same { OnOk result ((B.stops engine.new ≡ B.stops engine.old) × (B.stopped engine.new ≡ B.stopped engine.old)) }
    ensures stop { IfErr result (CallStops (IsSyzygyRun ring.now rank list.now) NoTrail
        (B.stops engine.old) (B.stops engine.new) (B.stopped engine.old) (B.stopped engine.new)) }
    ensures later { B.stops engine.old ≤ B.stops engine.new }
    ensures runs { RoseAtMost (runs_in_order ring.now) (B.runs engine.old) (B.runs engine.new) }
    ensures settings { B.settings engine.new ≡ B.settings engine.old }
{
    counted_times();
    lawful_setting(ring);
    let over = by_position(alloc, ring)?;
    let no_members = VectList::new(alloc);
    match kernel_modulo(rt, alloc, engine, ring, &over, rank, list, no_members) {
        Ok(basis) => Ok(basis),
        Err(stop) => Err(stop),
    }
}
