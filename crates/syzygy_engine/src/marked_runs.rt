// The run on the marked list.
ghost use Rattle.std.specs.Prelude.{◌≡◌, ◌<◌, ◌≤◌, ◌+◌, IfOk, IfErr, OnOk, length};
ghost use Rattle.formal_sums.specs.FormalSums.{Each};
ghost use Rattle.term_lists.specs.Rings.{ring_comparison};
ghost use Rattle.term_lists.specs.Vectors.{AreVectorsOver, HasPositions};
ghost use Rattle.risen_counts.specs.Counts.{RoseAtMost};
ghost use Rattle.groebner_iface.specs.Calls.{CallStops, NoTrail};
ghost use Rattle.groebner_iface.specs.Runs.{IsReducedBasisOf};
ghost use Rattle.syzygy_engine.specs.Marking.{AreMarked, IsMarkedRun, position_ring};

use crate::marking::{by_position, first_mark, marked_list};
use groebner_iface::{Groebner, OpStop};
use module_vectors::{Ring, VectList, lawful_setting};
use risen_counts::counted_times;
use std::alloc::Global;
use std::sync::Wait;
use std::thread::Threads;

/// The ring, position over term, and over it the reduced basis of the marked list.
pub(crate) fn marked_basis<R: Threads + Wait + Sync, B: Groebner>(
    rt: &R,
    alloc: Global,
    engine: &mut B,
    ring: &Ring,
    rank: u128,
    list: &VectList,
) -> Result<(Ring, VectList), OpStop>
    requires vectors { AreVectorsOver ring.now (ring_comparison ring.now) list.now }
    requires positions { Each (HasPositions rank) list.now }
    requires room { rank < 9223372036854775808 }
    ensures ring { IfOk result (λ r. r.0 ≡ position_ring ring.now) }
    ensures basis { IfOk result (λ r. (done : _) × AreMarked ring.now rank list.now done
        × IsReducedBasisOf (position_ring ring.now) (rank + length list.now) done r.1) }
    ensures same { OnOk result ((B.stops engine.new ≡ B.stops engine.old) × (B.stopped engine.new ≡ B.stopped engine.old)) }
    ensures stop { IfErr result (CallStops (IsMarkedRun ring.now rank list.now) NoTrail
        (B.stops engine.old) (B.stops engine.new) (B.stopped engine.old) (B.stopped engine.new)) }
    ensures later { B.stops engine.old ≤ B.stops engine.new }
    ensures runs { RoseAtMost 1 (B.runs engine.old) (B.runs engine.new) }
    ensures settings { B.settings engine.new ≡ B.settings engine.old }
{
    counted_times();
    lawful_setting(ring);
    let by_position = by_position(alloc, ring)?;
    let marked = marked_list(alloc, ring, &by_position, first_mark(rank), list)?;
    match engine.reduced(rt, alloc, &by_position, rank + list.len() as u128, &marked) {
        Ok(basis) => Ok((by_position, basis)),
        Err(stop) => Err(OpStop::from(stop)),
    }
}
