// The preimage of an ideal under a map.
ghost use Rattle.std.specs.Prelude.{◌≡◌, ◌≤◌, IfOk, IfErr, OnOk, length};
ghost use Rattle.formal_sums.specs.FormalSums.{Each};
ghost use Rattle.term_lists.specs.Rings.{ring_comparison, variables};
ghost use Rattle.term_lists.specs.Vectors.{AreVectorsOver, HasPositions};
ghost use Rattle.risen_counts.specs.Counts.{RoseAtMost};
ghost use Rattle.groebner_iface.specs.Calls.{CallStops, NoTrail};
ghost use Rattle.syzygy_engine.specs.Answers.{IsBasisOfThose};
ghost use Rattle.ring_maps.specs.Graphs.{ArePreimageRuns};
ghost use Rattle.ring_maps.specs.Maps.{IsInPreimage};

use crate::by_weights::preimage_by_weights;
use crate::graph::graph_basis;
use crate::second_variables::second_members;
use groebner_iface::{Groebner, OpStop};
use ideal_ops::is_grevlex;
use module_vectors::{Ring, VectList, lawful_setting};
use risen_counts::counted_times;
use std::alloc::Global;
use std::sync::Wait;
use std::thread::Threads;

/// The reduced basis of the polynomials whose image is in the ideal of the list, where each variable goes to its image; for an
/// empty list that of the kernel. One run on the graph of the map and the list, by an order that eliminates the variables of
/// the ring to which the map goes, and one in the ring's own order, where that is another than graded reverse lexicographic,
/// on the members of its basis that have none of them (IVA chapter 3, section 3).
///
/// Where each image and each vector of the list is homogeneous, the graph is attempted before that with the images' degrees as
/// weights, by which it is homogeneous too. Attempts are no runs that count, and leave the engine as it was.
///
/// `Pairs` and `Degree` are those of one of the runs, which the engine counted and kept; `Memory` where there is none;
/// `Trail` never.
pub fn preimage<R: Threads + Wait + Sync, B: Groebner>(
    rt: &R,
    alloc: Global,
    engine: &mut B,
    ring: &Ring,
    images: &VectList,
    list: &VectList,
) -> Result<VectList, OpStop>
    requires images { AreVectorsOver ring.now (ring_comparison ring.now) images.now }
    requires images_polynomials { Each (HasPositions 1) images.now }
    requires count { length images.now ≡ variables ring.now }
    requires vectors { AreVectorsOver ring.now (ring_comparison ring.now) list.now }
    requires polynomials { Each (HasPositions 1) list.now }
    ensures basis { IfOk result (IsBasisOfThose ring.now 1 (IsInPreimage ring.now images.now list.now)) }
    ensures same { OnOk result ((B.stops engine.new ≡ B.stops engine.old) × (B.stopped engine.new ≡ B.stopped engine.old)) }
    ensures stop { IfErr result (CallStops (ArePreimageRuns ring.now images.now list.now) NoTrail
        (B.stops engine.old) (B.stops engine.new) (B.stopped engine.old) (B.stopped engine.new)) }
    ensures later { B.stops engine.old ≤ B.stops engine.new }
    ensures runs { RoseAtMost 2 (B.runs engine.old) (B.runs engine.new) }
    ensures settings { B.settings engine.new ≡ B.settings engine.old }
{
    counted_times();
    lawful_setting(ring);
    if let Some(basis) = preimage_by_weights(rt, alloc, engine, ring, images, list)? {
        return Ok(basis);
    }
    let (graph, basis) = match graph_basis(rt, alloc, engine, ring, images, list) {
        Ok(found) => found,
        Err(stop) => return Err(stop),
    };
    let members = second_members(alloc, ring, &graph, basis)?;
    if is_grevlex(ring, 1) {
        return Ok(members);
    }
    match engine.reduced(rt, alloc, ring, 1, &members) {
        Ok(answer) => Ok(answer),
        Err(stop) => Err(OpStop::from(stop)),
    }
}
