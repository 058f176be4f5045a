// A polynomial as an image.
ghost use Rattle.std.specs.Prelude.{◌≡◌, ◌≤◌, IfOk, IfErr, OnOk, [], length};
ghost use Rattle.formal_sums.specs.FormalSums.{Each};
ghost use Rattle.term_lists.specs.Rings.{ring_comparison, variables};
ghost use Rattle.term_lists.specs.Vectors.{AreVectorsOver, HasPositions, IsVectorOver};
ghost use Rattle.risen_counts.specs.Counts.{RoseAtMost};
ghost use Rattle.groebner_iface.specs.Calls.{CallStops};
ghost use Rattle.ideal_ops.specs.Products.{WorkStops};
ghost use Rattle.ring_maps.specs.Maps.{IsExpressionAnswer};
ghost use Rattle.ring_maps.specs.Graphs.{IsExpressionTrail, IsGraphRun};
ghost use Rattle.ring_maps.specs.GraphSteps.{IsGraphBasis};

use crate::first_variables::first_vector;
use crate::graph::graph_basis;
use crate::second_variables::second_vector;
use groebner_iface::{Groebner, OpStop};
use ideal_ops::is_free;
use module_vectors::{Ring, Vect, VectList, WorkStop, lawful_setting};
use remainders::remainder;
use risen_counts::counted_times;
use std::alloc::Global;
use std::sync::Wait;
use std::thread::Threads;

// The polynomial with the image g, by the reduced basis of the graph.
fn expressed(
    alloc: Global,
    ring: &Ring,
    graph: &Ring,
    _images: &VectList,
    basis: &VectList,
    g: &Vect,
) -> Result<Option<Vect>, WorkStop>
    requires basis { IsGraphBasis ring.now _images.now [] graph.now basis.now }
    requires images { Each (HasPositions 1) _images.now }
    requires vector { IsVectorOver ring.now (ring_comparison ring.now) g.now }
    requires polynomial { HasPositions 1 g.now }
    ensures answer { IfOk result (IsExpressionAnswer ring.now _images.now g.now) }
    ensures stop { IfErr result (WorkStops (IsExpressionTrail ring.now _images.now g.now)) }
{
    lawful_setting(ring);
    let u = first_vector(alloc, ring, graph, g)?;
    let rest = match remainder(alloc, graph, &u, basis) {
        Ok(rest) => rest,
        Err(stop) => return Err(stop),
    };
    if !is_free(&rest, ring.vars.len()) {
        return Ok(None);
    }
    Ok(Some(second_vector(alloc, ring, graph, rest)?))
}

/// The polynomial with the image g, where each variable goes to its image, of which no term is divisible by a lead of the
/// reduced basis of the kernel, graded reverse lexicographic; `None` exactly where no polynomial has this image. One run on
/// the graph of the map, and the division of g by its basis (IVA chapter 7, section 3).
///
/// `Pairs` and `Degree` are those of the run, which the engine counted and kept; `Trail` is that of the division, where a
/// product in it has a degree above 65,535; `Memory` where there is none.
pub fn express<R: Threads + Wait + Sync, B: Groebner>(
    rt: &R,
    alloc: Global,
    engine: &mut B,
    ring: &Ring,
    images: &VectList,
    g: &Vect,
) -> Result<Option<Vect>, OpStop>
    requires images { AreVectorsOver ring.now (ring_comparison ring.now) images.now }
    requires images_polynomials { Each (HasPositions 1) images.now }
    requires count { length images.now ≡ variables ring.now }
    requires vector { IsVectorOver ring.now (ring_comparison ring.now) g.now }
    requires polynomial { HasPositions 1 g.now }
    ensures answer { IfOk result (IsExpressionAnswer ring.now images.now g.now) }
    ensures same { OnOk result ((B.stops engine.new ≡ B.stops engine.old) × (B.stopped engine.new ≡ B.stopped engine.old)) }
    ensures stop { IfErr result (CallStops (IsGraphRun ring.now images.now []) (IsExpressionTrail ring.now images.now g.now)
        (B.stops engine.old) (B.stops engine.new) (B.stopped engine.old) (B.stopped engine.new)) }
    ensures later { B.stops engine.old ≤ B.stops engine.new }
    ensures runs { RoseAtMost 1 (B.runs engine.old) (B.runs engine.new) }
    ensures settings { B.settings engine.new ≡ B.settings engine.old }
{
    counted_times();
    let none = VectList::new(alloc);
    let (graph, basis) = match graph_basis(rt, alloc, engine, ring, images, &none) {
        Ok(found) => found,
        Err(stop) => return Err(stop),
    };
    match expressed(alloc, ring, &graph, images, &basis, g) {
        Ok(answer) => Ok(answer),
        Err(stop) => Err(OpStop::from(stop)),
    }
}
