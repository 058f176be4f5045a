// A preimage by a homogeneous graph.
ghost use Rattle.std.specs.Prelude.{◌≡◌, ◌++◌, IfOk, IfSome, length};
ghost use Rattle.std.specs.Thread.{IsSync};
ghost use Rattle.formal_sums.specs.FormalSums.{Each};
ghost use Rattle.term_lists.specs.Rings.{ring_comparison, variables};
ghost use Rattle.term_lists.specs.Vectors.{AreVectorsOver, HasPositions};
ghost use Rattle.syzygy_engine.specs.Answers.{IsBasisOfThose};
ghost use Rattle.ring_maps.specs.GraphSteps.{IsBasisOfGraph};
ghost use Rattle.ring_maps.specs.Maps.{IsInPreimage};

use crate::graph::graph_list;
use crate::image_weights::{are_multiples, image_weights, weighted_graph};
use crate::second_variables::second_members;
use groebner_iface::Groebner;
use ideal_ops::is_grevlex;
use module_vectors::{NoMemory, Ring, VectList, lawful_setting};
use monomial_orders::Weights;
use std::alloc::Global;
use std::sync::Wait;
use std::thread::Threads;

// The ring of the graph with these weights of its second variables, and over it the reduced basis of the graph of the map and the
// list. None where the attempt has no answer.
fn graph_by_weights<R: Threads + Wait + Sync, B: Groebner>(
    rt: &R,
    alloc: Global,
    engine: &B,
    ring: &Ring,
    images: &VectList,
    list: &VectList,
    weights: &Weights,
) -> Result<Option<(Ring, VectList)>, NoMemory>
    requires sync { IsSync R.row }
    requires images { AreVectorsOver ring.now (ring_comparison ring.now) images.now }
    requires images_polynomials { Each (HasPositions 1) images.now }
    requires count { length images.now ≡ variables ring.now }
    requires vectors { AreVectorsOver ring.now (ring_comparison ring.now) list.now }
    requires polynomials { Each (HasPositions 1) list.now }
    requires weights { length weights.now ≡ variables ring.now }
    ensures basis { IfOk result (λ found. IfSome found (λ r. IsBasisOfGraph ring.now images.now list.now r.0 r.1)) }
    ensures weights { IfOk result (λ found. IfSome found (λ r. r.0.weights ≡ ring.now.weights ++ weights.now)) }
{
    let graph = weighted_graph(alloc, ring, weights)?;
    lawful_setting(&graph);
    let listed = graph_list(alloc, ring, &graph, images, list)?;
    let Some(basis) = engine.attempted(rt, alloc, &graph, 1, &listed)? else {
        return Ok(None);
    };
    Ok(Some((graph, basis)))
}

/// The preimage's reduced basis, where the images and the list are homogeneous: by the graph over a ring in which each second
/// variable has its image's degree as its weight, so that the graph is homogeneous too, and then by those members that have the
/// second variables alone, in the ring's own order (IVA chapter 3, section 3). These are that basis as they are where the order
/// is graded reverse lexicographic and the weights are a multiple of the ring's own. None where there are no such weights, or an
/// attempt has no answer.
pub(crate) fn preimage_by_weights<R: Threads + Wait + Sync, B: Groebner>(
    rt: &R,
    alloc: Global,
    engine: &B,
    ring: &Ring,
    images: &VectList,
    list: &VectList,
) -> Result<Option<VectList>, NoMemory>
    requires sync { IsSync R.row }
    requires images { AreVectorsOver ring.now (ring_comparison ring.now) images.now }
    requires images_polynomials { Each (HasPositions 1) images.now }
    requires count { length images.now ≡ variables ring.now }
    requires vectors { AreVectorsOver ring.now (ring_comparison ring.now) list.now }
    requires polynomials { Each (HasPositions 1) list.now }
    ensures basis { IfOk result (λ found. IfSome found (IsBasisOfThose ring.now 1 (IsInPreimage ring.now images.now list.now))) }
{
    lawful_setting(ring);
    let Some(weights) = image_weights(alloc, ring, images, list)? else {
        return Ok(None);
    };
    let Some((graph, basis)) = graph_by_weights(rt, alloc, engine, ring, images, list, &weights)?
    else {
        return Ok(None);
    };
    let members = second_members(alloc, ring, &graph, basis)?;
    if is_grevlex(ring, 1) && are_multiples(&ring.weights, &weights) {
        return Ok(Some(members));
    }
    let Some(answer) = engine.attempted(rt, alloc, ring, 1, &members)? else {
        return Ok(None);
    };
    Ok(Some(answer))
}
