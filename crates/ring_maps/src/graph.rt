// The graph of a map and a list, and its reduced basis.
ghost use Rattle.std.specs.Prelude.{◌≡◌, ◌≤◌, ◌<◌, ◌++◌, ◌∷◌, ◌-◌, [], IfErr, IfOk, List, OnOk, length, map};
ghost use Rattle.monomials.specs.Exponents.{exponents_of, unit};
ghost use Rattle.formal_sums.specs.FormalSums.{Each, FormalSum, scale};
ghost use Rattle.operation_laws.specs.Operations.{listed};
ghost use Rattle.map_laws.specs.Graphs.{behind, graph_list, graph_member, in_first, variable_monomial};
ghost use Rattle.term_lists.specs.Rings.{ring_comparison, variables};
ghost use Rattle.term_lists.specs.Vectors.{AreTermsOver, AreVectorsOver, HasPositions, IsMonomialOver, IsVectorOver, StandsFor, sum_of, sums_of};
ghost use Rattle.risen_counts.specs.Counts.{RoseAtMost};
ghost use Rattle.groebner_iface.specs.Calls.{CallStops, NoTrail};
ghost use Rattle.syzygy_engine.specs.Runs.{AreVectorsFor};
ghost use Rattle.ring_maps.specs.GraphRings.{IsGraphRing};
ghost use Rattle.ring_maps.specs.Graphs.{IsGraphRun};
ghost use Rattle.ring_maps.specs.GraphSteps.{IsGraphBasis};

use crate::first_variables::{first_vector, push_first};
use groebner_iface::{Groebner, OpStop};
use module_vectors::{Key, NoMemory, Ring, Vect, VectList, lawful_setting};
use monomial_orders::Mono;
use risen_counts::counted_times;
use std::alloc::Global;
use std::sync::Wait;
use std::thread::Threads;

// The second variable y_i, which stands for the one with this index.
fn second_variable(alloc: Global, ring: &Ring, graph: &Ring, i: usize) -> Result<Mono, NoMemory>
    requires graph { IsGraphRing ring.now graph.now }
    requires index { i < variables ring.now }
    ensures over { IfOk result (IsMonomialOver graph.now) }
    ensures behind { let n = variables ring.now in let m = variables graph.now in
        IfOk result (λ y. exponents_of m y.exponents ≡ behind m n (variable_monomial n i)) }
{
    let from_last = ring.vars.len() - i;
    Ok(Mono::variable(alloc, &graph.weights, graph.weights.len() - from_last)?)
}

// Puts the second variable y_i behind the other terms.
fn push_variable(
    alloc: Global,
    ring: &Ring,
    graph: &Ring,
    i: usize,
    terms: &mut Vec<(Key, u32)>,
) -> Result<(), NoMemory>
    requires graph { IsGraphRing ring.now graph.now }
    requires index { i < variables ring.now }
    requires terms { AreTermsOver graph.now terms.old.items }
    ensures over { OnOk result (AreTermsOver graph.now terms.new.items) }
    ensures sum { let n = variables ring.now in let m = variables graph.now in OnOk result
        (sum_of m terms.new.items ≡ sum_of m terms.old.items ++ ((0, behind m n (variable_monomial n i)), 1) ∷ []) }
{
    graph.modulus.domain();
    let monomial = second_variable(alloc, ring, graph, i)?;
    let position = 0;
    terms.push((Key { position, monomial }, 1))?;
    Ok(())
}

// The residue of -1.
fn minus_one(ring: &Ring) -> u32
    ensures value { result ≡ ring.now.modulus.value - 1 }
    ensures reduced { result < ring.now.modulus.value }
{
    ring.modulus.domain();
    ring.modulus.value() - 1
}

// How many of a polynomial's terms stand before the constant one, which is its last.
fn before_constant(terms: &[(Key, u32)]) -> usize
    ensures { result ≤ length terms.now }
{
    match terms.split_last() {
        Some((last, others)) if last.0.monomial.degree() == 0 => others.len(),
        _ => terms.len(),
    }
}

// y_i - f. Over the graph the terms of f but for the constant one are above y_i, so in this order nothing needs sorting
// where they come as graded reverse lexicographic.
fn graph_vector(
    alloc: Global,
    ring: &Ring,
    graph: &Ring,
    i: usize,
    f: &Vect,
) -> Result<Vect, NoMemory>
    requires graph { IsGraphRing ring.now graph.now }
    requires index { i < variables ring.now }
    requires terms { AreTermsOver ring.now f.now }
    ensures vector { IfOk result (IsVectorOver graph.now (ring_comparison graph.now)) }
    ensures stands { let n = variables ring.now in let m = variables graph.now in let p = ring.now.modulus.value in IfOk result
        (λ u. StandsFor graph.now u (((0, behind m n (variable_monomial n i)), 1) ∷ scale (p - 1) (unit m) (in_first m (sum_of n f.now)))) }
{
    ring.modulus.domain();
    let own = f.terms();
    let (above, below) = own.split_at(before_constant(own));
    let mut terms = Vec::with_capacity(alloc, own.len().saturating_add(1))?;
    push_first(alloc, ring, graph, minus_one(ring), above, &mut terms)?;
    push_variable(alloc, ring, graph, i, &mut terms)?;
    push_first(alloc, ring, graph, minus_one(ring), below, &mut terms)?;
    Ok(Vect::from_terms(alloc, graph, terms)?)
}

// y_i - f_i for each image f_i, with room for so many vectors more.
fn graph_vectors(
    alloc: Global,
    ring: &Ring,
    graph: &Ring,
    images: &VectList,
    room: usize,
) -> Result<Vec<Vect>, NoMemory>
    requires graph { IsGraphRing ring.now graph.now }
    requires images { Each (AreTermsOver ring.now) images.now }
    requires count { length images.now ≡ variables ring.now }
    ensures { let n = variables ring.now in let m = variables graph.now in IfOk result
        (λ l. AreVectorsFor graph.now (listed 0 n (graph_member ring.now.modulus.value m (sums_of n images.now))) l.items) }
{
    let mut vectors = Vec::with_capacity(alloc, images.len().saturating_add(room))?;
    for i in 0..images.len() {
        vectors.push(graph_vector(alloc, ring, graph, i, &images.as_slice()[i])?)?;
    }
    Ok(vectors)
}

// Puts the members of the list, in the first variables, behind the others.
fn push_members(
    alloc: Global,
    ring: &Ring,
    graph: &Ring,
    list: &VectList,
    vectors: &mut Vec<Vect>,
) -> Result<(), NoMemory>
    requires graph { IsGraphRing ring.now graph.now }
    requires list { Each (AreTermsOver ring.now) list.now }
    ensures { let n = variables ring.now in let m = variables graph.now in
        (G : List (FormalSum (variables graph.now))) → AreVectorsFor graph.now G vectors.old.items
        → OnOk result (AreVectorsFor graph.now (G ++ map (in_first m) (sums_of n list.now)) vectors.new.items) }
{
    for v in list.as_slice() {
        vectors.push(first_vector(alloc, ring, graph, v)?)?;
    }
    Ok(())
}

/// y_i - f_i for each image f_i, and the members of the list in the first variables.
pub(crate) fn graph_list(
    alloc: Global,
    ring: &Ring,
    graph: &Ring,
    images: &VectList,
    list: &VectList,
) -> Result<VectList, NoMemory>
    requires graph { IsGraphRing ring.now graph.now }
    requires images { Each (AreTermsOver ring.now) images.now }
    requires count { length images.now ≡ variables ring.now }
    requires list { Each (AreTermsOver ring.now) list.now }
    ensures { let n = variables ring.now in let m = variables graph.now in IfOk result
        (AreVectorsFor graph.now (graph_list ring.now.modulus.value m (sums_of n images.now) (sums_of n list.now))) }
{
    let mut vectors = graph_vectors(alloc, ring, graph, images, list.len())?;
    push_members(alloc, ring, graph, list, &mut vectors)?;
    Ok(VectList::from_vec(vectors))
}

/// The ring of the graph, and over it the reduced basis of the graph of the map and the list (IVA chapter 3, section 3).
///
/// `Pairs` and `Degree` are those of the run, which the engine counted and kept; `Memory` where there is none; `Trail` never.
pub(crate) fn graph_basis<R: Threads + Wait + Sync, B: Groebner>(
    rt: &R,
    alloc: Global,
    engine: &mut B,
    ring: &Ring,
    images: &VectList,
    list: &VectList,
) -> Result<(Ring, VectList), OpStop>
    requires images { AreVectorsOver ring.now (ring_comparison ring.now) images.now }
    requires images_polynomials { Each (HasPositions 1) images.now }
    requires count { length images.now ≡ variables ring.now }
    requires vectors { AreVectorsOver ring.now (ring_comparison ring.now) list.now }
    requires polynomials { Each (HasPositions 1) list.now }
    ensures basis { IfOk result (λ r. IsGraphBasis ring.now images.now list.now r.0 r.1) }
    ensures same { OnOk result ((B.stops engine.new ≡ B.stops engine.old) × (B.stopped engine.new ≡ B.stopped engine.old)) }
    ensures stop { IfErr result (CallStops (IsGraphRun ring.now images.now list.now) NoTrail
        (B.stops engine.old) (B.stops engine.new) (B.stopped engine.old) (B.stopped engine.new)) }
    ensures later { B.stops engine.old ≤ B.stops engine.new }
    ensures runs { RoseAtMost 1 (B.runs engine.old) (B.runs engine.new) }
    ensures settings { B.settings engine.new ≡ B.settings engine.old }
{
    counted_times();
    let graph = ring.doubled(alloc)?;
    lawful_setting(&graph);
    let listed = graph_list(alloc, ring, &graph, images, list)?;
    match engine.reduced(rt, alloc, &graph, 1, &listed) {
        Ok(basis) => Ok((graph, basis)),
        Err(stop) => Err(OpStop::from(stop)),
    }
}
