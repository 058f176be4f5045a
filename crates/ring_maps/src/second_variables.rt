// Vectors over the ring of a graph that have the second variables alone, as vectors of the ring.
ghost use Rattle.std.specs.Prelude.{◌≡◌, ◌++◌, ◌∷◌, [], IfOk, List, OnOk};
ghost use Rattle.monomials.specs.Exponents.{exponents_of};
ghost use Rattle.formal_sums.specs.FormalSums.{Each, FormalSum};
ghost use Rattle.map_laws.specs.Graphs.{exponents_from, from_second, of_second};
ghost use Rattle.term_lists.specs.Rings.{ring_comparison, variables};
ghost use Rattle.term_lists.specs.Vectors.{AreTermsOver, IsMonomialOver, IsVectorOver, StandsFor, sum_of, sums_of};
ghost use Rattle.syzygy_engine.specs.Runs.{AreVectorsFor};
ghost use Rattle.ring_maps.specs.GraphRings.{IsGraphRing};

use crate::first_variables::monomial_of;
use ideal_ops::is_free;
use module_vectors::{Key, NoMemory, Ring, Vect, VectList};
use monomial_orders::Mono;
use std::alloc::Global;

// The monomial with the exponents of the second variables.
fn second_monomial(alloc: Global, ring: &Ring, _graph: &Ring, m: &Mono) -> Result<Mono, NoMemory>
    requires graph { IsGraphRing ring.now _graph.now }
    requires monomial { IsMonomialOver _graph.now m.now }
    ensures over { IfOk result (IsMonomialOver ring.now) }
    ensures after { let n = variables ring.now in let k = variables _graph.now in
        IfOk result (λ u. exponents_of n u.exponents ≡ exponents_from n n (exponents_of k m.now.exponents)) }
{
    let (_, exponents) = m.exponents().split_at(ring.vars.len());
    Ok(monomial_of(alloc, ring, exponents)?)
}

// The term with the exponents of the second variables.
fn second_term(
    alloc: Global,
    ring: &Ring,
    graph: &Ring,
    term: (Key, u32),
) -> Result<(Key, u32), NoMemory>
    requires graph { IsGraphRing ring.now graph.now }
    requires term { AreTermsOver graph.now (term ∷ []) }
    ensures over { IfOk result (λ t. AreTermsOver ring.now (t ∷ [])) }
    ensures term { let n = variables ring.now in let m = variables graph.now in
        IfOk result (λ t. sum_of n (t ∷ []) ≡ from_second n (sum_of m (term ∷ []))) }
{
    let (key, residue) = term;
    let position = key.position;
    let monomial = second_monomial(alloc, ring, graph, &key.monomial)?;
    Ok((Key { position, monomial }, residue))
}

// The terms with the exponents of the second variables, each dropped as soon as the new one is made.
fn second_terms(
    alloc: Global,
    ring: &Ring,
    graph: &Ring,
    terms: Vec<(Key, u32)>,
) -> Result<Vec<(Key, u32)>, NoMemory>
    requires graph { IsGraphRing ring.now graph.now }
    requires terms { AreTermsOver graph.now terms.items }
    ensures over { IfOk result (λ fewer. AreTermsOver ring.now fewer.items) }
    ensures sum { let n = variables ring.now in let m = variables graph.now in
        IfOk result (λ fewer. sum_of n fewer.items ≡ from_second n (sum_of m terms.items)) }
{
    let mut fewer = Vec::with_capacity(alloc, terms.len())?;
    for term in terms {
        fewer.push(second_term(alloc, ring, graph, term)?)?;
    }
    Ok(fewer)
}

/// The vector over the graph, which has the second variables alone, as one of the ring: its terms come in their order, and are
/// sorted where the ring's order is another.
pub(crate) fn second_vector(
    alloc: Global,
    ring: &Ring,
    graph: &Ring,
    v: Vect,
) -> Result<Vect, NoMemory>
    requires graph { IsGraphRing ring.now graph.now }
    requires terms { AreTermsOver graph.now v }
    ensures vector { IfOk result (IsVectorOver ring.now (ring_comparison ring.now)) }
    ensures stands { let n = variables ring.now in let m = variables graph.now in
        IfOk result (λ u. StandsFor ring.now u (from_second n (sum_of m v))) }
{
    let terms = second_terms(alloc, ring, graph, v.into_terms())?;
    Ok(Vect::from_terms(alloc, ring, terms)?)
}

// Puts the member behind the others, as one of the ring, if it has the second variables alone.
fn take_second(
    alloc: Global,
    ring: &Ring,
    graph: &Ring,
    v: Vect,
    members: &mut Vec<Vect>,
) -> Result<(), NoMemory>
    requires graph { IsGraphRing ring.now graph.now }
    requires terms { AreTermsOver graph.now v }
    ensures { let n = variables ring.now in let m = variables graph.now in
        (G : List (FormalSum (variables graph.now))) → AreVectorsFor ring.now (of_second n G) members.old.items
        → OnOk result (AreVectorsFor ring.now (of_second n (G ++ sum_of m v ∷ [])) members.new.items) }
{
    if !is_free(&v, ring.vars.len()) {
        return Ok(());
    }
    members.push(second_vector(alloc, ring, graph, v)?)?;
    Ok(())
}

/// The members of the basis that have the second variables alone, as vectors of the ring.
pub(crate) fn second_members(
    alloc: Global,
    ring: &Ring,
    graph: &Ring,
    basis: VectList,
) -> Result<VectList, NoMemory>
    requires graph { IsGraphRing ring.now graph.now }
    requires basis { Each (AreTermsOver graph.now) basis }
    ensures { let n = variables ring.now in let m = variables graph.now in
        IfOk result (AreVectorsFor ring.now (of_second n (sums_of m basis))) }
{
    let vectors = basis.into_vec();
    let mut members = Vec::new(alloc);
    for v in vectors {
        take_second(alloc, ring, graph, v, &mut members)?;
    }
    Ok(VectList::from_vec(members))
}
