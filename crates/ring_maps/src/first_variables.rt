// Vectors of a ring as vectors in the first variables of the ring of a graph.
ghost use Rattle.std.specs.Prelude.{◌≡◌, ◌<◌, ◌≤◌, ◌++◌, IfOk, OnOk, length};
ghost use Rattle.monomials.specs.Exponents.{exponents_of, unit};
ghost use Rattle.formal_sums.specs.FormalSums.{scale};
ghost use Rattle.map_laws.specs.Graphs.{fitted, in_first};
ghost use Rattle.term_lists.specs.Rings.{ring_comparison, variables};
ghost use Rattle.term_lists.specs.Vectors.{AreTermsOver, IsMonomialOver, IsVectorOver, StandsFor, sum_of};
ghost use Rattle.ring_maps.specs.GraphRings.{IsGraphRing};

use module_vectors::{Key, NoMemory, Ring, Vect};
use monomial_orders::Mono;
use std::alloc::Global;

/// The monomial of the ring with these exponents. From the ring to that of a graph a monomial of a vector keeps its degree, and
/// on the way back, from the second variables, it has no greater one, since none of these has less weight than the variable for
/// which it stands: so no degree is too great, and what can be wanting is memory.
pub(crate) fn monomial_of(alloc: Global, ring: &Ring, exponents: &[u16]) -> Result<Mono, NoMemory>
    requires { length exponents.now ≡ variables ring.now }
    ensures exponents { IfOk result (λ m. m.exponents ≡ exponents.now) }
    ensures over { IfOk result (IsMonomialOver ring.now) }
{
    match Mono::from_exponents(alloc, &ring.weights, exponents) {
        Ok(m) => Ok(m),
        Err(_stop) => Err(NoMemory),
    }
}

// Puts the exponents into the list, in place of what stands there, with zeros behind them, so many in all.
fn with_zeros(exponents: &[u16], count: usize, more: &mut Vec<u16>) -> Result<(), NoMemory>
    requires { length exponents.now ≤ count }
    ensures count { OnOk result (length more.new.items ≡ count) }
    ensures same { OnOk result (exponents_of count more.new.items ≡ exponents_of count exponents.now) }
{
    more.clear();
    more.extend_from_slice(exponents)?;
    more.resize(count, 0u16)?;
    Ok(())
}

// The monomial in the first variables of the graph. The room is for its exponents.
fn first_monomial(
    alloc: Global,
    _ring: &Ring,
    graph: &Ring,
    m: &Mono,
    room: &mut Vec<u16>,
) -> Result<Mono, NoMemory>
    requires graph { IsGraphRing _ring.now graph.now }
    requires monomial { IsMonomialOver _ring.now m.now }
    ensures over { IfOk result (IsMonomialOver graph.now) }
    ensures fitted { let n = variables _ring.now in let k = variables graph.now in
        IfOk result (λ u. exponents_of k u.exponents ≡ fitted k (exponents_of n m.now.exponents)) }
{
    with_zeros(m.exponents(), graph.vars.len(), room)?;
    Ok(monomial_of(alloc, graph, room)?)
}

/// Puts c times these terms, in the first variables of the graph, behind the others.
pub(crate) fn push_first(
    alloc: Global,
    ring: &Ring,
    graph: &Ring,
    c: u32,
    terms: &[(Key, u32)],
    more: &mut Vec<(Key, u32)>,
) -> Result<(), NoMemory>
    requires graph { IsGraphRing ring.now graph.now }
    requires factor { c < ring.now.modulus.value }
    requires terms { AreTermsOver ring.now terms.now }
    requires more { AreTermsOver graph.now more.old.items }
    ensures over { OnOk result (AreTermsOver graph.now more.new.items) }
    ensures sum { let n = variables ring.now in let m = variables graph.now in OnOk result
        (StandsFor graph.now more.new.items (sum_of m more.old.items ++ scale c (unit m) (in_first m (sum_of n terms.now)))) }
{
    let mut room = Vec::with_capacity(alloc, graph.vars.len())?;
    for term in terms {
        let monomial = first_monomial(alloc, ring, graph, &term.0.monomial, &mut room)?;
        let position = term.0.position;
        let residue = ring.modulus.mul(c, term.1);
        more.push((Key { position, monomial }, residue))?;
    }
    Ok(())
}

/// The vector in the first variables of the graph.
pub(crate) fn first_vector(
    alloc: Global,
    ring: &Ring,
    graph: &Ring,
    v: &Vect,
) -> Result<Vect, NoMemory>
    requires graph { IsGraphRing ring.now graph.now }
    requires terms { AreTermsOver ring.now v.now }
    ensures vector { IfOk result (IsVectorOver graph.now (ring_comparison graph.now)) }
    ensures stands { let n = variables ring.now in let m = variables graph.now in
        IfOk result (λ u. StandsFor graph.now u (in_first m (sum_of n v.now))) }
{
    ring.modulus.domain();
    let own = v.terms();
    let mut terms = Vec::with_capacity(alloc, own.len())?;
    push_first(alloc, ring, graph, 1, own, &mut terms)?;
    Ok(Vect::from_terms(alloc, graph, terms)?)
}
