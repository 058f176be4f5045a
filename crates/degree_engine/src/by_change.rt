// The reduced basis of an ideal by that in the graded order.
ghost use Rattle.std.specs.Prelude.{IfOk, ◌≡◌};
ghost use Rattle.std.specs.Thread.{IsSync};
ghost use Rattle.formal_sums.specs.FormalSums.{Each};
ghost use Rattle.term_lists.specs.Rings.{ring_comparison, variables};
ghost use Rattle.term_lists.specs.Vectors.{AreVectorsOver, HasPositions, IsVectorOver, StandsFor, sum_of};
ghost use Rattle.monomial_orders.specs.declared.order.Order.TheVariants.{Grevlex};
ghost use Rattle.groebner_iface.specs.Runs.{IsReducedBasisOf};
ghost use Rattle.order_change.specs.Reordered.{with_order};
ghost use Rattle.degree_engine.specs.Resorted.{AreResorted};

use crate::attempt::Unanswered;
use crate::homogeneity::have_positions;
use groebner_iface::Groebner;
use module_vectors::{NoMemory, Ring, Vect, VectList, lawful_setting};
use monomial_orders::Order;
use order_change::convert;
use std::alloc::Global;
use std::sync::Wait;
use std::thread::Threads;

// The ring by the graded order.
fn graded_ring(alloc: Global, ring: &Ring) -> Result<Ring, NoMemory>
    ensures { IfOk result (λ graded. graded ≡ with_order Grevlex ring.now) }
{
    Ok(Ring {
        modulus: ring.modulus,
        vars: ring.vars.try_copy(alloc)?,
        order: Order::Grevlex,
        module_order: ring.module_order,
        weights: ring.weights.try_copy(alloc)?,
    })
}

// The vector with its terms in the graded order.
fn resorted(alloc: Global, ring: &Ring, graded: &Ring, v: &Vect) -> Result<Vect, NoMemory>
    requires graded { graded.now ≡ with_order Grevlex ring.now }
    requires vector { IsVectorOver ring.now (ring_comparison ring.now) v.now }
    ensures vector { IfOk result (IsVectorOver graded.now (ring_comparison graded.now)) }
    ensures same { IfOk result (λ u. StandsFor ring.now u (sum_of (variables ring.now) v.now)) }
{
    let copy = v.try_copy(alloc)?;
    Ok(Vect::from_terms(alloc, graded, copy.into_terms())?)
}

// The vectors with their terms in the graded order.
fn resorted_list(
    alloc: Global,
    ring: &Ring,
    graded: &Ring,
    list: &VectList,
) -> Result<VectList, NoMemory>
    requires graded { graded.now ≡ with_order Grevlex ring.now }
    requires vectors { AreVectorsOver ring.now (ring_comparison ring.now) list.now }
    ensures vectors { IfOk result (AreVectorsOver graded.now (ring_comparison graded.now)) }
    ensures same { IfOk result (λ resorted. AreResorted ring.now list.now resorted) }
{
    let mut vectors = Vec::with_capacity(alloc, list.len())?;
    for v in list.as_slice() {
        vectors.push(resorted(alloc, ring, graded, v)?)?;
    }
    Ok(VectList::from_vec(vectors))
}

/// The reduced basis of an ideal: that in the graded order, changed to the ring's order where there are at most 256 standard
/// monomials (Faugère, Gianni, Lazard, Mora, Journal of Symbolic Computation 16, 1993).
pub(crate) fn by_change<R: Threads + Wait + Sync, E: Groebner>(
    rt: &R,
    alloc: Global,
    engine: &mut E,
    ring: &Ring,
    list: &VectList,
) -> Result<VectList, Unanswered>
    requires sync { IsSync R.row }
    requires vectors { AreVectorsOver ring.now (ring_comparison ring.now) list.now }
    requires positions { Each (HasPositions 1) list.now }
    ensures { IfOk result (IsReducedBasisOf ring.now 1 list.now) }
{
    let graded = graded_ring(alloc, ring)?;
    let resorted = resorted_list(alloc, ring, &graded, list)?;
    if !have_positions(&resorted, 1) {
        return Err(Unanswered::Other);
    }
    lawful_setting(ring);
    lawful_setting(&graded);
    let basis = engine.reduced(rt, alloc, &graded, 1, &resorted)?;
    let changed = convert(alloc, &graded, &basis, ring.order)?;
    Ok(changed)
}
