// The standard monomials of an ideal.
ghost use Rattle.std.specs.Prelude.{◌≡◌, IfErr, IfOk, OnOk, length};
ghost use Rattle.formal_sums.specs.FormalSums.{Each};
ghost use Rattle.term_lists.specs.Rings.{ring_comparison, variables};
ghost use Rattle.term_lists.specs.Vectors.{AreVectorsOver, IsMonomialOver, sums_of};
ghost use Rattle.groebner_iface.specs.Runs.{IsReducedBasisOf};
ghost use Rattle.change_laws.specs.Standard.{AreStandard, lead_monomials};
ghost use Rattle.order_change.specs.Stops.{AreFew, OrderChangeStops};
ghost use Rattle.order_change.specs.Lists.{AreMonomials};
ghost use Rattle.monomial_orders.specs.Kept.{monomials};

use crate::ChangeStop;
use crate::enumeration::standard_monomials;
use module_vectors::{NoMemory, Ring, VectList, lawful_setting};
use monomial_orders::Mono;
use std::alloc::Global;

/// The monomials of the leads of a list without zero.
pub(crate) fn leads_of(alloc: Global, ring: &Ring, basis: &VectList) -> Result<Vec<Mono>, NoMemory>
    requires { IsReducedBasisOf ring.now 1 basis.now basis.now }
    ensures monomials { IfOk result (λ leads. AreMonomials (variables ring.now) ring.now.weights leads.items) }
    ensures leads { let n = variables ring.now in IfOk result (λ leads. monomials n leads.items ≡ lead_monomials (sums_of n basis.now)) }
{
    lawful_setting(ring);
    let mut leads = Vec::with_capacity(alloc, basis.len())?;
    for v in basis.as_slice() {
        leads.push_reserved(v.terms()[0].0.monomial.try_copy(alloc)?);
    }
    Ok(leads)
}

/// The standard monomials of an ideal, each once: those that no lead of its reduced basis divides. IVA chapter 5, section 3.
///
/// The basis is reduced, in the ring's order, and of rank 1. `Infinite` exactly where some variable has no power among the leads,
/// the power 1 included; `Many` exactly where that is not so and there are more than 256 standard monomials; `Memory` where
/// there is none.
pub fn standard(alloc: Global, ring: &Ring, basis: &VectList) -> Result<Vec<Mono>, ChangeStop>
    requires { IsReducedBasisOf ring.now 1 basis.now basis.now }
    ensures monomials { IfOk result (λ found. Each (IsMonomialOver ring.now) found.items) }
    ensures standard { let n = variables ring.now in
        IfOk result (λ found. AreStandard (lead_monomials (sums_of n basis.now)) (monomials n found.items)) }
    ensures few { let n = variables ring.now in OnOk result (AreFew (lead_monomials (sums_of n basis.now))) }
    ensures stop { let n = variables ring.now in IfErr result (OrderChangeStops (lead_monomials (sums_of n basis.now))) }
{
    let leads = leads_of(alloc, ring, basis)?;
    match standard_monomials(alloc, &ring.weights, &leads) {
        Ok(found) => Ok(found),
        Err(stop) => Err(stop),
    }
}
