// The change of order.
ghost use Rattle.std.specs.Prelude.{◌≡◌, IfErr, IfOk, OnOk, length};
ghost use Rattle.groebner_iface.specs.Runs.{IsReducedBasisOf};
ghost use Rattle.term_lists.specs.Rings.{variables};
ghost use Rattle.term_lists.specs.Vectors.{sums_of};
ghost use Rattle.change_laws.specs.Standard.{lead_monomials};
ghost use Rattle.order_change.specs.Stops.{AreFew, OrderChangeStops};
ghost use Rattle.order_change.specs.Reordered.{with_order};
ghost use Rattle.order_change.specs.Tables.{IsBasisGiven};

use crate::ChangeStop;
use crate::ascending::ascending;
use crate::change::changed;
use crate::enumeration::standard_monomials;
use crate::listing::leads_of;
use crate::table::{form_of_one, product_forms};
use module_vectors::{NoMemory, Ring, VectList, lawful_setting};
use monomial_orders::{Mono, Order};
use std::alloc::Global;

// The ring by another order of its monomials.
fn reordered(alloc: Global, ring: &Ring, order: Order) -> Result<Ring, NoMemory>
    ensures { IfOk result (λ new. new ≡ with_order order ring.now) }
{
    Ok(Ring {
        modulus: ring.modulus,
        vars: ring.vars.try_copy(alloc)?,
        order,
        module_order: ring.module_order,
        weights: ring.weights.try_copy(alloc)?,
    })
}

// The reduced basis in another order, by the leads and the standard monomials of the one that is there.
fn converted(
    alloc: Global,
    ring: &Ring,
    basis: &VectList,
    leads: &[Mono],
    standard: &[Mono],
    order: Order,
) -> Result<VectList, NoMemory>
    requires { IsBasisGiven (length ring.now.weights) ring.now basis.now leads.now standard.now }
    ensures { IfOk result (IsReducedBasisOf (with_order order ring.now) 1 basis.now) }
{
    let table = product_forms(alloc, ring, basis, leads, standard)?;
    let form = form_of_one(alloc, ring, basis, leads, standard)?;
    let new_ring = reordered(alloc, ring, order)?;
    lawful_setting(&new_ring);
    let members = changed(alloc, &new_ring, basis, standard, &table, form)?;
    Ok(VectList::from_vec(members))
}

/// The reduced basis of an ideal in another order of the monomials, from that in the ring's order, without a basis run: by linear algebra on
/// normal forms. Faugère, Gianni, Lazard, Mora, Journal of Symbolic Computation 16, 1993.
///
/// The basis is reduced, in the ring's order, and of rank 1. `Infinite` exactly where some variable has no power among the leads,
/// the power 1 included; `Many` exactly where that is not so and there are more than 256 standard monomials; `Memory` where
/// there is none. No stop for a degree can come: each monomial that is met is one of the basis, or the product of a variable and a standard
/// monomial of either order. There are at most 256 of these, so that their exponents sum to at most 255, and with weights of
/// at most 255 the degree of such a product is at most 65,280.
pub fn convert(
    alloc: Global,
    ring: &Ring,
    basis: &VectList,
    order: Order,
) -> Result<VectList, ChangeStop>
    requires { IsReducedBasisOf ring.now 1 basis.now basis.now }
    ensures basis { IfOk result (IsReducedBasisOf (with_order order ring.now) 1 basis.now) }
    ensures few { let n = variables ring.now in OnOk result (AreFew (lead_monomials (sums_of n basis.now))) }
    ensures stop { let n = variables ring.now in IfErr result (OrderChangeStops (lead_monomials (sums_of n basis.now))) }
{
    lawful_setting(ring);
    let leads = leads_of(alloc, ring, basis)?;
    let found = match standard_monomials(alloc, &ring.weights, &leads) {
        Ok(found) => found,
        Err(stop) => return Err(stop),
    };
    let standard = ascending(alloc, &ring.weights, ring.order, &found)?;
    let answer = converted(alloc, ring, basis, &leads, &standard, order)?;
    Ok(answer)
}
