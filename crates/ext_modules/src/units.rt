// The unit vectors, which are the reduced basis of a whole free module.
ghost use Rattle.std.specs.Prelude.{◌≡◌, ◌↔◌, ◌∷◌, [], true, IfOk};
ghost use Rattle.ext_laws.specs.Transposes.{unit_vectors};
ghost use Rattle.operation_laws.specs.Operations.{basis_vector};
ghost use Rattle.term_lists.specs.Rings.{ring_comparison, variables};
ghost use Rattle.term_lists.specs.Vectors.{AreVectorsOver, IsVectorOver, sum_of, sums_of};
ghost use Rattle.ext_modules.specs.Units.{AreUnits};

use module_vectors::{Key, NoMemory, Ring, Vect, VectList, lawful_setting};
use monomial_orders::Mono;
use std::alloc::Global;

// The monomial at this position, as a list of terms.
fn one_term(alloc: Global, position: u64, monomial: Mono) -> Result<Vec<(Key, u32)>, NoMemory>
    ensures { IfOk result (λ terms. terms.items ≡ (record { position = position; monomial = monomial }, 1) ∷ []) }
{
    let mut terms = Vec::with_capacity(alloc, 1)?;
    terms.push_reserved((Key { position, monomial }, 1));
    Ok(terms)
}

// The unit vector with 1 at this position.
fn unit_vector(alloc: Global, ring: &Ring, position: u64) -> Result<Vect, NoMemory>
    ensures vector { IfOk result (IsVectorOver ring.now (ring_comparison ring.now)) }
    ensures sum { IfOk result (λ v. sum_of (variables ring.now) v ≡ basis_vector position) }
{
    ring.modulus.domain();
    let monomial = Mono::unit(alloc, ring.vars.len())?;
    let terms = one_term(alloc, position, monomial)?;
    Ok(Vect::from_ordered(ring, terms))
}

/// So many unit vectors, the first position first: descending in the ring's order.
pub(crate) fn unit_list(alloc: Global, ring: &Ring, count: u64) -> Result<VectList, NoMemory>
    ensures { IfOk result (AreUnits ring.now count) }
{
    let mut list = Vec::with_capacity(alloc, count as usize)?;
    for position in 0..count {
        list.push(unit_vector(alloc, ring, position)?)?;
    }
    Ok(VectList::from_vec(list))
}

// Is it the unit vector with 1 at this position?
fn is_unit(alloc: Global, ring: &Ring, v: &Vect, position: u64) -> Result<bool, NoMemory>
    requires { IsVectorOver ring.now (ring_comparison ring.now) v.now }
    ensures { IfOk result (λ yes. yes ≡ true ↔ (sum_of (variables ring.now) v.now ≡ basis_vector position)) }
{
    lawful_setting(ring);
    let unit = unit_vector(alloc, ring, position)?;
    Ok(v.equal(&unit))
}

/// Are these so many unit vectors, the first position first?
pub(crate) fn are_units(
    alloc: Global,
    ring: &Ring,
    count: usize,
    list: &VectList,
) -> Result<bool, NoMemory>
    requires { AreVectorsOver ring.now (ring_comparison ring.now) list.now }
    ensures { IfOk result (λ yes. yes ≡ true ↔ (sums_of (variables ring.now) list.now ≡ unit_vectors count)) }
{
    if list.len() != count {
        return Ok(false);
    }
    for i in 0..list.len() {
        let v = &list.as_slice()[i];
        let yes = is_unit(alloc, ring, v, i as u64)?;
        if !yes {
            return Ok(false);
        }
    }
    Ok(true)
}
