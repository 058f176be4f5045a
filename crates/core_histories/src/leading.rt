// The leads of the members that no other member's lead divides.
ghost use Rattle.std.specs.Prelude.{◌≡◌, ◌<◌, IfOk, IfSome, OnOk, length};
ghost use Rattle.term_lists.specs.Vectors.{AreTermsOver, IsMonomialOver};
ghost use Rattle.member_products.specs.Generators.{IsVectorOf};

use basis_core::{BasisState, Members};
use check_texts::{NoValue, Sheet};
use member_products::RunMember;
use module_vectors::{Key, Ring, Vect};
use std::alloc::Global;

// Does the first key divide the second?
fn divides(left: &Key, right: &Key) -> bool {
    left.position == right.position
        && left.monomial.variables() == right.monomial.variables()
        && left.monomial.divides(&right.monomial)
}

// Does the first member's lead divide the second's?
fn leads_divide(left: &RunMember, right: &RunMember) -> bool {
    match (left.vector.lead(), right.vector.lead()) {
        (Some(left), Some(right)) => divides(left.key, right.key),
        _ => false,
    }
}

// Does another member's lead divide this one's?
fn is_divided(members: &Members, index: usize) -> bool
    requires { index < length members.now.list }
{
    for i in 0..members.len() {
        if i != index && leads_divide(members.get(i), members.get(index)) {
            return true;
        }
    }
    false
}

// The lead of a vector.
fn lead_of(alloc: Global, ring: &Ring, v: &Vect) -> Result<Option<(Key, u32)>, NoValue>
    requires { IsVectorOf ring.now v.now }
    ensures { IfOk result (λ found. IfSome found (λ t. IsMonomialOver ring.now t.0.monomial × (t.1 < ring.now.modulus.value))) }
{
    let _ring = ring;
    match v.lead() {
        Some(lead) => Ok(Some((lead.key.try_copy(alloc)?, lead.residue))),
        None => Ok(None),
    }
}

// Appends the lead of a vector.
fn push_lead(
    alloc: Global,
    ring: &Ring,
    v: &Vect,
    terms: &mut Vec<(Key, u32)>,
) -> Result<(), NoValue>
    requires vector { IsVectorOf ring.now v.now }
    requires terms { AreTermsOver ring.now terms.old.items }
    ensures { OnOk result (AreTermsOver ring.now terms.new.items) }
{
    match lead_of(alloc, ring, v)? {
        Some(lead) => Ok(terms.push(lead)?),
        None => Ok(()),
    }
}

// The leads that no other one divides.
fn minimal(alloc: Global, ring: &Ring, members: &Members) -> Result<Vec<(Key, u32)>, NoValue>
    requires { members.now.shared.ring ≡ ring.now }
    ensures { IfOk result (λ terms. AreTermsOver ring.now terms.items) }
{
    let mut terms = Vec::new(alloc);
    for i in 0..members.len() {
        if is_divided(members, i) {
            continue;
        }
        push_lead(alloc, ring, &members.get(i).vector, &mut terms)?;
    }
    Ok(terms)
}

// The sum of the minimal leads.
fn sum_of_leads(alloc: Global, state: &BasisState) -> Result<Vect, NoValue> {
    let ring = &state.shared().ring;
    let terms = minimal(alloc, ring, state.members())?;
    Ok(Vect::from_terms(alloc, ring, terms)?)
}

/// Writes the sum of the minimal leads, as a vector.
pub fn write_leads(alloc: Global, sheet: &mut Sheet, state: &BasisState) {
    match sum_of_leads(alloc, state) {
        Ok(v) => sheet.vector(&state.shared().ring, state.shared().rank, &v),
        Err(NoValue) => sheet.text("none: no memory"),
    }
    sheet.text("\n");
}
