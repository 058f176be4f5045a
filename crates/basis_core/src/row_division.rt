// A row divided by the members of a moment, and the member that it makes.
ghost use Rattle.std.specs.Prelude.{◌≡◌, ◌<◌, ◌++◌, ◌∷◌, [], List, length, IfOk, IfErr, OnOk, OnErr};
ghost use Rattle.term_lists.specs.Rings.{variables};
ghost use Rattle.basis_steps.specs.Divisions.{MakesMembers};
ghost use Rattle.basis_steps.specs.States.{vectors};
ghost use Rattle.member_products.specs.Generators.{IsRanked};
ghost use Rattle.basis_core.specs.Members.{AreMonic, IsRunMember, IsRunRow, MemberShown, member_of, members_of, setting_of};
ghost use Rattle.basis_core.specs.RowDivision.{AreRowProducts, AreRowQuotients, IsMemberLeft, IsLeftMember, IsRowRest, lead_residue, with_multiple};
ghost use Rattle.basis_core.specs.Rows.{RowStops};
ghost use Rattle.basis_core.specs.declared.row_division.RowStop.TheVariants.{Memory};
ghost use Rattle.zp_field.specs.Moduli.{IsInverse};

use crate::members::Members;
use crate::products::quotient_products;
use member_products::{Reduct, RunMember};
use module_vectors::{NoMemory, Vect, WorkStop};
use monomial_orders::Mono;
use std::alloc::{AllocError, Global};
use vector_division::{Reduction, ScaledProduct, reduce_lead};
use zp_field::Modulus;

/// The products of a division of a row, and a monomial of the last one's member that is too great for it.
#[derive(Drop)]
pub(crate) struct RowTrail {
    pub(crate) products: Vec<(u64, Mono)>,
    pub(crate) last: Mono,
}

/// Why a row was not divided.
#[derive(Drop)]
pub(crate) enum RowStop {
    Memory,
    Degree(RowTrail),
}

impl From<AllocError> for RowStop {
    ghost from_gives = { λ _ stop. stop ≡ Memory };

    fn from(_error: AllocError) -> RowStop {
        RowStop::Memory
    }
}

impl From<NoMemory> for RowStop {
    ghost from_gives = { λ _ stop. stop ≡ Memory };

    fn from(_error: NoMemory) -> RowStop {
        RowStop::Memory
    }
}

// The vector's quotients and rest.
fn divide_vector(alloc: Global, members: &Members, v: &Vect) -> Result<Reduction, RowStop>
    requires over { IsRanked members.now.shared.ring members.now.shared.rank v.now }
    ensures quotients { IfOk result (λ r. AreRowQuotients members.now.shared members.now.list v.now r.quotients.items) }
    ensures rest { IfOk result (λ r. IsRowRest members.now.shared members.now.list v.now r.quotients.items r.rest) }
    ensures stop { let n = variables members.now.shared.ring in IfErr result (RowStops n members.now.shared.ring.weights members.now.list v.now) }
{
    members.kept();
    match reduce_lead(alloc, members.ring(), v, members) {
        Ok(reduction) => Ok(reduction),
        Err(WorkStop::Memory) => Err(RowStop::Memory),
        Err(WorkStop::Degree(trail)) => {
            let (products, last) = trail.into_chain();
            Err(RowStop::Degree(RowTrail { products, last }))
        }
    }
}

// The row's products less those that the division of its vector takes away.
fn divide_products(
    alloc: Global,
    members: &Members,
    row: &Reduct,
    quotients: &[ScaledProduct],
) -> Result<Vect, NoMemory>
    requires over { IsRunRow members.now.shared (length members.now.list) row.now }
    requires quotients { AreRowQuotients members.now.shared members.now.list row.now.vector quotients.now }
    ensures { IfOk result (AreRowProducts members.now.shared row.now.products quotients.now) }
{
    let ring = members.ring();
    ring.modulus.domain();
    let mut less = quotient_products(alloc, ring, quotients)?;
    less.scale(ring, ring.modulus.value() - 1);
    let mut products = row.products.try_copy(alloc)?;
    products.add(alloc, ring, less)?;
    Ok(products)
}

// The inverse of the residue of the lead.
fn invert_lead(modulus: &Modulus, v: &Vect) -> u32
    requires nonzero { 0 < lead_residue v.now }
    requires reduced { lead_residue v.now < modulus.now.value }
    ensures inverse { IsInverse modulus.now.value (lead_residue v.now) result }
{
    match modulus.invert(v.terms()[0].1) {
        Some(inverse) => inverse,
        None => unreachable!(),
    }
}

// The member of what division left, which is not zero.
fn monic_member(
    alloc: Global,
    members: &Members,
    row: &Reduct,
    multiple: &Vect,
    reduction: Reduction,
) -> Result<RunMember, NoMemory>
    requires over { IsRunMember members.now.shared (length members.now.list) (with_multiple row.now multiple.now) }
    requires monic { AreMonic members.now.shared members.now.list }
    requires some { 0 < length reduction.rest }
    requires quotients { AreRowQuotients members.now.shared members.now.list row.now.vector reduction.quotients.items }
    requires rest { IsRowRest members.now.shared members.now.list row.now.vector reduction.quotients.items reduction.rest }
    ensures { IfOk result (IsLeftMember members.now.shared members.now.list (with_multiple row.now multiple.now)) }
{
    members.kept();
    let ring = members.ring();
    let mut products = divide_products(alloc, members, row, &reduction.quotients)?;
    let mut multiple = multiple.try_copy(alloc)?;
    let mut vector = reduction.rest;
    let inverse = invert_lead(&ring.modulus, &vector);
    vector.scale(ring, inverse);
    multiple.scale(ring, inverse);
    products.scale(ring, inverse);
    Ok(RunMember {
        vector,
        multiple,
        products,
    })
}

// What division of the row leaves, monic, or none where it leaves zero.
fn divide_row(
    alloc: Global,
    members: &Members,
    row: &Reduct,
    multiple: &Vect,
) -> Result<Option<RunMember>, RowStop>
    requires over { IsRunMember members.now.shared (length members.now.list) (with_multiple row.now multiple.now) }
    requires monic { AreMonic members.now.shared members.now.list }
    ensures left { IfOk result (IsMemberLeft members.now.shared members.now.list (with_multiple row.now multiple.now)) }
    ensures stop { let n = variables members.now.shared.ring in IfErr result (RowStops n members.now.shared.ring.weights members.now.list row.now.vector) }
{
    members.kept();
    let reduction = match divide_vector(alloc, members, &row.vector) {
        Ok(reduction) => reduction,
        Err(stop) => return Err(stop),
    };
    if reduction.rest.terms().is_empty() {
        return Ok(None);
    }
    Ok(Some(monic_member(alloc, members, row, multiple, reduction)?))
}

/// Divides the row, with this multiple of a generator, by the members until none of their leads divides its lead, and
/// appends what is left, monic, with the products that make it, unless it is zero. After an error the members are as
/// before.
pub(crate) fn make_member(
    alloc: Global,
    members: &mut Members,
    row: &Reduct,
    multiple: &Vect,
) -> Result<(), RowStop>
    requires over { IsRunMember members.old.shared (length members.old.list) (with_multiple row.now multiple.now) }
    requires monic { AreMonic members.old.shared members.old.list }
    ensures shared { members.new.shared ≡ members.old.shared }
    ensures made { let n = variables members.old.shared.ring in OnOk result
        ((made : List MemberShown) × (members.new.list ≡ members.old.list ++ made)
        × MakesMembers (setting_of n members.old.shared) (vectors (members_of n members.old.list)) (member_of n (with_multiple row.now multiple.now) ∷ [])
        (members_of n made)) }
    ensures err { OnErr result (members.new ≡ members.old) }
    ensures stop { let n = variables members.old.shared.ring in IfErr result (RowStops n members.old.shared.ring.weights members.old.list row.now.vector) }
{
    match divide_row(alloc, members, row, multiple) {
        Ok(None) => Ok(()),
        Ok(Some(member)) => {
            members.push(alloc, member)?;
            Ok(())
        }
        Err(stop) => Err(stop),
    }
}
