// The members of a run with their cofactors.
ghost use Rattle.std.specs.Prelude.{◌≡◌, ◌<◌, IfOk, IfErr, [], get_or, length, map};
ghost use Rattle.std.specs.Arc.{arc_value};
ghost use Rattle.formal_sums.specs.FormalSums.{Each};
ghost use Rattle.term_lists.specs.Rings.{variables};
ghost use Rattle.term_lists.specs.Vectors.{sums_of};
ghost use Rattle.basis_steps.specs.Cofactors.{AreCombined};
ghost use Rattle.member_products.specs.Generators.{IsRanked};
ghost use Rattle.member_products.specs.Members.{AreCofactors, CofactorsStop, members_of};
ghost use Rattle.basis_core.specs.Members.{shared_of};
ghost use Rattle.basis_core.specs.Rows.{vectors_in};
ghost use Rattle.cofactor_track.specs.Members.{IsCombined};

use crate::Member;
use basis_core::{BasisState, Members};
use member_products::push_cofactors;
use module_vectors::{NoMemory, Vect, VectList, VectStop, Vectors};
use std::alloc::Global;
use std::sync::Arc;

/// The cofactors of each member of a run over its generators, multiplied out.
///
/// `Degree` where a product on the way is above degree 65,535; it carries the two monomials. `Memory` where there is
/// none.
pub fn run_cofactors(alloc: Global, members: &Members) -> Result<VectList, VectStop>
    ensures vectors { IfOk result (λ list. Each (λ v. IsRanked members.now.shared.ring (length members.now.shared.generators) v) list) }
    ensures cofactors { IfOk result (λ list. AreCofactors members.now.shared.ring members.now.list list) }
    ensures stop { IfErr result (CofactorsStop members.now.shared.ring members.now.list) }
{
    let mut list = VectList::new(alloc);
    for i in 0..members.len() {
        if let Err(stop) = push_cofactors(alloc, members.shared(), members.get(i), &mut list) {
            return Err(stop);
        }
    }
    Ok(list)
}

// The member with this index, with these cofactors.
fn run_member(alloc: Global, members: &Members, index: usize, cof: Vect) -> Result<Member, NoMemory>
    requires index { index < length members.now.list }
    requires combined { let s = members.now.shared in IsCombined s.ring s.rank s.generators (get_or (vectors_in members.now.list) index []) cof }
    ensures shared { IfOk result (λ m. shared_of (arc_value m.shared) ≡ members.now.shared) }
    ensures vector { IfOk result (λ m. m.vector ≡ get_or (vectors_in members.now.list) index []) }
    ensures cofactors { IfOk result (λ m. m.cof ≡ cof) }
{
    let shared = Arc::try_clone(members.shared())?;
    let vector = members.at(index).try_copy(alloc)?;
    Ok(Member {
        shared,
        vector,
        cof,
    })
}

// The members of a run, each with its cofactors of this list.
fn with_cofactors(
    alloc: Global,
    members: &Members,
    cofactors: VectList,
) -> Result<Vec<Member>, NoMemory>
    requires vectors { Each (λ v. IsRanked members.now.shared.ring (length members.now.shared.generators) v) cofactors }
    requires cofactors { AreCofactors members.now.shared.ring members.now.list cofactors }
    requires combined { let s = members.now.shared in let n = variables s.ring in
        AreCombined s.ring.modulus.value (sums_of n s.generators) (members_of n members.now.list) }
    ensures shared { IfOk result (λ list. Each (λ m. shared_of (arc_value m.shared) ≡ members.now.shared) list.items) }
    ensures vectors { IfOk result (λ list. map (λ m. m.vector) list.items ≡ vectors_in members.now.list) }
    ensures cofactors { IfOk result (λ list. map (λ m. m.cof) list.items ≡ cofactors) }
{
    members.kept();
    let mut list = Vec::with_capacity(alloc, cofactors.len())?;
    for cof in cofactors.into_vec() {
        let member = run_member(alloc, members, list.len(), cof)?;
        list.push_reserved(member);
    }
    Ok(list)
}

/// The members of a run so far, each with its cofactors over the generators, multiplied out: it is the combination of the
/// generators by them.
///
/// `Degree` where a product on the way is above degree 65,535; it carries the two monomials. `Memory` where there is
/// none.
pub fn run_members(alloc: Global, state: &BasisState) -> Result<Vec<Member>, VectStop>
    ensures shared { IfOk result (λ list. Each (λ m. shared_of (arc_value m.shared) ≡ state.now.shared) list.items) }
    ensures vectors { IfOk result (λ list. map (λ m. m.vector) list.items ≡ vectors_in state.now.members) }
    ensures cofactors { IfOk result (λ list. AreCofactors state.now.shared.ring state.now.members (map (λ m. m.cof) list.items)) }
    ensures stop { IfErr result (CofactorsStop state.now.shared.ring state.now.members) }
{
    state.kept();
    let members = state.members();
    match run_cofactors(alloc, members) {
        Ok(cofactors) => Ok(with_cofactors(alloc, members, cofactors)?),
        Err(stop) => Err(stop),
    }
}
