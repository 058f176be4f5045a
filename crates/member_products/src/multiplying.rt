// Cofactors multiplied out.
ghost use Rattle.std.specs.Prelude.{◌≡◌, ◌++◌, ◌∷◌, [], List, IfOk, IfErr, OnOk, OnErr, length};
ghost use Rattle.formal_sums.specs.FormalSums.{Each};
ghost use Rattle.module_vectors.specs.ProductStops.{CombinationStops};
ghost use Rattle.member_products.specs.Generators.{IsRanked};
ghost use Rattle.member_products.specs.Members.{AreCofactors, AreMembersOver, CofactorsStop, IsMemberOver};
ghost use Rattle.member_products.specs.declared.member.RunMember.{RunMember as MemberValue};

use crate::{RunMember, Shared};
use module_vectors::{Vect, VectList, VectStop};
use std::alloc::Global;

/// Appends the cofactors of one member more, where the list has those of the members before it: its multiple of a
/// generator, and its products of their cofactors.
///
/// `Degree` where such a product is above degree 65,535; it carries the two monomials. `Memory` where there is none.
/// Both leave the list as it was.
pub fn push_cofactors(
    alloc: Global,
    shared: &Shared,
    member: &RunMember,
    list: &mut VectList,
) -> Result<(), VectStop>
    requires list { Each (λ v. IsRanked shared.now.ring (length shared.now.generators) v) list.old }
    requires member { IsMemberOver shared.now.ring shared.now.rank (length shared.now.generators) (length list.old) member.now }
    ensures vectors { Each (λ v. IsRanked shared.now.ring (length shared.now.generators) v) list.new }
    ensures cofactors { OnOk result ((ms : List MemberValue)
        → AreCofactors shared.now.ring ms list.old → AreCofactors shared.now.ring (ms ++ (member.now ∷ [])) list.new) }
    ensures err { OnErr result (list.new ≡ list.old) }
    ensures stop { IfErr result (CombinationStops member.now.products list.old) }
{
    let ring = &shared.ring;
    ring.modulus.domain();
    let products = match Vect::combine(alloc, ring, &member.products, list) {
        Ok(products) => products,
        Err(stop) => return Err(stop),
    };
    let mut cof = member.multiple.try_copy(alloc)?;
    cof.add(alloc, ring, products)?;
    list.push(cof)?;
    Ok(())
}

/// The cofactors of each member over the generators: its multiple of a generator, and its products of the cofactors of
/// earlier members.
///
/// `Degree` where such a product is above degree 65,535; it carries the two monomials. `Memory` where there is none.
pub fn cofactors(
    alloc: Global,
    shared: &Shared,
    members: &[RunMember],
) -> Result<VectList, VectStop>
    requires { AreMembersOver shared.now.ring shared.now.rank (length shared.now.generators) 0 members.now }
    ensures vectors { IfOk result (λ list. Each (λ v. IsRanked shared.now.ring (length shared.now.generators) v) list) }
    ensures cofactors { IfOk result (λ list. AreCofactors shared.now.ring members.now list) }
    ensures stop { IfErr result (CofactorsStop shared.now.ring members.now) }
{
    let mut list = VectList::new(alloc);
    for member in members {
        if let Err(stop) = push_cofactors(alloc, shared, member, &mut list) {
            return Err(stop);
        }
    }
    Ok(list)
}
