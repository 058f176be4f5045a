// The two products of an S-vector.
ghost use Rattle.std.specs.Prelude.{◌≡◌, IfOk};
ghost use Rattle.formal_sums.specs.FormalSums.{Each};
ghost use Rattle.term_lists.specs.Rings.{ring_comparison, variables};
ghost use Rattle.term_lists.specs.Vectors.{AreVectorsOver};
ghost use Rattle.basis_steps.specs.Criteria.{IsPair};
ghost use Rattle.basis_steps.specs.Divisions.{IsMonicMember};
ghost use Rattle.basis_steps.specs.States.{vectors};
ghost use Rattle.basis_core.specs.Jobs.{HasLcmOfMembers, index_pair_of};
ghost use Rattle.basis_core.specs.Members.{members_of, setting_of};
ghost use Rattle.basis_core.specs.Rows.{vectors_in};
ghost use Rattle.s_vectors.specs.Parts.{ArePairParts};

use basis_core::Members;
use module_vectors::{NoMemory, Ring, Vectors};
use pair_criteria::{Pair, factor_of};
use std::alloc::Global;
use vector_division::ScaledProduct;

/// The parts of the pair's S-vector: its members are monic, so their residues are 1 and -1.
pub(crate) fn pair_parts(
    alloc: Global,
    ring: &Ring,
    members: &Members,
    pair: &Pair,
) -> Result<Vec<ScaledProduct>, NoMemory>
    requires over { ring.now ≡ members.now.shared.ring }
    requires list { AreVectorsOver ring.now (ring_comparison ring.now) (vectors_in members.now.list) }
    requires monic { let n = variables ring.now in Each (IsMonicMember (setting_of n members.now.shared)) (vectors (members_of n members.now.list)) }
    requires real { IsPair (vectors (members_of (variables ring.now) members.now.list)) (index_pair_of pair.now) }
    requires lcm { HasLcmOfMembers (variables ring.now) ring.now.weights members.now.list pair.now }
    ensures { IfOk result (λ parts. ArePairParts (variables ring.now) ring.now.weights ring.now.modulus.value
        (vectors_in members.now.list) pair.now parts.items) }
{
    let left = factor_of(alloc, ring, &pair.lcm, members.at(pair.i as usize))?;
    let right = factor_of(alloc, ring, &pair.lcm, members.at(pair.j as usize))?;
    ring.modulus.domain();
    Ok(vec![in alloc;
        ScaledProduct {
            index: pair.i,
            residue: 1,
            monomial: left,
        },
        ScaledProduct {
            index: pair.j,
            residue: ring.modulus.neg(1),
            monomial: right,
        },
    ]?)
}
