// The products that a division takes away, as a vector whose positions are the indices of members.
ghost use Rattle.std.specs.Prelude.{◌≡◌, ◌<◌, IfOk, map};
ghost use Rattle.formal_sums.specs.FormalSums.{Each};
ghost use Rattle.term_lists.specs.Rings.{variables};
ghost use Rattle.term_lists.specs.Vectors.{IsMonomialOver, StandsFor};
ghost use Rattle.vector_division.specs.Reductions.{cofactors_of, term_of};
ghost use Rattle.member_products.specs.Generators.{IsVectorOf};

use module_vectors::{Key, NoMemory, Ring, Vect};
use std::alloc::Global;
use vector_division::ScaledProduct;

// Each quotient as a term.
fn quotient_terms(alloc: Global, quotients: &[ScaledProduct]) -> Result<Vec<(Key, u32)>, NoMemory>
    ensures { IfOk result (λ terms. terms.items ≡ map term_of quotients.now) }
{
    let mut terms = Vec::with_capacity(alloc, quotients.len())?;
    for quotient in quotients {
        let key = Key {
            position: quotient.index,
            monomial: quotient.monomial.try_copy(alloc)?,
        };
        terms.push_reserved((key, quotient.residue));
    }
    Ok(terms)
}

/// The products of these quotients: each one's residue times its monomial, at the index of its member as position.
///
/// The residues are below the modulus, and the monomials are the ring's.
pub fn quotient_products(
    alloc: Global,
    ring: &Ring,
    quotients: &[ScaledProduct],
) -> Result<Vect, NoMemory>
    requires { Each (λ q. IsMonomialOver ring.now q.monomial × (q.residue < ring.now.modulus.value)) quotients.now }
    ensures vector { IfOk result (IsVectorOf ring.now) }
    ensures sum { IfOk result (λ v. StandsFor ring.now v (cofactors_of (variables ring.now) quotients.now)) }
{
    let terms = quotient_terms(alloc, quotients)?;
    let products = Vect::from_terms(alloc, ring, terms)?;
    Ok(products)
}
