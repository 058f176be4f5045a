// The power p of a polynomial modulo the prime p.
ghost use Rattle.std.specs.Prelude.{◌≡◌, ◌*◌, ◌≤◌, IfOk};
ghost use Rattle.term_lists.specs.Rings.{variables};
ghost use Rattle.term_lists.specs.Vectors.{AreTermsOver, HasPositions, IsVectorOver, StandsFor, sum_of};
ghost use Rattle.sparse_poly.specs.Degrees.{IsWithinDegree};
ghost use Rattle.sparse_poly.specs.Powers.{polynomial_power};
ghost use Rattle.sparse_poly.specs.TermPowers.{AreTermsWithin, raised_monomials};

use crate::term_powers::raised_term;
use module_vectors::{Frame, Key, NoMemory, Ring, Vect};
use std::alloc::Global;

/// The terms of a degree of at most d, with their monomials to the power p.
fn raised_terms(
    alloc: Global,
    ring: &Ring,
    terms: &[(Key, u32)],
    _d: u128,
) -> Result<Vec<(Key, u32)>, NoMemory>
    requires terms { AreTermsWithin ring.now _d terms.now }
    requires small { ring.now.modulus.value * _d ≤ 65535 }
    ensures over { IfOk result (λ v. AreTermsOver ring.now v.items) }
    ensures raised { let m = variables ring.now in
        IfOk result (λ v. sum_of m v.items ≡ raised_monomials ring.now.modulus.value (sum_of m terms.now)) }
{
    let mut raised = Vec::with_capacity(alloc, terms.len())?;
    for term in terms {
        let power = raised_term(alloc, ring, term)?;
        raised.push(power)?;
    }
    Ok(raised)
}

/// The power p of a polynomial of a degree of at most d: the sum of the powers p of its terms, whose residues are their own
/// (IVA chapter 1, section 1: the binomial coefficients that p divides are gone).
pub(crate) fn prime_power<F: Frame>(
    alloc: Global,
    frame: &F,
    v: &Vect,
    d: u128,
) -> Result<Vect, NoMemory>
    requires vector { IsVectorOver (F.over frame.now) (F.compare frame.now) v.now }
    requires polynomial { HasPositions 1 v.now }
    requires within { IsWithinDegree d v.now }
    requires small { (F.over frame.now).modulus.value * d ≤ 65535 }
    ensures vector { IfOk result (λ u. IsVectorOver (F.over frame.now) (F.compare frame.now) u) }
    ensures power { IfOk result (λ u. StandsFor (F.over frame.now) u
        (polynomial_power (sum_of (variables (F.over frame.now)) v.now) (F.over frame.now).modulus.value)) }
{
    let ring = frame.ring();
    ring.modulus.domain();
    let terms = raised_terms(alloc, ring, v.terms(), d)?;
    Vect::from_terms(alloc, frame, terms)
}
