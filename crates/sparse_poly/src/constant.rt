// Constant polynomials.
ghost use Rattle.std.specs.Prelude.{◌≡◌, ℕ, IfOk, OnErr, Err};
ghost use Rattle.term_lists.specs.Rings.{variables};
ghost use Rattle.term_lists.specs.Vectors.{IsVectorOver, StandsFor, HasPositions};
ghost use Rattle.sparse_poly.specs.Degrees.{IsWithinDegree};
ghost use Rattle.sparse_poly.specs.Powers.{constant};

use module_vectors::{Frame, Key, Vect, VectStop};
use monomial_orders::Mono;
use std::alloc::Global;

/// The constant polynomial of a number. It answers `Memory` alone.
pub fn formal_constant<F: Frame>(alloc: Global, frame: &F, n: u128) -> Result<Vect, VectStop>
    ensures vector { IfOk result (λ v. IsVectorOver (F.over frame.now) (F.compare frame.now) v) }
    ensures polynomial { IfOk result (λ v. HasPositions 1 v) }
    ensures constant { IfOk result (λ v. StandsFor (F.over frame.now) v (constant (variables (F.over frame.now)) n)) }
    ensures within { IfOk result (λ v. IsWithinDegree 0 v) }
    ensures stop { OnErr result (result ≡ Err VectStop.Memory) }
{
    let ring = frame.ring();
    let residue = ring.modulus.from_u128(n);
    let monomial = Mono::unit(alloc, ring.vars.len())?;
    let mut terms = Vec::with_capacity(alloc, 1)?;
    terms.push((
        Key {
            position: 0,
            monomial,
        },
        residue,
    ))?;
    Ok(Vect::from_terms(alloc, frame, terms)?)
}
