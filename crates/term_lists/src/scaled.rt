// Multiples of a vector by a term.
ghost use Rattle.std.specs.Prelude.{◌≡◌, ◌<◌, ◌≤◌, ◌+◌, [], List, ℕ, length, IfOk, IfErr, OnOk};
ghost use Rattle.monomials.specs.Exponents.{exponents_of};
ghost use Rattle.formal_sums.specs.FormalSums.{scale};
ghost use Rattle.term_lists.specs.Rings.{variables};
ghost use Rattle.term_lists.specs.Vectors.{sum_of, IsMonomialOver, IsVectorOver, StandsFor};
ghost use Rattle.term_lists.specs.Multiples.{IsMultiple, MonomialProductStops};
ghost use Rattle.term_lists.specs.Stops.{Fits, ScaledStops};

use crate::{Frame, Key, VectStop};
use monomial_orders::{Mono, MonoStop};
use std::alloc::Global;
use zp_field::Modulus;

// c m t, for a term t.
fn scaled_term(
    alloc: Global,
    modulus: &Modulus,
    c: u32,
    m: &Mono,
    t: &(Key, u32),
) -> Result<(Key, u32), VectStop>
    requires factor { c < modulus.now.value }
    requires residue { t.now.1 < modulus.now.value }
    requires variables { length m.now.exponents ≡ length t.now.0.monomial.exponents }
    ensures term { IfOk result (IsMultiple (length m.now.exponents) modulus.now.value c m.now t.now) }
    ensures fits { OnOk result (m.now.degree + t.now.0.monomial.degree ≤ 65535) }
    ensures stop { IfErr result (MonomialProductStops m.now t.now.0.monomial) }
{
    match Mono::mul(alloc, m, &t.0.monomial) {
        Ok(monomial) => Ok((
            Key {
                position: t.0.position,
                monomial,
            },
            modulus.mul(c, t.1),
        )),
        Err(MonoStop::Memory) => Err(VectStop::Memory),
        Err(MonoStop::Degree) => {
            let left = m.try_copy(alloc)?;
            let right = t.0.monomial.try_copy(alloc)?;
            Err(VectStop::Degree(left, right))
        }
    }
}

/// Puts the terms of c m v into the empty list `out`, for a residue c that is not 0 and a monomial m. After an error what stands
/// there is of no use.
///
/// `Degree` exactly where m times a monomial of v has a degree above 65,535; it carries the two. `Memory` where there is none.
pub fn scale_into<F: Frame>(
    alloc: Global,
    frame: &F,
    c: u32,
    m: &Mono,
    v: &[(Key, u32)],
    out: &mut Vec<(Key, u32)>,
) -> Result<(), VectStop>
    requires empty { out.old.items ≡ [] }
    requires nonzero { 0 < c }
    requires factor { c < (F.over frame.now).modulus.value }
    requires variables { IsMonomialOver (F.over frame.now) m.now }
    requires vector { IsVectorOver (F.over frame.now) (F.compare frame.now) v.now }
    ensures vector { OnOk result (IsVectorOver (F.over frame.now) (F.compare frame.now) out.new.items) }
    ensures sum { let n = variables (F.over frame.now) in
        OnOk result (StandsFor (F.over frame.now) out.new.items (scale c (exponents_of n m.now.exponents) (sum_of n v.now))) }
    ensures fits { OnOk result (Fits m.now v.now) }
    ensures stop { IfErr result (ScaledStops c m.now v.now) }
{
    let modulus = &frame.ring().modulus;
    modulus.domain();
    out.reserve(v.len())?;
    for term in v {
        out.push_reserved(scaled_term(alloc, modulus, c, m, term)?);
    }
    Ok(())
}

/// The terms of c m v, for a residue c that is not 0 and a monomial m.
///
/// `Degree` exactly where m times a monomial of v has a degree above 65,535; it carries the two. `Memory` where there is none.
pub fn scaled_terms<F: Frame>(
    alloc: Global,
    frame: &F,
    c: u32,
    m: &Mono,
    v: &[(Key, u32)],
) -> Result<Vec<(Key, u32)>, VectStop>
    requires nonzero { 0 < c }
    requires factor { c < (F.over frame.now).modulus.value }
    requires variables { IsMonomialOver (F.over frame.now) m.now }
    requires vector { IsVectorOver (F.over frame.now) (F.compare frame.now) v.now }
    ensures vector { IfOk result (λ u. IsVectorOver (F.over frame.now) (F.compare frame.now) u.items) }
    ensures sum { let n = variables (F.over frame.now) in
        IfOk result (λ u. StandsFor (F.over frame.now) u.items (scale c (exponents_of n m.now.exponents) (sum_of n v.now))) }
    ensures fits { OnOk result (Fits m.now v.now) }
    ensures stop { IfErr result (ScaledStops c m.now v.now) }
{
    let mut out = Vec::new(alloc);
    scale_into(alloc, frame, c, m, v, &mut out)?;
    Ok(out)
}
