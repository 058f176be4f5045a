// Powers by the digits of their exponent to the base of the modulus.
ghost use Rattle.std.specs.Prelude.{◌≡◌, ◌+◌, ◌*◌, ◌<◌, ◌≤◌, IfOk, IfSome, OnErr, Err};
ghost use Rattle.term_lists.specs.Rings.{variables};
ghost use Rattle.term_lists.specs.Vectors.{AreTermsOver, IsVectorOver, HasPositions, StandsFor, sum_of};
ghost use Rattle.sparse_poly.specs.Degrees.{IsWithinDegree};
ghost use Rattle.sparse_poly.specs.PowerParts.{IsPowerOver};
ghost use Rattle.sparse_poly.specs.Powers.{polynomial_power};
ghost use Rattle.sparse_poly.specs.TermPowers.{AreTermsWithin, StandForPower};

use crate::binomial::{binomial_terms, single_terms};
use crate::multiply::mul_in;
use crate::power::raised;
use crate::prime_power::prime_power;
use module_vectors::{Frame, Key, NoMemory, Ring, Room, Vect, VectStop};
use std::alloc::Global;

/// The greater of two numbers.
fn greater(a: u128, b: u128) -> u128
    ensures left { a ≤ result }
    ensures right { b ≤ result }
{
    if a < b { b } else { a }
}

/// The greatest degree of a term; 0 of none.
pub(crate) fn top_degree(terms: &[(Key, u32)]) -> u128
    ensures { IsWithinDegree result terms.now }
{
    let mut top = 0;
    for term in terms {
        top = greater(top, term.0.monomial.degree());
    }
    top
}

/// The terms of the power n of one term, or of two where n is below the modulus; `None` of others.
fn short_terms(
    alloc: Global,
    ring: &Ring,
    terms: &[(Key, u32)],
    d: u128,
    n: u128,
) -> Result<Option<Vec<(Key, u32)>>, NoMemory>
    requires terms { AreTermsWithin ring.now d terms.now }
    requires small { n * d ≤ 65535 }
    ensures { IfOk result (λ o. IfSome o (λ v. StandForPower ring.now terms.now n v.items)) }
{
    let Some((first, more)) = terms.split_first() else {
        return Ok(None);
    };
    let Some((second, rest)) = more.split_first() else {
        return Ok(Some(single_terms(alloc, ring, first, d, n)?));
    };
    if rest.len() > 0 {
        return Ok(None);
    }
    if n >= u128::from(ring.modulus.value()) {
        return Ok(None);
    }
    Ok(Some(binomial_terms(alloc, ring, first, second, d, n)?))
}

/// The power n of a polynomial of one term, or of two where n is below the modulus; `None` of others. It answers `Memory` alone.
fn short_power<F: Frame>(
    alloc: Global,
    frame: &F,
    p: &Vect,
    d: u128,
    n: u128,
) -> Result<Option<Vect>, VectStop>
    requires vector { IsVectorOver (F.over frame.now) (F.compare frame.now) p.now }
    requires polynomial { HasPositions 1 p.now }
    requires within { IsWithinDegree d p.now }
    requires small { n * d ≤ 65535 }
    ensures power { IfOk result (λ o. IfSome o (IsPowerOver (F.over frame.now) (F.compare frame.now) p.now n)) }
    ensures stop { OnErr result (result ≡ Err VectStop.Memory) }
{
    let ring = frame.ring();
    let found = match short_terms(alloc, ring, p.terms(), d, n) {
        Ok(found) => found,
        Err(NoMemory) => return Err(VectStop::Memory),
    };
    let Some(terms) = found else {
        return Ok(None);
    };
    match Vect::from_terms(alloc, frame, terms) {
        Ok(power) => Ok(Some(power)),
        Err(NoMemory) => Err(VectStop::Memory),
    }
}

/// The modulus of the ring.
fn modulus_of<F: Frame>(frame: &F) -> u128
    ensures value { result ≡ (F.over frame.now).modulus.value }
    ensures above { 1 < result }
{
    let modulus = &frame.ring().modulus;
    modulus.domain();
    u128::from(modulus.value())
}

/// A number as k p + r, with its last digit r to base p. Each of k and r times a degree is small where the number times it is.
fn digits_of(n: u128, p: u128, _d: u128) -> (u128, u128)
    requires base { 1 < p }
    requires long { p ≤ n }
    requires small { n * _d ≤ 65535 }
    ensures parts { p * result.0 + result.1 ≡ n }
    ensures less { result.0 < n }
    ensures less_digit { result.1 < n }
    ensures small { result.0 * _d ≤ 65535 }
    ensures small_digit { result.1 * _d ≤ 65535 }
{
    (n / p, n % p)
}

/// The power n below the modulus, from that of half the exponent.
fn below_modulus<F: Frame>(
    alloc: Global,
    frame: &F,
    room: &mut Room,
    p: &Vect,
    _d: u128,
    n: u128,
) -> Result<Vect, VectStop>
    requires vector { IsVectorOver (F.over frame.now) (F.compare frame.now) p.now }
    requires polynomial { HasPositions 1 p.now }
    requires within { IsWithinDegree _d p.now }
    requires small { n * _d ≤ 65535 }
    ensures power { IfOk result (IsPowerOver (F.over frame.now) (F.compare frame.now) p.now n) }
    ensures stop { OnErr result (result ≡ Err VectStop.Memory) }
{
    raised(alloc, frame, room, p, n)
}

/// The power n of `p`, of a degree of at most d, where n d is at most 65,535. With n = k m + r, for the modulus m, it is the power m
/// of the power k times the power r. It answers `Memory` alone.
pub(crate) fn by_digits<F: Frame>(
    alloc: Global,
    frame: &F,
    room: &mut Room,
    p: &Vect,
    d: u128,
    n: u128,
) -> Result<Vect, VectStop>
    requires vector { IsVectorOver (F.over frame.now) (F.compare frame.now) p.now }
    requires polynomial { HasPositions 1 p.now }
    requires within { IsWithinDegree d p.now }
    requires small { n * d ≤ 65535 }
    ensures power { IfOk result (IsPowerOver (F.over frame.now) (F.compare frame.now) p.now n) }
    ensures stop { OnErr result (result ≡ Err VectStop.Memory) }
{
    match short_power(alloc, frame, p, d, n) {
        Ok(Some(power)) => return Ok(power),
        Ok(None) => {}
        Err(stop) => return Err(stop),
    }
    let base = modulus_of(frame);
    if n < base {
        return below_modulus(alloc, frame, room, p, d, n);
    }
    let digits = digits_of(n, base, d);
    let high = match by_digits(alloc, frame, room, p, d, digits.0) {
        Ok(high) => high,
        Err(stop) => return Err(stop),
    };
    let low = match by_digits(alloc, frame, room, p, d, digits.1) {
        Ok(low) => low,
        Err(stop) => return Err(stop),
    };
    joined(alloc, frame, room, p, d, n, digits.0, &high, digits.1, &low)
}

/// The power n = k m + r of `p`, for the modulus m, from those of k and r.
fn joined<F: Frame>(
    alloc: Global,
    frame: &F,
    room: &mut Room,
    _p: &Vect,
    d: u128,
    _n: u128,
    k: u128,
    high: &Vect,
    r: u128,
    low: &Vect,
) -> Result<Vect, VectStop>
    requires vector { IsVectorOver (F.over frame.now) (F.compare frame.now) _p.now }
    requires polynomial { HasPositions 1 _p.now }
    requires within { IsWithinDegree d _p.now }
    requires small { _n * d ≤ 65535 }
    requires small_high { k * d ≤ 65535 }
    requires parts { (F.over frame.now).modulus.value * k + r ≡ _n }
    requires high { IsPowerOver (F.over frame.now) (F.compare frame.now) _p.now k high.now }
    requires low { IsPowerOver (F.over frame.now) (F.compare frame.now) _p.now r low.now }
    ensures power { IfOk result (IsPowerOver (F.over frame.now) (F.compare frame.now) _p.now _n) }
    ensures stop { OnErr result (result ≡ Err VectStop.Memory) }
{
    let lifted = match prime_power(alloc, frame, high, k * d) {
        Ok(lifted) => lifted,
        Err(NoMemory) => return Err(VectStop::Memory),
    };
    if r == 0 {
        return Ok(lifted);
    }
    mul_in(alloc, frame, room, &lifted, low)
}
