// Powers of a polynomial.
ghost use Rattle.std.specs.Prelude.{◌≡◌, ◌*◌, ◌/◌, ◌≤◌, ℕ, IfOk, IfErr, OnOk, OnErr, Err};
ghost use Rattle.term_lists.specs.Rings.{variables};
ghost use Rattle.term_lists.specs.Vectors.{sum_of, IsVectorOver, StandsFor, HasPositions};
ghost use Rattle.sparse_poly.specs.Degrees.{IsWithinDegree};
ghost use Rattle.sparse_poly.specs.PowerParts.{IsPowerOver, PowerStopsOver};
ghost use Rattle.sparse_poly.specs.Powers.{polynomial_power};
ghost use Rattle.sparse_poly.specs.Stops.{PowersFit, PowerStops};

use crate::digits::{by_digits, top_degree};
use crate::formal_constant;
use crate::multiply::mul_in;
use module_vectors::{Frame, Room, Vect, VectStop};
use std::alloc::Global;
use std::mem::replace;

/// The power of a polynomial, by the digits of the exponent to the base of the modulus; with n = 0 the constant 1. `Degree` exactly
/// where monomials of two powers of `p`, with exponents that sum to at most n, have degrees that sum to more than 65,535; it carries two such.
pub fn pow<F: Frame>(alloc: Global, frame: &F, p: &Vect, n: u128) -> Result<Vect, VectStop>
    requires vector { IsVectorOver (F.over frame.now) (F.compare frame.now) p.now }
    requires polynomial { HasPositions 1 p.now }
    ensures vector { IfOk result (λ v. IsVectorOver (F.over frame.now) (F.compare frame.now) v) }
    ensures polynomial { IfOk result (λ v. HasPositions 1 v) }
    ensures power { IfOk result (λ v. StandsFor (F.over frame.now) v (polynomial_power (sum_of (variables (F.over frame.now)) p.now) n)) }
    ensures fits { OnOk result (PowersFit (F.over frame.now).weights (F.over frame.now).modulus.value (sum_of (variables (F.over frame.now)) p.now) n) }
    ensures stop { let m = variables (F.over frame.now) in
        IfErr result (PowerStops m (F.over frame.now).weights (F.over frame.now).modulus.value (sum_of m p.now) n) }
    ensures within { (d : ℕ) → IsWithinDegree d p.now → IfOk result (IsWithinDegree (n * d)) }
    ensures memory { (d : ℕ) → IsWithinDegree d p.now → n * d ≤ 65535 → OnErr result (result ≡ Err VectStop.Memory) }
{
    let mut room = Room::new(alloc);
    let d = top_degree(p.terms());
    if n.saturating_mul(d) <= 65535 {
        by_digits(alloc, frame, &mut room, p, d, n)
    } else {
        raised(alloc, frame, &mut room, p, n)
    }
}

/// The same in the room that is there, from the power of half the exponent.
pub(crate) fn raised<F: Frame>(
    alloc: Global,
    frame: &F,
    room: &mut Room,
    p: &Vect,
    n: u128,
) -> Result<Vect, VectStop>
    requires vector { IsVectorOver (F.over frame.now) (F.compare frame.now) p.now }
    requires polynomial { HasPositions 1 p.now }
    ensures vector { IfOk result (λ v. IsVectorOver (F.over frame.now) (F.compare frame.now) v) }
    ensures polynomial { IfOk result (λ v. HasPositions 1 v) }
    ensures power { IfOk result (λ v. StandsFor (F.over frame.now) v (polynomial_power (sum_of (variables (F.over frame.now)) p.now) n)) }
    ensures fits { OnOk result (PowersFit (F.over frame.now).weights (F.over frame.now).modulus.value (sum_of (variables (F.over frame.now)) p.now) n) }
    ensures stop { let m = variables (F.over frame.now) in
        IfErr result (PowerStops m (F.over frame.now).weights (F.over frame.now).modulus.value (sum_of m p.now) n) }
    ensures within { (d : ℕ) → IsWithinDegree d p.now → IfOk result (IsWithinDegree (n * d)) }
    ensures memory { (d : ℕ) → IsWithinDegree d p.now → n * d ≤ 65535 → OnErr result (result ≡ Err VectStop.Memory) }
{
    if n == 0 {
        return formal_constant(alloc, frame, 1);
    }
    // From the top bit on, so that each product made is of two powers whose exponents sum to at most n.
    let half = match raised(alloc, frame, room, p, n / 2) {
        Ok(half) => half,
        Err(stop) => return Err(stop),
    };
    // Squaring makes |half| |half| products of terms. Multiplying on makes |p| for each term of the n - n / 2 powers on the way, which
    // are some three times as long as the half, and orders these: that costs as much as fifty products for each.
    let factors = (n - n / 2).saturating_mul(3 * p.terms().len() as u128 + 160);
    if half.terms().len() as u128 <= factors {
        squared(alloc, frame, room, p, n, &half)
    } else {
        multiplied_on(alloc, frame, room, p, n, half)
    }
}

/// The power n of `p` as the square of the power n / 2, and once more by `p` where n is odd.
fn squared<F: Frame>(
    alloc: Global,
    frame: &F,
    room: &mut Room,
    p: &Vect,
    n: u128,
    half: &Vect,
) -> Result<Vect, VectStop>
    requires vector { IsVectorOver (F.over frame.now) (F.compare frame.now) p.now }
    requires polynomial { HasPositions 1 p.now }
    requires half { IsPowerOver (F.over frame.now) (F.compare frame.now) p.now (n / 2) half.now }
    ensures power { IfOk result (IsPowerOver (F.over frame.now) (F.compare frame.now) p.now n) }
    ensures stop { IfErr result (PowerStopsOver (F.over frame.now) p.now n) }
{
    let square = match mul_in(alloc, frame, room, half, half) {
        Ok(square) => square,
        Err(stop) => return Err(stop),
    };
    if n % 2 == 0 {
        Ok(square)
    } else {
        mul_in(alloc, frame, room, &square, p)
    }
}

/// The power n of `p` as the power n / 2, multiplied by `p` as many times as are left.
fn multiplied_on<F: Frame>(
    alloc: Global,
    frame: &F,
    room: &mut Room,
    p: &Vect,
    n: u128,
    half: Vect,
) -> Result<Vect, VectStop>
    requires vector { IsVectorOver (F.over frame.now) (F.compare frame.now) p.now }
    requires polynomial { HasPositions 1 p.now }
    requires half { IsPowerOver (F.over frame.now) (F.compare frame.now) p.now (n / 2) half }
    ensures power { IfOk result (IsPowerOver (F.over frame.now) (F.compare frame.now) p.now n) }
    ensures stop { IfErr result (PowerStopsOver (F.over frame.now) p.now n) }
{
    let mut reached = half;
    for _ in n / 2..n {
        match mul_in(alloc, frame, room, &reached, p) {
            Ok(next) => room.keep(replace(&mut reached, next)),
            Err(stop) => return Err(stop),
        }
    }
    Ok(reached)
}
