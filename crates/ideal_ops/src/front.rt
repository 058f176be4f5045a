// Vectors in one more variable t in front: multiples by t and by 1 - t, with the trails of those that are too great.
ghost use Rattle.std.specs.Prelude.{◌≡◌, ◌<◌, ◌-◌, ◌++◌, ◌∷◌, [], IfErr, IfOk, List, get_or, length, map, suc};
ghost use Rattle.monomials.specs.Exponents.{exponents_of};
ghost use Rattle.formal_sums.specs.FormalSums.{Each, FormalSum, HasRank, scale};
ghost use Rattle.operation_laws.specs.Operations.{first_variable, times_first, times_rest, with_first};
ghost use Rattle.term_lists.specs.FrontVariables.{front_ring};
ghost use Rattle.term_lists.specs.Rings.{ring_comparison, variables};
ghost use Rattle.term_lists.specs.Stops.{ScaledStops};
ghost use Rattle.term_lists.specs.Vectors.{AreTermsOver, AreVectorsOver, HasPositions, IsMonomialOver, IsVectorOver, sum_of, sums_of};
ghost use Rattle.module_vectors.specs.ProductStops.{CombinationStops};
ghost use Rattle.ideal_ops.specs.FrontSteps.{IsFrontMonomial, IsBehindFactor};
ghost use Rattle.ideal_ops.specs.FrontVariable.{IsFrontTrail, IsFrontTrailOf, IsFrontVector, front_polynomial, rest_polynomial};
ghost use Rattle.ideal_ops.specs.Products.{IsProductTrail, WorkStops};
ghost use Rattle.syzygy_engine.specs.Runs.{AreVectorsFor};

use crate::colons::one_term;
use crate::multiplying::stop_of;
use module_vectors::{Key, NoMemory, Ring, Vect, VectList, VectStop, WorkStop};
use monomial_orders::Mono;
use std::alloc::Global;

/// The new variable t of the ring `front`.
pub(crate) fn variable(alloc: Global, _ring: &Ring, front: &Ring) -> Result<Mono, NoMemory>
    requires { front.now ≡ front_ring _ring.now }
    ensures { IfOk result (IsFrontMonomial _ring.now) }
{
    Ok(Mono::variable(alloc, &front.weights, 0)?)
}

/// The vector in one more variable, which it has not.
pub(crate) fn in_front(
    alloc: Global,
    _ring: &Ring,
    front: &Ring,
    v: &Vect,
) -> Result<Vect, NoMemory>
    requires front { front.now ≡ front_ring _ring.now }
    requires vector { AreTermsOver _ring.now v.now }
    ensures { IfOk result (IsFrontVector _ring.now (with_first (sum_of (variables _ring.now) v.now))) }
{
    Ok(Vect::with_front(alloc, front, v)?)
}

/// The vectors of the list in one more variable, which they have not.
pub(crate) fn all_in_front(
    alloc: Global,
    ring: &Ring,
    front: &Ring,
    list: &VectList,
) -> Result<VectList, NoMemory>
    requires front { front.now ≡ front_ring ring.now }
    requires vectors { Each (AreTermsOver ring.now) list.now }
    ensures { let n = variables ring.now in
        IfOk result (AreVectorsFor (front_ring ring.now) (map with_first (sums_of n list.now))) }
{
    let mut moved = Vec::with_capacity(alloc, list.len())?;
    for v in list.as_slice() {
        moved.push(in_front(alloc, ring, front, v)?)?;
    }
    Ok(VectList::from_vec(moved))
}

/// The stop of a monomial of b times u, with its trail.
pub(crate) fn product_stop(
    alloc: Global,
    front: &Ring,
    b: &Vect,
    u: Vect,
    stop: VectStop,
) -> WorkStop
    requires b { IsVectorOver front.now (ring_comparison front.now) b.now }
    requires b_positions { HasPositions 1 b.now }
    requires u { IsVectorOver front.now (ring_comparison front.now) u }
    requires stop { CombinationStops b.now (u ∷ []) stop }
    ensures { WorkStops (IsProductTrail front.now b.now (u ∷ []) 0) result }
{
    let mut one = VectList::new(alloc);
    match one.push(u) {
        Ok(()) => stop_of(alloc, front, b, one, 0, stop),
        Err(_none) => WorkStop::Memory,
    }
}

/// The polynomial t.
pub(crate) fn variable_vector(alloc: Global, front: &Ring, t: &Mono) -> Result<Vect, NoMemory>
    requires { IsMonomialOver front.now t.now }
    ensures vector { IfOk result (IsVectorOver front.now (ring_comparison front.now)) }
    ensures terms { IfOk result (λ b. b ≡ (record { position = 0; monomial = t.now }, 1) ∷ []) }
{
    front.modulus.domain();
    let monomial = t.try_copy(alloc)?;
    let terms = one_term(alloc, monomial)?;
    Ok(Vect::from_ordered(front, terms))
}

/// The residue of -1.
pub(crate) fn minus_one(ring: &Ring) -> u32
    ensures value { result ≡ ring.now.modulus.value - 1 }
    ensures some { 0 < result }
    ensures reduced { result < ring.now.modulus.value }
{
    ring.modulus.domain();
    ring.modulus.value() - 1
}

// The first monomial with the coefficient and the second with 1, as a list of terms.
fn two_terms(
    alloc: Global,
    first: Mono,
    coefficient: u32,
    second: Mono,
) -> Result<Vec<(Key, u32)>, NoMemory>
    ensures { IfOk result (λ terms. terms.items
        ≡ (record { position = 0; monomial = first }, coefficient) ∷ (record { position = 0; monomial = second }, 1) ∷ []) }
{
    let mut terms = Vec::with_capacity(alloc, 2)?;
    let position = 0;
    let first_key = Key {
        position,
        monomial: first,
    };
    terms.push_reserved((first_key, coefficient));
    let second_key = Key {
        position,
        monomial: second,
    };
    terms.push_reserved((second_key, 1));
    Ok(terms)
}

// The polynomial 1 - t.
fn rest_vector(alloc: Global, _ring: &Ring, front: &Ring, t: &Mono) -> Result<Vect, NoMemory>
    requires front { front.now ≡ front_ring _ring.now }
    requires variable { IsFrontMonomial _ring.now t.now }
    ensures vector { IfOk result (IsVectorOver front.now (ring_comparison front.now)) }
    ensures terms { IfOk result (IsBehindFactor _ring.now t.now) }
{
    front.modulus.domain();
    let first = t.try_copy(alloc)?;
    let second = Mono::unit(alloc, front.vars.len())?;
    let terms = two_terms(alloc, first, minus_one(front), second)?;
    Ok(Vect::from_ordered(front, terms))
}

// The stop of t times the member with this index, with its trail.
fn variable_stop(
    alloc: Global,
    _ring: &Ring,
    front: &Ring,
    t: &Mono,
    members: VectList,
    index: usize,
    stop: VectStop,
) -> WorkStop
    requires front { front.now ≡ front_ring _ring.now }
    requires variable { IsFrontMonomial _ring.now t.now }
    requires members { AreVectorsOver front.now (ring_comparison front.now) members }
    requires index { index < length members }
    requires stop { ScaledStops 1 t.now (get_or members index []) stop }
    ensures { (G : List (FormalSum (suc (variables _ring.now)))) → AreVectorsFor (front_ring _ring.now) G members
        → WorkStops (IsFrontTrail _ring.now (front_polynomial (variables _ring.now)) G index) result }
{
    match variable_vector(alloc, front, t) {
        Ok(b) => stop_of(alloc, front, &b, members, index, stop),
        Err(_none) => WorkStop::Memory,
    }
}

// The stop of 1 - t times the member with this index, with its trail.
fn rest_stop(
    alloc: Global,
    ring: &Ring,
    front: &Ring,
    t: &Mono,
    members: VectList,
    index: usize,
    stop: VectStop,
) -> WorkStop
    requires front { front.now ≡ front_ring ring.now }
    requires variable { IsFrontMonomial ring.now t.now }
    requires members { AreVectorsOver front.now (ring_comparison front.now) members }
    requires index { index < length members }
    requires stop { ScaledStops (ring.now.modulus.value - 1) t.now (get_or members index []) stop }
    ensures { (G : List (FormalSum (suc (variables ring.now)))) → AreVectorsFor (front_ring ring.now) G members
        → WorkStops (IsFrontTrail ring.now (rest_polynomial (variables ring.now) ring.now.modulus.value) G index) result }
{
    match rest_vector(alloc, ring, front, t) {
        Ok(b) => stop_of(alloc, front, &b, members, index, stop),
        Err(_none) => WorkStop::Memory,
    }
}

// t u, for a vector u with the new variable.
fn variable_multiple(
    alloc: Global,
    ring: &Ring,
    front: &Ring,
    t: &Mono,
    u: &Vect,
) -> Result<Vect, VectStop>
    requires front { front.now ≡ front_ring ring.now }
    requires variable { IsFrontMonomial ring.now t.now }
    requires vector { IsVectorOver front.now (ring_comparison front.now) u.now }
    ensures vector { (g : FormalSum (suc (variables ring.now))) → IsFrontVector ring.now g u.now
        → IfOk result (IsFrontVector ring.now (scale 1 (first_variable (variables ring.now)) g)) }
    ensures stop { IfErr result (ScaledStops 1 t.now u.now) }
{
    ring.modulus.domain();
    match Vect::scaled(alloc, front, 1, t, u) {
        Ok(w) => Ok(w),
        Err(stop) => Err(stop),
    }
}

// (1 - t) u, for a vector u with the new variable.
fn rest_multiple(
    alloc: Global,
    ring: &Ring,
    front: &Ring,
    t: &Mono,
    u: &Vect,
) -> Result<Vect, VectStop>
    requires front { front.now ≡ front_ring ring.now }
    requires variable { IsFrontMonomial ring.now t.now }
    requires vector { IsVectorOver front.now (ring_comparison front.now) u.now }
    ensures vector { (g : FormalSum (suc (variables ring.now))) → IsFrontVector ring.now g u.now
        → IfOk result (IsFrontVector ring.now (g ++ scale (ring.now.modulus.value - 1) (first_variable (variables ring.now)) g)) }
    ensures stop { IfErr result (ScaledStops (ring.now.modulus.value - 1) t.now u.now) }
{
    match Vect::multiple_and_itself(alloc, front, minus_one(ring), t, u) {
        Ok(w) => Ok(w),
        Err(stop) => Err(stop),
    }
}

/// t v for each vector v of the list.
pub(crate) fn variable_multiples(
    alloc: Global,
    ring: &Ring,
    front: &Ring,
    t: &Mono,
    list: &VectList,
) -> Result<VectList, WorkStop>
    requires front { front.now ≡ front_ring ring.now }
    requires variable { IsFrontMonomial ring.now t.now }
    requires vectors { Each (AreTermsOver ring.now) list.now }
    ensures list { let n = variables ring.now in
        IfOk result (AreVectorsFor (front_ring ring.now) (map times_first (sums_of n list.now))) }
    ensures stop { IfErr result (WorkStops (IsFrontTrailOf ring.now (front_polynomial (variables ring.now)) list.now)) }
{
    let moved = all_in_front(alloc, ring, front, list)?;
    let mut multiples = Vec::with_capacity(alloc, moved.len())?;
    for i in 0..moved.len() {
        let w = match variable_multiple(alloc, ring, front, t, &moved.as_slice()[i]) {
            Ok(w) => w,
            Err(stop) => return Err(variable_stop(alloc, ring, front, t, moved, i, stop)),
        };
        multiples.push(w)?;
    }
    Ok(VectList::from_vec(multiples))
}

/// (1 - t) v for each vector v of the list.
pub(crate) fn rest_multiples(
    alloc: Global,
    ring: &Ring,
    front: &Ring,
    t: &Mono,
    list: &VectList,
) -> Result<VectList, WorkStop>
    requires front { front.now ≡ front_ring ring.now }
    requires variable { IsFrontMonomial ring.now t.now }
    requires vectors { Each (AreTermsOver ring.now) list.now }
    ensures list { let n = variables ring.now in
        IfOk result (AreVectorsFor (front_ring ring.now) (map (times_rest ring.now.modulus.value) (sums_of n list.now))) }
    ensures stop { IfErr result (WorkStops (IsFrontTrailOf ring.now (rest_polynomial (variables ring.now) ring.now.modulus.value) list.now)) }
{
    let moved = all_in_front(alloc, ring, front, list)?;
    let mut multiples = Vec::with_capacity(alloc, moved.len())?;
    for i in 0..moved.len() {
        let w = match rest_multiple(alloc, ring, front, t, &moved.as_slice()[i]) {
            Ok(w) => w,
            Err(stop) => return Err(rest_stop(alloc, ring, front, t, moved, i, stop)),
        };
        multiples.push(w)?;
    }
    Ok(VectList::from_vec(multiples))
}
