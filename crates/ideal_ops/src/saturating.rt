// The saturation of a module by a polynomial.
ghost use Rattle.std.specs.Prelude.{◌≡◌, ◌≤◌, ◌<◌, ◌-◌, ◌++◌, ◌∷◌, [], IfOk, IfErr, OnOk, suc};
ghost use Rattle.formal_sums.specs.FormalSums.{Each, FormalSum, IsOfRank, scale};
ghost use Rattle.operation_laws.specs.Operations.{IsInSaturation, basis_vector, first_variable, inverse_vector, listed, saturation_list, with_first};
ghost use Rattle.term_lists.specs.FrontVariables.{front_ring};
ghost use Rattle.term_lists.specs.Stops.{ScaledStops};
ghost use Rattle.term_lists.specs.Rings.{ring_comparison, variables};
ghost use Rattle.term_lists.specs.Vectors.{AreTermsOver, AreVectorsOver, HasPositions, IsVectorOver, StandsFor, sum_of, sums_of};
ghost use Rattle.risen_counts.specs.Counts.{RoseAtMost};
ghost use Rattle.groebner_iface.specs.Calls.{CallStops};
ghost use Rattle.syzygy_engine.specs.Answers.{IsBasisOfThose};
ghost use Rattle.syzygy_engine.specs.Runs.{AreVectorsFor};
ghost use Rattle.ideal_ops.specs.Components.{positioned_at};
ghost use Rattle.ideal_ops.specs.FrontSteps.{IsFrontMonomial};
ghost use Rattle.ideal_ops.specs.FrontVariable.{AreSaturationRuns, IsFrontTrail, IsFrontVector, IsTrailOfSaturation, front_polynomial};
ghost use Rattle.ideal_ops.specs.Products.{WorkStops};

use crate::back::basis_back;
use crate::front::{all_in_front, in_front, minus_one, product_stop, variable, variable_vector};
use crate::quotients::placed_terms;
use groebner_iface::{Groebner, OpStop};
use module_vectors::{Key, NoMemory, Ring, Vect, VectList, VectStop, WorkStop, lawful_setting};
use monomial_orders::Mono;
use risen_counts::counted_times;
use std::alloc::Global;
use std::sync::Wait;
use std::thread::Threads;
use syzygy_engine::{first_mark, followed};

// The stop of t u for a polynomial u, as that of u times t, with its trail.
fn turned_stop(
    alloc: Global,
    ring: &Ring,
    front: &Ring,
    t: &Mono,
    u: &Vect,
    stop: VectStop,
) -> WorkStop
    requires front { front.now ≡ front_ring ring.now }
    requires variable { IsFrontMonomial ring.now t.now }
    requires u { IsVectorOver front.now (ring_comparison front.now) u.now }
    requires u_positions { HasPositions 1 u.now }
    requires stop { ScaledStops (ring.now.modulus.value - 1) t.now u.now stop }
    ensures { (g : FormalSum (suc (variables ring.now))) → IsFrontVector ring.now g u.now
        → WorkStops (IsFrontTrail ring.now g (front_polynomial (variables ring.now) ∷ []) 0) result }
{
    match stop {
        VectStop::Memory => WorkStop::Memory,
        VectStop::Degree(a, b) => match variable_vector(alloc, front, t) {
            Ok(one) => product_stop(alloc, front, u, one, VectStop::Degree(b, a)),
            Err(_none) => WorkStop::Memory,
        },
    }
}

// -t f, for a polynomial f of the ring.
fn negative_multiple(
    alloc: Global,
    ring: &Ring,
    front: &Ring,
    t: &Mono,
    f: &Vect,
) -> Result<Vect, WorkStop>
    requires front { front.now ≡ front_ring ring.now }
    requires variable { IsFrontMonomial ring.now t.now }
    requires f { AreTermsOver ring.now f.now }
    requires f_positions { HasPositions 1 f.now }
    ensures vector { let n = variables ring.now in IfOk result
        (IsFrontVector ring.now (scale (ring.now.modulus.value - 1) (first_variable n) (with_first (sum_of n f.now)))) }
    ensures stop { let n = variables ring.now in
        IfErr result (WorkStops (IsFrontTrail ring.now (with_first (sum_of n f.now)) (front_polynomial n ∷ []) 0)) }
{
    lawful_setting(ring);
    let u = in_front(alloc, ring, front, f)?;
    match Vect::scaled(alloc, front, minus_one(ring), t, &u) {
        Ok(w) => Ok(w),
        Err(stop) => Err(turned_stop(alloc, ring, front, t, &u, stop)),
    }
}

// The terms of w, each at this position, and behind them 1 there.
fn inverse_terms(
    alloc: Global,
    front: &Ring,
    w: &Vect,
    position: u64,
) -> Result<Vec<(Key, u32)>, NoMemory>
    requires { AreTermsOver front.now w.now }
    ensures terms { IfOk result (λ terms. AreTermsOver front.now terms.items) }
    ensures sum { let n = variables front.now in
        IfOk result (λ terms. sum_of n terms.items ≡ sum_of n (positioned_at position w.now) ++ basis_vector position) }
{
    front.modulus.domain();
    let mut terms = placed_terms(alloc, w, position)?;
    let key = Key {
        position,
        monomial: Mono::unit(alloc, front.vars.len())?,
    };
    terms.push((key, 1))?;
    Ok(terms)
}

// (1 - t f) e_j for the position j, where w is -t f.
fn inverse_at(
    alloc: Global,
    ring: &Ring,
    front: &Ring,
    w: &Vect,
    position: u64,
) -> Result<Vect, NoMemory>
    requires front { front.now ≡ front_ring ring.now }
    requires w { AreTermsOver (front_ring ring.now) w.now }
    ensures { (f : FormalSum (variables ring.now))
        → StandsFor (front_ring ring.now) w.now (scale (ring.now.modulus.value - 1) (first_variable (variables ring.now)) (with_first f))
        → IfOk result (IsFrontVector ring.now (inverse_vector ring.now.modulus.value f position)) }
{
    ring.modulus.domain();
    let terms = inverse_terms(alloc, front, w, position)?;
    Ok(Vect::from_terms(alloc, front, terms)?)
}

// (1 - t f) e_j for each position j below the rank, where w is -t f.
fn inverses(
    alloc: Global,
    ring: &Ring,
    front: &Ring,
    rank: u64,
    w: &Vect,
) -> Result<VectList, NoMemory>
    requires front { front.now ≡ front_ring ring.now }
    requires w { AreTermsOver (front_ring ring.now) w.now }
    ensures { (f : FormalSum (variables ring.now))
        → StandsFor (front_ring ring.now) w.now (scale (ring.now.modulus.value - 1) (first_variable (variables ring.now)) (with_first f))
        → IfOk result (AreVectorsFor (front_ring ring.now) (listed 0 rank (inverse_vector ring.now.modulus.value f))) }
{
    let mut list = Vec::new(alloc);
    for position in 0..rank {
        list.push(inverse_at(alloc, ring, front, w, position)?)?;
    }
    Ok(VectList::from_vec(list))
}

// The members, in one more variable, and (1 - t f) e_1 to (1 - t f) e_m, where w is -t f.
fn with_inverses(
    alloc: Global,
    ring: &Ring,
    front: &Ring,
    rank: u64,
    list: &VectList,
    w: &Vect,
) -> Result<VectList, NoMemory>
    requires front { front.now ≡ front_ring ring.now }
    requires list { Each (AreTermsOver ring.now) list.now }
    requires w { AreTermsOver (front_ring ring.now) w.now }
    ensures { (f : FormalSum (variables ring.now))
        → StandsFor (front_ring ring.now) w.now (scale (ring.now.modulus.value - 1) (first_variable (variables ring.now)) (with_first f))
        → IfOk result (AreVectorsFor (front_ring ring.now)
        (saturation_list ring.now.modulus.value rank f (sums_of (variables ring.now) list.now))) }
{
    let first = all_in_front(alloc, ring, front, list)?;
    let second = inverses(alloc, ring, front, rank, w)?;
    followed(first, second)
}

// The members, in one more variable, and (1 - t f) e_1 to (1 - t f) e_m.
fn saturating_list(
    alloc: Global,
    ring: &Ring,
    front: &Ring,
    rank: u64,
    list: &VectList,
    f: &Vect,
) -> Result<VectList, WorkStop>
    requires front { front.now ≡ front_ring ring.now }
    requires list { Each (AreTermsOver ring.now) list.now }
    requires f { AreTermsOver ring.now f.now }
    requires f_positions { HasPositions 1 f.now }
    ensures list { let n = variables ring.now in IfOk result
        (AreVectorsFor (front_ring ring.now) (saturation_list ring.now.modulus.value rank (sum_of n f.now) (sums_of n list.now))) }
    ensures stop { IfErr result (WorkStops (IsTrailOfSaturation ring.now list.now f.now)) }
{
    let t = variable(alloc, ring, front)?;
    let w = match negative_multiple(alloc, ring, front, &t, f) {
        Ok(w) => w,
        Err(stop) => return Err(stop),
    };
    Ok(with_inverses(alloc, ring, front, rank, list, &w)?)
}

/// The reduced basis of the vectors v of this rank with f^k v in the module of the list for some k of at least 1: a run on
/// the list and (1 - t f) e_1 to (1 - t f) e_m, for a new first variable t, by an order that eliminates it, and, where the
/// ring's own order is not graded reverse lexicographic, term over position, one in that on the members of its basis without
/// t (IVA chapter 4, section 4).
///
/// `Pairs` and `Degree` are those of one of the runs, which the engine counted and kept; `Trail` comes with that of f times
/// t; `Memory` where there is none.
pub fn saturate<R: Threads + Wait + Sync, B: Groebner>(
    rt: &R,
    alloc: Global,
    engine: &mut B,
    ring: &Ring,
    rank: u128,
    list: &VectList,
    f: &Vect,
) -> Result<VectList, OpStop>
    requires vectors { AreVectorsOver ring.now (ring_comparison ring.now) list.now }
    requires positions { Each (HasPositions rank) list.now }
    requires f { IsVectorOver ring.now (ring_comparison ring.now) f.now }
    requires f_positions { HasPositions 1 f.now }
    requires room { rank < 9223372036854775808 }
    ensures basis { let n = variables ring.now in let p = ring.now.modulus.value in IfOk result
        (IsBasisOfThose ring.now rank (λ v. IsOfRank p rank v × IsInSaturation p (sum_of n f.now) (sums_of n list.now) v)) }
    ensures same { OnOk result ((B.stops engine.new ≡ B.stops engine.old) × (B.stopped engine.new ≡ B.stopped engine.old)) }
    ensures stop { IfErr result (CallStops (AreSaturationRuns ring.now rank list.now f.now) (IsTrailOfSaturation ring.now list.now f.now)
        (B.stops engine.old) (B.stops engine.new) (B.stopped engine.old) (B.stopped engine.new)) }
    ensures later { B.stops engine.old ≤ B.stops engine.new }
    ensures runs { RoseAtMost 2 (B.runs engine.old) (B.runs engine.new) }
    ensures settings { B.settings engine.new ≡ B.settings engine.old }
{
    counted_times();
    lawful_setting(ring);
    let front = ring.with_front_variable(alloc)?;
    let end = first_mark(rank);
    let whole = match saturating_list(alloc, ring, &front, end, list, f) {
        Ok(whole) => whole,
        Err(stop) => return Err(OpStop::from(stop)),
    };
    match basis_back(rt, alloc, engine, ring, &front, rank, &whole) {
        Ok(basis) => Ok(basis),
        Err(stop) => Err(stop),
    }
}
