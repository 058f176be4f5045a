// The lift of a vector to a list.
ghost use Rattle.std.specs.Prelude.{◌≡◌, ◌<◌, ◌≤◌, ◌++◌, IfOk, IfErr, IfNone, IfSome, OnOk, length};
ghost use Rattle.formal_sums.specs.FormalSums.{Each, FormalSum, HasRank};
ghost use Rattle.formal_sums.specs.Combinations.{IsMember, combination};
ghost use Rattle.term_lists.specs.Rings.{ring_comparison, variables};
ghost use Rattle.term_lists.specs.Vectors.{AreVectorsOver, HasPositions, IsVectorOver, StandsFor, sum_of, sums_of};
ghost use Rattle.vector_division.specs.Divisions.{DivisionStops, IsFreeOfLeads};
ghost use Rattle.risen_counts.specs.Counts.{RoseAtMost};
ghost use Rattle.groebner_iface.specs.Calls.{CallStops};
ghost use Rattle.syzygy_engine.specs.Lifts.{IsLiftOf, IsLiftTrail, RestStops};
ghost use Rattle.syzygy_engine.specs.Marking.{IsMarkedRun, position_ring};

use crate::lowering::{is_from, lowered_vector};
use crate::marked_runs::marked_basis;
use crate::marking::first_mark;
use groebner_iface::{Groebner, OpStop};
use module_vectors::{Ring, Vect, VectList, WorkStop, lawful_setting};
use monomial_orders::ModOrder;
use risen_counts::counted_times;
use std::alloc::Global;
use std::sync::Wait;
use std::thread::Threads;
use vector_division::{Reduction, divisors_from_last, reduce_by};

// What was left.
fn rest_of(reduction: Reduction) -> Vect
    ensures { result ≡ reduction.rest }
{
    reduction.rest
}

// What a division of u by the list leaves, where the last of its vectors are tried first.
fn rest_after(alloc: Global, ring: &Ring, u: &Vect, list: &VectList) -> Result<Vect, WorkStop>
    requires vector { IsVectorOver ring.now (ring_comparison ring.now) u.now }
    requires list { AreVectorsOver ring.now (ring_comparison ring.now) list.now }
    ensures rest { IfOk result (IsVectorOver ring.now (ring_comparison ring.now)) }
    ensures sum { let n = variables ring.now in IfOk result (λ rest. (a : FormalSum (variables ring.now)) × HasRank (length list.now) a
        × StandsFor ring.now u.now (combination (sums_of n list.now) a ++ sum_of n rest)) }
    ensures reduced { let n = variables ring.now in IfOk result (λ rest. IsFreeOfLeads (sums_of n list.now) (sum_of n rest)) }
    ensures stop { IfErr result (DivisionStops ring.now u.now list.now) }
{
    let divisors = divisors_from_last(alloc, list)?;
    match reduce_by(alloc, ring, u, list, &divisors) {
        Ok(reduction) => Ok(rest_of(reduction)),
        Err(stop) => Err(stop),
    }
}

// What a division of v by the list leaves, where v comes in another order.
fn rest_of_copy(
    alloc: Global,
    ring: &Ring,
    by_position: &Ring,
    v: &Vect,
    list: &VectList,
) -> Result<Vect, WorkStop>
    requires by_position { by_position.now ≡ position_ring ring.now }
    requires vector { IsVectorOver ring.now (ring_comparison ring.now) v.now }
    requires list { AreVectorsOver (position_ring ring.now) (ring_comparison (position_ring ring.now)) list.now }
    ensures rest { IfOk result (IsVectorOver (position_ring ring.now) (ring_comparison (position_ring ring.now))) }
    ensures sum { let n = variables ring.now in IfOk result (λ rest. (a : FormalSum (variables ring.now)) × HasRank (length list.now) a
        × StandsFor ring.now v.now (combination (sums_of n list.now) a ++ sum_of n rest)) }
    ensures reduced { let n = variables ring.now in IfOk result (λ rest. IsFreeOfLeads (sums_of n list.now) (sum_of n rest)) }
    ensures stop { IfErr result (RestStops ring.now v.now list.now) }
{
    let u = Vect::from_terms(alloc, by_position, v.try_copy(alloc)?.into_terms())?;
    match rest_after(alloc, by_position, &u, list) {
        Ok(rest) => Ok(rest),
        Err(stop) => Err(stop),
    }
}

// What a division of v by the list leaves, position over term.
fn rest_by_position(
    alloc: Global,
    ring: &Ring,
    by_position: &Ring,
    v: &Vect,
    list: &VectList,
) -> Result<Vect, WorkStop>
    requires by_position { by_position.now ≡ position_ring ring.now }
    requires vector { IsVectorOver ring.now (ring_comparison ring.now) v.now }
    requires list { AreVectorsOver (position_ring ring.now) (ring_comparison (position_ring ring.now)) list.now }
    ensures rest { IfOk result (IsVectorOver (position_ring ring.now) (ring_comparison (position_ring ring.now))) }
    ensures sum { let n = variables ring.now in IfOk result (λ rest. (a : FormalSum (variables ring.now)) × HasRank (length list.now) a
        × StandsFor ring.now v.now (combination (sums_of n list.now) a ++ sum_of n rest)) }
    ensures reduced { let n = variables ring.now in IfOk result (λ rest. IsFreeOfLeads (sums_of n list.now) (sum_of n rest)) }
    ensures stop { IfErr result (RestStops ring.now v.now list.now) }
{
    match ring.module_order {
        ModOrder::Pot => match rest_after(alloc, by_position, v, list) {
            Ok(rest) => Ok(rest),
            Err(stop) => Err(stop),
        },
        ModOrder::Top => rest_of_copy(alloc, ring, by_position, v, list),
    }
}

/// The lift of `v` to the list, vectors of this rank: the one list of cofactors by which `v` is the combination of the list,
/// and of which no lead of the reduced basis of the syzygies, position over term, divides a key (`one_lift`). The component
/// at position i is the cofactor of member i. `None` exactly where `v` is not in the module of the list (UAG chapter 5,
/// section 3).
///
/// `Pairs` and `Degree` are those of the run, which the engine counted and kept; `Trail` comes with a trail of the division
/// of `v` by the run's basis; `Memory` where there is none.
pub fn lift<R: Threads + Wait + Sync, B: Groebner>(
    rt: &R,
    alloc: Global,
    engine: &mut B,
    ring: &Ring,
    rank: u128,
    list: &VectList,
    v: &Vect,
) -> Result<Option<Vect>, OpStop>
    requires vectors { AreVectorsOver ring.now (ring_comparison ring.now) list.now }
    requires positions { Each (HasPositions rank) list.now }
    requires vector { IsVectorOver ring.now (ring_comparison ring.now) v.now }
    requires vector_positions { HasPositions rank v.now }
    requires room { rank < 9223372036854775808 }
    ensures lift { IfOk result (λ answer. IfSome answer (IsLiftOf ring.now list.now v.now)) }
    ensures cofactors { IfOk result (λ answer. IfSome answer (IsVectorOver ring.now (ring_comparison ring.now))) }
    ensures positions { IfOk result (λ answer. IfSome answer (HasPositions (length list.now))) }
    ensures none { let n = variables ring.now in
        IfOk result (λ answer. IfNone answer (IsMember ring.now.modulus.value (sums_of n list.now) (sum_of n v.now) → ⊥)) }
    ensures same { OnOk result ((B.stops engine.new ≡ B.stops engine.old) × (B.stopped engine.new ≡ B.stopped engine.old)) }
    ensures stop { IfErr result (CallStops (IsMarkedRun ring.now rank list.now) (IsLiftTrail ring.now rank list.now v.now)
        (B.stops engine.old) (B.stops engine.new) (B.stopped engine.old) (B.stopped engine.new)) }
    ensures later { B.stops engine.old ≤ B.stops engine.new }
    ensures runs { RoseAtMost 1 (B.runs engine.old) (B.runs engine.new) }
    ensures settings { B.settings engine.new ≡ B.settings engine.old }
{
    counted_times();
    lawful_setting(ring);
    let (by_position, basis) = marked_basis(rt, alloc, engine, ring, rank, list)?;
    let rest = match rest_by_position(alloc, ring, &by_position, v, &basis) {
        Ok(rest) => rest,
        Err(stop) => return Err(OpStop::from(stop)),
    };
    let mark = first_mark(rank);
    if !is_from(&rest, mark) {
        return Ok(None);
    }
    let mut cofactors = lowered_vector(alloc, ring, rest, mark)?;
    cofactors.scale(ring, ring.modulus.neg(1));
    Ok(Some(cofactors))
}
