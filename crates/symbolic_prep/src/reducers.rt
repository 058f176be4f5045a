// For each key that a member's lead divides a product with that lead.
ghost use Rattle.std.specs.Prelude.{◌≡◌, ◌<◌, ◌≤◌, ◌+◌, ◌⊎◌, List, [], ℕ, Bool, false, true, length, get_or, IfOk, IfErr, OnOk};
ghost use Rattle.term_lists.specs.Rings.{variables};
ghost use Rattle.term_lists.specs.Vectors.{key_of, sums_of};
ghost use Rattle.vector_division.specs.Divisions.{IsUncovered};
ghost use Rattle.row_matrix.specs.Rows.{column_key};
ghost use Rattle.vector_division.specs.Progress.{AreWeighed, IsFound};
ghost use Rattle.symbolic_prep.specs.Counts.{IsSparse};
ghost use Rattle.symbolic_prep.specs.Divisors.{AreSortedDivisors};
ghost use Rattle.symbolic_prep.specs.Hashed.{AreHashed};
ghost use Rattle.symbolic_prep.specs.Plans.{AreClosed, IsLaterPlan, IsPlan};
ghost use Rattle.pair_criteria.specs.Traces.{AreTraced};
ghost use Rattle.symbolic_prep.specs.Traces.{PlanStops};

use crate::divisors::{Divisors, divisors_of, find_divisor};
use crate::plan::{Plan, add_product};
use crate::stop::PlanStop;
use module_vectors::{Ring, Vectors};
use pair_criteria::Pair;
use std::alloc::Global;

// A product with the lead of this key, unless a row has it or no member's lead divides it.
fn add_reducer<L: Vectors>(
    alloc: Global,
    ring: &Ring,
    members: &L,
    _pairs: &[Pair],
    divisors: &Divisors,
    plan: &mut Plan,
    cursor: usize,
) -> Result<(), PlanStop>
    requires within { cursor < length plan.old.keys }
    requires weighed { AreWeighed (variables ring.now) ring.now.weights (L.listed members.now) }
    requires divisors { AreSortedDivisors (L.listed members.now) divisors.now.sorted.items divisors.now.bits.items divisors.now.least.items }
    requires plan { IsPlan (variables ring.now) ring.now.weights (L.listed members.now)
        plan.old.keys plan.old.rows.items plan.old.products.items plan.old.led.items }
    requires traced { AreTraced (variables ring.now) (L.listed members.now) _pairs.now plan.old.products.items }
    requires hashed { AreHashed (L.listed members.now) plan.old.hashes.items }
    ensures hashed { OnOk result (AreHashed (L.listed members.now) plan.new.hashes.items) }
    ensures later { OnOk result (IsLaterPlan (variables ring.now) ring.now.weights (L.listed members.now)
        plan.old.keys plan.old.products.items plan.old.led.items
        plan.new.keys plan.new.rows.items plan.new.products.items plan.new.led.items) }
    ensures closed { OnOk result ((get_or plan.new.led.items cursor false ≡ true)
        ⊎ IsUncovered (sums_of (variables ring.now) (L.listed members.now)) (column_key (variables ring.now) plan.old.keys cursor)) }
    ensures traced { OnOk result (AreTraced (variables ring.now) (L.listed members.now) _pairs.now plan.new.products.items) }
    ensures sparse { (chosen : List ℕ) (others : ℕ) → IsSparse plan.old.rows.items chosen others
        → OnOk result ((more : List ℕ) × IsSparse plan.new.rows.items more others) }
    ensures stop { IfErr result (PlanStops (variables ring.now) ring.now.weights (L.listed members.now) _pairs.now plan.new.products.items) }
{
    if cursor < plan.led.len() {
        if plan.led[cursor] {
            return Ok(());
        }
    }
    let keys = plan.keys.keys();
    let found = find_divisor(alloc, ring, &keys[cursor], members, divisors)?;
    match found {
        None => Ok(()),
        Some((member, t)) => match add_product(alloc, ring, members, plan, member as u64, t) {
            Ok(()) => {
                let _keys = plan.keys.keys();
                Ok(())
            }
            Err(stop) => Err(stop),
        },
    }
}

/// Puts a reducer behind the other rows for each key that a member's lead divides and no row leads with, those of the
/// reducers included.
pub(crate) fn close_plan<L: Vectors>(
    alloc: Global,
    ring: &Ring,
    members: &L,
    pairs: &[Pair],
    plan: &mut Plan,
) -> Result<(), PlanStop>
    requires weighed { AreWeighed (variables ring.now) ring.now.weights (L.listed members.now) }
    requires plan { IsPlan (variables ring.now) ring.now.weights (L.listed members.now)
        plan.old.keys plan.old.rows.items plan.old.products.items plan.old.led.items }
    requires traced { AreTraced (variables ring.now) (L.listed members.now) pairs.now plan.old.products.items }
    requires hashed { AreHashed (L.listed members.now) plan.old.hashes.items }
    ensures hashed { OnOk result (AreHashed (L.listed members.now) plan.new.hashes.items) }
    ensures later { OnOk result (IsLaterPlan (variables ring.now) ring.now.weights (L.listed members.now)
        plan.old.keys plan.old.products.items plan.old.led.items
        plan.new.keys plan.new.rows.items plan.new.products.items plan.new.led.items) }
    ensures closed { OnOk result (AreClosed (variables ring.now) (L.listed members.now) plan.new.keys plan.new.led.items (length plan.new.keys)) }
    ensures traced { OnOk result (AreTraced (variables ring.now) (L.listed members.now) pairs.now plan.new.products.items) }
    ensures sparse { (chosen : List ℕ) (others : ℕ) → IsSparse plan.old.rows.items chosen others
        → OnOk result ((more : List ℕ) × IsSparse plan.new.rows.items more others) }
    ensures stop { IfErr result (PlanStops (variables ring.now) ring.now.weights (L.listed members.now) pairs.now plan.new.products.items) }
{
    let divisors = divisors_of(alloc, members)?;
    for cursor in 0..usize::MAX {
        if plan.keys.len() <= cursor {
            return Ok(());
        }
        match add_reducer(alloc, ring, members, pairs, &divisors, plan, cursor) {
            Ok(()) => {}
            Err(stop) => return Err(stop),
        }
    }
    let _count = plan.keys.len();
    Ok(())
}
