// Elimination of the first variables.
ghost use Rattle.std.specs.Prelude.{◌≡◌, ◌≤◌, ◌<◌, ◌++◌, ◌∷◌, ◌↔◌, [], List, ℕ, length, IfOk, IfErr, IsTrue, OnOk};
ghost use Rattle.formal_sums.specs.FormalSums.{Each, FormalSum};
ghost use Rattle.monomials.specs.Exponents.{exponents_of, same_exponents, unit};
ghost use Rattle.orders.specs.MonomialOrders.{first_variables};
ghost use Rattle.division_laws.specs.Elimination.{has_none_of_first};
ghost use Rattle.syzygy_laws.specs.Kernels.{all_kept};
ghost use Rattle.operation_laws.specs.Operations.{IsCombinationOfKept, eliminated};
ghost use Rattle.term_lists.specs.Rings.{ring_comparison, variables};
ghost use Rattle.term_lists.specs.Vectors.{AreTermsOver, AreVectorsOver, HasPositions, HasVariables, sum_of, sums_of};
ghost use Rattle.risen_counts.specs.Counts.{RoseAtMost};
ghost use Rattle.groebner_iface.specs.Calls.{CallStops, NoTrail};
ghost use Rattle.syzygy_engine.specs.Answers.{IsBasisOfThose};
ghost use Rattle.syzygy_engine.specs.Runs.{AreVectorsFor};
ghost use Rattle.ideal_ops.specs.GradedOrders.{IsGrevlex};
ghost use Rattle.ideal_ops.specs.Runs.{AreEliminationRuns, elimination_ring};

use crate::sorting::{sorted_list, sorted_vector};
use groebner_iface::{Groebner, OpStop};
use module_vectors::{NoMemory, Ring, Vect, VectList, lawful_setting};
use monomial_orders::{ModOrder, Order};
use risen_counts::counted_times;
use std::alloc::Global;
use std::sync::Wait;
use std::thread::Threads;

/// The ring by an order that eliminates its first k variables, term over position.
pub(crate) fn by_elimination(alloc: Global, ring: &Ring, k: u32) -> Result<Ring, NoMemory>
    ensures { IfOk result (λ r. r ≡ elimination_ring k ring.now) }
{
    Ok(Ring {
        modulus: ring.modulus,
        vars: ring.vars.try_copy(alloc)?,
        order: Order::Elim(k),
        module_order: ModOrder::Top,
        weights: ring.weights.try_copy(alloc)?,
    })
}

// Are the first k exponents 0?
fn has_none(exponents: &[u16], k: usize) -> bool
    ensures { let n = length exponents.now in
        result ≡ same_exponents (first_variables k (exponents_of n exponents.now)) (unit n) }
{
    for i in 0..exponents.len() {
        if i < k && exponents[i] != 0 {
            return false;
        }
    }
    true
}

/// Has the vector, in n variables, none of the first k?
pub fn is_free(v: &Vect, k: usize) -> bool
    ensures { (n : ℕ) → Each (HasVariables n) v.now → result ≡ all_kept (has_none_of_first k) (sum_of n v.now) }
{
    for term in v.terms() {
        if !has_none(term.0.monomial.exponents(), k) {
            return false;
        }
    }
    true
}

/// Does the ring compare vectors of this rank in graded reverse lexicographic order, term over position? At one position both orders
/// of modules are one. An order that eliminates then compares the vectors without its variables as the ring does, and those members of
/// a reduced basis by it need no second run.
pub fn is_grevlex(ring: &Ring, rank: u128) -> bool
    ensures { IsTrue result ↔ IsGrevlex ring.now rank }
{
    match ring.order {
        Order::Grevlex => match ring.module_order {
            ModOrder::Top => true,
            ModOrder::Pot => rank == 1,
        },
        Order::Lex | Order::Elim(_) => false,
    }
}

// Puts the member behind the others if it has none of the first k variables.
fn take_free(
    alloc: Global,
    ring: &Ring,
    v: &Vect,
    k: u32,
    free: &mut Vec<Vect>,
) -> Result<(), NoMemory>
    requires { AreTermsOver ring.now v.now }
    ensures { (G : List (FormalSum (variables ring.now))) → AreVectorsFor ring.now (eliminated k G) free.old.items
        → OnOk result (AreVectorsFor ring.now (eliminated k (G ++ sum_of (variables ring.now) v.now ∷ [])) free.new.items) }
{
    if !is_free(v, k as usize) {
        return Ok(());
    }
    free.push(sorted_vector(alloc, ring, v)?)?;
    Ok(())
}

/// The members of the basis that have none of the first k variables, in the ring's own order.
pub(crate) fn free_members(
    alloc: Global,
    ring: &Ring,
    basis: &VectList,
    k: u32,
) -> Result<VectList, NoMemory>
    requires { Each (AreTermsOver ring.now) basis.now }
    ensures { IfOk result (AreVectorsFor ring.now (eliminated k (sums_of (variables ring.now) basis.now))) }
{
    let mut free = Vec::new(alloc);
    for v in basis.as_slice() {
        take_free(alloc, ring, v, k, &mut free)?;
    }
    Ok(VectList::from_vec(free))
}

/// The reduced basis of the combinations of the members without the first k variables (IVA chapter 3, section 1): a run by
/// an order that eliminates them, term over position, and, where the ring's own order is not graded reverse lexicographic,
/// term over position, one in that on the members of its basis that have none of them.
///
/// `Pairs` and `Degree` are those of one of the runs, which the engine counted and kept; `Memory` where there is none;
/// `Trail` never.
pub fn eliminate<R: Threads + Wait + Sync, B: Groebner>(
    rt: &R,
    alloc: Global,
    engine: &mut B,
    ring: &Ring,
    rank: u128,
    list: &VectList,
    k: u32,
) -> Result<VectList, OpStop>
    requires vectors { AreVectorsOver ring.now (ring_comparison ring.now) list.now }
    requires positions { Each (HasPositions rank) list.now }
    ensures basis { let n = variables ring.now in IfOk result
        (IsBasisOfThose ring.now rank (IsCombinationOfKept ring.now.modulus.value (has_none_of_first k) (sums_of n list.now))) }
    ensures same { OnOk result ((B.stops engine.new ≡ B.stops engine.old) × (B.stopped engine.new ≡ B.stopped engine.old)) }
    ensures stop { IfErr result (CallStops (AreEliminationRuns k ring.now rank list.now) NoTrail
        (B.stops engine.old) (B.stops engine.new) (B.stopped engine.old) (B.stopped engine.new)) }
    ensures later { B.stops engine.old ≤ B.stops engine.new }
    ensures runs { RoseAtMost 2 (B.runs engine.old) (B.runs engine.new) }
    ensures settings { B.settings engine.new ≡ B.settings engine.old }
{
    counted_times();
    lawful_setting(ring);
    let eliminating = by_elimination(alloc, ring, k)?;
    let sorted = sorted_list(alloc, &eliminating, list)?;
    let basis = match engine.reduced(rt, alloc, &eliminating, rank, &sorted) {
        Ok(basis) => basis,
        Err(stop) => return Err(OpStop::from(stop)),
    };
    let free = free_members(alloc, ring, &basis, k)?;
    if is_grevlex(ring, rank) {
        return Ok(free);
    }
    match engine.reduced(rt, alloc, ring, rank, &free) {
        Ok(answer) => Ok(answer),
        Err(stop) => Err(OpStop::from(stop)),
    }
}
