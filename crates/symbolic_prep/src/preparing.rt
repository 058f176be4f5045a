// The matrix of a job.
ghost use Rattle.std.specs.Prelude.{◌≡◌, ◌<◌, ◌*◌, ◌-◌, List, ℕ, length, get_or, IfOk, IfErr};
ghost use Rattle.formal_sums.specs.FormalSums.{Each};
ghost use Rattle.term_lists.specs.Rings.{ring_comparison, setting, variables};
ghost use Rattle.term_lists.specs.Vectors.{AreVectorsOver};
ghost use Rattle.term_lists.specs.declared.key.Key.{Key as KeyValue};
ghost use Rattle.pair_criteria.specs.declared.pair.Pair.{Pair as PairValue};
ghost use Rattle.symbolic_prep.specs.Counts.{IsSparse};
ghost use Rattle.symbolic_prep.specs.Plans.{HasPairProducts, IsMemberPair, IsPlan, AreClosed};
ghost use Rattle.symbolic_prep.specs.Prepared.{IsMonicVector, IsPrepared};
ghost use Rattle.pair_criteria.specs.Traces.{AreTraced};
ghost use Rattle.symbolic_prep.specs.Traces.{PlanStops, PrepareStops};

use crate::hashes::no_hashes;
use crate::pairs::add_pairs;
use crate::plan::Plan;
use crate::reducers::close_plan;
use crate::stop::{GreatProduct, PlanStop, PrepareStop};
use module_vectors::{NoMemory, Ring, Vectors};
use monomial_orders::Mono;
use pair_criteria::Pair;
use row_matrix::{KeyTable, Matrix, TermHashes, place_matrix};
use std::alloc::Global;

/// The matrix of a job, and the product (k, t) of member k and monomial t that each of its rows is.
#[derive(Drop)]
pub struct Prepared {
    pub matrix: Matrix,
    pub products: Vec<(u64, Mono)>,
}

// No rows, with these hashes, and room for as many rows as so many pairs mostly need: two products each, and as many reducers.
fn start_plan(alloc: Global, hashes: Vec<TermHashes>, pairs: usize) -> Result<Plan, NoMemory>
    ensures hashes { IfOk result (λ plan. plan.hashes.items ≡ hashes.items) }
    ensures plan { (n : ℕ) (ws : List ℕ) (list : List (List (KeyValue × ℕ)))
        → IfOk result (λ plan. IsPlan n ws list plan.keys plan.rows.items plan.products.items plan.led.items) }
    ensures none { IfOk result (λ plan. length plan.products.items ≡ 0) }
    ensures no_rows { IfOk result (λ plan. length plan.rows.items ≡ 0) }
{
    let room = pairs.saturating_mul(4);
    Ok(Plan {
        keys: KeyTable::new(alloc)?,
        rows: Vec::with_capacity(alloc, room)?,
        products: Vec::with_capacity(alloc, room)?,
        led: Vec::with_capacity(alloc, room)?,
        hashes,
    })
}

// The stop with the products that lead to it.
fn stop_of(plan: Plan, stop: PlanStop) -> PrepareStop
    ensures { (n : ℕ) (ws : List ℕ) (list : List (List (KeyValue × ℕ))) (pairs : List PairValue)
        → PlanStops n ws list pairs plan.products.items stop → PrepareStops n ws list pairs result }
{
    let Plan { products, .. } = plan;
    match stop {
        PlanStop::Memory => PrepareStop::Memory,
        PlanStop::Degree(last) => PrepareStop::Degree(GreatProduct { products, last }),
    }
}

// The matrix of a plan that is closed.
fn matrix_of<L: Vectors>(
    alloc: Global,
    ring: &Ring,
    _members: &L,
    _pairs: &[Pair],
    plan: Plan,
) -> Result<Prepared, NoMemory>
    requires members { AreVectorsOver ring.now (ring_comparison ring.now) (L.listed _members.now) }
    requires monic { Each (IsMonicVector (variables ring.now)) (L.listed _members.now) }
    requires pairs { Each (IsMemberPair (variables ring.now) ring.now.weights (L.listed _members.now)) _pairs.now }
    requires plan { IsPlan (variables ring.now) ring.now.weights (L.listed _members.now) plan.keys plan.rows.items plan.products.items plan.led.items }
    requires closed { AreClosed (variables ring.now) (L.listed _members.now) plan.keys plan.led.items (length plan.keys) }
    requires products { Each (HasPairProducts (variables ring.now) (L.listed _members.now) plan.products.items) _pairs.now }
    requires traced { AreTraced (variables ring.now) (L.listed _members.now) _pairs.now plan.products.items }
    requires few { 0 < length _pairs.now → (chosen : List ℕ) × IsSparse plan.rows.items chosen (2 * length _pairs.now - 1) }
    ensures { let n = variables ring.now in (rank : ℕ) → IfOk result (λ r. IsPrepared n (setting ring.now n (ring_comparison ring.now n) rank)
        (L.listed _members.now) _pairs.now r.matrix r.products.items) }
{
    ring.modulus.domain();
    let Plan {
        keys,
        rows,
        products,
        led: _,
        hashes: _,
    } = plan;
    let count = rows.len();
    let columns = keys.into_keys();
    let matrix = place_matrix(alloc, ring, &columns, count, rows)?;
    Ok(Prepared { matrix, products })
}

/// The matrix of these pairs of members: both products of each pair's S-vector, and for each monomial met that a member's
/// lead divides one product with that lead. Its columns are the monomials met (Faugère 1999, section 2).
///
/// The members are monic vectors of the ring, and each pair is of two of them with leads at one position. `Degree` comes
/// with products that lead from a pair to one of degree above 65,535.
pub fn prepare<L: Vectors>(
    alloc: Global,
    ring: &Ring,
    members: &L,
    pairs: &[Pair],
) -> Result<Prepared, PrepareStop>
    requires members { AreVectorsOver ring.now (ring_comparison ring.now) (L.listed members.now) }
    requires monic { Each (IsMonicVector (variables ring.now)) (L.listed members.now) }
    requires pairs { Each (IsMemberPair (variables ring.now) ring.now.weights (L.listed members.now)) pairs.now }
    ensures prepared { let n = variables ring.now in (rank : ℕ) → IfOk result (λ r. IsPrepared n (setting ring.now n (ring_comparison ring.now n) rank)
        (L.listed members.now) pairs.now r.matrix r.products.items) }
    ensures stop { IfErr result (PrepareStops (variables ring.now) ring.now.weights (L.listed members.now) pairs.now) }
{
    let hashes = no_hashes(alloc, members)?;
    let mut plan = start_plan(alloc, hashes, pairs.len())?;
    if let Err(stop) = add_pairs(alloc, ring, members, pairs, &mut plan) {
        return Err(stop_of(plan, stop));
    }
    if let Err(stop) = close_plan(alloc, ring, members, pairs, &mut plan) {
        return Err(stop_of(plan, stop));
    }
    Ok(matrix_of(alloc, ring, members, pairs, plan)?)
}
