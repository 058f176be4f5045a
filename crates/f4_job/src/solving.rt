// The new rows of a job.
ghost use Rattle.std.specs.Prelude.{◌<◌, ℕ, IfOk};
ghost use Rattle.formal_sums.specs.FormalSums.{Each};
ghost use Rattle.term_lists.specs.Rings.{ring_comparison, setting, variables};
ghost use Rattle.term_lists.specs.Vectors.{AreVectorsOver};
ghost use Rattle.symbolic_prep.specs.Plans.{IsMemberPair};
ghost use Rattle.symbolic_prep.specs.Prepared.{IsMonicVector};
ghost use Rattle.f4_job.specs.Solved.{AreNewRows};

use crate::flags::{flags_of, unflagged_rows};
use crate::stop::MatrixStop;
use crate::tails::{count_needing, pairs_needing};
use module_vectors::{Key, Ring, Vectors};
use monomial_orders::Mono;
use pair_criteria::Pair;
use row_matrix::Row;
use row_reduce::echelon;
use std::alloc::Global;
use std::thread::Threads;
use symbolic_prep::{PrepareStop, prepare};
use worker_gate::SharedGate;

/// Rows over columns that descend, and the products of members of which they are combinations.
#[derive(Drop)]
pub(crate) struct NewRows {
    pub(crate) columns: Vec<Key>,
    pub(crate) rows: Vec<Row>,
    pub(crate) products: Vec<(u64, Mono)>,
}

// The rows of the echelon form of these pairs' matrix, which so many helpers find, whose lead is the lead of no row of the
// matrix (Faugère 1999, section 2).
fn rows_of<R: Threads + Sync, L: Vectors>(
    rt: &R,
    alloc: Global,
    ring: &Ring,
    members: &L,
    pairs: &[Pair],
    helpers: u32,
    thread: usize,
    gate: &SharedGate,
) -> Result<NewRows, MatrixStop>
    requires members { AreVectorsOver ring.now (ring_comparison ring.now) (L.listed members.now) }
    requires monic { Each (IsMonicVector (variables ring.now)) (L.listed members.now) }
    requires pairs { Each (IsMemberPair (variables ring.now) ring.now.weights (L.listed members.now)) pairs.now }
    requires helpers { 0 < helpers }
    ensures { let n = variables ring.now in (rank : ℕ) → IfOk result (λ r. AreNewRows n (setting ring.now n (ring_comparison ring.now n) rank)
        (L.listed members.now) pairs.now r.products.items r.columns.items r.rows.items) }
{
    ring.modulus.domain();
    let prepared = match prepare(alloc, ring, members, pairs) {
        Ok(prepared) => prepared,
        Err(PrepareStop::Memory) => return Err(MatrixStop::Memory),
        Err(PrepareStop::Degree(_)) => return Err(MatrixStop::Degree),
    };
    let flags = flags_of(
        alloc,
        prepared.matrix.columns().len(),
        prepared.matrix.rows(),
    )?;
    let form = echelon(
        rt,
        alloc,
        &ring.modulus,
        prepared.matrix,
        helpers,
        thread,
        gate,
    )?;
    let rows = unflagged_rows(alloc, &flags, form.rows)?;
    Ok(NewRows {
        columns: form.columns,
        rows,
        products: prepared.products,
    })
}

/// Rows that represent these pairs together with the members: those of the matrix of the pairs of which a member has a term
/// behind its lead. The others need none, as their S-vectors are zero; where all are such, no matrix is made.
pub(crate) fn new_rows<R: Threads + Sync, L: Vectors>(
    rt: &R,
    alloc: Global,
    ring: &Ring,
    members: &L,
    pairs: &[Pair],
    helpers: u32,
    thread: usize,
    gate: &SharedGate,
) -> Result<NewRows, MatrixStop>
    requires members { AreVectorsOver ring.now (ring_comparison ring.now) (L.listed members.now) }
    requires monic { Each (IsMonicVector (variables ring.now)) (L.listed members.now) }
    requires pairs { Each (IsMemberPair (variables ring.now) ring.now.weights (L.listed members.now)) pairs.now }
    requires helpers { 0 < helpers }
    ensures { let n = variables ring.now in (rank : ℕ) → IfOk result (λ r. AreNewRows n (setting ring.now n (ring_comparison ring.now n) rank)
        (L.listed members.now) pairs.now r.products.items r.columns.items r.rows.items) }
{
    let count = count_needing(members, pairs);
    if count == 0 {
        return Ok(NewRows {
            columns: Vec::new(alloc),
            rows: Vec::new(alloc),
            products: Vec::new(alloc),
        });
    }
    if count == pairs.len() {
        return rows_of(rt, alloc, ring, members, pairs, helpers, thread, gate);
    }
    let needing = pairs_needing(alloc, members, pairs, count)?;
    rows_of(rt, alloc, ring, members, &needing, helpers, thread, gate)
}
