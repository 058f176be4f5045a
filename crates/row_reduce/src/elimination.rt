// The echelon form of the rows of a matrix, pass after pass.
ghost use Rattle.std.specs.Prelude.{◌≡◌, ◌<◌, ◌++◌, [], ◌∷◌, List, None, ℕ, length, replicate, reverse, slice_set, IfOk, OnOk};
ghost use Rattle.std.specs.List.{range_with_len};
ghost use Rattle.std.specs.List.Sorted.{IsPermutation};
ghost use Rattle.formal_sums.specs.FormalSums.{Each};
ghost use Rattle.bases.specs.Settings.{IsLawful, Setting};
ghost use Rattle.pivot_table.specs.Law.{LeadsFit};
ghost use Rattle.row_laws.specs.Jobs.{IsEchelonForm};
ghost use Rattle.row_matrix.specs.Rows.{Descend, IsRow, RowShown, vectors_of};
ghost use Rattle.dense_reduction.specs.Rests.{rows_left};
ghost use Rattle.dense_reduction.specs.Words.{row_leads_of, named};
ghost use Rattle.row_reduce.specs.Echelons.{AreBetween, AreFrom, IsEchelonOf, IsPassOverSome, with_left, columns_behind};
ghost use Rattle.row_reduce.specs.Passes.{places};

use crate::choosing::choose;
use crate::helpers::{Passed, pass};
use crate::tails::reduced_tails;
use dense_reduction::Left;
use module_vectors::{Key, NoMemory};
use row_matrix::{Matrix, Row};
use std::alloc::Global;
use std::collections::VecDeque;
use std::mem;
use std::thread::Threads;
use worker_gate::SharedGate;
use zp_field::Modulus;

/// Rows in echelon form over the columns of a matrix.
#[derive(Drop)]
pub struct EchelonRows {
    pub columns: Vec<Key>,
    pub rows: Vec<Row>,
}

// The rows between two passes. Each keeps its number until another is left in its place.
#[derive(Drop)]
struct Underway {
    rows: Vec<Row>,
    // The first column of each row.
    leads: Vec<u64>,
    // For each column the row that has it.
    held: Vec<Option<u64>>,
    // The rows that have no column yet.
    pending: Vec<u64>,
}

// The rows, those with fewer entries first.
fn by_weight(rows: Vec<Row>) -> Vec<Row>
    ensures { IsPermutation rows.items result.items }
{
    let mut sorted = rows;
    sorted.sort_unstable_by_key(|row| row.entries().len());
    sorted
}

// Rows of which none has a column yet.
fn begin(alloc: Global, columns: usize, rows: Vec<Row>) -> Result<Underway, NoMemory>
    requires { Each (λ r. 0 < length r.entries) rows.items }
    ensures rows { IfOk result (λ s. s.rows.items ≡ rows.items) }
    ensures leads { IfOk result (λ s. s.leads.items ≡ row_leads_of rows.items) }
    ensures held { IfOk result (λ s. s.held.items ≡ replicate columns None) }
    ensures pending { IfOk result (λ s. s.pending.items ≡ range_with_len 0 (length rows.items)) }
{
    let mut leads = Vec::with_capacity(alloc, rows.len())?;
    let mut pending = Vec::with_capacity(alloc, rows.len())?;
    for row in &rows {
        pending.push_reserved(leads.len() as u64);
        leads.push_reserved(u64::from(row.entries()[0].0));
    }
    let held = vec![in alloc; None; columns]?;
    Ok(Underway {
        rows,
        leads,
        held,
        pending,
    })
}

// Puts a row that was left in its place.
fn put_left(state: &mut Underway, left: Left) -> Result<(), NoMemory>
    requires within { left.number < length state.old.rows.items }
    requires some { 0 < length left.row.entries }
    requires leads { state.old.leads.items ≡ row_leads_of state.old.rows.items }
    ensures rows { OnOk result (state.new.rows.items ≡ slice_set state.old.rows.items left.number left.row) }
    ensures leads { OnOk result (state.new.leads.items ≡ row_leads_of state.new.rows.items) }
    ensures held { state.new.held.items ≡ state.old.held.items }
    ensures pending { OnOk result (state.new.pending.items ≡ state.old.pending.items ++ left.number ∷ []) }
{
    let number = left.number as usize;
    state.leads[number] = u64::from(left.row.entries()[0].0);
    state.pending.push(left.number)?;
    state.rows[number] = left.row;
    Ok(())
}

// The rows after a pass, where these are for later ones.
fn put_all(state: &mut Underway, passed: Passed, later: Vec<u64>) -> Result<(), NoMemory>
    requires within { Each (λ k. k < length state.old.rows.items) (places passed.left.items) }
    requires some { Each (λ r. 0 < length r.entries) (rows_left passed.left.items) }
    requires leads { state.old.leads.items ≡ row_leads_of state.old.rows.items }
    ensures rows { OnOk result (state.new.rows.items ≡ with_left state.old.rows.items passed.left.items) }
    ensures leads { OnOk result (state.new.leads.items ≡ row_leads_of state.new.rows.items) }
    ensures held { OnOk result (state.new.held.items ≡ passed.words.items) }
    ensures pending { OnOk result (state.new.pending.items ≡ places passed.left.items ++ later.items) }
{
    state.held = passed.words;
    state.pending.clear();
    let mut rest = VecDeque::from_vec(passed.left);
    while let Some(left) = rest.pop_front() {
        put_left(state, left)?;
    }
    let mut later = later;
    state.pending.append(&mut later)?;
    Ok(())
}

// One pass over some of the pending rows, and those for later ones.
fn pass_over<R: Threads + Sync>(
    rt: &R,
    alloc: Global,
    modulus: &Modulus,
    inputs: usize,
    state: &Underway,
    helpers: u32,
    thread: usize,
    gate: &SharedGate,
) -> Result<(Passed, Vec<u64>), NoMemory>
    requires some { 0 < length state.now.pending.items }
    requires ready { AreBetween modulus.now.value (length state.now.held.items) inputs
        state.now.rows.items state.now.leads.items state.now.held.items state.now.pending.items }
    ensures { IfOk result (λ p. IsPassOverSome modulus.now.value (length state.now.held.items) inputs
        state.now.rows.items state.now.held.items state.now.pending.items p.0.words.items p.0.left.items p.1.items) }
{
    let chosen = choose(
        alloc,
        &state.rows,
        &state.leads,
        &state.held,
        &state.pending,
        helpers,
        thread,
    )?;
    let passed = pass(
        rt,
        alloc,
        modulus,
        gate,
        &state.rows,
        inputs,
        &state.leads,
        &state.held,
        &chosen.now,
        chosen.free,
        chosen.helpers,
    )?;
    Ok((passed, chosen.later))
}

// One pass over some of the pending rows, and its rows put in their places.
fn run_pass<R: Threads + Sync>(
    rt: &R,
    alloc: Global,
    modulus: &Modulus,
    inputs: usize,
    state: &mut Underway,
    helpers: u32,
    thread: usize,
    gate: &SharedGate,
) -> Result<(), NoMemory>
    requires some { 0 < length state.old.pending.items }
    requires ready { AreBetween modulus.now.value (length state.old.held.items) inputs
        state.old.rows.items state.old.leads.items state.old.held.items state.old.pending.items }
    ensures ready { OnOk result (AreBetween modulus.now.value (length state.old.held.items) inputs
        state.new.rows.items state.new.leads.items state.new.held.items state.new.pending.items) }
    ensures kept { (M : List RowShown) → AreFrom modulus.now.value M state.old.rows.items state.old.held.items state.old.pending.items
        → OnOk result (AreFrom modulus.now.value M state.new.rows.items state.new.held.items state.new.pending.items) }
    ensures less { OnOk result (columns_behind (length state.old.held.items) state.new.rows.items state.new.pending.items
        < columns_behind (length state.old.held.items) state.old.rows.items state.old.pending.items) }
{
    let (passed, later) = pass_over(rt, alloc, modulus, inputs, state, helpers, thread, gate)?;
    put_all(state, passed, later)?;
    Ok(())
}

// Does passes until each row has a column or is gone.
fn run_passes<R: Threads + Sync>(
    rt: &R,
    alloc: Global,
    modulus: &Modulus,
    inputs: usize,
    state: &mut Underway,
    helpers: u32,
    thread: usize,
    gate: &SharedGate,
) -> Result<(), NoMemory>
    requires { AreBetween modulus.now.value (length state.old.held.items) inputs
        state.old.rows.items state.old.leads.items state.old.held.items state.old.pending.items }
    ensures ready { OnOk result (AreBetween modulus.now.value (length state.old.held.items) inputs
        state.new.rows.items state.new.leads.items state.new.held.items state.new.pending.items) }
    ensures kept { (M : List RowShown) → AreFrom modulus.now.value M state.old.rows.items state.old.held.items state.old.pending.items
        → OnOk result (AreFrom modulus.now.value M state.new.rows.items state.new.held.items state.new.pending.items) }
    ensures done { OnOk result (state.new.pending.items ≡ []) }
{
    while state.pending.len() > 0 {
        run_pass(rt, alloc, modulus, inputs, state, helpers, thread, gate)?;
    }
    Ok(())
}

// The rows that have columns, the last column's first.
fn named_rows(alloc: Global, rows: Vec<Row>, held: &[Option<u64>]) -> Result<Vec<Row>, NoMemory>
    requires { LeadsFit (row_leads_of rows.items) held.now }
    ensures { IfOk result (λ found. found.items ≡ reverse (named rows.items held.now)) }
{
    let mut rows = rows;
    let mut found = Vec::with_capacity(alloc, rows.len())?;
    for past in 0..held.len() {
        if let Some(number) = held[held.len() - 1 - past] {
            let none = Row::new(Vec::new(alloc), Vec::new(alloc));
            found.push(mem::replace(&mut rows[number as usize], none))?;
        }
    }
    Ok(found)
}

// The rows of a matrix, reduced.
fn reduce_rows<R: Threads + Sync>(
    rt: &R,
    alloc: Global,
    modulus: &Modulus,
    columns: usize,
    inputs: usize,
    rows: Vec<Row>,
    helpers: u32,
    thread: usize,
    gate: &SharedGate,
) -> Result<Vec<Row>, NoMemory>
    requires { Each (IsRow modulus.now.value columns inputs) rows.items }
    ensures { IfOk result (λ done. IsEchelonOf modulus.now.value columns inputs rows.items done.items) }
{
    let sorted = by_weight(rows);
    let mut state = begin(alloc, columns, sorted)?;
    run_passes(
        rt, alloc, modulus, inputs, &mut state, helpers, thread, gate,
    )?;
    let done = named_rows(alloc, state.rows, &state.held)?;
    Ok(done)
}

/// The echelon form of the rows of the matrix, by passes of so many helpers, one at least (IVA chapter 2, section 1; Faugère 1999,
/// section 2): monic rows whose leads are apart, no more than the matrix has, with the same span, each with the combination of
/// the input rows that it is; the least lead comes first.
///
/// The rows of a pass are shared and read only. A pass has one helper more for each `thread` additions that it makes. Of n helpers
/// number h has the rows h, h + n, and so on. It claims each free column first, for whichever row comes first there, and then the first
/// column of each of its rows, each by one exchange, and with each of its rows it passes the gate at `RowClaimed`. Then it reduces
/// those whose column another row has, by that row and by each other pivot that the helper can read: at each column the row that has
/// it by then, or else one that the helper left itself. What is left has a lower lead, so the passes end. Which of the rows a pass is
/// over `choose` says: where there is work for several helpers, the first row of each free column, those with fewer entries first in
/// the first pass, and a part of the others after another. After the last pass the tail of each row that is a combination of several
/// input rows is reduced by the rows with lower leads, so that little of it is left to divide later; input rows stay as they are.
/// `NoMemory` is the only error; the matrix is gone then.
pub fn echelon<R: Threads + Sync>(
    rt: &R,
    alloc: Global,
    modulus: &Modulus,
    matrix: Matrix,
    helpers: u32,
    thread: usize,
    gate: &SharedGate,
) -> Result<EchelonRows, NoMemory>
    requires rows { Each (IsRow modulus.now.value (length matrix.columns) matrix.inputs) matrix.rows }
    requires helpers { 0 < helpers }
    ensures columns { IfOk result (λ e. e.columns.items ≡ matrix.columns) }
    ensures rows { IfOk result (λ e. IsEchelonOf modulus.now.value (length matrix.columns) matrix.inputs matrix.rows e.rows.items) }
    ensures form { (n : ℕ) (S : Setting n) → IsLawful S → S.modulus ≡ modulus.now.value → Descend n S.compare matrix.columns
        → IfOk result (λ e. IsEchelonForm S (vectors_of n matrix.columns matrix.rows) (vectors_of n e.columns.items e.rows.items)) }
{
    let (columns, inputs, rows) = matrix.into_parts();
    let count = columns.len();
    let done = reduce_rows(
        rt, alloc, modulus, count, inputs, rows, helpers, thread, gate,
    )?;
    let rows = reduced_tails(alloc, modulus, count, inputs, done)?;
    Ok(EchelonRows { columns, rows })
}
