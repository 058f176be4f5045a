// The reduction of up to eight rows together, column after column: a pivot is read once and added to all.
ghost use Rattle.std.specs.Prelude.{◌≡◌, ◌<◌, ◌≤◌, ◌+◌, ◌++◌, List, [], ◌∷◌, ℕ, drop, get_or, length, IfOk, OnOk};
ghost use Rattle.formal_sums.specs.FormalSums.{Each};
ghost use Rattle.pivot_table.specs.Law.{IsSeatOf, told};
ghost use Rattle.pivot_table.specs.declared.law.Entry.{Entry as Told};
ghost use Rattle.row_matrix.specs.Rows.{IsRow, RowShown, shown_row_at};
ghost use Rattle.dense_reduction.specs.Dense.{HasRoom};
ghost use Rattle.dense_reduction.specs.Eights.{AreAllIdle, AreCleared, AreDense, lane};
ghost use Rattle.dense_reduction.specs.LostRows.{IsLost};
ghost use Rattle.dense_reduction.specs.Pivots.{ArePivots, lead_column};
ghost use Rattle.dense_reduction.specs.Rests.{rows_left};
ghost use Rattle.dense_reduction.specs.Together.{AreOnTheirWay, AreRests, IsAdded, IsOnItsWay, IsRowRestOrGone, lane_left, lane_taken};
ghost use Rattle.dense_reduction.specs.Words.{AreRowsReady, IsToldAfter};
ghost use Rattle.dense_reduction.specs.declared.lefts.Lost.{Lost as LostRow};

use crate::accumulating::first_limit;
use crate::eights::{add_to_all, add_to_one, negate_all, next_column_of_all, take_residues};
use crate::lefts::Lost;
use crate::reduction::{Own, PassShared, left_row, pivot_of, row_numbered};
use module_vectors::NoMemory;
use pivot_table::ClaimSeat;
use row_matrix::{Row, kept_number};
use std::alloc::Global;

/// Up to eight rows on their way. The room serves one eight after another.
pub struct Together {
    /// What is left at the columns that are done: columns and a residue for each of the eight, not all of them 0.
    pub(crate) left: Vec<(u32, [u32; 8])>,
    /// The numbers of all eight for each column from there on, congruent to their residues; 0 at those that are done.
    pub numbers: Vec<[u64; 8]>,
    /// All numbers of rows on their way are below it.
    pub(crate) limit: u64,
    /// The rows that were added, each by its number and a factor for each of the eight.
    pub(crate) taken: Vec<(usize, [u32; 8])>,
}

// By hand, so that each drop of one is a call.
impl Drop for Together {
    fn drop(self) {
        let Together {
            left: _,
            numbers: _,
            limit: _,
            taken: _,
        } = self;
    }
}

/// Room for eight rows of so many columns. `NoMemory` is the only error.
pub fn room_for_eight(alloc: Global, columns: usize) -> Result<Together, NoMemory>
    ensures { IfOk result (λ t. AreAllIdle columns t.numbers.items) }
{
    Ok(Together {
        left: Vec::new(alloc),
        numbers: vec![in alloc; [0; 8]; columns]?,
        limit: 0,
        taken: Vec::new(alloc),
    })
}

// Row `j` of the eight, where its first column is cleared by the row that has it: the tails of both stand in its numbers.
fn start_row(shared: PassShared<'_>, together: &mut Together, j: usize, lost: Lost)
    requires row { j < 8 }
    requires rows { Each (IsRow shared.modulus.now.value (length together.old.numbers.items) shared.inputs) shared.rows.now }
    requires cleared { AreCleared shared.modulus.now.value together.old.limit 0 (length together.old.numbers.items) together.old.numbers.items }
    requires idle { Each (λ a. a ≡ 0) (lane j together.old.numbers.items) }
    requires none { (together.old.left.items ≡ []) × (together.old.taken.items ≡ []) }
    requires lost { (lost.number < length shared.rows.now) × (lost.winner < length shared.rows.now)
        × (lead_column shared.rows.now lost.winner ≡ lead_column shared.rows.now lost.number) }
    ensures cleared { AreCleared shared.entry.modulus.now.value together.new.limit 0 (length together.old.numbers.items) together.new.numbers.items }
    ensures others { (i : ℕ) → i < 8 → (i ≡ j → ⊥) → lane i together.new.numbers.items ≡ lane i together.old.numbers.items }
    ensures none { (together.new.left.items ≡ []) × (together.new.taken.items ≡ []) × (together.new.limit ≡ together.old.limit) }
    ensures way { (own : List RowShown) (pivots : List ℕ) (known : List Told) → IsLost shared.entry.rows.now known lost
        → IsOnItsWay shared.entry.modulus.now.value together.new.limit 0 (length together.old.numbers.items) shared.entry.rows.now own pivots known
        together.new.left.items together.new.numbers.items together.new.taken.items j lost }
{
    let modulus = shared.modulus;
    modulus.domain();
    let row = &shared.rows[lost.number as usize];
    let winner = &shared.rows[lost.winner as usize];
    let (limit, less) = (together.limit, modulus.neg(1));
    let numbers = together.numbers.as_mut_slice();
    add_to_one(modulus, numbers, j, limit, 1, &row.entries()[1..]);
    add_to_one(modulus, numbers, j, limit, less, &winner.entries()[1..]);
}

// The eight rows where their first columns are cleared.
fn start_rows(shared: PassShared<'_>, together: &mut Together, lost: &[Lost])
    requires few { length lost.now ≤ 8 }
    requires rows { Each (IsRow shared.modulus.now.value (length together.old.numbers.items) shared.inputs) shared.rows.now }
    requires idle { AreAllIdle (length together.old.numbers.items) together.old.numbers.items }
    requires lost { Each (λ l. (l.number < length shared.rows.now) × (l.winner < length shared.rows.now)
        × (lead_column shared.rows.now l.winner ≡ lead_column shared.rows.now l.number)) lost.now }
    ensures cleared { AreCleared shared.entry.modulus.now.value together.new.limit 0 (length together.old.numbers.items) together.new.numbers.items }
    ensures way { (own : List RowShown) (pivots : List ℕ) (known : List Told) → Each (IsLost shared.entry.rows.now known) lost.now
        → AreOnTheirWay shared.entry.modulus.now.value together.new.limit 0 (length together.old.numbers.items) shared.entry.rows.now own pivots known
        together.new.left.items together.new.numbers.items together.new.taken.items 0 lost.now }
{
    shared.modulus.domain();
    together.left.clear();
    together.taken.clear();
    together.limit = first_limit(shared.modulus);
    for j in 0..lost.len() {
        start_row(shared, together, j, lost[j]);
    }
}

// Adds a pivot to all eight rows behind its first column, so that these residues there are cleared.
fn add_pivot_to_all(
    shared: PassShared<'_>,
    own: &Own,
    together: &mut Together,
    pivot: usize,
    residues: &[u32; 8],
) -> Result<(), NoMemory>
    requires known { pivot < length (shared.rows.now ++ rows_left own.now.left.items) }
    requires rows { Each (IsRow shared.modulus.now.value (length together.old.numbers.items) shared.inputs) (shared.rows.now ++ rows_left own.now.left.items) }
    requires residues { (j : ℕ) → j < 8 → get_or residues.now j 0 < shared.modulus.now.value }
    requires room { HasRoom shared.modulus.now.value together.old.limit }
    requires small { AreDense together.old.limit together.old.numbers.items }
    ensures added { OnOk result ((factors : List ℕ) × (together.new.taken.items ≡ together.old.taken.items ++ (pivot, factors) ∷ [])
        × ((j : ℕ) → j < 8 → IsAdded shared.entry.modulus.now.value
        (drop 1 (shown_row_at (shared.entry.rows.now ++ rows_left own.now.left.items) pivot).entries) (get_or residues.now j 0) (get_or factors j 0)
        (lane j together.old.numbers.items) (lane j together.new.numbers.items))) }
    ensures count { length together.new.numbers.items ≡ length together.old.numbers.items }
    ensures room { HasRoom shared.entry.modulus.now.value together.new.limit }
    ensures small { AreDense together.new.limit together.new.numbers.items }
    ensures left { together.new.left.items ≡ together.old.left.items }
{
    let row = row_numbered(shared.rows, own.left.as_slice(), pivot);
    let factors = negate_all(shared.modulus, residues);
    let (limit, numbers) = (together.limit, together.numbers.as_mut_slice());
    together.limit = add_to_all(
        shared.modulus,
        numbers,
        limit,
        &factors,
        &row.entries()[1..],
    );
    together.taken.push((pivot, factors))?;
    Ok(())
}

// Clears a column of all eight rows, by its pivot if it has one; else what stands there is left.
fn clear_column_of_all(
    shared: PassShared<'_>,
    seat: &mut ClaimSeat,
    own: &Own,
    together: &mut Together,
    c: u32,
) -> Result<(), NoMemory>
    requires at { c < length own.now.pivots.items }
    requires ready { AreRowsReady shared.modulus.now.value (length own.now.pivots.items) shared.inputs shared.rows.now
        shared.claims.now.rows.leads.items shared.claims.now.rows.held.items }
    requires own { ArePivots shared.modulus.now.value (length own.now.pivots.items) shared.inputs (rows_left own.now.left.items) own.now.pivots.items }
    requires seat { IsSeatOf shared.claims.now.table.shared.table_id shared.claims.now.rows.leads.items seat.old }
    requires cleared { AreCleared shared.modulus.now.value together.old.limit c (length own.now.pivots.items) together.old.numbers.items }
    ensures seat { IsSeatOf shared.entry.claims.now.table.shared.table_id shared.entry.claims.now.rows.leads.items seat.new }
    ensures follows { IsToldAfter (told seat.old) (told seat.new) }
    ensures cleared { OnOk result (AreCleared shared.entry.modulus.now.value together.new.limit (c + 1) (length own.now.pivots.items)
        together.new.numbers.items) }
    ensures way { (lost : List LostRow) → length lost ≤ 8
        → AreOnTheirWay shared.entry.modulus.now.value together.old.limit c (length own.now.pivots.items) shared.entry.rows.now
        (rows_left own.now.left.items) own.now.pivots.items (told seat.old)
        together.old.left.items together.old.numbers.items together.old.taken.items 0 lost
        → OnOk result (AreOnTheirWay shared.entry.modulus.now.value together.new.limit (c + 1) (length own.now.pivots.items) shared.entry.rows.now
        (rows_left own.now.left.items) own.now.pivots.items (told seat.new)
        together.new.left.items together.new.numbers.items together.new.taken.items 0 lost) }
{
    shared.modulus.domain();
    let residues = take_residues(shared.modulus, together.numbers.as_mut_slice(), c as usize);
    if residues == [0; 8] {
        return Ok(());
    }
    match pivot_of(shared, seat, own, c) {
        None => {
            together.left.push((c, residues))?;
            Ok(())
        }
        Some(pivot) => {
            add_pivot_to_all(shared, own, together, pivot, &residues)?;
            Ok(())
        }
    }
}

// The rows with all columns cleared.
fn clear_all(
    shared: PassShared<'_>,
    seat: &mut ClaimSeat,
    own: &Own,
    together: &mut Together,
    lost: &[Lost],
    columns: u32,
) -> Result<(), NoMemory>
    requires few { length lost.now ≤ 8 }
    requires columns { columns ≡ length own.now.pivots.items }
    requires ready { AreRowsReady shared.modulus.now.value (length own.now.pivots.items) shared.inputs shared.rows.now
        shared.claims.now.rows.leads.items shared.claims.now.rows.held.items }
    requires own { ArePivots shared.modulus.now.value (length own.now.pivots.items) shared.inputs (rows_left own.now.left.items) own.now.pivots.items }
    requires idle { AreAllIdle (length own.now.pivots.items) together.old.numbers.items }
    requires seat { IsSeatOf shared.claims.now.table.shared.table_id shared.claims.now.rows.leads.items seat.old }
    requires lost { Each (IsLost shared.rows.now (told seat.old)) lost.now }
    ensures seat { IsSeatOf shared.entry.claims.now.table.shared.table_id shared.entry.claims.now.rows.leads.items seat.new }
    ensures follows { IsToldAfter (told seat.old) (told seat.new) }
    ensures idle { OnOk result (AreAllIdle (length own.now.pivots.items) together.new.numbers.items) }
    ensures way { OnOk result (AreOnTheirWay shared.entry.modulus.now.value together.new.limit (length own.now.pivots.items) (length own.now.pivots.items)
        shared.entry.rows.now (rows_left own.now.left.items) own.now.pivots.items (told seat.new)
        together.new.left.items together.new.numbers.items together.new.taken.items 0 lost.now) }
{
    start_rows(shared, together, lost);
    let mut c = next_column_of_all(together.numbers.as_slice(), 0, columns);
    while c < columns {
        clear_column_of_all(shared, seat, own, together, c)?;
        c = next_column_of_all(together.numbers.as_slice(), c + 1, columns);
    }
    Ok(())
}

// What is left of row `j`, by its columns.
fn entries_left(
    alloc: Global,
    left: &[(u32, [u32; 8])],
    j: usize,
) -> Result<Vec<(u32, u32)>, NoMemory>
    requires { j < 8 }
    ensures { IfOk result (λ es. es.items ≡ lane_left j left.now) }
{
    let mut entries = Vec::new(alloc);
    for one in left {
        if one.1[j] != 0 {
            entries.push((one.0, one.1[j]))?;
        }
    }
    Ok(entries)
}

// The rows that were added to row `j`, each with its factor; the first is the one that has its column.
fn rows_taken(
    alloc: Global,
    first: (usize, u32),
    taken: &[(usize, [u32; 8])],
    j: usize,
) -> Result<Vec<(usize, u32)>, NoMemory>
    requires { j < 8 }
    ensures { IfOk result (λ es. es.items ≡ first ∷ lane_taken j taken.now) }
{
    let mut rows = Vec::with_capacity(alloc, taken.len() + 1)?;
    rows.push(first)?;
    for one in taken {
        rows.push((one.0, one.1[j]))?;
    }
    Ok(rows)
}

// What is left of row `j`, monic, or none where nothing is left.
fn rest_of(
    alloc: Global,
    shared: PassShared<'_>,
    own: &Own,
    together: &Together,
    j: usize,
    lost: Lost,
) -> Result<Option<Row>, NoMemory>
    requires row { j < 8 }
    requires known { lost.number < length shared.rows.now }
    requires rows { Each (IsRow shared.modulus.now.value (length together.now.numbers.items) shared.inputs) (shared.rows.now ++ rows_left own.now.left.items) }
    requires own { ArePivots shared.modulus.now.value (length together.now.numbers.items) shared.inputs (rows_left own.now.left.items) own.now.pivots.items }
    requires way { (known : List Told) × IsOnItsWay shared.modulus.now.value together.now.limit
        (length together.now.numbers.items) (length together.now.numbers.items) shared.rows.now (rows_left own.now.left.items) own.now.pivots.items
        known together.now.left.items together.now.numbers.items together.now.taken.items j lost }
    ensures { (known : List Told) → IsOnItsWay shared.entry.modulus.now.value together.now.limit
        (length together.now.numbers.items) (length together.now.numbers.items) shared.entry.rows.now (rows_left own.now.left.items) own.now.pivots.items
        known together.now.left.items together.now.numbers.items together.now.taken.items j lost
        → IfOk result (IsRowRestOrGone shared.entry.modulus.now.value (length together.now.numbers.items) shared.entry.inputs
        shared.entry.rows.now (rows_left own.now.left.items) known (shown_row_at shared.entry.rows.now lost.number)) }
{
    let modulus = shared.modulus;
    modulus.domain();
    let left = entries_left(alloc, &together.left, j)?;
    if left.is_empty() {
        return Ok(None);
    }
    let first = (lost.winner as usize, modulus.neg(1));
    let taken = rows_taken(alloc, first, &together.taken, j)?;
    let row = &shared.rows[lost.number as usize];
    let rest = left_row(alloc, shared, own, row, &left, &taken)?;
    Ok(rest)
}

// What is left of each of the rows.
fn rests_of(
    alloc: Global,
    shared: PassShared<'_>,
    own: &Own,
    together: &Together,
    lost: &[Lost],
) -> Result<Vec<Option<Row>>, NoMemory>
    requires few { length lost.now ≤ 8 }
    requires known { Each (λ l. l.number < length shared.rows.now) lost.now }
    requires rows { Each (IsRow shared.modulus.now.value (length together.now.numbers.items) shared.inputs) (shared.rows.now ++ rows_left own.now.left.items) }
    requires own { ArePivots shared.modulus.now.value (length together.now.numbers.items) shared.inputs (rows_left own.now.left.items) own.now.pivots.items }
    requires way { (known : List Told) × AreOnTheirWay shared.modulus.now.value together.now.limit
        (length together.now.numbers.items) (length together.now.numbers.items) shared.rows.now (rows_left own.now.left.items) own.now.pivots.items
        known together.now.left.items together.now.numbers.items together.now.taken.items 0 lost.now }
    ensures { (known : List Told) → AreOnTheirWay shared.entry.modulus.now.value together.now.limit
        (length together.now.numbers.items) (length together.now.numbers.items) shared.entry.rows.now (rows_left own.now.left.items) own.now.pivots.items
        known together.now.left.items together.now.numbers.items together.now.taken.items 0 lost.now
        → IfOk result (λ rests. AreRests shared.entry.modulus.now.value (length together.now.numbers.items) shared.entry.inputs
        shared.entry.rows.now (rows_left own.now.left.items) known lost.now rests.items) }
{
    let mut rests = Vec::with_capacity(alloc, lost.len())?;
    for j in 0..lost.len() {
        let rest = rest_of(alloc, shared, own, together, j, lost[j])?;
        rests.push(rest)?;
    }
    Ok(rests)
}

/// What the pivots leave of up to eight rows whose columns other rows have: of each the rest, monic, or none where it is in their
/// span. At each column its pivot is the row that its word names at a look, or else the helper's own; the first column's is the
/// winner of the claim. What is left of one row does not serve another one here. `NoMemory` is the only error.
pub fn reduce_together(
    alloc: Global,
    shared: PassShared<'_>,
    seat: &mut ClaimSeat,
    own: &Own,
    together: &mut Together,
    lost: &[Lost],
) -> Result<Vec<Option<Row>>, NoMemory>
    requires few { length lost.now ≤ 8 }
    requires ready { AreRowsReady shared.modulus.now.value (length own.now.pivots.items) shared.inputs shared.rows.now
        shared.claims.now.rows.leads.items shared.claims.now.rows.held.items }
    requires own { ArePivots shared.modulus.now.value (length own.now.pivots.items) shared.inputs (rows_left own.now.left.items) own.now.pivots.items }
    requires idle { AreAllIdle (length own.now.pivots.items) together.old.numbers.items }
    requires seat { IsSeatOf shared.claims.now.table.shared.table_id shared.claims.now.rows.leads.items seat.old }
    requires lost { Each (IsLost shared.rows.now (told seat.old)) lost.now }
    ensures seat { IsSeatOf shared.entry.claims.now.table.shared.table_id shared.entry.claims.now.rows.leads.items seat.new }
    ensures follows { IsToldAfter (told seat.old) (told seat.new) }
    ensures idle { OnOk result (AreAllIdle (length own.now.pivots.items) together.new.numbers.items) }
    ensures rests { IfOk result (λ rests. AreRests shared.entry.modulus.now.value (length own.now.pivots.items) shared.entry.inputs
        shared.entry.rows.now (rows_left own.now.left.items) (told seat.new) lost.now rests.items) }
{
    shared.modulus.domain();
    let columns = kept_number(own.pivots.as_slice().len())?;
    clear_all(shared, seat, own, together, lost, columns)?;
    let rests = rests_of(alloc, shared, own, together, lost)?;
    Ok(rests)
}
