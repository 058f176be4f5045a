// The tails of rows in echelon form, reduced by the rows with lower leads.
ghost use Rattle.std.specs.Prelude.{◌≡◌, ◌<◌, ◌≤◌, List, [], get_or, length, IfOk, OnOk};
ghost use Rattle.formal_sums.specs.FormalSums.{Each};
ghost use Rattle.pivot_table.specs.Law.{IsSeatOf, told};
ghost use Rattle.row_matrix.specs.Rows.{IsRow, RowShown, first_column};
ghost use Rattle.dense_reduction.specs.Pivots.{ArePivots};
ghost use Rattle.dense_reduction.specs.Rests.{rows_left};
ghost use Rattle.dense_reduction.specs.Underway.{AreIdle};
ghost use Rattle.dense_reduction.specs.Words.{AreRowsReady, IsToldAfter};
ghost use Rattle.row_reduce.specs.Echelons.{IsEchelonOf};
ghost use Rattle.row_reduce.specs.Tails.{AreApart, AreTailsReduced, HasTailReduced};

use crate::helping::{keep_left, meets_own};
use dense_reduction::{Left, Own, PassShared, Work, reduce_row, room_for_one};
use module_vectors::NoMemory;
use pivot_table::{ClaimSeat, Claims};
use row_matrix::Row;
use std::alloc::Global;
use std::collections::VecDeque;
use zp_field::Modulus;

// How many of the rows are combinations of several input rows.
fn combinations(rows: &[Row]) -> usize
    ensures { result ≤ length rows.now }
{
    let mut count = 0;
    for row in rows {
        if row.sources().len() > 1 {
            count += 1;
        }
    }
    count
}

// What the rows kept so far leave of a row whose first column none of them has. An input row stays as it is, so that it is still the
// product that it was made as.
fn reduced_row(
    alloc: Global,
    shared: PassShared<'_>,
    seat: &mut ClaimSeat,
    own: &Own,
    work: &mut Work,
    row: Row,
) -> Result<Row, NoMemory>
    requires ready { AreRowsReady shared.modulus.now.value (length own.now.pivots.items) shared.inputs shared.rows.now
        shared.claims.now.rows.leads.items shared.claims.now.rows.held.items }
    requires own { ArePivots shared.modulus.now.value (length own.now.pivots.items) shared.inputs (rows_left own.now.left.items) own.now.pivots.items }
    requires idle { AreIdle (length own.now.pivots.items) work.old.numbers.items }
    requires seat { IsSeatOf shared.claims.now.table.shared.table_id shared.claims.now.rows.leads.items seat.old }
    requires row { IsRow shared.modulus.now.value (length own.now.pivots.items) shared.inputs row }
    requires free { get_or own.now.pivots.items (first_column row.entries) 0 ≡ 0 }
    ensures seat { IsSeatOf shared.entry.claims.now.table.shared.table_id shared.entry.claims.now.rows.leads.items seat.new }
    ensures follows { IsToldAfter (told seat.old) (told seat.new) }
    ensures idle { OnOk result (AreIdle (length own.now.pivots.items) work.new.numbers.items) }
    ensures reduced { IfOk result (HasTailReduced shared.entry.modulus.now.value (length own.now.pivots.items) shared.entry.inputs
        shared.entry.rows.now (rows_left own.now.left.items) (told seat.new) row) }
{
    if row.sources().len() > 1 && meets_own(own, &row) {
        return match reduce_row(alloc, shared, seat, own, work, &row, None)? {
            None => Ok(row),
            Some(rest) => Ok(rest),
        };
    }
    Ok(row)
}

// Keeps the rows one after another, each as the pivot of its first column, once its tail was reduced by those before it.
fn keep_each(
    alloc: Global,
    shared: PassShared<'_>,
    columns: usize,
    seat: &mut ClaimSeat,
    rows: Vec<Row>,
) -> Result<Vec<Left>, NoMemory>
    requires none { shared.rows.now ≡ [] }
    requires ready { AreRowsReady shared.modulus.now.value columns shared.inputs shared.rows.now
        shared.claims.now.rows.leads.items shared.claims.now.rows.held.items }
    requires seat { IsSeatOf shared.claims.now.table.shared.table_id shared.claims.now.rows.leads.items seat.old }
    requires rows { Each (IsRow shared.modulus.now.value columns shared.inputs) rows.items }
    requires apart { AreApart rows.items }
    ensures seat { IsSeatOf shared.entry.claims.now.table.shared.table_id shared.entry.claims.now.rows.leads.items seat.new }
    ensures reduced { IfOk result (λ left. AreTailsReduced shared.entry.modulus.now.value columns shared.entry.inputs (told seat.new)
        rows.items (rows_left left.items)) }
{
    let mut own = Own {
        left: Vec::with_capacity(alloc, rows.len())?,
        pivots: vec![in alloc; 0; columns]?,
    };
    let mut work = room_for_one(alloc, columns)?;
    let mut rest = VecDeque::from_vec(rows);
    while let Some(row) = rest.pop_front() {
        let reduced = reduced_row(alloc, shared, seat, &own, &mut work, row)?;
        keep_left(&mut own, 0, reduced)?;
    }
    Ok(own.left)
}

// The rows that are left.
fn rows_of(alloc: Global, left: Vec<Left>) -> Result<Vec<Row>, NoMemory>
    ensures { IfOk result (λ rows. rows.items ≡ rows_left left.items) }
{
    let mut rows = Vec::with_capacity(alloc, left.len())?;
    let mut rest = VecDeque::from_vec(left);
    while let Some(one) = rest.pop_front() {
        rows.push(one.row)?;
    }
    Ok(rows)
}

// The rows, each after its tail was reduced by those before it. No row has claimed a column, so each look finds none, and the rows kept
// alone are pivots.
fn reduced_in_turn(
    alloc: Global,
    modulus: &Modulus,
    columns: usize,
    inputs: usize,
    rows: Vec<Row>,
) -> Result<Vec<Row>, NoMemory>
    requires some { 0 < columns }
    requires rows { Each (IsRow modulus.now.value columns inputs) rows.items }
    requires apart { AreApart rows.items }
    ensures { (M : List RowShown) → IsEchelonOf modulus.now.value columns inputs M rows.items
        → IfOk result (λ done. IsEchelonOf modulus.now.value columns inputs M done.items) }
{
    let nobody: Vec<Row> = Vec::new(alloc);
    let leads: Vec<u64> = Vec::new(alloc);
    let held: Vec<Option<u64>> = vec![in alloc; None; columns]?;
    let (claims, seat) = match Claims::new(alloc, columns as u64, &leads, &held) {
        Ok(made) => made,
        Err(NoMemory) => return Err(NoMemory),
    };
    let shared = PassShared {
        modulus,
        rows: &nobody,
        inputs,
        claims: &claims,
    };
    let mut seat = seat;
    let left = keep_each(alloc, shared, columns, &mut seat, rows)?;
    let _ = claims.close(seat);
    let done = rows_of(alloc, left)?;
    Ok(done)
}

/// The rows, whose leads are apart, with tails reduced: each that is a combination of several input rows by those before it, while
/// input rows stay as they are. The last column's row comes first, so that those before a row have lower leads. `NoMemory` is the only
/// error.
pub(crate) fn reduced_tails(
    alloc: Global,
    modulus: &Modulus,
    columns: usize,
    inputs: usize,
    rows: Vec<Row>,
) -> Result<Vec<Row>, NoMemory>
    requires rows { Each (IsRow modulus.now.value columns inputs) rows.items }
    requires apart { AreApart rows.items }
    ensures { (M : List RowShown) → IsEchelonOf modulus.now.value columns inputs M rows.items
        → IfOk result (λ done. IsEchelonOf modulus.now.value columns inputs M done.items) }
{
    if combinations(&rows) < 2 {
        return Ok(rows);
    }
    reduced_in_turn(alloc, modulus, columns, inputs, rows)
}
