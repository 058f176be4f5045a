// What one helper does in a pass.
ghost use Rattle.std.specs.Prelude.{◌≡◌, ◌<◌, ◌≤◌, ◌+◌, ◌++◌, ◌∷◌, [], false, get_or, length, slice_set, IfOk, OnOk};
ghost use Rattle.formal_sums.specs.FormalSums.{Each};
ghost use Rattle.pivot_table.specs.Law.{IsSeatOf, told};
ghost use Rattle.row_matrix.specs.Rows.{IsRow, first_column};
ghost use Rattle.dense_reduction.specs.LostRows.{IsLost, numbers};
ghost use Rattle.dense_reduction.specs.Pivots.{ArePivots};
ghost use Rattle.dense_reduction.specs.Rests.{rows_left};
ghost use Rattle.dense_reduction.specs.Together.{AreRests};
ghost use Rattle.dense_reduction.specs.Underway.{AreIdle};
ghost use Rattle.dense_reduction.specs.Words.{AreRowsReady, IsToldAfter, row_leads_of};
ghost use Rattle.row_reduce.specs.Passes.{AreHelped};
ghost use Rattle.row_reduce.specs.Replaced.{AreReplaced, IsReplaced, IsRestKept};
ghost use Rattle.row_reduce.specs.Room.{HasIdleRoom};

use dense_reduction::{
    EIGHT, Left, Lost, Own, PassShared, Together, Work, claim_rows, own_pivot, reduce_row,
    reduce_together, room_for_eight, room_for_one,
};
use module_vectors::NoMemory;
use pivot_table::ClaimSeat;
use row_matrix::Row;
use std::alloc::Global;
use std::collections::VecDeque;
use worker_gate::SharedGate;

// Fewer rows than these are reduced one after another.
const FEW: usize = 3;

// Keeps what is left of the row with this number, as the pivot of its first column.
pub(crate) fn keep_left(own: &mut Own, number: u64, row: Row) -> Result<(), NoMemory>
    requires some { 0 < length row.entries }
    requires within { first_column row.entries < length own.old.pivots.items }
    ensures left { OnOk result (own.new.left.items ≡ own.old.left.items ++ record { number = number; row = row } ∷ []) }
    ensures pivots { OnOk result (own.new.pivots.items ≡ slice_set own.old.pivots.items (first_column row.entries) (length own.old.left.items + 1)) }
{
    let column = row.entries()[0].0 as usize;
    own.left.push(Left { number, row })?;
    own.pivots[column] = own.left.len();
    Ok(())
}

// Reduces a row alone, and keeps what is left of it.
fn replace_row(
    alloc: Global,
    shared: PassShared<'_>,
    seat: &mut ClaimSeat,
    own: &mut Own,
    work: &mut Work,
    lost: &Lost,
) -> Result<(), NoMemory>
    requires ready { AreRowsReady shared.modulus.now.value (length own.old.pivots.items) shared.inputs shared.rows.now
        shared.claims.now.rows.leads.items shared.claims.now.rows.held.items }
    requires own { ArePivots shared.modulus.now.value (length own.old.pivots.items) shared.inputs (rows_left own.old.left.items) own.old.pivots.items }
    requires idle { AreIdle (length own.old.pivots.items) work.old.numbers.items }
    requires seat { IsSeatOf shared.claims.now.table.shared.table_id shared.claims.now.rows.leads.items seat.old }
    requires lost { IsLost shared.rows.now (told seat.old) lost.now }
    ensures seat { IsSeatOf shared.entry.claims.now.table.shared.table_id shared.entry.claims.now.rows.leads.items seat.new }
    ensures follows { IsToldAfter (told seat.old) (told seat.new) }
    ensures idle { OnOk result (AreIdle (length own.old.pivots.items) work.new.numbers.items) }
    ensures own { OnOk result (ArePivots shared.entry.modulus.now.value (length own.old.pivots.items) shared.entry.inputs
        (rows_left own.new.left.items) own.new.pivots.items) }
    ensures replaced { OnOk result (IsReplaced shared.entry.modulus.now.value (length own.old.pivots.items) shared.entry.inputs shared.entry.rows.now
        (told seat.new) lost.now own.old.left.items own.new.left.items) }
{
    let row = &shared.rows[lost.number as usize];
    let rest = reduce_row(
        alloc,
        shared,
        seat,
        own,
        work,
        row,
        Some(lost.winner as usize),
    )?;
    match rest {
        None => Ok(()),
        Some(row) => {
            keep_left(own, lost.number, row)?;
            Ok(())
        }
    }
}

// Reduces rows one after another, and keeps what is left of each.
fn replace_each(
    alloc: Global,
    shared: PassShared<'_>,
    seat: &mut ClaimSeat,
    own: &mut Own,
    work: &mut Work,
    lost: &[Lost],
) -> Result<(), NoMemory>
    requires ready { AreRowsReady shared.modulus.now.value (length own.old.pivots.items) shared.inputs shared.rows.now
        shared.claims.now.rows.leads.items shared.claims.now.rows.held.items }
    requires own { ArePivots shared.modulus.now.value (length own.old.pivots.items) shared.inputs (rows_left own.old.left.items) own.old.pivots.items }
    requires idle { AreIdle (length own.old.pivots.items) work.old.numbers.items }
    requires seat { IsSeatOf shared.claims.now.table.shared.table_id shared.claims.now.rows.leads.items seat.old }
    requires lost { Each (IsLost shared.rows.now (told seat.old)) lost.now }
    ensures seat { IsSeatOf shared.entry.claims.now.table.shared.table_id shared.entry.claims.now.rows.leads.items seat.new }
    ensures follows { IsToldAfter (told seat.old) (told seat.new) }
    ensures idle { OnOk result (AreIdle (length own.old.pivots.items) work.new.numbers.items) }
    ensures own { OnOk result (ArePivots shared.entry.modulus.now.value (length own.old.pivots.items) shared.entry.inputs
        (rows_left own.new.left.items) own.new.pivots.items) }
    ensures replaced { OnOk result (AreReplaced shared.entry.modulus.now.value (length own.old.pivots.items) shared.entry.inputs shared.entry.rows.now
        (told seat.new) lost.now own.old.left.items own.new.left.items) }
{
    for one in lost {
        replace_row(alloc, shared, seat, own, work, one)?;
    }
    Ok(())
}

// Has one of the columns of the row an own pivot?
pub(crate) fn meets_own(own: &Own, row: &Row) -> bool
    requires { Each (λ e. e.0 < length own.now.pivots.items) row.now.entries }
    ensures { result ≡ false → Each (λ e. get_or own.now.pivots.items e.0 0 ≡ 0) row.now.entries }
{
    for entry in row.entries() {
        if own.pivots[entry.0 as usize] != 0 {
            return true;
        }
    }
    false
}

// Keeps what is left of the row with this number. Where rows that were left meanwhile are pivots of columns of it, it is reduced once more.
fn keep_rest(
    alloc: Global,
    shared: PassShared<'_>,
    seat: &mut ClaimSeat,
    own: &mut Own,
    work: &mut Work,
    number: u64,
    rest: Row,
) -> Result<(), NoMemory>
    requires ready { AreRowsReady shared.modulus.now.value (length own.old.pivots.items) shared.inputs shared.rows.now
        shared.claims.now.rows.leads.items shared.claims.now.rows.held.items }
    requires own { ArePivots shared.modulus.now.value (length own.old.pivots.items) shared.inputs (rows_left own.old.left.items) own.old.pivots.items }
    requires idle { AreIdle (length own.old.pivots.items) work.old.numbers.items }
    requires seat { IsSeatOf shared.claims.now.table.shared.table_id shared.claims.now.rows.leads.items seat.old }
    requires rest { IsRow shared.modulus.now.value (length own.old.pivots.items) shared.inputs rest }
    ensures seat { IsSeatOf shared.entry.claims.now.table.shared.table_id shared.entry.claims.now.rows.leads.items seat.new }
    ensures follows { IsToldAfter (told seat.old) (told seat.new) }
    ensures idle { OnOk result (AreIdle (length own.old.pivots.items) work.new.numbers.items) }
    ensures own { OnOk result (ArePivots shared.entry.modulus.now.value (length own.old.pivots.items) shared.entry.inputs
        (rows_left own.new.left.items) own.new.pivots.items) }
    ensures kept { OnOk result (IsRestKept shared.entry.modulus.now.value (length own.old.pivots.items) shared.entry.inputs shared.entry.rows.now
        (told seat.new) number rest own.old.left.items own.new.left.items) }
{
    if !meets_own(own, &rest) {
        keep_left(own, number, rest)?;
        return Ok(());
    }
    let pivot = own_pivot(shared, own, rest.entries()[0].0);
    match reduce_row(alloc, shared, seat, own, work, &rest, pivot)? {
        None => Ok(()),
        Some(row) => {
            keep_left(own, number, row)?;
            Ok(())
        }
    }
}

// Keeps what is left of each of these rows.
fn keep_rests(
    alloc: Global,
    shared: PassShared<'_>,
    seat: &mut ClaimSeat,
    own: &mut Own,
    work: &mut Work,
    lost: &[Lost],
    rests: Vec<Option<Row>>,
) -> Result<(), NoMemory>
    requires ready { AreRowsReady shared.modulus.now.value (length own.old.pivots.items) shared.inputs shared.rows.now
        shared.claims.now.rows.leads.items shared.claims.now.rows.held.items }
    requires own { ArePivots shared.modulus.now.value (length own.old.pivots.items) shared.inputs (rows_left own.old.left.items) own.old.pivots.items }
    requires idle { AreIdle (length own.old.pivots.items) work.old.numbers.items }
    requires seat { IsSeatOf shared.claims.now.table.shared.table_id shared.claims.now.rows.leads.items seat.old }
    requires rests { AreRests shared.modulus.now.value (length own.old.pivots.items) shared.inputs shared.rows.now
        (rows_left own.old.left.items) (told seat.old) lost.now rests.items }
    ensures seat { IsSeatOf shared.entry.claims.now.table.shared.table_id shared.entry.claims.now.rows.leads.items seat.new }
    ensures follows { IsToldAfter (told seat.old) (told seat.new) }
    ensures idle { OnOk result (AreIdle (length own.old.pivots.items) work.new.numbers.items) }
    ensures own { OnOk result (ArePivots shared.entry.modulus.now.value (length own.old.pivots.items) shared.entry.inputs
        (rows_left own.new.left.items) own.new.pivots.items) }
    ensures replaced { OnOk result (AreReplaced shared.entry.modulus.now.value (length own.old.pivots.items) shared.entry.inputs shared.entry.rows.now
        (told seat.new) lost.now own.old.left.items own.new.left.items) }
{
    let mut left = VecDeque::from_vec(rests);
    for one in lost {
        match left.pop_front() {
            Some(Some(rest)) => keep_rest(alloc, shared, seat, own, work, one.number, rest)?,
            Some(None) => {}
            None => {}
        }
    }
    Ok(())
}

// Room for reductions, of one row or of eight.
struct Room {
    work: Work,
    together: Together,
}

// By hand, so that each drop of one is a call.
impl Drop for Room {
    fn drop(self) {
        let Room {
            work: _,
            together: _,
        } = self;
    }
}

// Room for rows of so many columns.
fn room_for(alloc: Global, columns: usize) -> Result<Room, NoMemory>
    ensures { IfOk result (HasIdleRoom columns) }
{
    let work = room_for_one(alloc, columns)?;
    let together = room_for_eight(alloc, columns)?;
    Ok(Room { work, together })
}

// Reduces up to eight rows, together where that is faster, and keeps what is left of each.
fn replace_eight(
    alloc: Global,
    shared: PassShared<'_>,
    seat: &mut ClaimSeat,
    own: &mut Own,
    room: &mut Room,
    lost: &[Lost],
) -> Result<(), NoMemory>
    requires few { length lost.now ≤ 8 }
    requires ready { AreRowsReady shared.modulus.now.value (length own.old.pivots.items) shared.inputs shared.rows.now
        shared.claims.now.rows.leads.items shared.claims.now.rows.held.items }
    requires own { ArePivots shared.modulus.now.value (length own.old.pivots.items) shared.inputs (rows_left own.old.left.items) own.old.pivots.items }
    requires idle { HasIdleRoom (length own.old.pivots.items) room.old }
    requires seat { IsSeatOf shared.claims.now.table.shared.table_id shared.claims.now.rows.leads.items seat.old }
    requires lost { Each (IsLost shared.rows.now (told seat.old)) lost.now }
    ensures seat { IsSeatOf shared.entry.claims.now.table.shared.table_id shared.entry.claims.now.rows.leads.items seat.new }
    ensures follows { IsToldAfter (told seat.old) (told seat.new) }
    ensures idle { OnOk result (HasIdleRoom (length own.old.pivots.items) room.new) }
    ensures own { OnOk result (ArePivots shared.entry.modulus.now.value (length own.old.pivots.items) shared.entry.inputs
        (rows_left own.new.left.items) own.new.pivots.items) }
    ensures replaced { OnOk result (AreReplaced shared.entry.modulus.now.value (length own.old.pivots.items) shared.entry.inputs shared.entry.rows.now
        (told seat.new) lost.now own.old.left.items own.new.left.items) }
{
    if lost.len() < FEW {
        replace_each(alloc, shared, seat, own, &mut room.work, lost)?;
        return Ok(());
    }
    let rests = reduce_together(alloc, shared, seat, own, &mut room.together, lost)?;
    keep_rests(alloc, shared, seat, own, &mut room.work, lost, rests)?;
    Ok(())
}

// What pivots leave of rows that did not win their columns.
fn replace_rows(
    alloc: Global,
    shared: PassShared<'_>,
    columns: usize,
    seat: &mut ClaimSeat,
    lost: &[Lost],
) -> Result<Vec<Left>, NoMemory>
    requires ready { AreRowsReady shared.modulus.now.value columns shared.inputs shared.rows.now
        shared.claims.now.rows.leads.items shared.claims.now.rows.held.items }
    requires seat { IsSeatOf shared.claims.now.table.shared.table_id shared.claims.now.rows.leads.items seat.old }
    requires lost { Each (IsLost shared.rows.now (told seat.old)) lost.now }
    ensures seat { IsSeatOf shared.entry.claims.now.table.shared.table_id shared.entry.claims.now.rows.leads.items seat.new }
    ensures follows { IsToldAfter (told seat.old) (told seat.new) }
    ensures helped { IfOk result (λ left. AreHelped shared.entry.modulus.now.value columns shared.entry.inputs shared.entry.rows.now
        (numbers lost.now) (told seat.new) left.items) }
{
    if lost.len() == 0 {
        return Ok(Vec::new(alloc));
    }
    let mut own = Own {
        left: Vec::new(alloc),
        pivots: vec![in alloc; 0; columns]?,
    };
    let mut room = room_for(alloc, columns)?;
    let mut from = 0;
    while from < lost.len() {
        let to = lost.len().min(from + EIGHT);
        replace_eight(alloc, shared, seat, &mut own, &mut room, &lost[from..to])?;
        from = to;
    }
    Ok(own.left)
}

// Claims the first column of each of these rows, whichever helper has the row.
fn claim_each(shared: PassShared<'_>, seat: &mut ClaimSeat, free: &[u64])
    requires known { shared.claims.now.rows.leads.items ≡ row_leads_of shared.rows.now }
    requires seat { IsSeatOf shared.claims.now.table.shared.table_id shared.claims.now.rows.leads.items seat.old }
    requires free { Each (λ m. m < length shared.rows.now) free.now }
    ensures seat { IsSeatOf shared.entry.claims.now.table.shared.table_id shared.entry.claims.now.rows.leads.items seat.new }
{
    for number in free {
        let _ = shared.claims.claim(seat, *number);
    }
}

// Claims the first column of each of these rows, from this place on and round to it again. No helper waits for the others, since it
// claims for their rows too: so these rows have their columns, whoever starts first.
fn claim_free(shared: PassShared<'_>, seat: &mut ClaimSeat, free: &[u64], from: usize)
    requires known { shared.claims.now.rows.leads.items ≡ row_leads_of shared.rows.now }
    requires seat { IsSeatOf shared.claims.now.table.shared.table_id shared.claims.now.rows.leads.items seat.old }
    requires free { Each (λ m. m < length shared.rows.now) free.now }
    ensures seat { IsSeatOf shared.entry.claims.now.table.shared.table_id shared.entry.claims.now.rows.leads.items seat.new }
{
    let count = free.len();
    let first = from.min(count);
    claim_each(shared, seat, &free[first..count]);
    claim_each(shared, seat, &free[0..first]);
}

// Claims the free columns for these rows and then the columns of all its own, and reduces those that lost.
fn help_through(
    alloc: Global,
    shared: PassShared<'_>,
    columns: usize,
    gate: &SharedGate,
    helper: u32,
    seat: &mut ClaimSeat,
    mine: &[u64],
    free: &[u64],
    from: usize,
) -> Result<Vec<Left>, NoMemory>
    requires ready { AreRowsReady shared.modulus.now.value columns shared.inputs shared.rows.now
        shared.claims.now.rows.leads.items shared.claims.now.rows.held.items }
    requires seat { IsSeatOf shared.claims.now.table.shared.table_id shared.claims.now.rows.leads.items seat.old }
    requires mine { Each (λ m. m < length shared.rows.now) mine.now }
    requires free { Each (λ m. m < length shared.rows.now) free.now }
    ensures seat { IsSeatOf shared.entry.claims.now.table.shared.table_id shared.entry.claims.now.rows.leads.items seat.new }
    ensures helped { IfOk result (λ left. AreHelped shared.entry.modulus.now.value columns shared.entry.inputs shared.entry.rows.now
        mine.now (told seat.new) left.items) }
{
    claim_free(shared, seat, free, from);
    let lost = claim_rows(alloc, shared, gate, helper, seat, mine)?;
    let left = replace_rows(alloc, shared, columns, seat, &lost)?;
    Ok(left)
}

/// One helper's part of a pass: it claims the free columns for the rows `free`, from this place on and round, then the first column of
/// each of its own, and reduces those of its own whose column another row has.
pub(crate) fn help(
    alloc: Global,
    shared: PassShared<'_>,
    columns: usize,
    gate: &SharedGate,
    helper: u32,
    seat: ClaimSeat,
    mine: &[u64],
    free: &[u64],
    from: usize,
) -> (Result<Vec<Left>, NoMemory>, ClaimSeat)
    requires ready { AreRowsReady shared.modulus.now.value columns shared.inputs shared.rows.now
        shared.claims.now.rows.leads.items shared.claims.now.rows.held.items }
    requires seat { IsSeatOf shared.claims.now.table.shared.table_id shared.claims.now.rows.leads.items seat }
    requires fresh { told seat ≡ [] }
    requires mine { Each (λ m. m < length shared.rows.now) mine.now }
    requires free { Each (λ m. m < length shared.rows.now) free.now }
    ensures seat { IsSeatOf shared.entry.claims.now.table.shared.table_id shared.entry.claims.now.rows.leads.items result.1 }
    ensures helped { IfOk result.0 (λ left. AreHelped shared.entry.modulus.now.value columns shared.entry.inputs shared.entry.rows.now
        mine.now (told result.1) left.items) }
{
    let mut seat = seat;
    let left = help_through(
        alloc, shared, columns, gate, helper, &mut seat, mine, free, from,
    );
    (left, seat)
}
