// The reduction of a row by the pivots that words name and by a helper's own.
ghost use Rattle.std.specs.Prelude.{◌≡◌, ◌<◌, ◌≤◌, ◌+◌, ◌*◌, ◌++◌, ◌-◌, ◌%◌, List, [], ◌∷◌, None, ℕ, drop, length, get_or, IfOk, MatchOption, OnOk};
ghost use Rattle.residues.specs.Residues.{IsCongruent};
ghost use Rattle.monomials.specs.Exponents.{unit};
ghost use Rattle.formal_sums.specs.FormalSums.{Each, IsSame, Key as KeyOf, scale};
ghost use Rattle.pivot_table.specs.Law.{IsSeatOf, told};
ghost use Rattle.pivot_table.specs.declared.law.Entry.{Entry as Told};
ghost use Rattle.row_matrix.specs.Rows.{AreEntries, Entry, IsRow, RowShown, first_column, row_sum, shown_row_at};
ghost use Rattle.dense_reduction.specs.Dense.{AddsMultiple, AreWithin, HasRoom, IsDense, dense_sum};
ghost use Rattle.dense_reduction.specs.Pivots.{ArePivots};
ghost use Rattle.dense_reduction.specs.Reductions.{HasPivot, IsReducedSoFar, least_left};
ghost use Rattle.dense_reduction.specs.Rests.{IsGone, IsRestFrom, rows_left};
ghost use Rattle.dense_reduction.specs.Underway.{AreIdle, IsLeftRow, IsRowUnderway, entries_rescaled, sources_sum};
ghost use Rattle.dense_reduction.specs.Words.{AreRowsReady, IsToldAfter};

use crate::accumulating::{add_multiple, first_limit};
use crate::lefts::Left;
use module_vectors::NoMemory;
use pivot_table::{ClaimSeat, Claims};
use row_matrix::{Row, kept_number};
use std::alloc::Global;
use zp_field::Modulus;

/// What the helpers of a pass read together.
#[derive(Clone, Copy)]
pub struct PassShared<'a> {
    /// The modulus of all residues.
    pub modulus: &'a Modulus,
    /// The rows of the pass, known by their numbers.
    pub rows: &'a [Row],
    /// How many input rows there are, of which each row is a combination.
    pub inputs: usize,
    /// Which row has each column.
    pub claims: &'a Claims,
}

/// What a helper has of its own in a pass: the rows that it left, each the pivot of its first column among them.
#[derive(Drop)]
pub struct Own {
    /// The rows that it left, in the order in which it did.
    pub left: Vec<Left>,
    /// For each column 1 and the number of its pivot among them, or 0.
    pub pivots: Vec<usize>,
}

/// A row on its way. Its room serves one row after another.
pub struct Work {
    /// What is left at the columns that are done: columns and residues.
    pub(crate) left: Vec<(u32, u32)>,
    /// A number for each column from there on, congruent to the row's residue; 0 at those that are done.
    pub numbers: Vec<u64>,
    /// All numbers of a row on its way are below it.
    pub(crate) limit: u64,
    /// The rows that were added, each by its number and a factor.
    pub(crate) taken: Vec<(usize, u32)>,
}

// By hand, so that each drop of one is a call.
impl Drop for Work {
    fn drop(self) {
        let Work {
            left: _,
            numbers: _,
            limit: _,
            taken: _,
        } = self;
    }
}

/// Room for a row of so many columns. `NoMemory` is the only error.
pub fn room_for_one(alloc: Global, columns: usize) -> Result<Work, NoMemory>
    ensures { IfOk result (λ w. AreIdle columns w.numbers.items) }
{
    Ok(Work {
        left: Vec::new(alloc),
        numbers: vec![in alloc; 0; columns]?,
        limit: 0,
        taken: Vec::new(alloc),
    })
}

/// The row with this number: the pass's rows come first, then the helper's own.
pub(crate) fn row_numbered<'a>(rows: &'a [Row], left: &'a [Left], number: usize) -> &'a Row
    requires { number < length rows.now + length left.now }
    ensures { result.now ≡ shown_row_at (rows.now ++ rows_left left.now) number }
{
    if number < rows.len() {
        &rows[number]
    } else {
        &left[number - rows.len()].row
    }
}

/// The number of the helper's own pivot of the column, behind those of the pass's rows, or none.
pub fn own_pivot(shared: PassShared<'_>, own: &Own, c: u32) -> Option<usize>
    requires at { c < length own.now.pivots.items }
    requires own { ArePivots shared.modulus.now.value (length own.now.pivots.items) shared.inputs (rows_left own.now.left.items) own.now.pivots.items }
    ensures { (told : List Told)
        → HasPivot shared.entry.modulus.now.value shared.entry.rows.now (rows_left own.now.left.items) own.now.pivots.items told c result }
{
    let number = own.pivots[c as usize];
    if number == 0 {
        return None;
    }
    Some(shared.rows.len() + number - 1)
}

/// The number of the column's pivot: the row that its word names at a look, or the helper's own.
pub(crate) fn pivot_of(
    shared: PassShared<'_>,
    seat: &mut ClaimSeat,
    own: &Own,
    c: u32,
) -> Option<usize>
    requires at { c < length own.now.pivots.items }
    requires ready { AreRowsReady shared.modulus.now.value (length own.now.pivots.items) shared.inputs shared.rows.now
        shared.claims.now.rows.leads.items shared.claims.now.rows.held.items }
    requires own { ArePivots shared.modulus.now.value (length own.now.pivots.items) shared.inputs (rows_left own.now.left.items) own.now.pivots.items }
    requires seat { IsSeatOf shared.claims.now.table.shared.table_id shared.claims.now.rows.leads.items seat.old }
    ensures seat { IsSeatOf shared.entry.claims.now.table.shared.table_id shared.entry.claims.now.rows.leads.items seat.new }
    ensures follows { IsToldAfter (told seat.old) (told seat.new) }
    ensures pivot { HasPivot shared.entry.modulus.now.value shared.entry.rows.now (rows_left own.now.left.items) own.now.pivots.items
        (told seat.new) c result }
{
    if let Some(row) = shared.claims.look(seat, u64::from(c)) {
        return Some(row as usize);
    }
    own_pivot(shared, own, c)
}

// Adds what is behind the first entry of a row, `factor` times.
fn add_tail(modulus: &Modulus, row: &Row, factor: u32, numbers: &mut Vec<u64>, limit: u64) -> u64
    requires factor { factor < modulus.now.value }
    requires entries { (low : ℕ) × AreEntries modulus.now.value low (length numbers.old.items) (drop 1 row.now.entries) }
    requires some { 0 < length row.now.entries }
    requires limit { HasRoom modulus.now.value limit }
    requires small { IsDense limit numbers.old.items }
    ensures adds { AddsMultiple modulus.now.value factor (drop 1 row.now.entries) numbers.old.items numbers.new.items }
    ensures room { HasRoom modulus.now.value result }
    ensures small { IsDense result numbers.new.items }
{
    let entries = row.entries();
    add_multiple(
        modulus,
        numbers.as_mut_slice(),
        limit,
        factor,
        &entries[1..],
    )
}

// Adds a pivot, `factor` times, behind its first entry, where the number is taken away.
fn add_pivot(
    shared: PassShared<'_>,
    own: &Own,
    work: &mut Work,
    pivot: usize,
    factor: u32,
) -> Result<(), NoMemory>
    requires factor { factor < shared.modulus.now.value }
    requires known { pivot < length (shared.rows.now ++ rows_left own.now.left.items) }
    requires rows { Each (IsRow shared.modulus.now.value (length work.old.numbers.items) shared.inputs) (shared.rows.now ++ rows_left own.now.left.items) }
    requires room { HasRoom shared.modulus.now.value work.old.limit }
    requires small { IsDense work.old.limit work.old.numbers.items }
    ensures adds { AddsMultiple shared.entry.modulus.now.value factor
        (drop 1 (shown_row_at (shared.entry.rows.now ++ rows_left own.now.left.items) pivot).entries) work.old.numbers.items work.new.numbers.items }
    ensures room { HasRoom shared.entry.modulus.now.value work.new.limit }
    ensures small { IsDense work.new.limit work.new.numbers.items }
    ensures left { work.new.left.items ≡ work.old.left.items }
    ensures taken { OnOk result (work.new.taken.items ≡ work.old.taken.items ++ (pivot, factor) ∷ []) }
{
    let row = row_numbered(shared.rows, own.left.as_slice(), pivot);
    work.limit = add_tail(shared.modulus, row, factor, &mut work.numbers, work.limit);
    work.taken.push((pivot, factor))?;
    Ok(())
}

// Clears a column, by its pivot if it has one; else what stands there is left.
fn clear_column(
    shared: PassShared<'_>,
    seat: &mut ClaimSeat,
    own: &Own,
    work: &mut Work,
    c: u32,
) -> Result<(), NoMemory>
    requires at { c < length own.now.pivots.items }
    requires ready { AreRowsReady shared.modulus.now.value (length own.now.pivots.items) shared.inputs shared.rows.now
        shared.claims.now.rows.leads.items shared.claims.now.rows.held.items }
    requires own { ArePivots shared.modulus.now.value (length own.now.pivots.items) shared.inputs (rows_left own.now.left.items) own.now.pivots.items }
    requires seat { IsSeatOf shared.claims.now.table.shared.table_id shared.claims.now.rows.leads.items seat.old }
    requires underway { IsRowUnderway shared.modulus.now.value work.old.limit c (length own.now.pivots.items)
        (length (shared.rows.now ++ rows_left own.now.left.items)) own.now.pivots.items work.old.left.items work.old.numbers.items work.old.taken.items }
    ensures seat { IsSeatOf shared.entry.claims.now.table.shared.table_id shared.entry.claims.now.rows.leads.items seat.new }
    ensures follows { IsToldAfter (told seat.old) (told seat.new) }
    ensures underway { OnOk result (IsRowUnderway shared.entry.modulus.now.value work.new.limit (c + 1) (length own.now.pivots.items)
        (length (shared.entry.rows.now ++ rows_left own.now.left.items)) own.now.pivots.items work.new.left.items work.new.numbers.items work.new.taken.items) }
    ensures reduced { (from : ℕ) (row : RowShown) → from ≤ c
        → IsReducedSoFar shared.entry.modulus.now.value from shared.entry.rows.now (rows_left own.now.left.items) (told seat.old) row
        work.old.left.items work.old.numbers.items work.old.taken.items
        → OnOk result (IsReducedSoFar shared.entry.modulus.now.value from shared.entry.rows.now (rows_left own.now.left.items) (told seat.new) row
        work.new.left.items work.new.numbers.items work.new.taken.items) }
    ensures front { OnOk result ((more : List Entry) × (work.new.left.items ≡ work.old.left.items ++ more)) }
{
    let modulus = shared.modulus;
    modulus.domain();
    let residue = (work.numbers[c as usize] % u64::from(modulus.value())) as u32;
    work.numbers[c as usize] = 0;
    if residue == 0 {
        return Ok(());
    }
    match pivot_of(shared, seat, own, c) {
        None => {
            work.left.push((c, residue))?;
            Ok(())
        }
        Some(pivot) => {
            add_pivot(shared, own, work, pivot, modulus.neg(residue))?;
            Ok(())
        }
    }
}

// The row with a number for each column, where its first column is cleared by this pivot. Without one the first entry stays.
fn start_work(
    shared: PassShared<'_>,
    own: &Own,
    work: &mut Work,
    row: &Row,
    pivot: Option<usize>,
) -> Result<(), NoMemory>
    requires rows { Each (IsRow shared.modulus.now.value (length work.old.numbers.items) shared.inputs) (shared.rows.now ++ rows_left own.now.left.items) }
    requires idle { AreIdle (length work.old.numbers.items) work.old.numbers.items }
    requires row { IsRow shared.modulus.now.value (length work.old.numbers.items) shared.inputs row.now }
    requires pivot { (told : List Told) × HasPivot shared.modulus.now.value shared.rows.now (rows_left own.now.left.items) own.now.pivots.items
        told (first_column row.now.entries) pivot }
    ensures underway { OnOk result (IsRowUnderway shared.entry.modulus.now.value work.new.limit (first_column row.now.entries + 1)
        (length work.old.numbers.items) (length (shared.entry.rows.now ++ rows_left own.now.left.items)) own.now.pivots.items
        work.new.left.items work.new.numbers.items work.new.taken.items) }
    ensures reduced { (told : List Told)
        → HasPivot shared.entry.modulus.now.value shared.entry.rows.now (rows_left own.now.left.items) own.now.pivots.items
        told (first_column row.now.entries) pivot
        → OnOk result (IsReducedSoFar shared.entry.modulus.now.value (least_left row.now.entries pivot) shared.entry.rows.now
        (rows_left own.now.left.items) told row.now work.new.left.items work.new.numbers.items work.new.taken.items) }
    ensures first { pivot ≡ None → OnOk result (work.new.left.items ≡ (first_column row.now.entries, 1) ∷ []) }
{
    let modulus = shared.modulus;
    modulus.domain();
    work.left.clear();
    work.taken.clear();
    work.limit = add_tail(modulus, row, 1, &mut work.numbers, first_limit(modulus));
    match pivot {
        None => {
            work.left.push((row.entries()[0].0, 1))?;
            Ok(())
        }
        Some(pivot) => {
            add_pivot(shared, own, work, pivot, modulus.neg(1))?;
            Ok(())
        }
    }
}

// The first column from this one on whose number is not 0, or the count of the columns.
fn next_column(numbers: &[u64], from: u32, columns: u32) -> u32
    requires columns { columns ≡ length numbers.now }
    requires from { from ≤ columns }
    ensures from { from ≤ result }
    ensures within { result ≤ columns }
    ensures zeros { (j : ℕ) → from ≤ j → j < result → get_or numbers.now j 0 ≡ 0 }
    ensures found { result < columns → get_or numbers.now result 0 ≡ 0 → ⊥ }
{
    for c in from..columns {
        if numbers[c as usize] != 0 {
            return c;
        }
    }
    columns
}

// The row with all columns cleared from its first one on, or behind it where that has no pivot; most have nothing.
fn clear_columns(
    shared: PassShared<'_>,
    seat: &mut ClaimSeat,
    own: &Own,
    work: &mut Work,
    row: &Row,
    pivot: Option<usize>,
    columns: u32,
) -> Result<(), NoMemory>
    requires columns { columns ≡ length own.now.pivots.items }
    requires ready { AreRowsReady shared.modulus.now.value (length own.now.pivots.items) shared.inputs shared.rows.now
        shared.claims.now.rows.leads.items shared.claims.now.rows.held.items }
    requires own { ArePivots shared.modulus.now.value (length own.now.pivots.items) shared.inputs (rows_left own.now.left.items) own.now.pivots.items }
    requires idle { AreIdle (length own.now.pivots.items) work.old.numbers.items }
    requires seat { IsSeatOf shared.claims.now.table.shared.table_id shared.claims.now.rows.leads.items seat.old }
    requires row { IsRow shared.modulus.now.value (length own.now.pivots.items) shared.inputs row.now }
    requires pivot { HasPivot shared.modulus.now.value shared.rows.now (rows_left own.now.left.items) own.now.pivots.items
        (told seat.old) (first_column row.now.entries) pivot }
    ensures seat { IsSeatOf shared.entry.claims.now.table.shared.table_id shared.entry.claims.now.rows.leads.items seat.new }
    ensures follows { IsToldAfter (told seat.old) (told seat.new) }
    ensures underway { OnOk result (IsRowUnderway shared.entry.modulus.now.value work.new.limit (length own.now.pivots.items) (length own.now.pivots.items)
        (length (shared.entry.rows.now ++ rows_left own.now.left.items)) own.now.pivots.items work.new.left.items work.new.numbers.items work.new.taken.items) }
    ensures reduced { OnOk result (IsReducedSoFar shared.entry.modulus.now.value (least_left row.now.entries pivot) shared.entry.rows.now
        (rows_left own.now.left.items) (told seat.new) row.now work.new.left.items work.new.numbers.items work.new.taken.items) }
    ensures front { pivot ≡ None → OnOk result ((more : List Entry) × (work.new.left.items ≡ (first_column row.now.entries, 1) ∷ more)) }
{
    start_work(shared, own, work, row, pivot)?;
    let mut c = next_column(work.numbers.as_slice(), row.entries()[0].0 + 1, columns);
    while c < columns {
        clear_column(shared, seat, own, work, c)?;
        c = next_column(work.numbers.as_slice(), c + 1, columns);
    }
    Ok(())
}

// The residue of a number. Most are 0, and cost no division.
fn residue_of(modulus: &Modulus, number: u64) -> u32
    ensures { result ≡ number % modulus.now.value }
{
    modulus.domain();
    if number == 0 {
        return 0;
    }
    (number % u64::from(modulus.value())) as u32
}

// `factor` times the number, as a residue.
fn product_of(modulus: &Modulus, factor: u32, number: u64) -> u32
    requires { factor < modulus.now.value }
    ensures small { result < modulus.now.value }
    ensures congruent { IsCongruent modulus.now.value result (factor * number) }
{
    modulus.domain();
    let residue = residue_of(modulus, number);
    if residue == 0 {
        return 0;
    }
    modulus.mul(factor, residue)
}

// How many of the numbers are not 0, for room alone.
fn count_some(numbers: &[u64]) -> usize {
    let mut count: usize = 0;
    for number in numbers {
        if *number != 0 {
            count = count.wrapping_add(1);
        }
    }
    count
}

// The entries of `factor` times these numbers.
fn collect_entries(
    alloc: Global,
    modulus: &Modulus,
    factor: u32,
    numbers: &[u64],
) -> Result<Vec<(u32, u32)>, NoMemory>
    requires { factor < modulus.now.value }
    ensures entries { IfOk result (λ es. AreEntries modulus.now.value 0 (length numbers.now) es.items) }
    ensures sum { (n : ℕ) (key : ℕ → KeyOf n)
        → IfOk result (λ es. IsSame modulus.now.value (row_sum key es.items) (scale factor (unit n) (dense_sum key 0 numbers.now))) }
{
    modulus.domain();
    let mut entries = Vec::with_capacity(alloc, count_some(numbers))?;
    let count = kept_number(numbers.len())?;
    for i in 0..count {
        let product = product_of(modulus, factor, numbers[i as usize]);
        if product != 0 {
            entries.push((i, product))?;
        }
    }
    Ok(entries)
}

// The entries with each residue c times itself.
fn rescaled_entries(
    alloc: Global,
    modulus: &Modulus,
    c: u32,
    entries: &[(u32, u32)],
) -> Result<Vec<(u32, u32)>, NoMemory>
    requires factor { c < modulus.now.value }
    requires residues { Each (λ e. e.1 < modulus.now.value) entries.now }
    ensures { IfOk result (λ es. es.items ≡ entries_rescaled modulus.now.value c entries.now) }
{
    let mut out = Vec::with_capacity(alloc, entries.len())?;
    for entry in entries {
        out.push_reserved((entry.0, modulus.mul(c, entry.1)));
    }
    Ok(out)
}

// Adds the sources of a row, `factor` times. Of rows that were reduced together with others many have no part.
fn add_sources(modulus: &Modulus, row: &Row, factor: u32, sources: &mut Vec<u64>, limit: u64) -> u64
    requires factor { factor < modulus.now.value }
    requires entries { AreEntries modulus.now.value 0 (length sources.old.items) row.now.sources }
    requires limit { HasRoom modulus.now.value limit }
    requires small { IsDense limit sources.old.items }
    ensures adds { AddsMultiple modulus.now.value factor row.now.sources sources.old.items sources.new.items }
    ensures room { HasRoom modulus.now.value result }
    ensures small { IsDense result sources.new.items }
{
    if factor == 0 {
        return limit;
    }
    add_multiple(
        modulus,
        sources.as_mut_slice(),
        limit,
        factor,
        row.sources(),
    )
}

// The combination of the input rows that the row is with the rows that were added: a number for each input row.
fn compose_sources(
    alloc: Global,
    shared: PassShared<'_>,
    own: &Own,
    row: &Row,
    taken: &[(usize, u32)],
) -> Result<Vec<u64>, NoMemory>
    requires rows { Each (λ r. AreEntries shared.modulus.now.value 0 shared.inputs r.sources) (shared.rows.now ++ rows_left own.now.left.items) }
    requires row { AreEntries shared.modulus.now.value 0 shared.inputs row.now.sources }
    requires taken { AreWithin shared.modulus.now.value (length (shared.rows.now ++ rows_left own.now.left.items)) taken.now }
    ensures count { IfOk result (λ s. length s.items ≡ shared.entry.inputs) }
    ensures sum { (n : ℕ) (key : ℕ → KeyOf n) → IfOk result (λ s. IsSame shared.entry.modulus.now.value (dense_sum key 0 s.items)
        (sources_sum key (shared.entry.rows.now ++ rows_left own.now.left.items) row.now taken.now)) }
{
    let modulus = shared.modulus;
    modulus.domain();
    let mut sources = vec![in alloc; 0; shared.inputs]?;
    let mut limit = first_limit(modulus);
    limit = add_sources(modulus, row, 1, &mut sources, limit);
    for part in taken {
        let added = row_numbered(shared.rows, own.left.as_slice(), part.0);
        limit = add_sources(modulus, added, part.1, &mut sources, limit);
    }
    Ok(sources)
}

/// The row whose multiple is left of a row to which these rows were added, monic, or none where nothing is left.
pub(crate) fn left_row(
    alloc: Global,
    shared: PassShared<'_>,
    own: &Own,
    row: &Row,
    left: &[(u32, u32)],
    taken: &[(usize, u32)],
) -> Result<Option<Row>, NoMemory>
    requires entries { AreEntries shared.modulus.now.value 0 (length own.now.pivots.items) left.now }
    requires rows { Each (λ r. AreEntries shared.modulus.now.value 0 shared.inputs r.sources) (shared.rows.now ++ rows_left own.now.left.items) }
    requires row { AreEntries shared.modulus.now.value 0 shared.inputs row.now.sources }
    requires taken { AreWithin shared.modulus.now.value (length (shared.rows.now ++ rows_left own.now.left.items)) taken.now }
    ensures { IfOk result (λ r. MatchOption r (left.now ≡ [])
        (IsLeftRow shared.entry.modulus.now.value (length own.now.pivots.items) shared.entry.inputs (shared.entry.rows.now ++ rows_left own.now.left.items)
        row.now left.now taken.now)) }
{
    let modulus = shared.modulus;
    modulus.domain();
    if left.is_empty() {
        return Ok(None);
    }
    match modulus.invert(left[0].1) {
        None => unreachable!(),
        Some(inverse) => {
            let entries = rescaled_entries(alloc, modulus, inverse, left)?;
            let numbers = compose_sources(alloc, shared, own, row, taken)?;
            let sources = collect_entries(alloc, modulus, inverse, &numbers)?;
            Ok(Some(Row::new(entries, sources)))
        }
    }
}

/// What the pivots leave of a row, monic, or none where it is in their span. Its first column has this pivot; without one the first
/// entry stays. At each column behind it the pivot is the row that the column's word names at a look, or else the helper's own.
/// `NoMemory` is the only error.
pub fn reduce_row(
    alloc: Global,
    shared: PassShared<'_>,
    seat: &mut ClaimSeat,
    own: &Own,
    work: &mut Work,
    row: &Row,
    pivot: Option<usize>,
) -> Result<Option<Row>, NoMemory>
    requires ready { AreRowsReady shared.modulus.now.value (length own.now.pivots.items) shared.inputs shared.rows.now
        shared.claims.now.rows.leads.items shared.claims.now.rows.held.items }
    requires own { ArePivots shared.modulus.now.value (length own.now.pivots.items) shared.inputs (rows_left own.now.left.items) own.now.pivots.items }
    requires idle { AreIdle (length own.now.pivots.items) work.old.numbers.items }
    requires seat { IsSeatOf shared.claims.now.table.shared.table_id shared.claims.now.rows.leads.items seat.old }
    requires row { IsRow shared.modulus.now.value (length own.now.pivots.items) shared.inputs row.now }
    requires pivot { HasPivot shared.modulus.now.value shared.rows.now (rows_left own.now.left.items) own.now.pivots.items
        (told seat.old) (first_column row.now.entries) pivot }
    ensures seat { IsSeatOf shared.entry.claims.now.table.shared.table_id shared.entry.claims.now.rows.leads.items seat.new }
    ensures follows { IsToldAfter (told seat.old) (told seat.new) }
    ensures idle { OnOk result (AreIdle (length own.now.pivots.items) work.new.numbers.items) }
    ensures rest { IfOk result (λ r. MatchOption r
        (IsGone shared.entry.modulus.now.value shared.entry.rows.now (rows_left own.now.left.items) (told seat.new) row.now)
        (IsRestFrom shared.entry.modulus.now.value (length own.now.pivots.items) shared.entry.inputs (least_left row.now.entries pivot)
        shared.entry.rows.now (rows_left own.now.left.items) (told seat.new) row.now)) }
    ensures stays { pivot ≡ None → IfOk result (λ r. MatchOption r ⊥ (λ x. first_column x.entries ≡ first_column row.now.entries)) }
{
    shared.modulus.domain();
    let columns = kept_number(own.pivots.as_slice().len())?;
    clear_columns(shared, seat, own, work, row, pivot, columns)?;
    let left = left_row(alloc, shared, own, row, &work.left, &work.taken)?;
    match left {
        None => Ok(None),
        Some(rest) => Ok(Some(rest)),
    }
}
