// Echelon forms of two or three rows modulo 7, by helpers side by side.
ghost use Rattle.std.specs.Prelude.{◌≡◌, ◌<◌, [], ◌∷◌, length, IfOk};
ghost use Rattle.formal_sums.specs.FormalSums.{Each};
ghost use Rattle.row_matrix.specs.Rows.{AreEntries, IsRow, first_residue};

use module_vectors::{Key, NoMemory};
use monomial_orders::Mono;
use row_matrix::{Matrix, Row};
use row_reduce::echelon;
use std::alloc::Global;
use std::test::Fail;
use std::thread::Threads;
use worker_gate::{Gate, HeldGate, OpenGate, Point, SharedGate};
use zp_field::Modulus;

// So many columns: each the constant at a position of its own.
fn columns_of(alloc: Global, count: u64) -> Result<Vec<Key>, NoMemory>
    ensures { IfOk result (λ keys. length keys.items ≡ count) }
{
    let mut keys = Vec::new(alloc);
    for position in 0..count {
        let monomial = Mono::unit(alloc, 1)?;
        keys.push(Key { position, monomial })?;
    }
    Ok(keys)
}

// The input row with this number.
fn input_row(alloc: Global, entries: &[(u32, u32)], number: u32) -> Result<Row, NoMemory>
    ensures entries { IfOk result (λ r. r.entries ≡ entries.now) }
    ensures sources { IfOk result (λ r. r.sources ≡ (number, 1) ∷ []) }
{
    let mut own = Vec::with_capacity(alloc, entries.len())?;
    own.extend_from_slice(entries)?;
    let mut sources = Vec::with_capacity(alloc, 1)?;
    sources.push((number, 1))?;
    Ok(Row::new(own, sources))
}

// The echelon form modulo 7 of so many input rows over so many columns. Each addition of a pass is worth a helper more.
fn form_of<R: Threads + Sync>(
    rt: &R,
    alloc: Global,
    gate: &SharedGate,
    helpers: u32,
    count: u64,
    inputs: usize,
    rows: Vec<Row>,
) -> Result<Vec<Row>, NoMemory>
    requires helpers { 0 < helpers }
    requires rows { Each (IsRow 7 count inputs) rows.items }
{
    let Some(modulus) = Modulus::of(7) else {
        return Err(NoMemory);
    };
    let columns = columns_of(alloc, count)?;
    let matrix = Matrix::new(columns, inputs, rows);
    let form = echelon(rt, alloc, &modulus, matrix, helpers, 0, gate)?;
    Ok(form.rows)
}

// The echelon form of two rows.
fn found<R: Threads + Sync>(
    rt: &R,
    alloc: Global,
    gate: &SharedGate,
    helpers: u32,
    count: u64,
    first: &[(u32, u32)],
    second: &[(u32, u32)],
) -> Result<Vec<Row>, NoMemory>
    requires helpers { 0 < helpers }
    requires first { AreEntries 7 0 count first.now }
    requires second { AreEntries 7 0 count second.now }
    requires lead { first_residue first.now ≡ 1 }
    requires next { first_residue second.now ≡ 1 }
{
    let mut rows = Vec::with_capacity(alloc, 2)?;
    rows.push(input_row(alloc, first, 0)?)?;
    rows.push(input_row(alloc, second, 1)?)?;
    form_of(rt, alloc, gate, helpers, count, 2, rows)
}

// The echelon form of three rows.
fn found_of_three<R: Threads + Sync>(
    rt: &R,
    alloc: Global,
    gate: &SharedGate,
    helpers: u32,
    count: u64,
    first: &[(u32, u32)],
    second: &[(u32, u32)],
    third: &[(u32, u32)],
) -> Result<Vec<Row>, NoMemory>
    requires helpers { 0 < helpers }
    requires first { AreEntries 7 0 count first.now }
    requires second { AreEntries 7 0 count second.now }
    requires third { AreEntries 7 0 count third.now }
    requires lead { first_residue first.now ≡ 1 }
    requires next { first_residue second.now ≡ 1 }
    requires last { first_residue third.now ≡ 1 }
{
    let mut rows = Vec::with_capacity(alloc, 3)?;
    rows.push(input_row(alloc, first, 0)?)?;
    rows.push(input_row(alloc, second, 1)?)?;
    rows.push(input_row(alloc, third, 2)?)?;
    form_of(rt, alloc, gate, helpers, count, 3, rows)
}

// Two rows with one lead: the one with fewer entries has the column, and what is left of the other has the next lead.
fn two_leads<R: Threads + Sync>(
    rt: &R,
    alloc: Global,
    gate: &SharedGate,
    helpers: u32,
) -> Option<bool>
    requires { 0 < helpers }
{
    let Ok(rows) = found(
        rt,
        alloc,
        gate,
        helpers,
        3,
        &[(0, 1), (1, 2)],
        &[(0, 1), (1, 3), (2, 1)],
    ) else {
        return None;
    };
    if rows.len() != 2 {
        return Some(false);
    }
    Some(
        rows[0].entries() == [(1, 1), (2, 1)].as_slice()
            && rows[1].entries() == [(0, 1), (1, 2)].as_slice(),
    )
}

// The same where a row of a column of its own comes first, so that of two helpers the first has it and the last of the others.
fn a_lead_apart<R: Threads + Sync>(
    rt: &R,
    alloc: Global,
    gate: &SharedGate,
    helpers: u32,
) -> Option<bool>
    requires { 0 < helpers }
{
    let Ok(rows) = found_of_three(
        rt,
        alloc,
        gate,
        helpers,
        4,
        &[(0, 1)],
        &[(1, 1), (2, 2)],
        &[(1, 1), (2, 3), (3, 1)],
    ) else {
        return None;
    };
    if rows.len() != 3 {
        return Some(false);
    }
    Some(
        rows[0].entries() == [(2, 1), (3, 1)].as_slice()
            && rows[1].entries() == [(1, 1), (2, 2)].as_slice(),
    )
}

#[test]
fn one_of_two_equal_rows_is_left(rt: HostRuntime) -> Result<(), Fail> {
    let gate = OpenGate.shared();
    let Ok(rows) = found(
        &rt,
        rt.alloc(),
        &gate,
        2,
        2,
        &[(0, 1), (1, 2)],
        &[(0, 1), (1, 2)],
    ) else {
        panic!(rt; "memory")
    };
    assert_eq!(rt; rows.len(), 1);
    assert!(rt; rows[0].entries() == [(0, 1), (1, 2)].as_slice());
    Ok(())
}

#[test]
fn any_number_of_helpers_finds_both_leads(rt: HostRuntime) -> Result<(), Fail> {
    for helpers in [1, 2, 16] {
        let gate = OpenGate.shared();
        assert_eq!(rt;
            two_leads(&rt, rt.alloc(), &gate, helpers),
            Some(true),
            "{helpers} helpers"
        );
    }
    Ok(())
}

// The row with the fewest entries has its column, whichever helper has the row and starts first.
#[test]
fn the_first_claims_are_for_all(rt: HostRuntime) -> Result<(), Fail> {
    let gate = OpenGate.shared();
    for turn in 0..200 {
        assert_eq!(rt;
            two_leads(&rt, rt.alloc(), &gate, 2),
            Some(true),
            "turn {turn}"
        );
        assert_eq!(rt;
            a_lead_apart(&rt, rt.alloc(), &gate, 2),
            Some(true),
            "turn {turn}"
        );
    }
    Ok(())
}

#[test]
fn two_helpers_claim_one_column_side_by_side(rt: HostRuntime) -> Result<(), Fail> {
    let gate = HeldGate::new(rt.alloc(), Point::RowClaimed)?;
    assert_eq!(rt; two_leads(&rt, rt.alloc(), &gate.shared(), 2), Some(true));
    assert!(rt; gate.met());
    assert!(rt; !gate.ran_out());
    Ok(())
}
