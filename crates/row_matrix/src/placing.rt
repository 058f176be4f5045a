// Rows over the numbers of a table as rows over columns.
ghost use Rattle.std.specs.Prelude.{◌≡◌, ◌<◌, ◌≤◌, ◌+◌, ◌++◌, List, [], ◌∷◌, ℕ, length, get_or, map, IfOk, OnOk};
ghost use Rattle.std.specs.Vec.{vec_len, vec_capacity};
ghost use Rattle.formal_sums.specs.FormalSums.{Each};
ghost use Rattle.term_lists.specs.Rings.{variables};
ghost use Rattle.row_matrix.specs.Rows.{AreKeys};
ghost use Rattle.row_matrix.specs.Placed.{IsPlacedMatrix, placed_entries, placed_row};

use crate::numbering::number_columns;
use crate::{Matrix, Row};
use module_vectors::{Frame, Key, NoMemory};
use std::alloc::Global;
use std::collections::VecDeque;

// The entries with the places of their numbers.
fn place_entries(places: &[u32], entries: &mut [(u32, u32)])
    requires { Each (λ e. e.0 < length places.now) entries.old }
    ensures { entries.new ≡ placed_entries places.now entries.old }
{
    for k in 0..entries.len() {
        entries[k].0 = places[entries[k].0 as usize];
    }
}

// The row with the places of its numbers.
fn place_row(places: &[u32], row: Row) -> Row
    requires { Each (λ e. e.0 < length places.now) row.entries }
    ensures { result ≡ placed_row places.now row }
{
    let (mut entries, sources) = row.into_parts();
    place_entries(places, &mut entries);
    Row::new(entries, sources)
}

// The rows with the places of their numbers.
fn place_rows(alloc: Global, places: &[u32], rows: Vec<Row>) -> Result<Vec<Row>, NoMemory>
    requires { Each (λ r. Each (λ e. e.0 < length places.now) r.entries) rows.items }
    ensures { IfOk result (λ placed. placed.items ≡ map (λ r. placed_row places.now r) rows.items) }
{
    let mut out = Vec::with_capacity(alloc, rows.len())?;
    let mut rest = VecDeque::from_vec(rows);
    while let Some(row) = rest.pop_front() {
        out.push_reserved(place_row(places, row));
    }
    Ok(out)
}

/// The matrix of rows whose entries have the numbers of these keys: the keys are its columns, the greatest first.
pub fn place_matrix<F: Frame>(
    alloc: Global,
    frame: &F,
    keys: &[Key],
    inputs: usize,
    rows: Vec<Row>,
) -> Result<Matrix, NoMemory>
    requires monomials { AreKeys (variables (F.over frame.now)) (F.over frame.now).weights keys.now }
    requires known { Each (λ r. Each (λ e. e.0 < length keys.now) r.entries) rows.items }
    ensures { let n = variables (F.over frame.now) in
        IfOk result (IsPlacedMatrix n (F.over frame.now).weights (F.compare frame.now n) keys.now inputs rows.items) }
{
    let numbering = number_columns(alloc, frame, keys)?;
    let rows = place_rows(alloc, &numbering.places, rows)?;
    Ok(Matrix::new(numbering.columns, inputs, rows))
}
