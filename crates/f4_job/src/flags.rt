// Which columns are the first ones of rows.
ghost use Rattle.std.specs.Prelude.{◌≡◌, ◌<◌, length, IfOk};
ghost use Rattle.formal_sums.specs.FormalSums.{Each};
ghost use Rattle.row_matrix.specs.Rows.{first_column};
ghost use Rattle.f4_job.specs.Flags.{AreFlags, unflagged};

use module_vectors::NoMemory;
use row_matrix::Row;
use std::alloc::Global;
use std::collections::VecDeque;

/// A flag for each of so many columns, set where the column is the first one of a row.
pub(crate) fn flags_of(alloc: Global, columns: usize, rows: &[Row]) -> Result<Vec<bool>, NoMemory>
    requires { Each (λ r. (0 < length r.entries) × (first_column r.entries < columns)) rows.now }
    ensures flags { IfOk result (λ flags. AreFlags rows.now flags.items) }
    ensures len { IfOk result (λ flags. length flags.items ≡ columns) }
{
    let mut flags = vec![in alloc; false; columns]?;
    for row in rows {
        flags[row.entries()[0].0 as usize] = true;
    }
    Ok(flags)
}

/// The rows whose first column has no flag.
pub(crate) fn unflagged_rows(
    alloc: Global,
    flags: &[bool],
    rows: Vec<Row>,
) -> Result<Vec<Row>, NoMemory>
    requires { Each (λ r. (0 < length r.entries) × (first_column r.entries < length flags.now)) rows.items }
    ensures { IfOk result (λ left. left.items ≡ unflagged flags.now rows.items) }
{
    let mut left = Vec::new(alloc);
    let mut rest = VecDeque::from_vec(rows);
    while let Some(row) = rest.pop_front() {
        if !flags[row.entries()[0].0 as usize] {
            left.push(row)?;
        }
    }
    Ok(left)
}
