// The constants that sums by row stand for.
ghost use Rattle.std.specs.Prelude.{◌≡◌, ◌<◌, ◌≤◌, ◌%◌, ℕ, IfOk, OnOk, get_or, set};
ghost use Rattle.monomials.specs.Exponents.{unit};
ghost use Rattle.formal_sums.specs.FormalSums.{Each, IsSame, coefficient};
ghost use Rattle.constant_rows.specs.Rows.{AreRowSums, AreZeros, entry_constants, row_constants};

use crate::{Constants, RowSums};
use module_vectors::NoMemory;
use std::alloc::Global;
use zp_field::Modulus;

// A width above this one, or this one, that is above the row.
fn wider(width: usize, row: u32) -> usize
    ensures kept { width ≤ result }
    ensures above { row < result }
{
    if (row as usize) < width {
        return width;
    }
    row as usize + 1
}

// The residue of the row's sum, which is 0 then.
fn take_residue(modulus: &Modulus, row: u32, sums: &mut Vec<u64>) -> u32
    ensures value { result ≡ get_or sums.old.items row 0 % modulus.now.value }
    ensures small { result < modulus.now.value }
    ensures taken { sums.new.items ≡ set sums.old.items row 0 }
{
    modulus.domain();
    let at = row as usize;
    if at >= sums.len() {
        return 0;
    }
    let sum = sums[at];
    sums[at] = 0;
    (sum % u64::from(modulus.value())) as u32
}

// The constants of the touched rows, whose sums are 0 then.
fn taken_constants(
    alloc: Global,
    modulus: &Modulus,
    touched: &[u32],
    sums: &mut Vec<u64>,
) -> Result<Constants, NoMemory>
    requires { AreRowSums sums.old.items touched.now }
    ensures sum { (n : ℕ) → IfOk result (λ c. IsSame modulus.now.value (entry_constants n c.entries.items) (row_constants n 0 sums.old.items)) }
    ensures below { IfOk result (λ c. Each (λ e. e.0 < c.width) c.entries.items) }
    ensures reduced { IfOk result (λ c. Each (λ e. (0 < e.1) × (e.1 < modulus.now.value)) c.entries.items) }
    ensures coefficients { (n : ℕ) → IfOk result (λ c. Each (λ e. coefficient (entry_constants n c.entries.items) (e.0, unit n) ≡ e.1) c.entries.items) }
    ensures zeros { OnOk result (AreZeros sums.new.items) }
{
    modulus.domain();
    let mut entries = Vec::with_capacity(alloc, touched.len())?;
    let mut width = 0;
    for row in touched {
        let residue = take_residue(modulus, *row, sums);
        if residue == 0 {
            continue;
        }
        entries.push((*row, residue))?;
        width = wider(width, *row);
    }
    Ok(Constants { entries, width })
}

/// The constants that the sums stand for, which are all 0 then: a row and a residue each, no row twice, no residue 0. `NoMemory` where
/// there is none.
pub fn take_constants(
    alloc: Global,
    modulus: &Modulus,
    rows: &mut RowSums,
) -> Result<Constants, NoMemory>
    requires sums { AreRowSums rows.old.sums.items rows.old.touched.items }
    ensures sum { (n : ℕ) → IfOk result (λ c. IsSame modulus.now.value (entry_constants n c.entries.items) (row_constants n 0 rows.old.sums.items)) }
    ensures below { IfOk result (λ c. Each (λ e. e.0 < c.width) c.entries.items) }
    ensures reduced { IfOk result (λ c. Each (λ e. (0 < e.1) × (e.1 < modulus.now.value)) c.entries.items) }
    ensures coefficients { (n : ℕ) → IfOk result (λ c. Each (λ e. coefficient (entry_constants n c.entries.items) (e.0, unit n) ≡ e.1) c.entries.items) }
    ensures zeros { OnOk result (AreZeros rows.new.sums.items) }
{
    let constants = taken_constants(alloc, modulus, &rows.touched, &mut rows.sums)?;
    rows.touched.clear();
    Ok(constants)
}
