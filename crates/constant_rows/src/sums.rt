// A sum for each row.
ghost use Rattle.std.specs.Prelude.{◌≡◌, ◌<◌, ◌≤◌, ◌*◌, ◌+◌, ◌++◌, ◌^◌, ◌%◌, ℕ, Contains, OnOk, get_or, length, replicate};
ghost use Rattle.residues.specs.Residues.{IsCongruent};
ghost use Rattle.formal_sums.specs.FormalSums.{Each};
ghost use Rattle.constant_rows.specs.Rows.{AddsConstants, AreRowSums, AreZeros};

use crate::Constants;
use module_vectors::NoMemory;
use std::alloc::Global;
use zp_field::Modulus;

// From here on a sum is reduced: below it there is room for the product of two residues more in 64 bits.
const GREAT: u64 = 1 << 63;

/// A sum for each row, and the rows whose sum may not be 0.
pub struct RowSums {
    pub sums: Vec<u64>,
    pub touched: Vec<u32>,
}

// By hand, so that each drop of one is a call.
impl Drop for RowSums {
    fn drop(self) {
        let RowSums {
            sums: _,
            touched: _,
        } = self;
    }
}

/// No row has a sum yet.
pub fn no_sums(alloc: Global) -> RowSums
    ensures { AreZeros result.sums.items }
{
    RowSums {
        sums: Vec::new(alloc),
        touched: Vec::new(alloc),
    }
}

// The sum and the product of two residues more.
fn add_product(modulus: &Modulus, sum: u64, factor: u32, residue: u32) -> u64
    requires sum { sum < 2 ^ 63 }
    requires factor { factor < modulus.now.value }
    requires residue { residue < modulus.now.value }
    ensures small { result < 2 ^ 63 }
    ensures congruent { IsCongruent modulus.now.value result (sum + factor * residue) }
{
    modulus.domain();
    let more = sum + u64::from(factor) * u64::from(residue);
    if more < GREAT {
        more
    } else {
        more % u64::from(modulus.value())
    }
}

// Puts the row behind the others where its sum is 0.
fn touch(row: u32, sum: u64, touched: &mut Vec<u32>) -> Result<(), NoMemory>
    ensures kept { (i : ℕ) → OnOk result (Contains touched.old.items i → Contains touched.new.items i) }
    ensures added { OnOk result (sum ≡ 0 → Contains touched.new.items row) }
{
    if sum == 0 {
        touched.push(row)?;
    }
    Ok(())
}

// Gives the rows up to this width a sum, 0 where they have none.
fn widen(sums: &mut Vec<u64>, width: usize) -> Result<(), NoMemory>
    ensures wide { OnOk result (width ≤ length sums.new.items) }
    ensures zeros { OnOk result ((count : ℕ) × (sums.new.items ≡ sums.old.items ++ replicate count 0)) }
{
    while sums.len() < width {
        sums.push(0)?;
    }
    Ok(())
}

// Adds `factor` times the entries to the sums of their rows.
fn add_entries(
    modulus: &Modulus,
    factor: u32,
    entries: &[(u32, u32)],
    sums: &mut Vec<u64>,
    touched: &mut Vec<u32>,
) -> Result<(), NoMemory>
    requires factor { factor < modulus.now.value }
    requires below { Each (λ e. e.0 < length sums.old.items) entries.now }
    requires reduced { Each (λ e. e.1 < modulus.now.value) entries.now }
    requires sums { AreRowSums sums.old.items touched.old.items }
    ensures adds { OnOk result (AddsConstants modulus.now.value factor entries.now sums.old.items sums.new.items) }
    ensures sums { OnOk result (AreRowSums sums.new.items touched.new.items) }
{
    modulus.domain();
    for entry in entries {
        let at = entry.0 as usize;
        let sum = sums[at];
        touch(entry.0, sum, touched)?;
        sums[at] = add_product(modulus, sum, factor, entry.1);
    }
    Ok(())
}

/// Adds `factor` times the constants to the sums. `NoMemory` where there is none.
pub fn add_multiple(
    modulus: &Modulus,
    factor: u32,
    constants: &Constants,
    rows: &mut RowSums,
) -> Result<(), NoMemory>
    requires factor { factor < modulus.now.value }
    requires below { Each (λ e. e.0 < constants.now.width) constants.now.entries.items }
    requires reduced { Each (λ e. e.1 < modulus.now.value) constants.now.entries.items }
    requires sums { AreRowSums rows.old.sums.items rows.old.touched.items }
    ensures adds { OnOk result (AddsConstants modulus.now.value factor constants.now.entries.items rows.old.sums.items rows.new.sums.items) }
    ensures sums { OnOk result (AreRowSums rows.new.sums.items rows.new.touched.items) }
{
    widen(&mut rows.sums, constants.width)?;
    add_entries(
        modulus,
        factor,
        &constants.entries,
        &mut rows.sums,
        &mut rows.touched,
    )
}

/// The residue of the row's sum.
pub fn residue_at(modulus: &Modulus, rows: &RowSums, row: u64) -> u32
    ensures value { result ≡ get_or rows.now.sums.items row 0 % modulus.now.value }
    ensures small { result < modulus.now.value }
{
    modulus.domain();
    if row >= rows.sums.len() as u64 {
        return 0;
    }
    let sum = rows.sums[row as usize];
    // Most sums of a sparse vector are 0.
    if sum == 0 {
        return 0;
    }
    (sum % u64::from(modulus.value())) as u32
}
