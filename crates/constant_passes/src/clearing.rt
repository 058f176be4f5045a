// Constants that left a map, and the constants of columns after them.
ghost use Rattle.std.specs.Prelude.{◌≡◌, ◌<◌, ◌≤◌, ◌++◌, ◌∷◌, [], List, ℕ, IfOk, OnOk, get_or, map};
ghost use Rattle.formal_sums.specs.FormalSums.{Each, IsSame};
ghost use Rattle.minimal_laws.specs.Cancellation.{cleared};
ghost use Rattle.term_lists.specs.Rings.{variables};
ghost use Rattle.term_lists.specs.Vectors.{AreTermsOver};
ghost use Rattle.constant_rows.specs.Rows.{AreRowSums, AreZeros, entry_constants, row_constants};
ghost use Rattle.column_passes.specs.Passing.{AreNumbered, HaveNoOthers};
ghost use Rattle.column_passes.specs.Placing.{ArePlacesAfter};
ghost use Rattle.constant_passes.specs.Listing.{constants_at};
ghost use Rattle.constant_passes.specs.Steps.{AreLeftOver, IsConstantStep, cleared_by_constants};

use crate::listing::find_constants;
use column_passes::Leaving;
use constant_rows::{Constants, RowSums, add_multiple, residue_at, take_constants};
use module_vectors::{Key, NoMemory, Ring, lawful_setting};
use std::alloc::Global;

/// What a table of steps has at a row of none.
const NONE: u64 = u64::MAX;

/// A constant that leaves a map.
pub(crate) struct Step {
    /// Its row.
    pub row: u64,
    /// The inverse of the constant.
    pub inverse: u32,
    /// The constants of its column as they stood.
    pub column: Constants,
}

// By hand, so that each drop of one is a call.
impl Drop for Step {
    fn drop(self) {
        let Step {
            row: _,
            inverse: _,
            column: _,
        } = self;
    }
}

/// The steps so far, and at each row the number of its step.
pub(crate) struct StepTable {
    pub steps: Vec<Step>,
    pub numbers: Vec<u64>,
}

// By hand, so that each drop of one is a call.
impl Drop for StepTable {
    fn drop(self) {
        let StepTable {
            steps: _,
            numbers: _,
        } = self;
    }
}

// The number of the row's step.
fn number_at(numbers: &[u64], row: u32) -> u64
    ensures { result ≡ get_or numbers.now row 18446744073709551615 }
{
    let at = row as usize;
    if at < numbers.len() {
        return numbers[at];
    }
    NONE
}

// The less of the two.
fn less(least: u64, number: u64) -> u64
    ensures first { result ≤ least }
    ensures second { result ≤ number }
{
    if number < least {
        return number;
    }
    least
}

// The least step that has its row among these.
fn first_step(numbers: &[u64], entries: &[(u32, u32)]) -> u64
    ensures { Each (λ e. result ≤ get_or numbers.now e.0 18446744073709551615) entries.now }
{
    let mut least = NONE;
    for entry in entries {
        least = less(least, number_at(numbers, entry.0));
    }
    least
}

// Takes away the multiple of the step's column by which the sum in its row vanishes.
fn clear_sums(ring: &Ring, step: &Step, rows: &mut RowSums) -> Result<(), NoMemory>
    requires step { IsConstantStep ring.now step.now }
    requires sums { AreRowSums rows.old.sums.items rows.old.touched.items }
    ensures sum { let n = variables ring.now in OnOk result (IsSame ring.now.modulus.value (row_constants n 0 rows.new.sums.items)
        (cleared ring.now.modulus.value step.now.row step.now.inverse (entry_constants n step.now.column.entries.items)
        (row_constants n 0 rows.old.sums.items))) }
    ensures sums { OnOk result (AreRowSums rows.new.sums.items rows.new.touched.items) }
{
    lawful_setting(ring);
    let modulus = &ring.modulus;
    let residue = residue_at(modulus, rows, step.row);
    if residue == 0 {
        return Ok(());
    }
    let factor = modulus.neg(modulus.mul(step.inverse, residue));
    add_multiple(modulus, factor, &step.column, rows)
}

// The sums by rows of these constants after all steps in turn; those before the first that has its row among them take nothing away.
fn clear(
    ring: &Ring,
    table: &StepTable,
    found: &Constants,
    rows: &mut RowSums,
) -> Result<(), NoMemory>
    requires steps { Each (IsConstantStep ring.now) table.now.steps.items }
    requires numbered { AreNumbered table.now.numbers.items 0 (map (λ s. s.row) table.now.steps.items) }
    requires below { Each (λ e. e.0 < found.now.width) found.now.entries.items }
    requires reduced { Each (λ e. e.1 < ring.now.modulus.value) found.now.entries.items }
    requires zeros { AreZeros rows.old.sums.items }
    ensures sum { let n = variables ring.now in OnOk result (IsSame ring.now.modulus.value (row_constants n 0 rows.new.sums.items)
        (cleared_by_constants ring.now table.now.steps.items (entry_constants n found.now.entries.items))) }
    ensures sums { OnOk result (AreRowSums rows.new.sums.items rows.new.touched.items) }
{
    lawful_setting(ring);
    let first = first_step(&table.numbers, &found.entries) as usize;
    add_multiple(&ring.modulus, 1, found, rows)?;
    for k in first..table.steps.len() {
        clear_sums(ring, &table.steps[k], rows)?;
    }
    Ok(())
}

/// The constants of a column's terms after the steps in turn. The sums are 0 before and after. `NoMemory` where there is none, and
/// where the place of a row is 2^32 or more.
pub(crate) fn left_over(
    alloc: Global,
    ring: &Ring,
    leaving: &Leaving,
    table: &StepTable,
    terms: &[(Key, u32)],
    found: &mut Constants,
    rows: &mut RowSums,
) -> Result<Constants, NoMemory>
    requires steps { Each (IsConstantStep ring.now) table.now.steps.items }
    requires numbered { AreNumbered table.now.numbers.items 0 (map (λ s. s.row) table.now.steps.items) }
    requires terms { AreTermsOver ring.now terms.now }
    requires zeros { AreZeros rows.old.sums.items }
    ensures left { (places : List ℕ) → ArePlacesAfter places leaving.now → let n = variables ring.now in
        IfOk result (λ c. IsSame ring.now.modulus.value (entry_constants n c.entries.items)
        (cleared_by_constants ring.now table.now.steps.items (constants_at n places terms.now))) }
    ensures over { IfOk result (AreLeftOver ring.now) }
    ensures zeros { OnOk result (AreZeros rows.new.sums.items) }
{
    find_constants(ring, leaving, terms, found)?;
    clear(ring, table, found, rows)?;
    take_constants(alloc, &ring.modulus, rows)
}

// Puts the number at the row.
fn number_row(numbers: &mut Vec<u64>, row: u64, number: u64) -> Result<(), NoMemory>
    ensures here { OnOk result (get_or numbers.new.items row 18446744073709551615 ≡ number) }
    ensures others { (q : ℕ) → (q ≡ row → ⊥)
        → OnOk result (get_or numbers.new.items q 18446744073709551615 ≡ get_or numbers.old.items q 18446744073709551615) }
{
    while numbers.len() as u64 <= row {
        numbers.push(NONE)?;
    }
    numbers[row as usize] = number;
    Ok(())
}

/// Puts the step behind the others; they have other rows.
pub(crate) fn push_step(step: Step, table: &mut StepTable) -> Result<(), NoMemory>
    requires numbered { AreNumbered table.old.numbers.items 0 (map (λ s. s.row) table.old.steps.items) }
    requires others { HaveNoOthers table.old.numbers.items (map (λ s. s.row) table.old.steps.items) }
    requires other { Each (λ s. s.row ≡ step.row → ⊥) table.old.steps.items }
    ensures numbered { OnOk result (AreNumbered table.new.numbers.items 0 (map (λ s. s.row) table.new.steps.items)) }
    ensures others { OnOk result (HaveNoOthers table.new.numbers.items (map (λ s. s.row) table.new.steps.items)) }
    ensures steps { OnOk result (table.new.steps.items ≡ table.old.steps.items ++ step ∷ []) }
{
    let number = table.steps.len() as u64;
    number_row(&mut table.numbers, step.row, number)?;
    table.steps.push(step)?;
    Ok(())
}
