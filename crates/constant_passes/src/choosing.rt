// The rows and the columns that leave a map, by its constants alone.
ghost use Rattle.std.specs.Prelude.{◌≡◌, ◌<◌, ◌++◌, ◌∷◌, [], List, ℕ, IfOk, OnOk, get_or, length, map};
ghost use Rattle.formal_sums.specs.FormalSums.{Each};
ghost use Rattle.term_lists.specs.Rings.{variables};
ghost use Rattle.term_lists.specs.Vectors.{AreTermsOver, sums_of};
ghost use Rattle.column_passes.specs.Passing.{AreGradedColumns, AreNumbered, HaveNoOthers};
ghost use Rattle.column_passes.specs.Placing.{ArePlacesAfter};
ghost use Rattle.constant_passes.specs.Choosing.{AreFree, IsChosen, IsColumnChosen, IsColumnMet, IsLeastEntry, IsPassOver, IsPassStart, columns_without_rows};
ghost use Rattle.constant_passes.specs.Listing.{constants_at};
ghost use Rattle.constant_passes.specs.Steps.{AreLeftOver};

use crate::clearing::{Step, StepTable, left_over, push_step};
use crate::leaving::{Chosen, finish};
use column_passes::{Leaving, by_degree};
use constant_rows::{Constants, RowSums, no_sums};
use module_vectors::{Key, NoMemory, Ring, Vect, lawful_setting};
use std::alloc::Global;

/// How far a pass has come.
pub(crate) struct Pass {
    pub table: StepTable,
    /// For each column that left the row and the inverse of its constant.
    pub choices: Vec<Option<(u64, u32)>>,
    /// Room for the constants of a column.
    pub found: Constants,
    /// Room for their sums, which are 0 between columns.
    pub rows: RowSums,
}

// By hand, so that each drop of one is a call.
impl Drop for Pass {
    fn drop(self) {
        let Pass {
            table: _,
            choices: _,
            found: _,
            rows: _,
        } = self;
    }
}

// Nothing for each of so many columns.
fn no_choices(alloc: Global, count: usize) -> Result<Vec<Option<(u64, u32)>>, NoMemory>
    ensures { IfOk result (λ choices. length choices.items ≡ count) }
{
    let mut choices = Vec::with_capacity(alloc, count)?;
    while choices.len() < count {
        choices.push(None)?;
    }
    Ok(choices)
}

// None of so many columns is met yet.
fn start(alloc: Global, count: usize) -> Result<Pass, NoMemory>
    ensures { IfOk result (IsPassStart count) }
{
    let choices = no_choices(alloc, count)?;
    Ok(Pass {
        table: StepTable {
            steps: Vec::new(alloc),
            numbers: Vec::new(alloc),
        },
        choices,
        found: Constants {
            entries: Vec::new(alloc),
            width: 0,
        },
        rows: no_sums(alloc),
    })
}

// The entry with the less row.
fn lower(least: Option<(u32, u32)>, entry: (u32, u32)) -> Option<(u32, u32)>
    ensures { (entries : List (ℕ × ℕ)) → IsLeastEntry entries least → IsLeastEntry (entries ++ entry ∷ []) result }
{
    if let Some(found) = least {
        if found.0 <= entry.0 {
            return least;
        }
    }
    Some(entry)
}

// The entry with the least row.
fn least_entry(entries: &[(u32, u32)]) -> Option<(u32, u32)>
    ensures { IsLeastEntry entries.now result }
{
    let mut least = None;
    for entry in entries {
        least = lower(least, *entry);
    }
    least
}

// Makes the least constant that is left of the column with this number the next step, if there is one.
fn choose(
    ring: &Ring,
    number: usize,
    column: Constants,
    table: &mut StepTable,
    choices: &mut Vec<Option<(u64, u32)>>,
) -> Result<(), NoMemory>
    requires column { AreLeftOver ring.now column }
    requires inside { number < length choices.old.items }
    requires numbered { AreNumbered table.old.numbers.items 0 (map (λ s. s.row) table.old.steps.items) }
    requires others { HaveNoOthers table.old.numbers.items (map (λ s. s.row) table.old.steps.items) }
    requires free { Each (λ e. Each (λ s. s.row ≡ e.0 → ⊥) table.old.steps.items) column.entries.items }
    ensures chosen { OnOk result (IsColumnChosen ring.now number column table.old.steps.items table.new.steps.items choices.old.items choices.new.items) }
    ensures numbered { OnOk result (AreNumbered table.new.numbers.items 0 (map (λ s. s.row) table.new.steps.items)) }
    ensures others { OnOk result (HaveNoOthers table.new.numbers.items (map (λ s. s.row) table.new.steps.items)) }
{
    lawful_setting(ring);
    match least_entry(&column.entries) {
        None => {
            choices[number] = None;
            Ok(())
        }
        Some(found) => {
            let inverse = match ring.modulus.invert(found.1) {
                Some(inverse) => inverse,
                None => unreachable!(),
            };
            let row = u64::from(found.0);
            choices[number] = Some((row, inverse));
            let step = Step {
                row,
                inverse,
                column,
            };
            push_step(step, table)
        }
    }
}

// Clears the constants of the column with this number by the steps so far, and makes the least one that is left the next step.
fn meet(
    alloc: Global,
    ring: &Ring,
    leaving: &Leaving,
    number: usize,
    terms: &[(Key, u32)],
    pass: &mut Pass,
) -> Result<(), NoMemory>
    requires leaving { (rows : List ℕ) × ArePlacesAfter rows leaving.now }
    requires terms { AreTermsOver ring.now terms.now }
    requires inside { number < length pass.old.choices.items }
    requires pass { IsPassOver ring.now pass.old }
    requires free { (rows : List ℕ) → ArePlacesAfter rows leaving.now
        → AreFree ring.now pass.old.table.steps.items (constants_at (variables ring.now) rows terms.now) }
    ensures met { (rows : List ℕ) → ArePlacesAfter rows leaving.now
        → OnOk result (IsColumnMet ring.now number (constants_at (variables ring.now) rows terms.now) pass.old pass.new) }
    ensures pass { OnOk result (IsPassOver ring.now pass.new) }
{
    let column = left_over(
        alloc,
        ring,
        leaving,
        &pass.table,
        terms,
        &mut pass.found,
        &mut pass.rows,
    )?;
    choose(ring, number, column, &mut pass.table, &mut pass.choices)
}

// The terms of the column with this number.
fn terms_at(columns: &[Vect], number: usize) -> &[(Key, u32)]
    requires { number < length columns.now }
    ensures { result.now ≡ get_or columns.now number [] }
{
    columns[number].terms()
}

/// The rows and the columns that leave the map of these columns, without the rows that left before, when its constants leave, each time
/// the first one. The columns have these degrees; the order of their terms does not matter. The constants alone decide it: those of a
/// column are cleared by the steps of columns before it, by degree, and the least row that is left makes the next step. `NoMemory` where
/// there is none, and where the place of a row with a constant is 2^32 or more.
pub fn chosen(
    alloc: Global,
    ring: &Ring,
    degrees: &[u32],
    leaving: &Leaving,
    columns: &[Vect],
) -> Result<Chosen, NoMemory>
    requires terms { Each (AreTermsOver ring.now) columns.now }
    requires leaving { (rows : List ℕ) × ArePlacesAfter rows leaving.now }
    requires graded { (rows : List ℕ) → ArePlacesAfter rows leaving.now
        → AreGradedColumns ring.now degrees.now (columns_without_rows rows (sums_of (variables ring.now) columns.now)) }
    ensures { (rows : List ℕ) → ArePlacesAfter rows leaving.now
        → IfOk result (IsChosen ring.now (columns_without_rows rows (sums_of (variables ring.now) columns.now))) }
{
    lawful_setting(ring);
    let mut pass = start(alloc, columns.len())?;
    let order = by_degree(alloc, degrees, columns.len())?;
    for k in 0..order.len() {
        let number = order[k];
        let terms = terms_at(columns, number);
        meet(alloc, ring, leaving, number, terms, &mut pass)?;
    }
    finish(alloc, &pass.table.numbers, &pass.choices)
}
