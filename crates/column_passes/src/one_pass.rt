// One pass over the columns of a map, by degree, after which they have no constants.
ghost use Rattle.std.specs.Prelude.{◌≡◌, ◌<◌, [], List, ℕ, IfOk, OnOk, get_or, length, map};
ghost use Rattle.formal_sums.specs.FormalSums.{Each};
ghost use Rattle.term_lists.specs.Rings.{ring_comparison, variables};
ghost use Rattle.term_lists.specs.Vectors.{AreVectorsOver, IsVectorOver, sums_of};
ghost use Rattle.column_passes.specs.Passing.{AreFinished, AreGradedColumns, AreNumbered, HaveNoOthers, IsFreeOfSteps, IsMetOver, IsPassed};
ghost use Rattle.column_passes.specs.Passing.{IsColumnSorted, IsStepOver, LeaveNumbered, indices_in_turn};
ghost use Rattle.column_passes.specs.Placing.{ArePlacesAfter};

use crate::constants::least_unit;
use crate::placing::{Leaving, placed_vector, push_place};
use crate::sorting::by_degree;
use crate::steps::{NONE, Step, StepTable, clear_since, push_step};
use module_vectors::{NoMemory, Ring, Vect, VectList, VectStop, lawful_setting};
use std::alloc::Global;
use std::collections::VecDeque;

/// What became of a column: it is kept, with so many steps behind it, or left with its first constant, in this row and with this
/// inverse.
#[derive(Drop)]
pub(crate) struct Met {
    pub column: Vect,
    pub since: usize,
    pub choice: Option<(u64, u32)>,
}

/// The columns that are left, and the rows and the columns that leave.
pub struct Passed {
    pub columns: VectList,
    pub rows: Leaving,
    pub indices: Leaving,
}

// By hand, so that each drop of one is a call.
impl Drop for Passed {
    fn drop(self) {
        let Passed {
            columns: _,
            rows: _,
            indices: _,
        } = self;
    }
}

impl Passed {
    /// The columns alone.
    pub fn into_columns(self) -> VectList
        ensures { result ≡ self.columns }
    {
        let Passed {
            columns,
            rows: _,
            indices: _,
        } = self;
        columns
    }
}

// Keeps the column with this number, or where it has a constant makes a step of its first one.
fn sort_column(
    alloc: Global,
    ring: &Ring,
    index: usize,
    column: Vect,
    table: &mut StepTable,
    met: &mut Vec<Met>,
) -> Result<(), NoMemory>
    requires vector { IsVectorOver ring.now (ring_comparison ring.now) column }
    requires inside { index < length met.old.items }
    requires numbered { AreNumbered table.old.numbers.items 0 (map (λ s. s.row) table.old.steps.items) }
    requires others { HaveNoOthers table.old.numbers.items (map (λ s. s.row) table.old.steps.items) }
    requires free { IsFreeOfSteps column table.old.steps.items }
    ensures sorted { OnOk result (IsColumnSorted ring.now index column table.old.steps.items table.new.steps.items met.old.items met.new.items) }
    ensures numbered { OnOk result (AreNumbered table.new.numbers.items 0 (map (λ s. s.row) table.new.steps.items)) }
    ensures others { OnOk result (HaveNoOthers table.new.numbers.items (map (λ s. s.row) table.new.steps.items)) }
{
    lawful_setting(ring);
    match least_unit(&column) {
        None => {
            met[index] = Met {
                column,
                since: table.steps.len(),
                choice: None,
            };
        }
        Some(found) => {
            let inverse = match ring.modulus.invert(found.1) {
                Some(inverse) => inverse,
                None => unreachable!(),
            };
            met[index] = Met {
                column: Vect::zero(alloc),
                since: 0,
                choice: Some((found.0, inverse)),
            };
            let step = Step {
                row: found.0,
                inverse,
                column,
            };
            push_step(table, step)?;
        }
    }
    Ok(())
}

// So many columns that are not met yet.
fn not_met(alloc: Global, count: usize) -> Result<Vec<Met>, NoMemory>
    ensures count { IfOk result (λ met. length met.items ≡ count) }
    ensures none { IfOk result (λ met. Each (λ m. (m.column ≡ []) × (m.since ≡ 0)) met.items) }
{
    let mut met = Vec::with_capacity(alloc, count)?;
    while met.len() < count {
        met.push(Met {
            column: Vect::zero(alloc),
            since: 0,
            choice: None,
        })?;
    }
    Ok(met)
}

/// The rows that have the number of a step leave. `NoMemory` where there is none.
pub fn leaving_rows(alloc: Global, numbers: &[u64]) -> Result<Leaving, NoMemory>
    ensures { IfOk result (LeaveNumbered numbers.now) }
{
    let mut leaving = Leaving {
        places: Vec::with_capacity(alloc, numbers.len())?,
        count: 0,
    };
    for number in numbers {
        push_place(&mut leaving, *number != NONE)?;
    }
    Ok(leaving)
}

// The columns that have a choice leave.
fn leaving_columns(alloc: Global, met: &[Met]) -> Result<Leaving, NoMemory>
    ensures { IfOk result (ArePlacesAfter (indices_in_turn 0 met.now)) }
{
    let mut leaving = Leaving {
        places: Vec::with_capacity(alloc, met.len())?,
        count: 0,
    };
    for m in met {
        push_place(&mut leaving, m.choice.is_some())?;
    }
    Ok(leaving)
}

// The kept columns after the steps that were made since, without the rows that leave.
fn finish(
    alloc: Global,
    ring: &Ring,
    table: &StepTable,
    leaving: &Leaving,
    met: Vec<Met>,
) -> Result<VectList, VectStop>
    requires leaving { (rows : List ℕ) × ArePlacesAfter rows leaving.now }
    requires steps { Each (IsStepOver ring.now) table.now.steps.items }
    requires numbered { AreNumbered table.now.numbers.items 0 (map (λ s. s.row) table.now.steps.items) }
    requires met { Each (IsMetOver ring.now table.now.steps.items) met.items }
    ensures { (rows : List ℕ) → ArePlacesAfter rows leaving.now
        → IfOk result (AreFinished ring.now table.now.steps.items rows met.items) }
{
    lawful_setting(ring);
    let mut columns = Vec::with_capacity(alloc, met.len())?;
    let mut rest = VecDeque::from_vec(met);
    while let Some(next) = rest.pop_front() {
        match next.choice {
            None => match clear_since(alloc, ring, table, next.since, next.column) {
                Ok(column) => columns.push(placed_vector(alloc, ring, leaving, column)?)?,
                Err(stop) => return Err(stop),
            },
            Some(_) => {}
        }
    }
    Ok(VectList::from_vec(columns))
}

// The met columns after all steps, with the rows and the columns that leave.
fn finish_pass(
    alloc: Global,
    ring: &Ring,
    table: &StepTable,
    met: Vec<Met>,
) -> Result<Passed, VectStop>
    requires steps { Each (IsStepOver ring.now) table.now.steps.items }
    requires numbered { AreNumbered table.now.numbers.items 0 (map (λ s. s.row) table.now.steps.items) }
    requires met { Each (IsMetOver ring.now table.now.steps.items) met.items }
    ensures rows { IfOk result (λ p. LeaveNumbered table.now.numbers.items p.rows) }
    ensures indices { IfOk result (λ p. ArePlacesAfter (indices_in_turn 0 met.items) p.indices) }
    ensures finished { IfOk result (λ p. (rows : List ℕ) → ArePlacesAfter rows p.rows
        → AreFinished ring.now table.now.steps.items rows met.items p.columns) }
{
    let rows = leaving_rows(alloc, &table.numbers)?;
    let indices = leaving_columns(alloc, &met)?;
    match finish(alloc, ring, table, &rows, met) {
        Ok(columns) => Ok(Passed {
            columns,
            rows,
            indices,
        }),
        Err(stop) => Err(stop),
    }
}

// A copy of the column with this number.
fn column_copy(alloc: Global, columns: &[Vect], number: usize) -> Result<Vect, NoMemory>
    requires { number < length columns.now }
    ensures { IfOk result (λ v. v ≡ get_or columns.now number []) }
{
    columns[number].try_copy(alloc)
}

/// What is left of a map's columns when their constants leave, each time the first one. The columns have these degrees.
///
/// The columns are met by degree, those of one degree in their order: the steps so far are applied to the column, and it is kept, or
/// is the column of the next step. A step changes columns of its own degree and of greater ones alone, and the constants of columns of
/// its own degree alone; so what is left is what the first constant each time leaves. Rows keep their numbers until all columns are
/// met, and a table tells which step a row belongs to: a column is compared with the steps that have their row in it, and no others.
/// `Degree` comes where a product is too great, which need not be the first such product by the steps in turn.
pub fn pass(
    alloc: Global,
    ring: &Ring,
    degrees: &[u32],
    columns: &[Vect],
) -> Result<Passed, VectStop>
    requires vectors { AreVectorsOver ring.now (ring_comparison ring.now) columns.now }
    requires graded { AreGradedColumns ring.now degrees.now (sums_of (variables ring.now) columns.now) }
    ensures { IfOk result (IsPassed ring.now columns.now) }
{
    lawful_setting(ring);
    let mut table = StepTable {
        steps: Vec::new(alloc),
        numbers: Vec::new(alloc),
    };
    let mut met = not_met(alloc, columns.len())?;
    let order = by_degree(alloc, degrees, columns.len())?;
    for k in 0..order.len() {
        let number = order[k];
        let copy = column_copy(alloc, columns, number)?;
        match clear_since(alloc, ring, &table, 0, copy) {
            Ok(after) => sort_column(alloc, ring, number, after, &mut table, &mut met)?,
            Err(stop) => return Err(stop),
        }
    }
    finish_pass(alloc, ring, &table, met)
}
