// Constants that left a map, and vectors after them.
ghost use Rattle.std.specs.Prelude.{◌≡◌, ◌≤◌, ◌++◌, ◌∷◌, [], ℕ, IfOk, OnOk, drop, get_or, map};
ghost use Rattle.formal_sums.specs.FormalSums.{Each};
ghost use Rattle.term_lists.specs.Rings.{ring_comparison, variables};
ghost use Rattle.term_lists.specs.Vectors.{IsVectorOver, StandsFor, sum_of};
ghost use Rattle.column_passes.specs.Passing.{AreNumbered, HaveNoOthers, IsStepOver, cleared_all};

use crate::clearing::cleared_vector;
use module_vectors::{NoMemory, Ring, Vect, VectStop, lawful_setting};
use std::alloc::Global;

/// What a table of steps has at a row of none.
pub(crate) const NONE: u64 = u64::MAX;

/// A constant that leaves a map.
#[derive(Drop)]
pub(crate) struct Step {
    /// Its row, by the number that the map's rows have first.
    pub row: u64,
    /// The inverse of the constant.
    pub inverse: u32,
    /// Its column as it stood.
    pub column: Vect,
}

/// The steps so far, and at each row the number of its step.
pub(crate) struct StepTable {
    pub steps: Vec<Step>,
    pub numbers: Vec<u64>,
}

// By hand, so that each drop of one is a call.
impl Drop for StepTable {
    fn drop(self) {
        let StepTable {
            steps: _,
            numbers: _,
        } = self;
    }
}

// The number of the row's step.
fn number_at(numbers: &[u64], row: u64) -> u64
    ensures { result ≡ get_or numbers.now row 18446744073709551615 }
{
    if row < numbers.len() as u64 {
        return numbers[row as usize];
    }
    NONE
}

// The less of the two, if the second is not below the bound.
fn nearer(least: u64, number: u64, from: u64) -> u64
    ensures bound { from ≤ number → result ≤ number }
    ensures below { result ≤ least }
    ensures from { from ≤ least → from ≤ result }
{
    if from <= number && number < least {
        return number;
    }
    least
}

// The least step, from this one on, that has its row among the terms' rows.
fn next_step(numbers: &[u64], from: u64, v: &Vect) -> u64
    ensures least { Each (λ t. from ≤ get_or numbers.now t.0.position 18446744073709551615
        → result ≤ get_or numbers.now t.0.position 18446744073709551615) v.now }
    ensures from { from ≤ result }
{
    let mut least = NONE;
    for term in v.terms() {
        least = nearer(least, number_at(numbers, term.0.position), from);
    }
    least
}

/// The vector after the steps from this one on in turn; those are looked at that have their row in it. `Degree` comes where a product
/// of a step's column is too great, `Memory` where there is none.
pub(crate) fn clear_since(
    alloc: Global,
    ring: &Ring,
    table: &StepTable,
    since: usize,
    v: Vect,
) -> Result<Vect, VectStop>
    requires steps { Each (IsStepOver ring.now) table.now.steps.items }
    requires numbered { AreNumbered table.now.numbers.items 0 (map (λ s. s.row) table.now.steps.items) }
    requires vector { IsVectorOver ring.now (ring_comparison ring.now) v }
    ensures vector { IfOk result (IsVectorOver ring.now (ring_comparison ring.now)) }
    ensures sum { let n = variables ring.now in
        IfOk result (λ u. StandsFor ring.now u (cleared_all ring.now (drop since table.now.steps.items) (sum_of n v))) }
{
    lawful_setting(ring);
    let mut out = v;
    let mut from = since;
    loop {
        let next = next_step(&table.numbers, from as u64, &out) as usize;
        if next >= table.steps.len() {
            return Ok(out);
        }
        let step = &table.steps[next];
        match cleared_vector(alloc, ring, &step.column, step.row, step.inverse, out) {
            Ok(cleared) => out = cleared,
            Err(stop) => return Err(stop),
        }
        from = next + 1;
    }
}

// Puts the number at the row.
fn number_row(numbers: &mut Vec<u64>, row: u64, number: u64) -> Result<(), NoMemory>
    ensures here { OnOk result (get_or numbers.new.items row 18446744073709551615 ≡ number) }
    ensures others { (q : ℕ) → (q ≡ row → ⊥)
        → OnOk result (get_or numbers.new.items q 18446744073709551615 ≡ get_or numbers.old.items q 18446744073709551615) }
{
    while numbers.len() as u64 <= row {
        numbers.push(NONE)?;
    }
    numbers[row as usize] = number;
    Ok(())
}

/// Puts the step behind the others; they have other rows.
pub(crate) fn push_step(table: &mut StepTable, step: Step) -> Result<(), NoMemory>
    requires numbered { AreNumbered table.old.numbers.items 0 (map (λ s. s.row) table.old.steps.items) }
    requires others { HaveNoOthers table.old.numbers.items (map (λ s. s.row) table.old.steps.items) }
    requires other { Each (λ s. s.row ≡ step.row → ⊥) table.old.steps.items }
    ensures numbered { OnOk result (AreNumbered table.new.numbers.items 0 (map (λ s. s.row) table.new.steps.items)) }
    ensures others { OnOk result (HaveNoOthers table.new.numbers.items (map (λ s. s.row) table.new.steps.items)) }
    ensures steps { OnOk result (table.new.steps.items ≡ table.old.steps.items ++ step ∷ []) }
{
    let number = table.steps.len() as u64;
    number_row(&mut table.numbers, step.row, number)?;
    table.steps.push(step)?;
    Ok(())
}
