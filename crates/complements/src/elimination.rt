// Elimination with the constants of columns, degree by degree.
ghost use Rattle.std.specs.Prelude.{◌<◌};

use crate::sums::Sums;
use module_vectors::{NoMemory, Vect};
use std::alloc::Global;
use zp_field::Modulus;

/// A column's constants less multiples of those of the columns before it: what is left of them, the row of the first of these with
/// its inverse, and the columns of which it is the combination.
pub(crate) struct Step {
    pub(crate) row: usize,
    pub(crate) inverse: u32,
    pub(crate) entries: Vec<(usize, u32)>,
    pub(crate) factors: Vec<(usize, u32)>,
}

// By hand, so that each drop of one is a call.
impl Drop for Step {
    fn drop(self) {
        let Step {
            row: _,
            inverse: _,
            entries: _,
            factors: _,
        } = self;
    }
}

/// The steps of one degree.
#[derive(Drop)]
pub(crate) struct Level {
    pub(crate) steps: Vec<Step>,
}

/// The steps, those of greater degrees first, and for each row 1 and the number of the level that has a step in it, or 0. That the
/// numbers are so, and the residues, is not proved: wrong ones could but leave something in a row.
pub(crate) struct Elimination {
    pub(crate) levels: Vec<Level>,
    pub(crate) turns: Vec<u32>,
}

// By hand, so that each drop of one is a call.
impl Drop for Elimination {
    fn drop(self) {
        let Elimination {
            levels: _,
            turns: _,
        } = self;
    }
}

/// Sums for rows and for columns.
pub(crate) struct Work {
    pub(crate) rows: Sums,
    pub(crate) columns: Sums,
}

// By hand, so that each drop of one is a call.
impl Drop for Work {
    fn drop(self) {
        let Work {
            rows: _,
            columns: _,
        } = self;
    }
}

// Adds the multiple of the entries to the sums.
fn add_multiple(
    modulus: &Modulus,
    factor: u32,
    entries: &[(usize, u32)],
    sums: &mut Sums,
) -> Result<(), NoMemory> {
    for entry in entries {
        sums.add(modulus, entry.0, factor, entry.1)?;
    }
    Ok(())
}

// Takes the step away so often that nothing is left in its row.
fn take_step(modulus: &Modulus, step: &Step, work: &mut Work) -> Result<(), NoMemory> {
    modulus.domain();
    let residue = work.rows.residue(modulus, step.row);
    if residue == 0 {
        return Ok(());
    }
    let product = u64::from(modulus.neg(residue)).wrapping_mul(u64::from(step.inverse));
    let factor = (product % u64::from(modulus.value())) as u32;
    add_multiple(modulus, factor, &step.entries, &mut work.rows)?;
    add_multiple(modulus, factor, &step.factors, &mut work.columns)
}

/// Takes the steps away from the rows' sums, and adds to the columns' sums what they are of the columns.
pub(crate) fn take_steps(
    modulus: &Modulus,
    steps: &[Step],
    work: &mut Work,
) -> Result<(), NoMemory> {
    for step in steps {
        take_step(modulus, step, work)?;
    }
    Ok(())
}

// Does this row leave?
fn leaves(places: &[Option<u64>], row: u64) -> bool {
    if row >= places.len() as u64 {
        return false;
    }
    places[row as usize].is_none()
}

// The constants of the column in rows that leave.
fn add_constants(
    modulus: &Modulus,
    places: &[Option<u64>],
    column: &Vect,
    rows: &mut Sums,
) -> Result<(), NoMemory> {
    for term in column.terms() {
        if term.0.monomial.degree() == 0 && leaves(places, term.0.position) {
            rows.add(modulus, term.0.position as usize, 1, term.1)?;
        }
    }
    Ok(())
}

// The place of the entry in the least row, if there is an entry.
fn least(entries: &[(usize, u32)]) -> Option<(usize, u32)> {
    let (first, rest) = entries.split_first()?;
    let mut found = *first;
    for entry in rest {
        if entry.0 < found.0 {
            found = *entry;
        }
    }
    Some(found)
}

// Puts the number of the turn at the row.
fn put_turn(turns: &mut Vec<u32>, row: usize, turn: u32) {
    if row < turns.len() {
        turns[row] = turn;
    }
}

// The inverse of a residue, 0 where there is none.
fn inverse_of(modulus: &Modulus, residue: u32) -> u32 {
    modulus.domain();
    let reduced = (u64::from(residue) % u64::from(modulus.value())) as u32;
    match modulus.invert(reduced) {
        Some(inverse) => inverse,
        None => 0,
    }
}

// Puts the step of the column with this number behind the others, if something is left of its constants.
fn push_step(
    alloc: Global,
    modulus: &Modulus,
    places: &[Option<u64>],
    column: &Vect,
    number: usize,
    turn: u32,
    steps: &mut Vec<Step>,
    turns: &mut Vec<u32>,
    work: &mut Work,
) -> Result<(), NoMemory> {
    add_constants(modulus, places, column, &mut work.rows)?;
    take_steps(modulus, steps, work)?;
    work.columns.add(modulus, number, 1, 1)?;
    let entries = work.rows.take(alloc, modulus)?;
    let factors = work.columns.take(alloc, modulus)?;
    if let Some(found) = least(&entries) {
        put_turn(turns, found.0, turn);
        steps.push(Step {
            row: found.0,
            inverse: inverse_of(modulus, found.1),
            entries,
            factors,
        })?;
    }
    Ok(())
}

// The steps of the columns of this degree.
fn level_of(
    alloc: Global,
    modulus: &Modulus,
    places: &[Option<u64>],
    columns: &[Vect],
    degrees: &[u32],
    degree: u32,
    turn: u32,
    turns: &mut Vec<u32>,
    work: &mut Work,
) -> Result<Level, NoMemory> {
    let mut steps = Vec::new(alloc);
    for number in 0..columns.len() {
        if number < degrees.len() && degrees[number] == degree {
            push_step(
                alloc,
                modulus,
                places,
                &columns[number],
                number,
                turn,
                &mut steps,
                turns,
                work,
            )?;
        }
    }
    Ok(Level { steps })
}

// The greatest degree below this one.
fn greatest_below(degrees: &[u32], bound: u64) -> Option<u32> {
    let mut greatest: Option<u32> = None;
    for degree in degrees {
        if u64::from(*degree) < bound {
            greatest = Some(match greatest {
                None => *degree,
                Some(other) => other.max(*degree),
            });
        }
    }
    greatest
}

/// The steps of columns of these degrees by their constants in the rows that leave.
pub(crate) fn eliminated(
    alloc: Global,
    modulus: &Modulus,
    places: &[Option<u64>],
    columns: &[Vect],
    degrees: &[u32],
    work: &mut Work,
) -> Result<Elimination, NoMemory> {
    let mut levels = Vec::new(alloc);
    let mut turns = vec![in alloc; 0; places.len()]?;
    let mut bound = u64::MAX;
    for turn in 0..u32::MAX {
        match greatest_below(degrees, bound) {
            None => return Ok(Elimination { levels, turns }),
            Some(degree) => {
                let level = level_of(
                    alloc,
                    modulus,
                    places,
                    columns,
                    degrees,
                    degree,
                    turn + 1,
                    &mut turns,
                    work,
                )?;
                levels.push(level)?;
                bound = u64::from(degree);
            }
        }
    }
    Ok(Elimination { levels, turns })
}
