// Columns: the keys of a table, strictly descending.
ghost use Rattle.std.specs.Prelude.{◌≡◌, ◌<◌, ◌≤◌, ◌+◌, ◌-◌, ◌++◌, List, [], ◌∷◌, ℕ, Contains, IsTrue, length, get_or, map, IfOk, OnOk};
ghost use Rattle.std.specs.List.{range_with_len};
ghost use Rattle.std.specs.List.Sorted.{IsPermutation, IsSortedBy};
ghost use Rattle.std.specs.Ordering.{is_lt};
ghost use Rattle.std.specs.Vec.{vec_len, vec_capacity};
ghost use Rattle.formal_sums.specs.FormalSums.{Each};
ghost use Rattle.term_lists.specs.Rings.{variables};
ghost use Rattle.row_matrix.specs.Hashes.{IsNumbered, no_key};
ghost use Rattle.row_matrix.specs.Naming.{Falls, IsNumbering, by_descent};
ghost use Rattle.row_matrix.specs.Rows.{AreKeys};

use crate::kept_number;
use module_vectors::{Frame, Key, NoMemory};
use std::alloc::Global;
use std::cmp::Ordering;

/// Module monomials that strictly descend, and for each number of a table the place of its key among them.
#[derive(Drop)]
pub struct Numbering {
    pub columns: Vec<Key>,
    pub places: Vec<u32>,
}

// Compares two numbers for a sort with the greatest key first. Numbers without a key, of which there are none, come last.
fn descending<F: Frame>(frame: &F, keys: &[Key], i: usize, j: usize) -> Ordering
    requires { AreKeys (variables (F.over frame.now)) (F.over frame.now).weights keys.now }
    ensures { let n = variables (F.over frame.now) in result ≡ by_descent n (F.compare frame.now n) keys.now i j }
{
    if i < keys.len() {
        if j < keys.len() {
            return frame.cmp(&keys[j], &keys[i]);
        }
        return Ordering::Less;
    }
    if j < keys.len() {
        return Ordering::Greater;
    }
    Ordering::Equal
}

// Compares two numbers, each behind the hint of its key, for a sort with the greatest key first.
fn by_hints<F: Frame>(
    frame: &F,
    keys: &[Key],
    left: &(u64, usize),
    right: &(u64, usize),
) -> Ordering
    requires { AreKeys (variables (F.over frame.now)) (F.over frame.now).weights keys.now }
{
    if left.0 > right.0 {
        return Ordering::Less;
    }
    if left.0 < right.0 {
        return Ordering::Greater;
    }
    descending(frame, keys, left.1, right.1)
}

// The numbers of the keys, each behind the hint of its key.
fn hinted_numbers<F: Frame>(
    alloc: Global,
    frame: &F,
    keys: &[Key],
) -> Result<Vec<(u64, usize)>, NoMemory>
    ensures { IfOk result (λ hinted. map (λ h. h.1) hinted.items ≡ range_with_len 0 (length keys.now)) }
{
    let mut hinted = Vec::with_capacity(alloc, keys.len())?;
    for i in 0..keys.len() {
        hinted.push_reserved((frame.hint(&keys[i]), i));
    }
    Ok(hinted)
}

// The numbers of the keys in the order of the hints, and of the keys where hints are equal: mostly the greatest key first.
fn numbers_by_hints<F: Frame>(
    alloc: Global,
    frame: &F,
    keys: &[Key],
) -> Result<Vec<usize>, NoMemory>
    requires { AreKeys (variables (F.over frame.now)) (F.over frame.now).weights keys.now }
    ensures { IfOk result (λ numbers. IsPermutation (range_with_len 0 (length keys.now)) numbers.items) }
{
    let mut hinted = hinted_numbers(alloc, frame, keys)?;
    hinted.sort_unstable_by(|left, right| by_hints(frame, keys, left, right));
    let mut numbers = Vec::with_capacity(alloc, hinted.len())?;
    for one in &hinted {
        numbers.push_reserved(one.1);
    }
    Ok(numbers)
}

// Is no key above that of the number before it?
fn descend<F: Frame>(frame: &F, keys: &[Key], numbers: &[usize]) -> bool
    requires { AreKeys (variables (F.over frame.now)) (F.over frame.now).weights keys.now }
    ensures { let n = variables (F.over frame.now) in
        IsTrue result → IsSortedBy (λ i j. is_lt (by_descent n (F.compare frame.now n) keys.now i j)) numbers.now }
{
    for k in 1..numbers.len() {
        let is_above = descending(frame, keys, numbers[k], numbers[k - 1]).is_lt();
        if is_above {
            return false;
        }
    }
    true
}

// The numbers of the keys, the greatest key first.
fn sorted_numbers<F: Frame>(alloc: Global, frame: &F, keys: &[Key]) -> Result<Vec<usize>, NoMemory>
    requires { AreKeys (variables (F.over frame.now)) (F.over frame.now).weights keys.now }
    ensures known { IfOk result (λ numbers. Each (λ i. i < length keys.now) numbers.items) }
    ensures all { IfOk result (λ numbers. (i : ℕ) → i < length keys.now → Contains numbers.items i) }
    ensures falls { let n = variables (F.over frame.now) in IfOk result (λ numbers. Falls n (F.compare frame.now n) keys.now numbers.items) }
{
    let mut numbers = numbers_by_hints(alloc, frame, keys)?;
    // What the order of hints comes to is tested, and not proved.
    if descend(frame, keys, &numbers) {
        return Ok(numbers);
    }
    numbers.sort_unstable_by(|i, j| descending(frame, keys, *i, *j));
    Ok(numbers)
}

// The column of the key, which is put at the end unless it is the last one.
fn column_of(alloc: Global, columns: &mut Vec<Key>, key: &Key) -> Result<usize, NoMemory>
    ensures numbered { IfOk result (IsNumbered columns.old.items columns.new.items key.now) }
    ensures fresh { IfOk result (λ at. at ≡ length columns.old.items → 0 < length columns.old.items
        → get_or columns.old.items (length columns.old.items - 1) no_key ≡ key.now → ⊥) }
{
    let count = columns.len();
    if count > 0 {
        if columns[count - 1].equal(key) {
            return Ok(count - 1);
        }
    }
    columns.push(key.try_copy(alloc)?)?;
    Ok(count)
}

/// The keys as columns.
pub fn number_columns<F: Frame>(
    alloc: Global,
    frame: &F,
    keys: &[Key],
) -> Result<Numbering, NoMemory>
    requires { AreKeys (variables (F.over frame.now)) (F.over frame.now).weights keys.now }
    ensures { let n = variables (F.over frame.now) in
        IfOk result (λ r. IsNumbering n (F.over frame.now).weights (F.compare frame.now n) keys.now r.columns.items r.places.items) }
{
    let numbers = sorted_numbers(alloc, frame, keys)?;
    let mut columns = Vec::with_capacity(alloc, keys.len())?;
    let mut places = vec![in alloc; 0; keys.len()]?;
    for number in &numbers {
        let column = column_of(alloc, &mut columns, &keys[*number])?;
        places[*number] = kept_number(column)?;
    }
    Ok(Numbering { columns, places })
}
