// Rows move up when others leave.
ghost use Rattle.std.specs.Prelude.{◌≡◌, ◌++◌, ◌∷◌, ◌-◌, ◌≤◌, [], List, ℕ, IfOk, OnOk, cond, false, length, nat_lt, true};
ghost use Rattle.term_lists.specs.Rings.{ring_comparison};
ghost use Rattle.term_lists.specs.Vectors.{AreVectorsOver, IsVectorOver, sum_of};
ghost use Rattle.column_passes.specs.Placing.{ArePlacesAfter, AreWithout, IsPlacePut, all_removed, keep_at, place_told, placed, without_all};

use module_vectors::{Key, NoMemory, Ring, Vect, VectList};
use std::alloc::Global;
use std::collections::VecDeque;

/// Rows, or columns, that leave: for each of the first numbers the place that is left to it, or none where it leaves, and how many
/// leave. No number behind the table leaves.
pub struct Leaving {
    pub places: Vec<Option<u64>>,
    pub count: u64,
}

// By hand, so that each drop of one is a call.
impl Drop for Leaving {
    fn drop(self) {
        let Leaving {
            places: _,
            count: _,
        } = self;
    }
}

/// The position that is left to one when the row leaves.
pub(crate) fn lower_position(row: u64, position: u64) -> u64
    ensures { result ≡ cond (nat_lt position row) position (position - 1) }
{
    if position < row {
        return position;
    }
    position.saturating_sub(1)
}

/// The next number behind the table leaves, or has its place. `NoMemory` where there is none.
pub fn push_place(leaving: &mut Leaving, leaves: bool) -> Result<(), NoMemory>
    requires { leaving.old.count ≤ length leaving.old.places.items }
    ensures count { OnOk result (leaving.new.count ≤ length leaving.new.places.items) }
    ensures put { OnOk result (IsPlacePut leaves leaving.old leaving.new) }
{
    let number = leaving.places.len() as u64;
    if leaves {
        leaving.places.push(None)?;
        leaving.count += 1;
    } else {
        leaving.places.push(Some(number - leaving.count))?;
    }
    Ok(())
}

/// This row leaves, and no other.
pub fn one_leaving(alloc: Global, row: u64) -> Result<Leaving, NoMemory>
    ensures { IfOk result (ArePlacesAfter (row ∷ [])) }
{
    let mut leaving = Leaving {
        places: Vec::new(alloc),
        count: 0,
    };
    for _ in 0..row {
        push_place(&mut leaving, false)?;
    }
    push_place(&mut leaving, true)?;
    Ok(leaving)
}

/// None leaves.
pub fn none_leaving(alloc: Global) -> Leaving
    ensures { ArePlacesAfter [] result }
{
    Leaving {
        places: Vec::new(alloc),
        count: 0,
    }
}

/// The place that is left to the row, or none where it leaves.
pub fn place_of(leaving: &Leaving, row: u64) -> Option<u64>
    ensures { result ≡ place_told leaving.now row }
{
    if row < leaving.places.len() as u64 {
        return leaving.places[row as usize];
    }
    Some(row.saturating_sub(leaving.count))
}

/// Does the row leave?
pub fn leaves(leaving: &Leaving, row: u64) -> bool
    ensures yes { result ≡ true → place_told leaving.now row ≡ None }
    ensures no { result ≡ false → place_told leaving.now row ≡ None → ⊥ }
{
    match place_of(leaving, row) {
        None => true,
        Some(_) => false,
    }
}

// Puts the item behind the others, where it has a place.
fn put_item<T: Drop>(place: Option<u64>, item: T, kept: &mut Vec<T>) -> Result<(), NoMemory>
    ensures { OnOk result (kept.new.items ≡ kept.old.items ++ keep_at place item []) }
{
    if place.is_some() {
        kept.push(item)?;
    }
    Ok(())
}

/// The items that do not leave.
pub fn kept_items<T: Drop>(
    alloc: Global,
    leaving: &Leaving,
    items: Vec<T>,
) -> Result<Vec<T>, NoMemory>
    ensures { (rows : List ℕ) → ArePlacesAfter rows leaving.now → IfOk result (λ kept. kept.items ≡ all_removed rows items.items) }
{
    let mut kept = Vec::with_capacity(alloc, items.len())?;
    let mut rest = VecDeque::from_vec(items);
    let mut number: u64 = 0;
    while let Some(item) = rest.pop_front() {
        put_item(place_of(leaving, number), item, &mut kept)?;
        number += 1;
    }
    Ok(kept)
}

// Puts the term behind the others, where its row has a place.
fn put(leaving: &Leaving, term: (Key, u32), left: &mut Vec<(Key, u32)>) -> Result<(), NoMemory>
    ensures { (rows : List ℕ) → ArePlacesAfter rows leaving.now
        → OnOk result (left.new.items ≡ left.old.items ++ placed rows (term ∷ [])) }
{
    if let Some(position) = place_of(leaving, term.0.position) {
        let mut moved = term;
        moved.0.position = position;
        left.push(moved)?;
    }
    Ok(())
}

/// The vector without the rows that leave; each of its terms is looked at once.
pub(crate) fn placed_vector(
    alloc: Global,
    ring: &Ring,
    leaving: &Leaving,
    v: Vect,
) -> Result<Vect, NoMemory>
    requires leaving { (rows : List ℕ) × ArePlacesAfter rows leaving.now }
    requires vector { IsVectorOver ring.now (ring_comparison ring.now) v }
    ensures vector { IfOk result (IsVectorOver ring.now (ring_comparison ring.now)) }
    ensures sum { (n : ℕ) (rows : List ℕ) → ArePlacesAfter rows leaving.now
        → IfOk result (λ u. sum_of n u ≡ without_all rows (sum_of n v)) }
{
    let mut left = Vec::with_capacity(alloc, v.terms().len())?;
    let mut rest = VecDeque::from_vec(v.into_terms());
    while let Some(term) = rest.pop_front() {
        put(leaving, term, &mut left)?;
    }
    Ok(Vect::from_ordered(ring, left))
}

/// The columns without the rows that leave.
pub fn columns_without(
    alloc: Global,
    ring: &Ring,
    leaving: &Leaving,
    columns: VectList,
) -> Result<VectList, NoMemory>
    requires leaving { (rows : List ℕ) × ArePlacesAfter rows leaving.now }
    requires vectors { AreVectorsOver ring.now (ring_comparison ring.now) columns }
    ensures { (rows : List ℕ) → ArePlacesAfter rows leaving.now → IfOk result (AreWithout ring.now rows columns) }
{
    if leaving.count == 0 {
        return Ok(columns);
    }
    let mut without = Vec::with_capacity(alloc, columns.len())?;
    let mut rest = VecDeque::from_vec(columns.into_vec());
    while let Some(v) = rest.pop_front() {
        without.push(placed_vector(alloc, ring, leaving, v)?)?;
    }
    Ok(VectList::from_vec(without))
}
