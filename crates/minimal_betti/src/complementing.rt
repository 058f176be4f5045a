// Maps when their constants have left, each column that stays computed at once.
ghost use Rattle.std.specs.Prelude.{◌≡◌, ◌<◌, [], List, ℕ, IfOk, IfSome, IsTrue, OnOk, length, map, reverse};
ghost use Rattle.formal_sums.specs.FormalSums.{Each};
ghost use Rattle.term_lists.specs.Rings.{ring_comparison, variables};
ghost use Rattle.term_lists.specs.Vectors.{AreVectorsOver, sums_of};
ghost use Rattle.column_passes.specs.Passing.{AreFirstSteps, AreGradedColumns, Pivot};
ghost use Rattle.column_passes.specs.Placing.{ArePlacesAfter, all_removed};
ghost use Rattle.constant_passes.specs.Choosing.{IsChosen};
ghost use Rattle.minimal_betti.specs.Carried.{graded_maps};
ghost use Rattle.minimal_betti.specs.Complementing.{AreComplemented, AreGone, ComesTo, IsApart, IsComplemented, IsMapLowered};
ghost use Rattle.minimal_betti.specs.Splitting.{IsCancellationUnderway};

use crate::carried::Carried;
use column_passes::{Leaving, columns_without, kept_items, leaves, none_leaving};
use complements::complements;
use constant_passes::{Chosen, chosen};
use module_vectors::{NoMemory, Ring, Vect, VectList, VectStop, lawful_setting};
use std::alloc::Global;
use std::mem::replace;

// Puts a copy of the column with this number behind the others, where it leaves.
fn push_gone(
    alloc: Global,
    leaving: &Leaving,
    columns: &[Vect],
    number: usize,
    gone: &mut Vec<Vect>,
) -> Result<(), NoMemory>
    requires { number < length columns.now }
    ensures { (indices : List ℕ) → ArePlacesAfter indices leaving.now → AreGone indices columns.now gone.old.items
        → OnOk result (AreGone indices columns.now gone.new.items) }
{
    if !leaves(leaving, number as u64) {
        return Ok(());
    }
    gone.push(columns[number].try_copy(alloc)?)?;
    Ok(())
}

// Copies of the columns that leave.
fn gone_columns(alloc: Global, leaving: &Leaving, columns: &[Vect]) -> Result<VectList, NoMemory>
    ensures { (indices : List ℕ) → ArePlacesAfter indices leaving.now → IfOk result (AreGone indices columns.now) }
{
    let mut gone = Vec::new(alloc);
    for number in 0..columns.len() {
        push_gone(alloc, leaving, columns, number, &mut gone)?;
    }
    Ok(VectList::from_vec(gone))
}

// The degrees of the columns that leave.
fn gone_degrees(alloc: Global, leaving: &Leaving, degrees: &[u32]) -> Result<Vec<u32>, NoMemory> {
    let mut gone = Vec::new(alloc);
    for number in 0..degrees.len() {
        if leaves(leaving, number as u64) {
            gone.push(degrees[number])?;
        }
    }
    Ok(gone)
}

// Is no term of the vector in a row that leaves?
fn is_apart(leaving: &Leaving, v: &Vect) -> bool
    ensures { (rows : List ℕ) → ArePlacesAfter rows leaving.now → IsTrue result → IsApart rows v.now }
{
    for term in v.terms() {
        if leaves(leaving, term.0.position) {
            return false;
        }
    }
    true
}

// Is it so of all of them?
fn are_apart(leaving: &Leaving, vectors: &[Vect]) -> bool
    ensures { (rows : List ℕ) → ArePlacesAfter rows leaving.now → IsTrue result → Each (IsApart rows) vectors.now }
{
    for v in vectors {
        if !is_apart(leaving, v) {
            return false;
        }
    }
    true
}

// The columns that stay, but for those that leave afterwards.
fn staying_columns(
    alloc: Global,
    leaving: &Leaving,
    after: &Leaving,
    columns: VectList,
) -> Result<Vec<Vect>, NoMemory>
    ensures { (indices out : List ℕ) → ArePlacesAfter indices leaving.now → ArePlacesAfter out after.now
        → IfOk result (λ kept. kept.items ≡ all_removed out (all_removed indices columns)) }
{
    let stay = kept_items(alloc, leaving, columns.into_vec())?;
    kept_items(alloc, after, stay)
}

// What the steps that were chosen leave of these columns, but for those that leave afterwards. None where a product is too great.
fn complemented_columns(
    alloc: Global,
    ring: &Ring,
    degrees: &[u32],
    passed: &Chosen,
    after: &Leaving,
    columns: VectList,
) -> Result<Option<VectList>, NoMemory>
    requires vectors { AreVectorsOver ring.now (ring_comparison ring.now) columns }
    requires rows { (rows : List ℕ) × ArePlacesAfter rows passed.now.rows }
    requires indices { (indices : List ℕ) × ArePlacesAfter indices passed.now.indices }
    requires after { (out : List ℕ) × ArePlacesAfter out after.now }
    ensures { (pivots : List (Pivot (variables ring.now))) (out : List ℕ) → AreFirstSteps ring.now (sums_of (variables ring.now) columns) pivots
        → ArePlacesAfter (map (λ s. s.row) pivots) passed.now.rows → ArePlacesAfter (map (λ s. s.index) pivots) passed.now.indices
        → ArePlacesAfter out after.now → IfOk result (λ found. IfSome found (AreComplemented ring.now pivots out columns)) }
{
    lawful_setting(ring);
    let gone = gone_columns(alloc, &passed.indices, columns.as_slice())?;
    let their_degrees = gone_degrees(alloc, &passed.indices, degrees)?;
    let kept = staying_columns(alloc, &passed.indices, after, columns)?;
    match complements(
        alloc,
        ring,
        &gone,
        &their_degrees,
        &passed.rows.places,
        &kept,
    ) {
        Ok(cleared) => {
            if !are_apart(&passed.rows, &cleared) {
                return Ok(None);
            }
            let without = columns_without(alloc, ring, &passed.rows, VectList::from_vec(cleared))?;
            Ok(Some(without))
        }
        Err(VectStop::Memory) => Err(NoMemory),
        Err(VectStop::Degree(_, _)) => Ok(None),
    }
}

// The same of a map.
fn complemented_map(
    alloc: Global,
    ring: &Ring,
    passed: &Chosen,
    after: &Leaving,
    map: Carried,
) -> Result<Option<Carried>, NoMemory>
    requires vectors { AreVectorsOver ring.now (ring_comparison ring.now) map.columns }
    requires chosen { IsChosen ring.now (sums_of (variables ring.now) map.columns) passed.now }
    requires after { (out : List ℕ) × ArePlacesAfter out after.now }
    ensures { (choice : IsChosen ring.now (sums_of (variables ring.now) map.columns) passed.now) (out : List ℕ) → ArePlacesAfter out after.now
        → IfOk result (λ found. IfSome found (IsComplemented ring.now choice.pivots out map)) }
{
    let Carried { columns, degrees } = map;
    match complemented_columns(alloc, ring, &degrees, passed, after, columns)? {
        None => Ok(None),
        Some(columns) => {
            let stay = kept_items(alloc, &passed.indices, degrees)?;
            let degrees = kept_items(alloc, after, stay)?;
            Ok(Some(Carried { columns, degrees }))
        }
    }
}

// The map without the rows that leave.
fn lowered_map(
    alloc: Global,
    ring: &Ring,
    leaving: &Leaving,
    map: Carried,
) -> Result<Carried, NoMemory>
    requires leaving { (rows : List ℕ) × ArePlacesAfter rows leaving.now }
    requires vectors { AreVectorsOver ring.now (ring_comparison ring.now) map.columns }
    ensures { (rows : List ℕ) → ArePlacesAfter rows leaving.now → IfOk result (IsMapLowered ring.now rows map) }
{
    let Carried { columns, degrees } = map;
    Ok(Carried {
        columns: columns_without(alloc, ring, leaving, columns)?,
        degrees,
    })
}

// The rows and the columns that leave the map, by its constants alone.
fn chosen_in(alloc: Global, ring: &Ring, map: &Carried) -> Result<Chosen, NoMemory>
    requires vectors { AreVectorsOver ring.now (ring_comparison ring.now) map.now.columns }
    requires graded { AreGradedColumns ring.now map.now.degrees.items (sums_of (variables ring.now) map.now.columns) }
    ensures { IfOk result (IsChosen ring.now (sums_of (variables ring.now) map.now.columns)) }
{
    let none = none_leaving(alloc);
    chosen(alloc, ring, &map.degrees, &none, map.columns.as_slice())
}

// The positions that are left.
fn leave_positions(
    alloc: Global,
    leaving: &Leaving,
    positions: &mut Vec<u32>,
) -> Result<(), NoMemory>
    ensures { (rows : List ℕ) → ArePlacesAfter rows leaving.now → OnOk result (positions.new.items ≡ all_removed rows positions.old.items) }
{
    let all = Vec::from_slice(alloc, positions)?;
    let kept = kept_items(alloc, leaving, all)?;
    drop(replace(positions, kept));
    Ok(())
}

/// All maps when their constants have left; those given stand with the first one last. None where a product is too great.
///
/// The rows and columns that leave are found map by map, by constants alone. What is left of a column depends on these and on the
/// columns that leave alone, not on the order of the steps: it is the one vector that is the column plus a combination of these and
/// has no entry in these rows. A column that the next map's constants take away is not computed.
pub(crate) fn complemented_maps(
    alloc: Global,
    ring: &Ring,
    positions: &mut Vec<u32>,
    maps: Vec<Carried>,
) -> Result<Option<Vec<Carried>>, NoMemory>
    requires { IsCancellationUnderway ring.now positions.old.items [] (reverse maps.items) }
    ensures { IfOk result (λ found. IfSome found (λ left.
        ComesTo ring.now (graded_maps ring.now positions.old.items (reverse maps.items)) positions.new.items left.items)) }
{
    lawful_setting(ring);
    let mut done = Vec::with_capacity(alloc, maps.len())?;
    let mut rest = maps;
    let Some(first) = rest.pop() else {
        return Ok(Some(done));
    };
    let mut passed = chosen_in(alloc, ring, &first)?;
    leave_positions(alloc, &passed.rows, positions)?;
    let mut current = first;
    while let Some(popped) = rest.pop() {
        let next = lowered_map(alloc, ring, &passed.indices, popped)?;
        let next_passed = chosen_in(alloc, ring, &next)?;
        match complemented_map(alloc, ring, &passed, &next_passed.rows, current)? {
            None => return Ok(None),
            Some(map) => done.push(map)?,
        }
        current = next;
        passed = next_passed;
    }
    match complemented_map(alloc, ring, &passed, &none_leaving(alloc), current)? {
        None => Ok(None),
        Some(map) => {
            done.push(map)?;
            Ok(Some(done))
        }
    }
}
