// The minimal resolution.
ghost use Rattle.std.specs.Prelude.{◌≡◌, [], ℕ, List, IfErr, IfOk, OnOk, length, map, reverse, take};
ghost use Rattle.formal_sums.specs.FormalSums.{Each, FormalSum};
ghost use Rattle.minimal_laws.specs.Cancellation.{trimmed};
ghost use Rattle.minimal_laws.specs.Minimal.{IsMinimal, Presents};
ghost use Rattle.term_lists.specs.Rings.{variables};
ghost use Rattle.term_lists.specs.Vectors.{AreTermsOver, sums_of};
ghost use Rattle.resolution_maps.specs.Resolved.{AreJoined, columns_of, degrees_of};
ghost use Rattle.column_passes.specs.Constants.{HasNoConstants};
ghost use Rattle.column_passes.specs.Passing.{IsPassed};
ghost use Rattle.column_passes.specs.Placing.{ArePlacesAfter, all_removed};
ghost use Rattle.minimal_betti.specs.Carried.{AreCarried, AreOrdered, AreOwn, LeadsTo, graded_map, graded_maps};
ghost use Rattle.minimal_betti.specs.Graded.{AreMapsOver, IsGradedResolution, graded_of};
ghost use Rattle.minimal_betti.specs.Minimising.{CancellationStops, IsCancellationOf};
ghost use Rattle.minimal_betti.specs.Splitting.{IsFormerLeft, IsNextLeft, IsCancellationUnderway, in_turn};
ghost use Rattle.minimal_betti.specs.declared.carried.Carried.{Carried as CarriedMap};

use crate::by_steps::cancelled_by_steps;
use crate::carried::Carried;
use crate::complementing::complemented_maps;
use crate::leaving::{leave_former, leave_next};
use column_passes::{Passed, in_own_order, kept_items, pass};
use module_vectors::{NoMemory, Ring, VectList, VectStop, WorkStop, lawful_setting};
use resolution_maps::{Map, Resolution, column_degrees, joined_maps};
use std::alloc::Global;
use std::collections::VecDeque;

// The columns in the ring's own order.
fn own_columns(alloc: Global, ring: &Ring, columns: &VectList) -> Result<VectList, NoMemory>
    requires { Each (AreTermsOver ring.now) columns.now }
    ensures { IfOk result (AreOwn ring.now columns.now) }
{
    lawful_setting(ring);
    let mut own = Vec::with_capacity(alloc, columns.len())?;
    for v in columns.as_slice() {
        own.push(in_own_order(alloc, ring, v)?)?;
    }
    Ok(VectList::from_vec(own))
}

// The map with the degrees of its columns.
fn carried_map(alloc: Global, ring: &Ring, map: &Map) -> Result<Carried, NoMemory>
    requires { Each (AreTermsOver ring.now) map.now.columns }
    ensures columns { IfOk result (λ m. AreOwn ring.now map.now.columns m.columns) }
    ensures degrees { IfOk result (λ m. m.degrees.items ≡ degrees_of ring.now map.now.row_degrees.items map.now.columns) }
{
    Ok(Carried {
        columns: own_columns(alloc, ring, &map.columns)?,
        degrees: column_degrees(alloc, ring, &map.row_degrees, &map.columns)?,
    })
}

// The maps with the degrees of their columns, the last one first.
fn carried_maps(alloc: Global, ring: &Ring, maps: &[Map]) -> Result<Vec<Carried>, NoMemory>
    requires { Each (λ m. Each (AreTermsOver ring.now) m.columns) maps.now }
    ensures { IfOk result (λ ms. AreCarried ring.now maps.now (reverse ms.items)) }
{
    let mut carried = Vec::with_capacity(alloc, maps.len())?;
    let mut k = maps.len();
    while k > 0 {
        k -= 1;
        carried.push(carried_map(alloc, ring, &maps[k])?)?;
    }
    Ok(carried)
}

// The map after a pass that made steps; their rows leave the next map, and the former one loses the columns of theirs.
fn leave(
    alloc: Global,
    ring: &Ring,
    positions: &mut Vec<u32>,
    done: &mut Vec<Carried>,
    degrees: Vec<u32>,
    passed: Passed,
    rest: &mut Vec<Carried>,
) -> Result<Carried, NoMemory>
    requires indices { (indices : List ℕ) × ArePlacesAfter indices passed.indices }
    requires ordered { AreOrdered ring.now rest.old.items }
    ensures former { (rows : List ℕ) → ArePlacesAfter rows passed.rows
        → OnOk result (IsFormerLeft rows positions.old.items positions.new.items done.old.items done.new.items) }
    ensures next { (indices : List ℕ) → ArePlacesAfter indices passed.indices
        → OnOk result (IsNextLeft ring.now indices rest.old.items rest.new.items) }
    ensures columns { IfOk result (λ m. m.columns ≡ passed.columns) }
    ensures degrees { (indices : List ℕ) → ArePlacesAfter indices passed.indices
        → IfOk result (λ m. m.degrees.items ≡ all_removed indices degrees.items) }
{
    leave_former(alloc, &passed.rows, positions, done)?;
    leave_next(alloc, ring, &passed.indices, rest)?;
    Ok(Carried {
        degrees: kept_items(alloc, &passed.indices, degrees)?,
        columns: passed.into_columns(),
    })
}

// The map at hand after a pass over it, which changed nothing where it made no step.
fn leave_passed(
    alloc: Global,
    ring: &Ring,
    positions: &mut Vec<u32>,
    done: &mut Vec<Carried>,
    current: Carried,
    passed: Passed,
    rest: &mut Vec<Carried>,
) -> Result<Carried, NoMemory>
    requires passed { IsPassed ring.now current.columns passed }
    requires underway { IsCancellationUnderway ring.now positions.old.items done.old.items (in_turn done.old.items current rest.old.items) }
    ensures underway { IfOk result (λ m. IsCancellationUnderway ring.now positions.new.items done.new.items (in_turn done.new.items m rest.new.items)) }
    ensures none { IfOk result (λ m. HasNoConstants ring.now.modulus.value (sums_of (variables ring.now) m.columns)) }
    ensures leads { IfOk result (λ m. LeadsTo ring.now.modulus.value
        (graded_maps ring.now positions.old.items (in_turn done.old.items current rest.old.items))
        (graded_maps ring.now positions.new.items (in_turn done.new.items m rest.new.items))) }
    ensures rest { OnOk result (length rest.new.items ≡ length rest.old.items) }
{
    lawful_setting(ring);
    if passed.rows.count == 0 {
        return Ok(current);
    }
    let left = leave(alloc, ring, positions, done, current.degrees, passed, rest)?;
    Ok(left)
}

// The map at hand when its constants have left. Where a product's degree is too great, they leave by steps, which give the trail.
fn cancelled_map(
    alloc: Global,
    ring: &Ring,
    positions: &mut Vec<u32>,
    done: &mut Vec<Carried>,
    current: Carried,
    rest: &mut Vec<Carried>,
) -> Result<Carried, WorkStop>
    requires underway { IsCancellationUnderway ring.now positions.old.items done.old.items (in_turn done.old.items current rest.old.items) }
    ensures underway { IfOk result (λ m. IsCancellationUnderway ring.now positions.new.items done.new.items (in_turn done.new.items m rest.new.items)) }
    ensures none { IfOk result (λ m. HasNoConstants ring.now.modulus.value (sums_of (variables ring.now) m.columns)) }
    ensures leads { IfOk result (λ m. LeadsTo ring.now.modulus.value
        (graded_maps ring.now positions.old.items (in_turn done.old.items current rest.old.items))
        (graded_maps ring.now positions.new.items (in_turn done.new.items m rest.new.items))) }
    ensures rest { OnOk result (length rest.new.items ≡ length rest.old.items) }
    ensures stop { IfErr result (CancellationStops ring.now
        (graded_maps ring.now positions.old.items (in_turn done.old.items current rest.old.items))) }
{
    lawful_setting(ring);
    match pass(alloc, ring, &current.degrees, current.columns.as_slice()) {
        Ok(passed) => match leave_passed(alloc, ring, positions, done, current, passed, rest) {
            Ok(map) => Ok(map),
            Err(_) => Err(WorkStop::Memory),
        },
        Err(VectStop::Memory) => Err(WorkStop::Memory),
        Err(VectStop::Degree(_, _)) => {
            cancelled_by_steps(alloc, ring, positions, done, current, rest)
        }
    }
}

/// All maps when their constants have left; those given stand with the first one last.
pub(crate) fn cancelled_maps(
    alloc: Global,
    ring: &Ring,
    positions: &mut Vec<u32>,
    maps: Vec<Carried>,
) -> Result<Vec<Carried>, WorkStop>
    requires underway { IsCancellationUnderway ring.now positions.old.items [] (reverse maps.items) }
    ensures underway { IfOk result (λ done. IsCancellationUnderway ring.now positions.new.items done.items done.items) }
    ensures leads { IfOk result (λ done. LeadsTo ring.now.modulus.value
        (graded_maps ring.now positions.old.items (reverse maps.items)) (graded_maps ring.now positions.new.items done.items)) }
    ensures stop { IfErr result (CancellationStops ring.now (graded_maps ring.now positions.old.items (reverse maps.items))) }
{
    let mut done = Vec::with_capacity(alloc, maps.len())?;
    let mut rest = maps;
    while let Some(current) = rest.pop() {
        match cancelled_map(alloc, ring, positions, &mut done, current, &mut rest) {
            Ok(map) => done.push(map)?,
            Err(stop) => return Err(stop),
        }
    }
    Ok(done)
}

// How many maps are left when those at the end leave that have no column.
fn kept_count(maps: &[Carried]) -> usize
    ensures { (n : ℕ) → trimmed (map (graded_map n) maps.now) ≡ map (graded_map n) (take result maps.now) }
{
    let mut kept = maps.len();
    while kept > 0 {
        if !maps[kept - 1].columns.is_empty() {
            return kept;
        }
        kept -= 1;
    }
    0
}

// The columns of the maps.
fn columns_alone(alloc: Global, maps: Vec<Carried>) -> Result<Vec<VectList>, NoMemory>
    ensures { IfOk result (λ columns. columns.items ≡ map (λ m. m.columns) maps.items) }
{
    let mut columns = Vec::with_capacity(alloc, maps.len())?;
    let mut rest = VecDeque::from_vec(maps);
    while let Some(map) = rest.pop_front() {
        columns.push(map.columns)?;
    }
    Ok(columns)
}

// The resolution of these maps, of which those at the end leave that have no column.
fn resolution_of(
    alloc: Global,
    ring: &Ring,
    positions: Vec<u32>,
    maps: Vec<Carried>,
) -> Result<Resolution, NoMemory>
    requires { IsCancellationUnderway ring.now positions.items maps.items maps.items }
    ensures positions { IfOk result (λ s. s.positions.items ≡ positions.items) }
    ensures columns { IfOk result (λ s. (kept : List CarriedMap) × (columns_of s ≡ map (λ m. m.columns) kept)
        × AreOrdered ring.now kept
        × ((n : ℕ) → trimmed (map (graded_map n) maps.items) ≡ map (graded_map n) kept)) }
    ensures joined { IfOk result (λ s. AreJoined ring.now s.positions.items s.maps.items) }
{
    lawful_setting(ring);
    let mut kept = maps;
    let count = kept_count(&kept);
    kept.truncate(count);
    let columns = columns_alone(alloc, kept)?;
    let maps = joined_maps(alloc, ring, &positions, columns)?;
    Ok(Resolution { positions, maps })
}

// The minimal resolution, by the steps on whole columns.
fn minimal_by_passes(
    alloc: Global,
    ring: &Ring,
    resolution: &Resolution,
) -> Result<Resolution, WorkStop>
    requires { IsGradedResolution ring.now resolution.now }
    ensures cancelled { IfOk result (IsCancellationOf ring.now resolution.now) }
    ensures minimal { IfOk result (λ s. IsMinimal ring.now.weights ring.now.modulus.value (graded_of ring.now s)) }
    ensures presents { (places : List ℕ) (A : List (FormalSum (variables ring.now)))
        → Presents ring.now.weights ring.now.modulus.value (graded_of ring.now resolution.now) places A
        → IfOk result (λ s. Presents ring.now.weights ring.now.modulus.value (graded_of ring.now s) places A) }
    ensures joined { IfOk result (λ s. AreJoined ring.now s.positions.items s.maps.items) }
    ensures vectors { IfOk result (AreMapsOver ring.now) }
    ensures stop { IfErr result (CancellationStops ring.now (graded_of ring.now resolution.now)) }
{
    lawful_setting(ring);
    let mut positions = Vec::from_slice(alloc, &resolution.positions)?;
    let maps = carried_maps(alloc, ring, &resolution.maps)?;
    match cancelled_maps(alloc, ring, &mut positions, maps) {
        Ok(left) => Ok(resolution_of(alloc, ring, positions, left)?),
        Err(stop) => Err(stop),
    }
}

/// The minimal resolution that a graded one becomes when its constants leave, each time the first one: in the least map, in
/// it in the least column, in it in the least row (Eisenbud, section 20.1). It presents what the given one presents. Its columns
/// are vectors in the ring's own order.
///
/// `Degree` comes where a column is cleared of its entry in the row of the first constant, and a product of a monomial of that
/// entry and the constant's column is too great, with the trail of that product; `Memory` where there is none, and where the
/// degree of a column or the place of a row is 2^32 or more.
pub fn minimal(alloc: Global, ring: &Ring, resolution: &Resolution) -> Result<Resolution, WorkStop>
    requires { IsGradedResolution ring.now resolution.now }
    ensures cancelled { IfOk result (IsCancellationOf ring.now resolution.now) }
    ensures minimal { IfOk result (λ s. IsMinimal ring.now.weights ring.now.modulus.value (graded_of ring.now s)) }
    ensures presents { (places : List ℕ) (A : List (FormalSum (variables ring.now)))
        → Presents ring.now.weights ring.now.modulus.value (graded_of ring.now resolution.now) places A
        → IfOk result (λ s. Presents ring.now.weights ring.now.modulus.value (graded_of ring.now s) places A) }
    ensures joined { IfOk result (λ s. AreJoined ring.now s.positions.items s.maps.items) }
    ensures vectors { IfOk result (AreMapsOver ring.now) }
    ensures stop { IfErr result (CancellationStops ring.now (graded_of ring.now resolution.now)) }
{
    lawful_setting(ring);
    let mut positions = Vec::from_slice(alloc, &resolution.positions)?;
    let maps = carried_maps(alloc, ring, &resolution.maps)?;
    match complemented_maps(alloc, ring, &mut positions, maps)? {
        Some(left) => Ok(resolution_of(alloc, ring, positions, left)?),
        None => minimal_by_passes(alloc, ring, resolution),
    }
}
