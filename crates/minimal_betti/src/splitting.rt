// A constant, its row and its column leave the maps.
ghost use Rattle.std.specs.Prelude.{◌≡◌, ◌<◌, ◌+◌, ◌∷◌, [], IfErr, IfOk, OnOk, get_or, length};
ghost use Rattle.minimal_laws.specs.Cancellation.{cleared, without_row};
ghost use Rattle.term_lists.specs.Rings.{ring_comparison, variables};
ghost use Rattle.term_lists.specs.Vectors.{AreVectorsOver, IsVectorOver, StandsFor, sum_of, sums_of};
ghost use Rattle.column_passes.specs.Constants.{IsFirst};
ghost use Rattle.minimal_betti.specs.Carried.{AreOrdered, LeadsTo, graded_maps};
ghost use Rattle.minimal_betti.specs.Minimising.{CancellationStops};
ghost use Rattle.minimal_betti.specs.Splitting.{AreSplit, IsFormerLeft, IsNextLeft, IsOtherPut, IsMapSplit, IsCancellationUnderway, SplittingStops, in_turn};

use crate::carried::Carried;
use crate::leaving::{drop_degree, leave_former, leave_next};
use crate::stopping::splitting_stop;
use column_passes::{Constant, cleared_vector, one_leaving, vector_without};
use module_vectors::{NoMemory, Ring, Vect, VectList, WorkStop, lawful_setting};
use std::alloc::Global;

// Column i, which is another, cleared by the constant's column, without its row.
fn split_column(
    alloc: Global,
    ring: &Ring,
    columns: &VectList,
    at: Constant,
    inverse: u32,
    i: usize,
) -> Result<Vect, WorkStop>
    requires inverse { inverse < ring.now.modulus.value }
    requires inside { at.column < length columns.now }
    requires index { i < length columns.now }
    requires apart { i ≡ at.column → ⊥ }
    requires columns { AreVectorsOver ring.now (ring_comparison ring.now) columns.now }
    ensures vector { IfOk result (IsVectorOver ring.now (ring_comparison ring.now)) }
    ensures sum { let n = variables ring.now in IfOk result (λ u. StandsFor ring.now u
        (without_row at.row (cleared ring.now.modulus.value at.row inverse (get_or (sums_of n columns.now) at.column [])
        (sum_of n (get_or columns.now i []))))) }
    ensures stop { IfErr result (SplittingStops ring.now columns.now at) }
{
    lawful_setting(ring);
    let w = &columns.as_slice()[at.column];
    let v = columns.as_slice()[i].try_copy(alloc)?;
    match cleared_vector(alloc, ring, w, at.row, inverse, v) {
        Ok(cleared) => Ok(vector_without(ring, at.row, cleared)),
        Err(stop) => Err(splitting_stop(alloc, ring, columns, at, i, stop)),
    }
}

// Puts the column with this index, so split, behind the others, unless it is the constant's own.
fn push_other(
    alloc: Global,
    ring: &Ring,
    columns: &VectList,
    at: Constant,
    inverse: u32,
    i: usize,
    others: &mut Vec<Vect>,
) -> Result<(), WorkStop>
    requires inverse { inverse < ring.now.modulus.value }
    requires inside { at.column < length columns.now }
    requires index { i < length columns.now }
    requires columns { AreVectorsOver ring.now (ring_comparison ring.now) columns.now }
    ensures put { OnOk result (IsOtherPut ring.now inverse at columns.now i others.old.items others.new.items) }
    ensures stop { IfErr result (SplittingStops ring.now columns.now at) }
{
    if i == at.column {
        return Ok(());
    }
    match split_column(alloc, ring, columns, at, inverse, i) {
        Ok(split) => {
            others.push(split)?;
            Ok(())
        }
        Err(stop) => Err(stop),
    }
}

// The other columns so.
fn split_columns(
    alloc: Global,
    ring: &Ring,
    columns: &VectList,
    at: Constant,
    inverse: u32,
) -> Result<VectList, WorkStop>
    requires inverse { inverse < ring.now.modulus.value }
    requires inside { at.column < length columns.now }
    requires columns { AreVectorsOver ring.now (ring_comparison ring.now) columns.now }
    ensures split { IfOk result (AreSplit ring.now inverse at columns.now) }
    ensures stop { IfErr result (SplittingStops ring.now columns.now at) }
{
    lawful_setting(ring);
    let mut others = Vec::with_capacity(alloc, columns.len())?;
    for i in 0..columns.len() {
        match push_other(alloc, ring, columns, at, inverse, i, &mut others) {
            Ok(()) => {}
            Err(stop) => return Err(stop),
        }
    }
    Ok(VectList::from_vec(others))
}

// The map split at the constant.
fn split_map(alloc: Global, ring: &Ring, map: Carried, at: Constant) -> Result<Carried, WorkStop>
    requires columns { AreVectorsOver ring.now (ring_comparison ring.now) map.columns }
    requires first { IsFirst ring.now map.columns at }
    ensures split { IfOk result (IsMapSplit ring.now at map) }
    ensures stop { IfErr result (SplittingStops ring.now map.columns at) }
{
    let inverse = match ring.modulus.invert(at.residue) {
        Some(inverse) => inverse,
        None => unreachable!(),
    };
    let columns = match split_columns(alloc, ring, &map.columns, at, inverse) {
        Ok(columns) => columns,
        Err(stop) => return Err(stop),
    };
    let mut degrees = map.degrees;
    drop_degree(&mut degrees, at.column as u64);
    Ok(Carried { columns, degrees })
}

// The constant's column leaves the rows of the next map, and its row the columns of the former one.
fn leave_maps(
    alloc: Global,
    ring: &Ring,
    positions: &mut Vec<u32>,
    done: &mut Vec<Carried>,
    rest: &mut Vec<Carried>,
    at: Constant,
) -> Result<(), NoMemory>
    requires { AreOrdered ring.now rest.old.items }
    ensures next { OnOk result (IsNextLeft ring.now (at.column ∷ []) rest.old.items rest.new.items) }
    ensures former { OnOk result (IsFormerLeft (at.row ∷ []) positions.old.items positions.new.items done.old.items done.new.items) }
{
    leave_next(alloc, ring, &one_leaving(alloc, at.column as u64)?, rest)?;
    leave_former(alloc, &one_leaving(alloc, at.row)?, positions, done)?;
    Ok(())
}

/// The constant, its row and its column leave the maps, of which those to come stand with the next one last. It is the first
/// constant of the map at hand, and those before have none. After an error the maps are lost.
pub(crate) fn cancel(
    alloc: Global,
    ring: &Ring,
    positions: &mut Vec<u32>,
    done: &mut Vec<Carried>,
    current: Carried,
    rest: &mut Vec<Carried>,
    at: Constant,
) -> Result<Carried, WorkStop>
    requires underway { IsCancellationUnderway ring.now positions.old.items done.old.items (in_turn done.old.items current rest.old.items) }
    requires first { IsFirst ring.now current.columns at }
    ensures underway { IfOk result (λ m. IsCancellationUnderway ring.now positions.new.items done.new.items (in_turn done.new.items m rest.new.items)) }
    ensures leads { IfOk result (λ m. LeadsTo ring.now.modulus.value
        (graded_maps ring.now positions.old.items (in_turn done.old.items current rest.old.items))
        (graded_maps ring.now positions.new.items (in_turn done.new.items m rest.new.items))) }
    ensures falls { IfOk result (λ m. length m.columns + 1 ≡ length current.columns) }
    ensures rest { OnOk result (length rest.new.items ≡ length rest.old.items) }
    ensures stop { IfErr result (CancellationStops ring.now
        (graded_maps ring.now positions.old.items (in_turn done.old.items current rest.old.items))) }
{
    lawful_setting(ring);
    let split = match split_map(alloc, ring, current, at) {
        Ok(split) => split,
        Err(stop) => return Err(stop),
    };
    match leave_maps(alloc, ring, positions, done, rest, at) {
        Ok(()) => Ok(split),
        Err(_) => Err(WorkStop::Memory),
    }
}
