// The homology of the transposed maps at one step of a resolution.
ghost use Rattle.std.specs.Prelude.{◌≡◌, ◌≤◌, ◌<◌, ◌*◌, [], get_or, IfOk, IfErr, OnOk, length, map};
ghost use Rattle.formal_sums.specs.FormalSums.{Each};
ghost use Rattle.ext_laws.specs.Transposes.{IsInTransposedKernel, rank_at};
ghost use Rattle.term_lists.specs.Rings.{variables};
ghost use Rattle.term_lists.specs.Vectors.{AreTermsOver, HasPositions, sums_of};
ghost use Rattle.risen_counts.specs.Counts.{RoseAtMost};
ghost use Rattle.groebner_iface.specs.Calls.{CallStops, NoTrail};
ghost use Rattle.syzygy_engine.specs.Answers.{IsBasisOfThose};
ghost use Rattle.syzygy_engine.specs.Kernels.{runs_in_order};
ghost use Rattle.syzygy_engine.specs.Marking.{position_ring};
ghost use Rattle.syzygy_engine.specs.Runs.{AreVectorsFor};
ghost use Rattle.ext_modules.specs.Ext.{AreExtRuns, AreLinked, IsExt, IsExtKernel, AreExtRelations, IsRelationsRun, IsRowsRun, IsTransposedRun, image_of};

use crate::Ext;
use crate::transposing::transposed;
use crate::units::{are_units, unit_list};
use groebner_iface::{Groebner, OpStop};
use module_vectors::{NoMemory, Ring, VectList, lawful_setting};
use resolution_maps::Map;
use risen_counts::counted_times;
use std::alloc::Global;
use std::sync::Wait;
use std::thread::Threads;
use syzygy_engine::{by_position, first_mark, kernel_modulo, syzygies};

// How many columns there are. `NoMemory` for 2^63 or more, for which there is none.
fn width_of(columns: &VectList) -> Result<u64, NoMemory>
    ensures value { IfOk result (λ count. count ≡ length columns.now) }
    ensures room { IfOk result (λ count. count < 9223372036854775808) }
{
    let count = columns.len() as u64;
    if count < 9223372036854775808 {
        Ok(count)
    } else {
        Err(NoMemory)
    }
}

// How many columns the map with this index has, 0 where there is none.
fn count_columns(maps: &[Map], index: u64) -> Result<u64, NoMemory>
    ensures value { IfOk result (λ count. count ≡ length (get_or (map (λ m. m.columns) maps.now) index [])) }
    ensures room { IfOk result (λ count. count < 9223372036854775808) }
{
    if index >= maps.len() as u64 {
        return Ok(0);
    }
    let count = width_of(&maps[index as usize].columns)?;
    Ok(count)
}

// The rank of the module at step k.
fn rank_of(rank: u128, maps: &[Map], k: u64) -> Result<u64, NoMemory>
    requires { rank < 9223372036854775808 }
    ensures value { IfOk result (λ count. count ≡ rank_at rank (map (λ m. m.columns) maps.now) k) }
    ensures room { IfOk result (λ count. count < 9223372036854775808) }
{
    if k == 0 {
        return Ok(first_mark(rank));
    }
    let count = count_columns(maps, k - 1)?;
    Ok(count)
}

// The kernel of the transposed map with these columns and so many rows.
fn kernel_of_columns<R: Threads + Wait + Sync, B: Groebner>(
    rt: &R,
    alloc: Global,
    engine: &mut B,
    ring: &Ring,
    count: u64,
    columns: &VectList,
) -> Result<VectList, OpStop>
    requires terms { Each (AreTermsOver ring.now) columns.now }
    requires positions { Each (HasPositions count) columns.now }
    ensures kernel { IfOk result (IsBasisOfThose ring.now count
        (IsInTransposedKernel ring.now.modulus.value count (sums_of (variables ring.now) columns.now))) }
    ensures same { OnOk result ((B.stops engine.new ≡ B.stops engine.old) × (B.stopped engine.new ≡ B.stopped engine.old)) }
    ensures stop { IfErr result (CallStops (IsTransposedRun ring.now count columns.now) NoTrail
        (B.stops engine.old) (B.stops engine.new) (B.stopped engine.old) (B.stopped engine.new)) }
    ensures later { B.stops engine.old ≤ B.stops engine.new }
    ensures runs { RoseAtMost (runs_in_order ring.now) (B.runs engine.old) (B.runs engine.new) }
    ensures settings { B.settings engine.new ≡ B.settings engine.old }
{
    counted_times();
    lawful_setting(ring);
    let width = width_of(columns)?;
    let rows = transposed(alloc, ring, count, columns)?;
    match syzygies(rt, alloc, engine, ring, width as u128, &rows) {
        Ok(kernel) => Ok(kernel),
        Err(stop) => Err(stop),
    }
}

// The kernel of the transposed map out of step k.
fn kernel_at<R: Threads + Wait + Sync, B: Groebner>(
    rt: &R,
    alloc: Global,
    engine: &mut B,
    ring: &Ring,
    rank: u128,
    maps: &[Map],
    k: u64,
) -> Result<VectList, OpStop>
    requires linked { AreLinked ring.now rank (map (λ m. m.columns) maps.now) }
    requires room { rank < 9223372036854775808 }
    ensures kernel { IfOk result (IsExtKernel ring.now rank (map (λ m. m.columns) maps.now) k) }
    ensures same { OnOk result ((B.stops engine.new ≡ B.stops engine.old) × (B.stopped engine.new ≡ B.stopped engine.old)) }
    ensures stop { IfErr result (CallStops (IsRowsRun ring.now rank (map (λ m. m.columns) maps.now) k) NoTrail
        (B.stops engine.old) (B.stops engine.new) (B.stopped engine.old) (B.stopped engine.new)) }
    ensures later { B.stops engine.old ≤ B.stops engine.new }
    ensures runs { RoseAtMost (runs_in_order ring.now) (B.runs engine.old) (B.runs engine.new) }
    ensures settings { B.settings engine.new ≡ B.settings engine.old }
{
    counted_times();
    lawful_setting(ring);
    let count = rank_of(rank, maps, k)?;
    if k >= maps.len() as u64 {
        let units = unit_list(alloc, ring, count)?;
        return Ok(units);
    }
    let columns = &maps[k as usize].columns;
    match kernel_of_columns(rt, alloc, engine, ring, count, columns) {
        Ok(kernel) => Ok(kernel),
        Err(stop) => Err(stop),
    }
}

// The rows of the map into step k, in the order by position. There are none at step 0.
fn image_list(
    alloc: Global,
    ring: &Ring,
    by_position: &Ring,
    rank: u128,
    maps: &[Map],
    k: u64,
) -> Result<VectList, NoMemory>
    requires by_position { by_position.now ≡ position_ring ring.now }
    requires linked { AreLinked ring.now rank (map (λ m. m.columns) maps.now) }
    requires room { rank < 9223372036854775808 }
    requires within { k ≤ length maps.now }
    ensures list { IfOk result (AreVectorsFor (position_ring ring.now) (image_of ring.now rank (map (λ m. m.columns) maps.now) k)) }
    ensures positions { IfOk result (Each (HasPositions (rank_at rank (map (λ m. m.columns) maps.now) k))) }
{
    lawful_setting(ring);
    if k == 0 {
        return Ok(VectList::new(alloc));
    }
    let before = k - 1;
    let count = rank_of(rank, maps, before)?;
    let list = transposed(alloc, by_position, count, &maps[before as usize].columns)?;
    Ok(list)
}

// The relations of the kernel at step k modulo the image. Above the last step both are zero.
fn relations_at<R: Threads + Wait + Sync, B: Groebner>(
    rt: &R,
    alloc: Global,
    engine: &mut B,
    ring: &Ring,
    rank: u128,
    maps: &[Map],
    k: u64,
    kernel: &VectList,
) -> Result<VectList, OpStop>
    requires linked { AreLinked ring.now rank (map (λ m. m.columns) maps.now) }
    requires room { rank < 9223372036854775808 }
    requires kernel { IsExtKernel ring.now rank (map (λ m. m.columns) maps.now) k kernel.now }
    ensures relations { IfOk result (AreExtRelations ring.now rank (map (λ m. m.columns) maps.now) k kernel.now) }
    ensures same { OnOk result ((B.stops engine.new ≡ B.stops engine.old) × (B.stopped engine.new ≡ B.stopped engine.old)) }
    ensures stop { IfErr result (CallStops (IsRelationsRun ring.now rank (map (λ m. m.columns) maps.now) k) NoTrail
        (B.stops engine.old) (B.stops engine.new) (B.stopped engine.old) (B.stopped engine.new)) }
    ensures later { B.stops engine.old ≤ B.stops engine.new }
    ensures runs { RoseAtMost (runs_in_order ring.now) (B.runs engine.old) (B.runs engine.new) }
    ensures settings { B.settings engine.new ≡ B.settings engine.old }
{
    counted_times();
    lawful_setting(ring);
    if kernel.len() == 0 {
        return Ok(VectList::new(alloc));
    }
    let over = by_position(alloc, ring)?;
    let members = image_list(alloc, ring, &over, rank, maps, k)?;
    let count = rank_of(rank, maps, k)?;
    match kernel_modulo(
        rt,
        alloc,
        engine,
        ring,
        &over,
        count as u128,
        kernel,
        members,
    ) {
        Ok(relations) => Ok(relations),
        Err(stop) => Err(stop),
    }
}

/// The Ext module at step k, against the ring, of the cokernel of the first map, which is into a module of this rank: the
/// kernel of the transposed map out of step k, all of the module at the last step, and the relations of its basis modulo the
/// rows of the map into step k. Behind the last step both are empty. A vector of the kernel stands for zero exactly where it is
/// in the module of these rows.
///
/// `Pairs` and `Degree` are those of one of the runs, which the engine counted and kept; `Memory` where there is none;
/// `Trail` never.
pub fn ext<R: Threads + Wait + Sync, B: Groebner>(
    rt: &R,
    alloc: Global,
    engine: &mut B,
    ring: &Ring,
    rank: u128,
    maps: &[Map],
    k: u64,
) -> Result<Ext, OpStop>
    requires linked { AreLinked ring.now rank (map (λ m. m.columns) maps.now) }
    requires room { rank < 9223372036854775808 }
    ensures ext { IfOk result (IsExt ring.now rank (map (λ m. m.columns) maps.now) k) }
    ensures same { OnOk result ((B.stops engine.new ≡ B.stops engine.old) × (B.stopped engine.new ≡ B.stopped engine.old)) }
    ensures stop { IfErr result (CallStops (AreExtRuns ring.now rank (map (λ m. m.columns) maps.now) k) NoTrail
        (B.stops engine.old) (B.stops engine.new) (B.stopped engine.old) (B.stopped engine.new)) }
    ensures later { B.stops engine.old ≤ B.stops engine.new }
    ensures runs { RoseAtMost (2 * runs_in_order ring.now) (B.runs engine.old) (B.runs engine.new) }
    ensures settings { B.settings engine.new ≡ B.settings engine.old }
{
    counted_times();
    lawful_setting(ring);
    let kernel = match kernel_at(rt, alloc, engine, ring, rank, maps, k) {
        Ok(kernel) => kernel,
        Err(stop) => return Err(stop),
    };
    let relations = match relations_at(rt, alloc, engine, ring, rank, maps, k, &kernel) {
        Ok(relations) => relations,
        Err(stop) => return Err(stop),
    };
    let zero = are_units(alloc, ring, kernel.len(), &relations)?;
    Ok(Ext {
        kernel,
        relations,
        zero,
    })
}
