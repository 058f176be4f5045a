// Colons of ideals.
ghost use Rattle.formal_sums.specs.FormalSums.{Each};
ghost use Rattle.term_lists.specs.Rings.{ring_comparison};
ghost use Rattle.term_lists.specs.Vectors.{AreVectorsOver, HasPositions};

use crate::vectors::write_list;
use check_texts::{NoValue, Sheet, vectors_of};
use ideal_ops::colon;
use module_vectors::{Ring, VectList};
use plain_buchberger::PlainEngine;
use queue_updates::Update;
use std::alloc::Global;
use std::sync::Wait;
use std::thread::Threads;

// The most pairs of a run.
const MOST_PAIRS: u64 = 1000;

// The most polynomials that an ideal is divided by.
const MOST_POLYNOMIALS: usize = 1000;

/// Writes the reduced basis of the colon of an ideal by polynomials, and how many runs the engine counted for it.
pub fn write_colon<R: Threads + Wait + Sync>(
    rt: &R,
    alloc: Global,
    sheet: &mut Sheet,
    ring: &Ring,
    rank: u128,
    by: &str,
    list: &VectList,
) -> Result<(), NoValue>
    requires vectors { AreVectorsOver ring.now (ring_comparison ring.now) list.now }
    requires positions { Each (HasPositions rank) list.now }
{
    let by = vectors_of(alloc, ring, rank, by)?;
    if rank != 1 || by.len() > MOST_POLYNOMIALS {
        return Err(NoValue);
    }
    let mut engine = PlainEngine::new(MOST_PAIRS, Update::Plain);
    match colon(rt, alloc, &mut engine, ring, rank, list, &by) {
        Ok(basis) => write_list(sheet, ring, rank, &basis),
        Err(_stop) => return Err(NoValue),
    }
    sheet.count("  runs ", engine.runs());
    sheet.text("\n");
    Ok(())
}
