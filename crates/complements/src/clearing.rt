// Vectors plus combinations of columns.
ghost use Rattle.std.specs.Prelude.{◌++◌, IfOk, OnOk, length};
ghost use Rattle.formal_sums.specs.Combinations.{combination};
ghost use Rattle.term_lists.specs.Rings.{ring_comparison, variables};
ghost use Rattle.term_lists.specs.Vectors.{AreVectorsOver, IsVectorOver, sum_of, sums_of};
ghost use Rattle.complements.specs.Combining.{HasZeroSums};
ghost use Rattle.complements.specs.Complements.{AreComplements, IsComplement};

use crate::accumulator::{Accumulator, no_sums};
use crate::elimination::{Elimination, Work, eliminated};
use crate::factors::factors_at;
use crate::numbered::combination_of;
use crate::sums::Sums;
use module_vectors::{NoMemory, Ring, Vect, VectList, VectStop, lawful_setting};
use std::alloc::Global;

// The vector plus the combination of the columns by these cofactors.
fn with_combination(
    alloc: Global,
    ring: &Ring,
    columns: &VectList,
    factors: &Vect,
    v: Vect,
    accumulator: &mut Accumulator,
) -> Result<Vect, VectStop>
    requires columns { AreVectorsOver ring.now (ring_comparison ring.now) columns.now }
    requires factors { IsVectorOver ring.now (ring_comparison ring.now) factors.now }
    requires vector { IsVectorOver ring.now (ring_comparison ring.now) v }
    requires cleared { HasZeroSums ring.now columns.now accumulator.old }
    ensures vector { IfOk result (IsVectorOver ring.now (ring_comparison ring.now)) }
    ensures sum { IfOk result (IsComplement ring.now columns.now v) }
    ensures cleared { OnOk result (HasZeroSums ring.now columns.now accumulator.new) }
{
    lawful_setting(ring);
    if factors.terms().is_empty() || !factors.has_positions(columns.len() as u128) {
        return Ok(v);
    }
    let sum = combination_of(alloc, ring, columns, factors, accumulator)?;
    let mut out = v;
    out.add(alloc, ring, sum)?;
    Ok(out)
}

// The vector cleared of its entries in the steps' rows.
fn complement(
    alloc: Global,
    ring: &Ring,
    columns: &VectList,
    elimination: &Elimination,
    v: Vect,
    work: &mut Work,
    accumulator: &mut Accumulator,
) -> Result<Vect, VectStop>
    requires columns { AreVectorsOver ring.now (ring_comparison ring.now) columns.now }
    requires vector { IsVectorOver ring.now (ring_comparison ring.now) v }
    requires cleared { HasZeroSums ring.now columns.now accumulator.old }
    ensures vector { IfOk result (IsVectorOver ring.now (ring_comparison ring.now)) }
    ensures sum { IfOk result (IsComplement ring.now columns.now v) }
    ensures cleared { OnOk result (HasZeroSums ring.now columns.now accumulator.new) }
{
    lawful_setting(ring);
    let mut out = v;
    let mut turn: u32 = 0;
    for level in &elimination.levels {
        turn = turn.saturating_add(1);
        let factors = factors_at(
            alloc,
            ring,
            &level.steps,
            &elimination.turns,
            turn,
            &out,
            work,
        )?;
        match with_combination(alloc, ring, columns, &factors, out, accumulator) {
            Ok(sum) => out = sum,
            Err(stop) => return Err(stop),
        }
    }
    Ok(out)
}

/// The vectors, each plus a combination of the columns: that by which it has no entry in the rows that leave, where the columns are as
/// many as these rows and homogeneous of these degrees, and the matrix of their constants in the rows is invertible. `places` tells
/// of each row whether it leaves: it has no place then.
///
/// `Degree` comes where a product of a monomial and a column is too great, and carries the two; `Memory` where there is none.
pub fn complements(
    alloc: Global,
    ring: &Ring,
    columns: &VectList,
    degrees: &[u32],
    places: &[Option<u64>],
    vectors: &[Vect],
) -> Result<Vec<Vect>, VectStop>
    requires columns { AreVectorsOver ring.now (ring_comparison ring.now) columns.now }
    requires vectors { AreVectorsOver ring.now (ring_comparison ring.now) vectors.now }
    ensures { IfOk result (λ all. AreComplements ring.now columns.now vectors.now (length vectors.now) all.items) }
{
    let modulus = &ring.modulus;
    let mut work = Work {
        rows: Sums::new(alloc, places.len())?,
        columns: Sums::new(alloc, columns.len())?,
    };
    let elimination = eliminated(
        alloc,
        modulus,
        places,
        columns.as_slice(),
        degrees,
        &mut work,
    )?;
    let mut accumulator = no_sums(alloc, ring, columns.as_slice())?;
    let mut all = Vec::with_capacity(alloc, vectors.len())?;
    for v in vectors {
        let copy = v.try_copy(alloc)?;
        match complement(
            alloc,
            ring,
            columns,
            &elimination,
            copy,
            &mut work,
            &mut accumulator,
        ) {
            Ok(sum) => all.push(sum)?,
            Err(stop) => return Err(stop),
        }
    }
    Ok(all)
}
