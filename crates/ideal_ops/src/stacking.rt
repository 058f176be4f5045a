// Vectors in blocks of positions, as many to a block as the rank: one below the other, or a list in each block.
ghost use Rattle.std.specs.Prelude.{◌≡◌, ◌<◌, ◌≤◌, ◌+◌, ◌*◌, ◌++◌, ◌∷◌, [], List, IfOk, OnOk, length, map};
ghost use Rattle.formal_sums.specs.FormalSums.{Each, FormalSum};
ghost use Rattle.syzygy_laws.specs.Syzygies.{raised};
ghost use Rattle.operation_laws.specs.Operations.{blocks, stacked};
ghost use Rattle.term_lists.specs.Rings.{ring_comparison, variables};
ghost use Rattle.term_lists.specs.Vectors.{AreTermsOver, AreVectorsOver, HasPositions, IsVectorOver, StandsFor, sum_of, sums_of};
ghost use Rattle.ideal_ops.specs.Components.{raised_terms};
ghost use Rattle.syzygy_engine.specs.Runs.{AreVectorsFor};

use module_vectors::{Key, NoMemory, Ring, Vect, VectList};
use std::alloc::Global;

// The first position of block j of s.
fn first_of_block(rank: u64, j: usize, s: usize) -> u64
    requires block { j < s }
    requires room { rank * s < 9223372036854775808 }
    ensures value { result ≡ rank * j }
    ensures low { result + rank ≤ rank * s }
{
    rank * j as u64
}

// Puts the terms behind the others, each moved by this many positions.
fn push_raised(
    alloc: Global,
    v: &Vect,
    rank: u64,
    by: u64,
    terms: &mut Vec<(Key, u32)>,
) -> Result<(), NoMemory>
    requires positions { HasPositions rank v.now }
    requires room { by + rank < 9223372036854775808 }
    ensures { OnOk result (terms.new.items ≡ terms.old.items ++ raised_terms by v.now) }
{
    for term in v.terms() {
        let mut key = term.0.try_copy(alloc)?;
        key.position = by + term.0.position;
        terms.push((key, term.1))?;
    }
    Ok(())
}

// The vector, moved by this many positions.
fn raised_vector(alloc: Global, ring: &Ring, v: &Vect, rank: u64, by: u64) -> Result<Vect, NoMemory>
    requires terms { AreTermsOver ring.now v.now }
    requires positions { HasPositions rank v.now }
    requires room { by + rank < 9223372036854775808 }
    ensures vector { IfOk result (IsVectorOver ring.now (ring_comparison ring.now)) }
    ensures sum { let n = variables ring.now in IfOk result (λ u. StandsFor ring.now u (raised by (sum_of n v.now))) }
{
    let mut terms = Vec::with_capacity(alloc, v.terms().len())?;
    push_raised(alloc, v, rank, by, &mut terms)?;
    Vect::from_terms(alloc, ring, terms)
}

// How many terms the vectors have, for the memory that they take.
fn count_terms(list: &VectList) -> usize {
    let mut count: usize = 0;
    for v in list.as_slice() {
        count = count.saturating_add(v.terms().len());
    }
    count
}

// The terms of the vectors one below the other.
fn stacked_terms(
    alloc: Global,
    ring: &Ring,
    rank: u64,
    by: &VectList,
) -> Result<Vec<(Key, u32)>, NoMemory>
    requires terms { Each (AreTermsOver ring.now) by.now }
    requires positions { Each (HasPositions rank) by.now }
    requires room { rank * length by.now < 9223372036854775808 }
    ensures terms { IfOk result (λ terms. AreTermsOver ring.now terms.items) }
    ensures sum { let n = variables ring.now in IfOk result (λ terms. sum_of n terms.items ≡ stacked rank 0 (sums_of n by.now)) }
{
    let mut terms = Vec::with_capacity(alloc, count_terms(by))?;
    for j in 0..by.len() {
        let c = &by.as_slice()[j];
        let first = first_of_block(rank, j, by.len());
        push_raised(alloc, c, rank, first, &mut terms)?;
    }
    Ok(terms)
}

// The vectors one below the other, as one.
fn stacked_vector(alloc: Global, ring: &Ring, rank: u64, by: &VectList) -> Result<Vect, NoMemory>
    requires terms { Each (AreTermsOver ring.now) by.now }
    requires positions { Each (HasPositions rank) by.now }
    requires room { rank * length by.now < 9223372036854775808 }
    ensures vector { IfOk result (IsVectorOver ring.now (ring_comparison ring.now)) }
    ensures sum { let n = variables ring.now in IfOk result (λ u. StandsFor ring.now u (stacked rank 0 (sums_of n by.now))) }
{
    let terms = stacked_terms(alloc, ring, rank, by)?;
    Vect::from_terms(alloc, ring, terms)
}

// Puts the members behind the others, each moved by this many positions.
fn push_block(
    alloc: Global,
    ring: &Ring,
    list: &VectList,
    rank: u64,
    by: u64,
    all: &mut Vec<Vect>,
) -> Result<(), NoMemory>
    requires terms { Each (AreTermsOver ring.now) list.now }
    requires positions { Each (HasPositions rank) list.now }
    requires room { by + rank < 9223372036854775808 }
    ensures { (G : List (FormalSum (variables ring.now))) → AreVectorsFor ring.now G all.old.items
        → OnOk result (AreVectorsFor ring.now (G ++ map (raised by) (sums_of (variables ring.now) list.now)) all.new.items) }
{
    for v in list.as_slice() {
        all.push(raised_vector(alloc, ring, v, rank, by)?)?;
    }
    Ok(())
}

/// The vectors of `by` one below the other, alone in a list.
pub(crate) fn stacked_list(
    alloc: Global,
    ring: &Ring,
    rank: u64,
    by: &VectList,
) -> Result<VectList, NoMemory>
    requires by { Each (AreTermsOver ring.now) by.now }
    requires by_positions { Each (HasPositions rank) by.now }
    requires room { rank * length by.now < 9223372036854775808 }
    ensures { let n = variables ring.now in IfOk result (AreVectorsFor ring.now (stacked rank 0 (sums_of n by.now) ∷ [])) }
{
    let mut list = Vec::with_capacity(alloc, 1)?;
    list.push(stacked_vector(alloc, ring, rank, by)?)?;
    Ok(VectList::from_vec(list))
}

/// The members of the list in each of s blocks.
pub(crate) fn block_list(
    alloc: Global,
    ring: &Ring,
    rank: u64,
    s: usize,
    list: &VectList,
) -> Result<VectList, NoMemory>
    requires terms { Each (AreTermsOver ring.now) list.now }
    requires positions { Each (HasPositions rank) list.now }
    requires room { rank * s < 9223372036854775808 }
    ensures { let n = variables ring.now in IfOk result (AreVectorsFor ring.now (blocks rank 0 s (sums_of n list.now))) }
{
    let mut all = Vec::with_capacity(alloc, list.len().saturating_mul(s))?;
    for j in 0..s {
        push_block(
            alloc,
            ring,
            list,
            rank,
            first_of_block(rank, j, s),
            &mut all,
        )?;
    }
    Ok(VectList::from_vec(all))
}
