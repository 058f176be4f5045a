// The polynomials that take one module into another.
ghost use Rattle.std.specs.Prelude.{◌≡◌, ◌<◌, ◌≤◌, ◌*◌, ◌∷◌, [], IfOk, IfErr, OnOk, length};
ghost use Rattle.formal_sums.specs.FormalSums.{Each, IsOfRank, product};
ghost use Rattle.formal_sums.specs.Combinations.{IsMember};
ghost use Rattle.operation_laws.specs.Operations.{basis_vector};
ghost use Rattle.term_lists.specs.Rings.{ring_comparison, variables};
ghost use Rattle.term_lists.specs.Vectors.{AreVectorsOver, HasPositions, IsVectorOver, StandsFor, sums_of};
ghost use Rattle.risen_counts.specs.Counts.{RoseAtMost};
ghost use Rattle.groebner_iface.specs.Calls.{CallStops, NoTrail};
ghost use Rattle.syzygy_engine.specs.Answers.{IsBasisOfThose};
ghost use Rattle.syzygy_engine.specs.Kernels.{runs_in_order};
ghost use Rattle.syzygy_engine.specs.Runs.{AreVectorsFor, IsRunFor};
ghost use Rattle.ideal_ops.specs.Components.{AreColonRuns};

use crate::coprime_leads::colon_by_coprime;
use crate::stacking::{block_list, stacked_list};
use groebner_iface::{Groebner, OpStop};
use module_vectors::{Key, NoMemory, Ring, Vect, VectList, lawful_setting};
use monomial_orders::Mono;
use risen_counts::counted_times;
use std::alloc::Global;
use std::sync::Wait;
use std::thread::Threads;
use syzygy_engine::{by_position, first_mark, kernel_modulo};

/// The monomial at position 0, as a list of terms.
pub(crate) fn one_term(alloc: Global, monomial: Mono) -> Result<Vec<(Key, u32)>, NoMemory>
    ensures { IfOk result (λ terms. terms.items ≡ (record { position = 0; monomial = monomial }, 1) ∷ []) }
{
    let mut terms = Vec::with_capacity(alloc, 1)?;
    let position = 0;
    terms.push_reserved((Key { position, monomial }, 1));
    Ok(terms)
}

// The polynomial 1.
fn one(alloc: Global, ring: &Ring) -> Result<Vect, NoMemory>
    ensures vector { IfOk result (IsVectorOver ring.now (ring_comparison ring.now)) }
    ensures sum { IfOk result (λ u. StandsFor ring.now u (basis_vector 0)) }
{
    ring.modulus.domain();
    let monomial = Mono::unit(alloc, ring.vars.len())?;
    let terms = one_term(alloc, monomial)?;
    Vect::from_terms(alloc, ring, terms)
}

// The list of the polynomial 1 alone.
fn list_of_one(alloc: Global, ring: &Ring) -> Result<VectList, NoMemory>
    ensures { IfOk result (AreVectorsFor ring.now (basis_vector 0 ∷ [])) }
{
    let mut list = VectList::new(alloc);
    list.push(one(alloc, ring)?)?;
    Ok(list)
}

// The reduced basis of all polynomials.
fn all_polynomials<R: Threads + Wait + Sync, B: Groebner>(
    rt: &R,
    alloc: Global,
    engine: &mut B,
    ring: &Ring,
) -> Result<VectList, OpStop>
    ensures basis { IfOk result (IsBasisOfThose ring.now 1 (IsOfRank ring.now.modulus.value 1)) }
    ensures same { OnOk result ((B.stops engine.new ≡ B.stops engine.old) × (B.stopped engine.new ≡ B.stopped engine.old)) }
    ensures stop { IfErr result (CallStops (IsRunFor ring.now 1 (basis_vector 0 ∷ [])) NoTrail
        (B.stops engine.old) (B.stops engine.new) (B.stopped engine.old) (B.stopped engine.new)) }
    ensures later { B.stops engine.old ≤ B.stops engine.new }
    ensures runs { RoseAtMost 1 (B.runs engine.old) (B.runs engine.new) }
    ensures settings { B.settings engine.new ≡ B.settings engine.old }
{
    counted_times();
    lawful_setting(ring);
    let list = list_of_one(alloc, ring)?;
    match engine.reduced(rt, alloc, ring, 1, &list) {
        Ok(basis) => Ok(basis),
        Err(stop) => Err(OpStop::from(stop)),
    }
}

// The rank of vectors in s blocks.
fn rank_of_blocks(rank: u128, s: usize) -> u128
    requires { rank * s < 9223372036854775808 }
    ensures { result ≡ rank * s }
{
    rank * s as u128
}

// The same by vectors, at least one, by their stack with a mark.
fn colon_by_marks<R: Threads + Wait + Sync, B: Groebner>(
    rt: &R,
    alloc: Global,
    engine: &mut B,
    ring: &Ring,
    rank: u128,
    list: &VectList,
    by: &VectList,
) -> Result<VectList, OpStop>
    requires vectors { AreVectorsOver ring.now (ring_comparison ring.now) list.now }
    requires positions { Each (HasPositions rank) list.now }
    requires by { AreVectorsOver ring.now (ring_comparison ring.now) by.now }
    requires by_positions { Each (HasPositions rank) by.now }
    requires some { 0 < length by.now }
    requires room { rank * length by.now < 9223372036854775808 }
    ensures basis { let n = variables ring.now in let p = ring.now.modulus.value in IfOk result
        (IsBasisOfThose ring.now 1 (λ v. IsOfRank p 1 v × Each (λ c. IsMember p (sums_of n list.now) (product v c)) (sums_of n by.now))) }
    ensures same { OnOk result ((B.stops engine.new ≡ B.stops engine.old) × (B.stopped engine.new ≡ B.stopped engine.old)) }
    ensures stop { IfErr result (CallStops (AreColonRuns ring.now rank list.now by.now) NoTrail
        (B.stops engine.old) (B.stops engine.new) (B.stopped engine.old) (B.stopped engine.new)) }
    ensures later { B.stops engine.old ≤ B.stops engine.new }
    ensures runs { RoseAtMost (runs_in_order ring.now) (B.runs engine.old) (B.runs engine.new) }
    ensures settings { B.settings engine.new ≡ B.settings engine.old }
{
    counted_times();
    lawful_setting(ring);
    let s = by.len();
    let end = first_mark(rank);
    let over = by_position(alloc, ring)?;
    let heads = stacked_list(alloc, ring, end, by)?;
    let members = block_list(alloc, &over, end, s, list)?;
    let whole = rank_of_blocks(rank, s);
    match kernel_modulo(rt, alloc, engine, ring, &over, whole, &heads, members) {
        Ok(basis) => Ok(basis),
        Err(stop) => Err(stop),
    }
}

/// The reduced basis of the polynomials v with v c in the module of the list for each vector c of `by`, all of this rank:
/// the syzygies of the vectors of `by` one below the other modulo the list in each block, by one run, position over term,
/// on these vectors with one mark and the blocks without (UAG chapter 5, section 3). By no vectors, one run, on the
/// polynomial 1.
///
/// An ideal that is the colon itself is found by its leads before that, where an attempt at its basis, which is no run that
/// counts, has an answer.
///
/// `Pairs` and `Degree` are those of one of the runs, which the engine counted and kept; `Memory` where there is none;
/// `Trail` never.
pub fn colon<R: Threads + Wait + Sync, B: Groebner>(
    rt: &R,
    alloc: Global,
    engine: &mut B,
    ring: &Ring,
    rank: u128,
    list: &VectList,
    by: &VectList,
) -> Result<VectList, OpStop>
    requires vectors { AreVectorsOver ring.now (ring_comparison ring.now) list.now }
    requires positions { Each (HasPositions rank) list.now }
    requires by { AreVectorsOver ring.now (ring_comparison ring.now) by.now }
    requires by_positions { Each (HasPositions rank) by.now }
    requires room { rank * length by.now < 9223372036854775808 }
    ensures basis { let n = variables ring.now in let p = ring.now.modulus.value in IfOk result
        (IsBasisOfThose ring.now 1 (λ v. IsOfRank p 1 v × Each (λ c. IsMember p (sums_of n list.now) (product v c)) (sums_of n by.now))) }
    ensures same { OnOk result ((B.stops engine.new ≡ B.stops engine.old) × (B.stopped engine.new ≡ B.stopped engine.old)) }
    ensures stop { IfErr result (CallStops (AreColonRuns ring.now rank list.now by.now) NoTrail
        (B.stops engine.old) (B.stops engine.new) (B.stopped engine.old) (B.stopped engine.new)) }
    ensures later { B.stops engine.old ≤ B.stops engine.new }
    ensures runs { RoseAtMost (runs_in_order ring.now) (B.runs engine.old) (B.runs engine.new) }
    ensures settings { B.settings engine.new ≡ B.settings engine.old }
{
    counted_times();
    if by.len() == 0 {
        return all_polynomials(rt, alloc, engine, ring);
    }
    match colon_by_coprime(rt, alloc, engine, ring, rank, list, by) {
        Ok(Some(basis)) => Ok(basis),
        Ok(None) => colon_by_marks(rt, alloc, engine, ring, rank, list, by),
        Err(NoMemory) => Err(OpStop::Memory),
    }
}
