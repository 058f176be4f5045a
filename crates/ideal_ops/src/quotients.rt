// The quotient of a module by a polynomial.
ghost use Rattle.std.specs.Prelude.{◌≡◌, ◌<◌, ◌≤◌, ◌++◌, ◌∷◌, [], IfOk, IfErr, OnOk};
ghost use Rattle.formal_sums.specs.FormalSums.{Each, IsOfRank, product};
ghost use Rattle.formal_sums.specs.Combinations.{IsMember};
ghost use Rattle.operation_laws.specs.Operations.{basis_vector, multiples_of};
ghost use Rattle.term_lists.specs.Rings.{ring_comparison, variables};
ghost use Rattle.term_lists.specs.Vectors.{AreTermsOver, AreVectorsOver, HasPositions, IsVectorOver, StandsFor, sum_of, sums_of};
ghost use Rattle.risen_counts.specs.Counts.{RoseAtMost};
ghost use Rattle.groebner_iface.specs.Calls.{CallStops, NoTrail};
ghost use Rattle.syzygy_engine.specs.Answers.{IsBasisOfThose};
ghost use Rattle.syzygy_engine.specs.Kernels.{runs_in_order};
ghost use Rattle.syzygy_engine.specs.Runs.{AreVectorsFor};
ghost use Rattle.ideal_ops.specs.Components.{AreQuotientRuns, positioned_at};

use crate::sorting::sorted_list;
use groebner_iface::{Groebner, OpStop};
use module_vectors::{Key, NoMemory, Ring, Vect, VectList, lawful_setting};
use risen_counts::counted_times;
use std::alloc::Global;
use std::sync::Wait;
use std::thread::Threads;
use syzygy_engine::{by_position, first_mark, kernel_modulo};

// Puts the term behind the others, moved to this position.
fn push_placed(
    alloc: Global,
    term: &(Key, u32),
    position: u64,
    terms: &mut Vec<(Key, u32)>,
) -> Result<(), NoMemory>
    ensures { OnOk result (terms.new.items ≡ terms.old.items ++ positioned_at position (term.now ∷ [])) }
{
    let monomial = term.0.monomial.try_copy(alloc)?;
    terms.push((Key { position, monomial }, term.1))?;
    Ok(())
}

/// The terms, each moved to this position, with room for one more.
pub(crate) fn placed_terms(
    alloc: Global,
    v: &Vect,
    position: u64,
) -> Result<Vec<(Key, u32)>, NoMemory>
    ensures { IfOk result (λ terms. terms.items ≡ positioned_at position v.now) }
{
    let mut terms = Vec::with_capacity(alloc, v.terms().len() + 1)?;
    for term in v.terms() {
        push_placed(alloc, term, position, &mut terms)?;
    }
    Ok(terms)
}

// The polynomial f at this position.
fn multiple_at(alloc: Global, ring: &Ring, f: &Vect, position: u64) -> Result<Vect, NoMemory>
    requires { AreTermsOver ring.now f.now }
    ensures vector { IfOk result (IsVectorOver ring.now (ring_comparison ring.now)) }
    ensures sum { let n = variables ring.now in IfOk result (λ v. StandsFor ring.now v (product (sum_of n f.now) (basis_vector position))) }
{
    Vect::from_terms(alloc, ring, placed_terms(alloc, f, position)?)
}

// The polynomial f at each position below the rank.
fn multiples(alloc: Global, ring: &Ring, rank: u64, f: &Vect) -> Result<VectList, NoMemory>
    requires { AreTermsOver ring.now f.now }
    ensures { let n = variables ring.now in IfOk result (AreVectorsFor ring.now (multiples_of rank (sum_of n f.now))) }
{
    let mut list = Vec::new(alloc);
    for position in 0..rank {
        list.push(multiple_at(alloc, ring, f, position)?)?;
    }
    Ok(VectList::from_vec(list))
}

/// The reduced basis of the vectors v of this rank with f v in the module of the list: the syzygies of f e_1 to f e_m
/// modulo the list, by a run, position over term, on these with a mark each and the list without, and where the ring's
/// order is term over position and the rank above 1, one on what vanishes before the marks (UAG chapter 5, section 3).
///
/// `Pairs` and `Degree` are those of one of the runs, which the engine counted and kept; `Memory` where there is none;
/// `Trail` never.
pub fn quotient<R: Threads + Wait + Sync, B: Groebner>(
    rt: &R,
    alloc: Global,
    engine: &mut B,
    ring: &Ring,
    rank: u128,
    list: &VectList,
    f: &Vect,
) -> Result<VectList, OpStop>
    requires vectors { AreVectorsOver ring.now (ring_comparison ring.now) list.now }
    requires positions { Each (HasPositions rank) list.now }
    requires f { IsVectorOver ring.now (ring_comparison ring.now) f.now }
    requires f_positions { HasPositions 1 f.now }
    requires room { rank < 9223372036854775808 }
    ensures basis { let n = variables ring.now in let p = ring.now.modulus.value in IfOk result
        (IsBasisOfThose ring.now rank (λ v. IsOfRank p rank v × IsMember p (sums_of n list.now) (product (sum_of n f.now) v))) }
    ensures same { OnOk result ((B.stops engine.new ≡ B.stops engine.old) × (B.stopped engine.new ≡ B.stopped engine.old)) }
    ensures stop { IfErr result (CallStops (AreQuotientRuns ring.now rank list.now f.now) NoTrail
        (B.stops engine.old) (B.stops engine.new) (B.stopped engine.old) (B.stopped engine.new)) }
    ensures later { B.stops engine.old ≤ B.stops engine.new }
    ensures runs { RoseAtMost (runs_in_order ring.now) (B.runs engine.old) (B.runs engine.new) }
    ensures settings { B.settings engine.new ≡ B.settings engine.old }
{
    counted_times();
    lawful_setting(ring);
    let over = by_position(alloc, ring)?;
    let heads = multiples(alloc, ring, first_mark(rank), f)?;
    let members = sorted_list(alloc, &over, list)?;
    match kernel_modulo(rt, alloc, engine, ring, &over, rank, &heads, members) {
        Ok(basis) => Ok(basis),
        Err(stop) => Err(stop),
    }
}
