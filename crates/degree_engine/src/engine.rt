// The engine.
ghost use Rattle.std.specs.Prelude.{◌≡◌, IfOk};
ghost use Rattle.std.specs.Thread.{IsSync};
ghost use Rattle.formal_sums.specs.FormalSums.{Each};
ghost use Rattle.term_lists.specs.Rings.{ring_comparison};
ghost use Rattle.term_lists.specs.Vectors.{AreVectorsOver, HasPositions};
ghost use Rattle.groebner_iface.specs.Runs.{IsReducedBasisOf};

use crate::attempt::{Attempts, Unanswered};
use crate::by_change::by_change;
use crate::by_degrees::by_degrees;
use crate::directness::{goes_directly, stands_well};
use crate::one_terms::{by_terms, have_one_term};
use groebner_iface::{Groebner, Stop};
use module_vectors::{NoMemory, Ring, VectList};
use monomial_orders::Order;
use std::alloc::Global;
use std::sync::Wait;
use std::thread::Threads;

// From this number of vectors on a list of one term each has many pairs.
const LONG: usize = 64;

/// An engine over another. A long list of vectors of one term each is a basis as it stands. One that is homogeneous, or of polynomials
/// in the graded order under weights, is first run as it stands, and any other one homogenised; before that, where the order is not by
/// degree, the basis of an ideal is taken from the one in the graded order if it has few standard monomials. Each of these attempts has
/// an engine of its own. Where none has an answer, and for polynomials in the graded order without weights, the engine `direct` runs the
/// list itself. What stopped early is of that one alone. The runs that count are its own: the attempts for a list and the run of `direct`
/// on it are parts of one.
pub struct DegreeEngine<A, E> {
    pub attempts: A,
    pub direct: E,
    runs: u64,
}

// By hand, so that each drop of one is a call.
impl<A: Drop, E: Drop> Drop for DegreeEngine<A, E> {
    fn drop(self) {
        let DegreeEngine {
            attempts: _,
            direct: _,
            runs: _,
        } = self;
    }
}

impl<A, E> DegreeEngine<A, E> {
    /// An engine over this one, whose attempts have engines from these. It has not run.
    pub fn new(attempts: A, direct: E) -> DegreeEngine<A, E>
        ensures attempts { result.attempts ≡ attempts }
        ensures direct { result.direct ≡ direct }
        ensures runs { result.runs ≡ 0 }
    {
        DegreeEngine {
            attempts,
            direct,
            runs: 0,
        }
    }

    /// How often a basis was asked for, whatever the answer, up to 2^64 - 1.
    pub fn runs(&self) -> u64
        ensures { result ≡ self.now.runs }
    {
        self.runs
    }
}

// May there be a change of order? An ideal of fewer generators than variables has no or infinitely many standard monomials (Krull's
// height theorem).
fn may_have_few(ring: &Ring, list: &VectList) -> bool {
    ring.order != Order::Grevlex && list.len() >= ring.vars.len()
}

// The reduced basis of the list by a run of this engine on the list itself.
fn as_it_stands<R: Threads + Wait + Sync, E: Groebner>(
    rt: &R,
    alloc: Global,
    engine: &mut E,
    ring: &Ring,
    rank: u128,
    list: &VectList,
) -> Result<VectList, Unanswered>
    requires sync { IsSync R.row }
    requires vectors { AreVectorsOver ring.now (ring_comparison ring.now) list.now }
    requires positions { Each (HasPositions rank) list.now }
    ensures { IfOk result (IsReducedBasisOf ring.now rank list.now) }
{
    let basis = engine.reduced(rt, alloc, ring, rank, list)?;
    Ok(basis)
}

// The reduced basis of the list by one of these ways, if one comes to it. A list that gains nothing by another form is run as it stands,
// by one worker, but where it goes directly. Under weights polynomials in the graded order are run as they stand: homogenised they have
// bases several times as long.
fn attempted<R: Threads + Wait + Sync, A: Attempts<E>, E: Groebner + Drop>(
    rt: &R,
    alloc: Global,
    attempts: &A,
    ring: &Ring,
    rank: u128,
    list: &VectList,
) -> Result<VectList, Unanswered>
    requires sync { IsSync R.row }
    requires vectors { AreVectorsOver ring.now (ring_comparison ring.now) list.now }
    requires positions { Each (HasPositions rank) list.now }
    ensures { IfOk result (IsReducedBasisOf ring.now rank list.now) }
{
    if list.len() >= LONG {
        if have_one_term(list) {
            return by_terms(rt, alloc, ring, rank, list);
        }
    }
    if goes_directly(ring, rank) {
        return Err(Unanswered::Other);
    }
    if stands_well(alloc, ring, rank, list)? {
        return as_it_stands(rt, alloc, &mut attempts.engine(), ring, rank, list);
    }
    if rank == 1 {
        if may_have_few(ring, list) {
            match by_change(rt, alloc, &mut attempts.engine(), ring, list) {
                Ok(basis) => return Ok(basis),
                Err(Unanswered::Memory) => return Err(Unanswered::Memory),
                Err(Unanswered::Other) => {}
            }
        }
    }
    by_degrees(rt, alloc, &mut attempts.engine(), ring, rank, list)
}

// The reduced basis of the list by an engine for an attempt, in one way or as it stands.
fn tried<R: Threads + Wait + Sync, A: Attempts<E>, E: Groebner + Drop>(
    rt: &R,
    alloc: Global,
    attempts: &A,
    ring: &Ring,
    rank: u128,
    list: &VectList,
) -> Result<VectList, Unanswered>
    requires sync { IsSync R.row }
    requires vectors { AreVectorsOver ring.now (ring_comparison ring.now) list.now }
    requires positions { Each (HasPositions rank) list.now }
    ensures { IfOk result (IsReducedBasisOf ring.now rank list.now) }
{
    match attempted(rt, alloc, attempts, ring, rank, list) {
        Ok(basis) => return Ok(basis),
        Err(Unanswered::Memory) => return Err(Unanswered::Memory),
        Err(Unanswered::Other) => {}
    }
    if !goes_directly(ring, rank) {
        return Err(Unanswered::Other);
    }
    as_it_stands(rt, alloc, &mut attempts.engine(), ring, rank, list)
}

impl<A: Attempts<E>, E: Groebner + Drop> Groebner for DegreeEngine<A, E> {
    ghost stops = { λ e. E.stops e.direct };

    ghost runs = { λ e. e.runs };

    ghost stopped = { λ e. E.stopped e.direct };

    ghost settings = { λ e. E.settings e.direct };

    fn reduced<R: Threads + Wait + Sync>(
        &mut self,
        rt: &R,
        alloc: Global,
        ring: &Ring,
        rank: u128,
        list: &VectList,
    ) -> Result<VectList, Stop> {
        self.runs = self.runs.saturating_add(1);
        match attempted(rt, alloc, &self.attempts, ring, rank, list) {
            Ok(basis) => Ok(basis),
            Err(Unanswered::Memory) => Err(Stop::Memory),
            Err(Unanswered::Other) => self.direct.reduced(rt, alloc, ring, rank, list),
        }
    }

    fn attempted<R: Threads + Wait + Sync>(
        &self,
        rt: &R,
        alloc: Global,
        ring: &Ring,
        rank: u128,
        list: &VectList,
    ) -> Result<Option<VectList>, NoMemory> {
        match tried(rt, alloc, &self.attempts, ring, rank, list) {
            Ok(basis) => Ok(Some(basis)),
            Err(Unanswered::Memory) => Err(NoMemory),
            Err(Unanswered::Other) => Ok(None),
        }
    }
}
