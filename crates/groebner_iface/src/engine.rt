// An engine for reduced Gröbner bases.
ghost use Rattle.std.specs.Prelude.{◌≡◌, ◌≤◌, ℕ, List, Option, IfOk, IfErr, IfSome, OnOk};
ghost use Rattle.std.specs.Thread.{IsSync};
ghost use Rattle.formal_sums.specs.FormalSums.{Each};
ghost use Rattle.term_lists.specs.Rings.{ring_comparison};
ghost use Rattle.term_lists.specs.Vectors.{AreVectorsOver, HasPositions};
ghost use Rattle.risen_counts.specs.Counts.{next_count};
ghost use Rattle.groebner_iface.specs.Runs.{IsReducedBasisOf, StopsRun, StoppedRun};

use crate::Stop;
use module_vectors::{NoMemory, Ring, VectList};
use std::alloc::Global;
use std::sync::Wait;
use std::thread::Threads;

/// An engine for reduced Gröbner bases. Those that meet this contract answer the same list for the same run
/// (`one_basis`), whatever their settings. IVA chapter 2, section 7.
pub trait Groebner {
    /// How many runs stopped early. It never falls, and may stand still at 2^64 - 1.
    ghost stops: { Self → ℕ };

    /// How often a basis was asked for, whatever the answer. It never falls, and stands still at 2^64 - 1.
    ghost runs: { Self → ℕ };

    /// The last run that stopped early.
    ghost stopped: { Self → Option StoppedRun };

    /// What the engine was made with, as its budgets. No call changes it.
    ghost settings: { Self → List ℕ };

    /// The reduced Gröbner basis of the list in a free module of this rank, by descending leads in the ring's own order.
    ///
    /// `Pairs` and `Degree` say that the run stopped early: each is counted, and the run is kept with its answer.
    /// `Memory` where there is none. The list that is answered and `Memory` leave the count of stops and the kept run as they were.
    /// Each call counts as one run.
    /// The handle may be shared between threads: an engine's method knows its bound `Sync` by `sync`, and each caller by
    /// that bound.
    fn reduced<R: Threads + Wait + Sync>(
        &mut self,
        rt: &R,
        alloc: Global,
        ring: &Ring,
        rank: u128,
        list: &VectList,
    ) -> Result<VectList, Stop>
        requires sync { IsSync R.row }
        requires vectors { AreVectorsOver ring.now (ring_comparison ring.now) list.now }
        requires positions { Each (HasPositions rank) list.now }
        ensures basis { IfOk result (λ answer. IsReducedBasisOf ring.now rank list.now answer) }
        ensures same { OnOk result ((stops self.new ≡ stops self.old) × (stopped self.new ≡ stopped self.old)) }
        ensures stop { IfErr result (λ stop. StopsRun (stops self.old) (stops self.new) (stopped self.old) (stopped self.new) ring.now rank list.now stop) }
        ensures later { stops self.old ≤ stops self.new }
        ensures run { runs self.new ≡ next_count (runs self.old) }
        ensures settings { settings self.new ≡ settings self.old };

    /// The reduced basis of the list as `reduced` gives it, where a run that nobody counts comes to it; none where that
    /// stops early. The engine is as it was. No clause says when there is an answer.
    fn attempted<R: Threads + Wait + Sync>(
        &self,
        rt: &R,
        alloc: Global,
        ring: &Ring,
        rank: u128,
        list: &VectList,
    ) -> Result<Option<VectList>, NoMemory>
        requires sync { IsSync R.row }
        requires vectors { AreVectorsOver ring.now (ring_comparison ring.now) list.now }
        requires positions { Each (HasPositions rank) list.now }
        ensures { IfOk result (λ found. IfSome found (IsReducedBasisOf ring.now rank list.now)) };
}
