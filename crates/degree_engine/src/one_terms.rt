// The reduced basis of a list of vectors of one term each.
ghost use Rattle.std.specs.Prelude.{IfOk, IsTrue, length, ◌<◌};
ghost use Rattle.std.specs.Thread.{IsSync};
ghost use Rattle.formal_sums.specs.FormalSums.{Each};
ghost use Rattle.term_lists.specs.Rings.{ring_comparison};
ghost use Rattle.term_lists.specs.Vectors.{AreVectorsOver, HasPositions};
ghost use Rattle.groebner_iface.specs.Runs.{IsReducedBasisOf};

use crate::attempt::Unanswered;
use interreduce::interreduce;
use module_vectors::{Ring, VectList, lawful_setting};
use std::alloc::Global;
use std::sync::Wait;
use std::thread::Threads;

/// Has each vector of the list at most one term?
pub(crate) fn have_one_term(list: &VectList) -> bool
    ensures { IsTrue result → Each (λ v. length v < 2) list.now }
{
    for v in list.as_slice() {
        if v.terms().len() > 1 {
            return false;
        }
    }
    true
}

/// The reduced basis of a list of vectors of at most one term each, which is a Gröbner basis as it stands (IVA chapter 2,
/// section 4): its needed members, with no pair looked at.
pub(crate) fn by_terms<R: Threads + Wait + Sync>(
    rt: &R,
    alloc: Global,
    ring: &Ring,
    rank: u128,
    list: &VectList,
) -> Result<VectList, Unanswered>
    requires sync { IsSync R.row }
    requires vectors { AreVectorsOver ring.now (ring_comparison ring.now) list.now }
    requires positions { Each (HasPositions rank) list.now }
    requires terms { Each (λ v. length v < 2) list.now }
    ensures { IfOk result (IsReducedBasisOf ring.now rank list.now) }
{
    lawful_setting(ring);
    let reduced = interreduce(rt, alloc, ring, list)?;
    Ok(reduced)
}
