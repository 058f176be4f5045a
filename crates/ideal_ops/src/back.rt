// Vectors in one more variable in front, of which those without it are taken back.
ghost use Rattle.std.specs.Prelude.{◌≡◌, ◌≤◌, ◌++◌, ◌∷◌, [], List, suc, IfErr, IfOk, OnOk};
ghost use Rattle.formal_sums.specs.FormalSums.{Each, FormalSum};
ghost use Rattle.operation_laws.specs.Operations.{back};
ghost use Rattle.term_lists.specs.FrontVariables.{front_ring};
ghost use Rattle.term_lists.specs.Rings.{ring_comparison, variables};
ghost use Rattle.term_lists.specs.Vectors.{AreTermsOver, AreVectorsOver, HasPositions, sum_of, sums_of};
ghost use Rattle.risen_counts.specs.Counts.{RoseAtMost};
ghost use Rattle.groebner_iface.specs.Calls.{CallStops, NoTrail};
ghost use Rattle.ideal_ops.specs.FrontSteps.{AreRunsOnFront, IsBackBasis};
ghost use Rattle.syzygy_engine.specs.Runs.{AreVectorsFor};

use crate::eliminating::{is_free, is_grevlex};
use groebner_iface::{Groebner, OpStop};
use module_vectors::{NoMemory, Ring, Vect, VectList, lawful_setting};
use risen_counts::counted_times;
use std::alloc::Global;
use std::sync::Wait;
use std::thread::Threads;

// Puts the member behind the others, without the first variable, if it has not that.
fn take_back(alloc: Global, ring: &Ring, v: Vect, fewer: &mut Vec<Vect>) -> Result<(), NoMemory>
    requires { AreTermsOver (front_ring ring.now) v }
    ensures { (G : List (FormalSum (suc (variables ring.now)))) → AreVectorsFor ring.now (back G) fewer.old.items
        → OnOk result (AreVectorsFor ring.now (back (G ++ sum_of (suc (variables ring.now)) v ∷ [])) fewer.new.items) }
{
    if !is_free(&v, 1) {
        return Ok(());
    }
    fewer.push(Vect::without_front(alloc, ring, v)?)?;
    Ok(())
}

// The members that have not the first variable, without it. They are moved.
fn members_back(alloc: Global, ring: &Ring, basis: VectList) -> Result<VectList, NoMemory>
    requires { Each (AreTermsOver (front_ring ring.now)) basis }
    ensures { IfOk result (AreVectorsFor ring.now (back (sums_of (suc (variables ring.now)) basis))) }
{
    let vectors = basis.into_vec();
    let mut fewer = Vec::with_capacity(alloc, vectors.len())?;
    for v in vectors {
        take_back(alloc, ring, v, &mut fewer)?;
    }
    Ok(VectList::from_vec(fewer))
}

/// The reduced basis of the members, without the first variable, of the basis of the list over `front` that have not that
/// variable: a run over `front` and, where the ring's own order is not graded reverse lexicographic, term over position, one
/// in that.
///
/// `Pairs` and `Degree` are those of one of the runs; `Memory` where there is none; `Trail` never.
pub(crate) fn basis_back<R: Threads + Wait + Sync, B: Groebner>(
    rt: &R,
    alloc: Global,
    engine: &mut B,
    ring: &Ring,
    front: &Ring,
    rank: u128,
    list: &VectList,
) -> Result<VectList, OpStop>
    requires front { front.now ≡ front_ring ring.now }
    requires vectors { AreVectorsOver (front_ring ring.now) (ring_comparison (front_ring ring.now)) list.now }
    requires positions { Each (HasPositions rank) list.now }
    ensures basis { IfOk result (IsBackBasis ring.now rank list.now) }
    ensures same { OnOk result ((B.stops engine.new ≡ B.stops engine.old) × (B.stopped engine.new ≡ B.stopped engine.old)) }
    ensures stop { IfErr result (CallStops (AreRunsOnFront ring.now rank list.now) NoTrail
        (B.stops engine.old) (B.stops engine.new) (B.stopped engine.old) (B.stopped engine.new)) }
    ensures later { B.stops engine.old ≤ B.stops engine.new }
    ensures runs { RoseAtMost 2 (B.runs engine.old) (B.runs engine.new) }
    ensures settings { B.settings engine.new ≡ B.settings engine.old }
{
    counted_times();
    lawful_setting(ring);
    let basis = match engine.reduced(rt, alloc, front, rank, list) {
        Ok(basis) => basis,
        Err(stop) => return Err(OpStop::from(stop)),
    };
    let fewer = members_back(alloc, ring, basis)?;
    if is_grevlex(ring, rank) {
        return Ok(fewer);
    }
    match engine.reduced(rt, alloc, ring, rank, &fewer) {
        Ok(answer) => Ok(answer),
        Err(stop) => Err(OpStop::from(stop)),
    }
}
