// The syzygies of one list modulo another: only the one is marked.
ghost use Rattle.std.specs.Prelude.{◌≡◌, ◌<◌, ◌≤◌, ◌+◌, ◌++◌, IfOk, IfErr, OnOk, length};
ghost use Rattle.formal_sums.specs.FormalSums.{Each};
ghost use Rattle.syzygy_laws.specs.Syzygies.{marked};
ghost use Rattle.operation_laws.specs.Operations.{IsSyzygyModulo};
ghost use Rattle.term_lists.specs.Rings.{ring_comparison, variables};
ghost use Rattle.term_lists.specs.Vectors.{AreVectorsOver, HasPositions, sums_of};
ghost use Rattle.risen_counts.specs.Counts.{RoseAtMost};
ghost use Rattle.groebner_iface.specs.Calls.{CallStops, NoTrail};
ghost use Rattle.groebner_iface.specs.Runs.{IsReducedBasisOf};
ghost use Rattle.syzygy_engine.specs.Answers.{IsBasisOfThose};
ghost use Rattle.syzygy_engine.specs.Kernels.{runs_in_order};
ghost use Rattle.syzygy_engine.specs.Marking.{position_ring};
ghost use Rattle.syzygy_engine.specs.Modulo.{AreModuloRuns};
ghost use Rattle.syzygy_engine.specs.Runs.{AreVectorsFor, IsRunFor};

use crate::lowering::kernel_part;
use crate::marking::{first_mark, marked_list};
use groebner_iface::{Groebner, OpStop};
use module_vectors::{NoMemory, Ring, VectList, lawful_setting};
use monomial_orders::ModOrder;
use risen_counts::counted_times;
use std::alloc::Global;
use std::sync::Wait;
use std::thread::Threads;

/// The vectors of the one list and then those of the other. They are moved.
pub fn followed(list: VectList, more: VectList) -> Result<VectList, NoMemory>
    ensures { IfOk result (λ all. all ≡ list ++ more) }
{
    let mut all = list.into_vec();
    let mut rest = more.into_vec();
    all.append(&mut rest)?;
    Ok(VectList::from_vec(all))
}

// The heads, each with a mark of its own, and behind them the members, without one. The members are moved.
fn heads_marked(
    alloc: Global,
    ring: &Ring,
    by_position: &Ring,
    rank: u64,
    heads: &VectList,
    members: VectList,
) -> Result<VectList, NoMemory>
    requires by_position { by_position.now ≡ position_ring ring.now }
    requires heads { AreVectorsOver ring.now (ring_comparison ring.now) heads.now }
    requires members { AreVectorsOver (position_ring ring.now) (ring_comparison (position_ring ring.now)) members }
    requires room { rank < 9223372036854775808 }
    ensures { let n = variables ring.now in
        IfOk result (AreVectorsFor (position_ring ring.now) (marked rank 0 (sums_of n heads.now) ++ sums_of n members)) }
{
    let marked = marked_list(alloc, ring, by_position, rank, heads)?;
    let list = followed(marked, members)?;
    Ok(list)
}

// The basis of the heads with marks and the members without.
fn modulo_basis<R: Threads + Wait + Sync, B: Groebner>(
    rt: &R,
    alloc: Global,
    engine: &mut B,
    ring: &Ring,
    by_position: &Ring,
    rank: u128,
    heads: &VectList,
    members: VectList,
) -> Result<VectList, OpStop>
    requires by_position { by_position.now ≡ position_ring ring.now }
    requires heads { AreVectorsOver ring.now (ring_comparison ring.now) heads.now }
    requires heads_positions { Each (HasPositions rank) heads.now }
    requires members { AreVectorsOver (position_ring ring.now) (ring_comparison (position_ring ring.now)) members }
    requires members_positions { Each (HasPositions rank) members }
    requires room { rank < 9223372036854775808 }
    ensures basis { let n = variables ring.now in IfOk result (λ basis. (list : _)
        × AreVectorsFor (position_ring ring.now) (marked rank 0 (sums_of n heads.now) ++ sums_of n members) list
        × IsReducedBasisOf (position_ring ring.now) (rank + length heads.now) list basis) }
    ensures same { OnOk result ((B.stops engine.new ≡ B.stops engine.old) × (B.stopped engine.new ≡ B.stopped engine.old)) }
    ensures stop { let n = variables ring.now in IfErr result (CallStops
        (IsRunFor (position_ring ring.now) (rank + length heads.now) (marked rank 0 (sums_of n heads.now) ++ sums_of n members)) NoTrail
        (B.stops engine.old) (B.stops engine.new) (B.stopped engine.old) (B.stopped engine.new)) }
    ensures later { B.stops engine.old ≤ B.stops engine.new }
    ensures runs { RoseAtMost 1 (B.runs engine.old) (B.runs engine.new) }
    ensures settings { B.settings engine.new ≡ B.settings engine.old }
{
    counted_times();
    lawful_setting(ring);
    let list = heads_marked(alloc, ring, by_position, first_mark(rank), heads, members)?;
    match engine.reduced(rt, alloc, by_position, rank + heads.len() as u128, &list) {
        Ok(basis) => Ok(basis),
        Err(stop) => Err(OpStop::from(stop)),
    }
}

/// The reduced basis of the syzygies of the heads modulo the members, all vectors of this rank, the members in the order by
/// position: a run, position over term, on the heads with a mark each and the members without. What vanishes before the
/// marks is the basis; where the ring's order is term over position and there are more heads than one, a run on this in the
/// ring's own order follows (UAG chapter 5, section 3). The members are moved.
///
/// `Pairs` and `Degree` are those of one of the runs, which the engine counted and kept; `Memory` where there is none;
/// `Trail` never.
pub fn kernel_modulo<R: Threads + Wait + Sync, B: Groebner>(
    rt: &R,
    alloc: Global,
    engine: &mut B,
    ring: &Ring,
    by_position: &Ring,
    rank: u128,
    heads: &VectList,
    members: VectList,
) -> Result<VectList, OpStop>
    requires by_position { by_position.now ≡ position_ring ring.now }
    requires heads { AreVectorsOver ring.now (ring_comparison ring.now) heads.now }
    requires heads_positions { Each (HasPositions rank) heads.now }
    requires members { AreVectorsOver (position_ring ring.now) (ring_comparison (position_ring ring.now)) members }
    requires members_positions { Each (HasPositions rank) members }
    requires room { rank < 9223372036854775808 }
    ensures basis { let n = variables ring.now in IfOk result (IsBasisOfThose ring.now (length heads.now)
        (IsSyzygyModulo ring.now.modulus.value (sums_of n heads.now) (sums_of n members))) }
    ensures same { OnOk result ((B.stops engine.new ≡ B.stops engine.old) × (B.stopped engine.new ≡ B.stopped engine.old)) }
    ensures stop { let n = variables ring.now in IfErr result (CallStops
        (AreModuloRuns ring.now rank (sums_of n heads.now) (sums_of n members)) NoTrail
        (B.stops engine.old) (B.stops engine.new) (B.stopped engine.old) (B.stopped engine.new)) }
    ensures later { B.stops engine.old ≤ B.stops engine.new }
    ensures runs { RoseAtMost (runs_in_order ring.now) (B.runs engine.old) (B.runs engine.new) }
    ensures settings { B.settings engine.new ≡ B.settings engine.old }
{
    counted_times();
    lawful_setting(ring);
    let basis = match modulo_basis(rt, alloc, engine, ring, by_position, rank, heads, members) {
        Ok(basis) => basis,
        Err(stop) => return Err(stop),
    };
    let kernel = kernel_part(alloc, ring, basis, first_mark(rank))?;
    if heads.len() == 1 {
        return Ok(kernel);
    }
    match ring.module_order {
        ModOrder::Pot => Ok(kernel),
        ModOrder::Top => match engine.reduced(rt, alloc, ring, heads.len() as u128, &kernel) {
            Ok(answer) => Ok(answer),
            Err(stop) => Err(OpStop::from(stop)),
        },
    }
}
