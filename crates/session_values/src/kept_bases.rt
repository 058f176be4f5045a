// The reduced bases that are kept, and what they are compared and divided by.
ghost use Rattle.std.specs.Prelude.{◌≡◌, ◌≤◌, ◌↔◌, IfErr, IfOk, IsSome, IsTrue, List, None, OnErr, OnOk, Some, [], false, true, ℕ};
ghost use Rattle.formal_sums.specs.FormalSums.{Each};
ghost use Rattle.term_lists.specs.Rings.{ring_comparison};
ghost use Rattle.term_lists.specs.Vectors.{HasPositions, IsVectorOver};
ghost use Rattle.term_lists.specs.declared.key.Key.{Key};
ghost use Rattle.risen_counts.specs.Counts.{count_after};
ghost use Rattle.groebner_iface.specs.Runs.{IsReducedBasisOf, StopsRun};
ghost use Rattle.session_values.specs.Answers.{IsInModule, IsNormalForm, IsOneModule};
ghost use Rattle.session_values.specs.Kept.{IsSound};
ghost use Rattle.session_values.specs.Runs.{fresh_runs};
ghost use Rattle.vector_division.specs.Divisions.{DivisionStops};

use crate::stored::Stored;
use groebner_iface::{Groebner, Stop, one_basis};
use module_vectors::{Ring, Vect, VectList, WorkStop, lawful_setting};
use remainders::remainder;
use std::alloc::Global;
use std::sync::Wait;
use std::thread::Threads;

/// Keeps the reduced basis of a value, by one run if there is none yet and else by none. An error is the run's, and then nothing is kept.
pub fn keep_basis<R: Threads + Wait + Sync, B: Groebner>(
    rt: &R,
    alloc: Global,
    engine: &mut B,
    ring: &Ring,
    rank: u64,
    stored: &mut Stored,
) -> Result<(), Stop>
    requires sound { IsSound ring.now rank stored.old }
    ensures sound { IsSound ring.now rank stored.new }
    ensures list { stored.new.list ≡ stored.old.list }
    ensures kept { OnOk result (IsSome stored.new.basis) }
    ensures known { IsSome stored.old.basis → stored.new ≡ stored.old }
    ensures none { OnErr result ((stored.old.basis ≡ None) × (stored.new ≡ stored.old)) }
    ensures same { OnOk result ((B.stops engine.new ≡ B.stops engine.old) × (B.stopped engine.new ≡ B.stopped engine.old)) }
    ensures stop { IfErr result (λ stop. StopsRun (B.stops engine.old) (B.stops engine.new) (B.stopped engine.old) (B.stopped engine.new)
        ring.now rank stored.old.list stop) }
    ensures later { B.stops engine.old ≤ B.stops engine.new }
    ensures runs { B.runs engine.new ≡ count_after (fresh_runs stored.old) (B.runs engine.old) }
    ensures settings { B.settings engine.new ≡ B.settings engine.old }
{
    if stored.has_basis() {
        return Ok(());
    }
    match engine.reduced(rt, alloc, ring, u128::from(rank), stored.list()) {
        Ok(basis) => {
            stored.keep(basis);
            Ok(())
        }
        Err(stop) => Err(stop),
    }
}

/// Takes the basis away again if it was computed just now.
pub fn forget(stored: &mut Stored, fresh: bool)
    ensures fresh { fresh ≡ true → stored.new ≡ record { list = stored.old.list; basis = None } }
    ensures known { fresh ≡ false → stored.new ≡ stored.old }
{
    if fresh {
        stored.forget();
    }
}

/// Do two lists with these reduced bases generate one module?
pub fn is_one_module(ring: &Ring, left: &VectList, right: &VectList) -> bool
    ensures { (rank : ℕ) (first second : List (List (Key × ℕ)))
        → Each (HasPositions rank) first → Each (HasPositions rank) second
        → IsReducedBasisOf ring.now rank first left.now → IsReducedBasisOf ring.now rank second right.now
        → IsTrue result ↔ IsOneModule ring.now first second }
{
    lawful_setting(ring);
    one_basis(ring);
    is_same_list(left.as_slice(), right.as_slice())
}

/// The normal form of a vector modulo a list with this reduced basis. Of the members whose leads divide a key that with the
/// smallest lead is taken, so that products stay small. `Degree` comes with a trail of the division, `Memory` where a growth was refused.
pub fn normal_form(alloc: Global, ring: &Ring, v: &Vect, basis: &VectList) -> Result<Vect, WorkStop>
    requires vector { IsVectorOver ring.now (ring_comparison ring.now) v.now }
    requires basis { (rank : ℕ) × (list : List _) × IsReducedBasisOf ring.now rank list basis.now }
    ensures normal { IfOk result (λ w. (rank : ℕ) (list : List _) → IsReducedBasisOf ring.now rank list basis.now → IsNormalForm ring.now rank list v.now w) }
    ensures member { IfOk result (λ w. (rank : ℕ) (list : List _) → IsReducedBasisOf ring.now rank list basis.now → IsInModule ring.now list v.now ↔ (w ≡ [])) }
    ensures stop { IfErr result (DivisionStops ring.now v.now basis.now) }
{
    lawful_setting(ring);
    match remainder(alloc, ring, v, basis) {
        Ok(rest) => Ok(rest),
        Err(stop) => Err(stop),
    }
}

/// Are the two one list? No memory.
pub fn is_same_list(left: &[Vect], right: &[Vect]) -> bool
    ensures { IsTrue result ↔ (left.now ≡ right.now) }
{
    if left.len() != right.len() {
        return false;
    }
    for (i, v) in left.iter().enumerate() {
        if !v.equal(&right[i]) {
            return false;
        }
    }
    true
}
