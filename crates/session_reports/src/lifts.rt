// Lifts to the stored list of a value.
ghost use Rattle.std.specs.Prelude.{◌≡◌, ◌≤◌, ◌++◌, ◌∷◌, [], IfErr, IfNone, IfSome, List, OnErr, OnOk, false, ℕ};
ghost use Rattle.formal_sums.specs.FormalSums.{Each};
ghost use Rattle.term_lists.specs.Rings.{ring_comparison, variables};
ghost use Rattle.term_lists.specs.Vectors.{HasPositions, HasVariables, IsVectorOver};
ghost use Rattle.poly_text.specs.Texts.{entries_text, names_of};
ghost use Rattle.session_values.specs.Texts.{verdict};
ghost use Rattle.risen_counts.specs.Counts.{RoseAtMost};
ghost use Rattle.groebner_iface.specs.Calls.{CallStops};
ghost use Rattle.session_values.specs.Kept.{IsSound, value_of};
ghost use Rattle.session_reports.specs.Lifting.{IsLiftText};
ghost use Rattle.syzygy_engine.specs.Lifts.{IsLiftTrail};
ghost use Rattle.syzygy_engine.specs.Marking.{IsMarkedRun};

use groebner_iface::{Groebner, OpStop};
use line_text::LineText;
use module_vectors::{NoMemory, Ring, Vect};
use script_parse::NameInfo;
use session_values::{Stored, push_cofactors, push_verdict};
use std::alloc::Global;
use std::sync::Wait;
use std::thread::Threads;
use syzygy_engine::lift;

// Appends a lift to so many vectors, or that there is none. After an error nothing is appended.
fn push_lifted(
    alloc: Global,
    out: &mut LineText,
    ring: &Ring,
    count: usize,
    lifted: &Option<Vect>,
) -> Result<(), NoMemory>
    requires { IfSome lifted.now (Each (HasVariables (variables ring.now))) }
    ensures some { OnOk result (IfSome lifted.now (λ a. out.new ≡ out.old ++ (entries_text (names_of ring.now) count a ++ 10 ∷ []))) }
    ensures none { OnOk result (IfNone lifted.now (out.new ≡ out.old ++ verdict false)) }
    ensures err { OnErr result (out.new ≡ out.old) }
{
    match lifted {
        Some(cofactors) => push_cofactors(alloc, out, ring, count, cofactors),
        None => push_verdict(out, false),
    }
}

/// Appends the lift of a vector to the list of a value, or that there is none. After an error nothing is appended.
pub fn push_lift<R: Threads + Wait + Sync, B: Groebner>(
    rt: &R,
    alloc: Global,
    engine: &mut B,
    ring: &Ring,
    info: &NameInfo,
    stored: &Stored,
    v: &Vect,
    out: &mut LineText,
) -> Result<(), OpStop>
    requires sound { IsSound ring.now info.now.rank stored.now }
    requires vector { IsVectorOver ring.now (ring_comparison ring.now) v.now }
    requires positions { HasPositions info.now.rank v.now }
    ensures text { OnOk result ((text : List ℕ) × IsLiftText ring.now (value_of info.now stored.now) v.now text × (out.new ≡ out.old ++ text)) }
    ensures unwritten { OnErr result (out.new ≡ out.old) }
    ensures same { OnOk result ((B.stops engine.new ≡ B.stops engine.old) × (B.stopped engine.new ≡ B.stopped engine.old)) }
    ensures stop { IfErr result (CallStops (IsMarkedRun ring.now info.now.rank stored.now.list) (IsLiftTrail ring.now info.now.rank stored.now.list v.now)
        (B.stops engine.old) (B.stops engine.new) (B.stopped engine.old) (B.stopped engine.new)) }
    ensures later { B.stops engine.old ≤ B.stops engine.new }
    ensures runs { RoseAtMost 1 (B.runs engine.old) (B.runs engine.new) }
    ensures settings { B.settings engine.new ≡ B.settings engine.old }
{
    let list = stored.list();
    let lifted = match lift(rt, alloc, engine, ring, u128::from(info.rank), list, v) {
        Ok(lifted) => lifted,
        Err(stop) => return Err(stop),
    };
    match push_lifted(alloc, out, ring, list.len(), &lifted) {
        Ok(()) => Ok(()),
        Err(_) => Err(OpStop::Memory),
    }
}
