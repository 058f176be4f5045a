// Ext modules of a value.
ghost use Rattle.std.specs.Prelude.{◌≡◌, ◌≤◌, ◌*◌, ◌+◌, ◌++◌, Bool, IfErr, IfOk, IsSome, List, OnErr, OnOk, map, string_bytes, ℕ};
ghost use Rattle.formal_sums.specs.FormalSums.{Each};
ghost use Rattle.term_lists.specs.Vectors.{HasPositions};
ghost use Rattle.risen_counts.specs.Counts.{RoseAtMost};
ghost use Rattle.groebner_iface.specs.Calls.{CallStops};
ghost use Rattle.groebner_iface.specs.Runs.{IsReducedBasisOf};
ghost use Rattle.ext_laws.specs.Transposes.{rank_at};
ghost use Rattle.session_values.specs.Extending.{IsExtRun, IsExtText};
ghost use Rattle.session_values.specs.Kept.{IsSound, value_of};
ghost use Rattle.session_values.specs.Runs.{fresh_runs};
ghost use Rattle.syzygy_engine.specs.Kernels.{runs_in_order};
ghost use Rattle.resolution_maps.specs.Resolved.{IsResolutionTrail};
ghost use Rattle.session_values.specs.Resolving.{IsResolvingTrail};
ghost use Rattle.session_reports.specs.Extensions.{IsExtAnswer, IsRunToExtend};

use ext_modules::{Ext, ext};
use groebner_iface::{Groebner, OpStop};
use line_text::LineText;
use module_vectors::{Ring, VectList, lawful_setting};
use resolution_maps::Map;
use schreyer_resolution::resolve_to;
use script_parse::NameInfo;
use session_values::{Stored, forget, keep_basis, push_ext};
use std::alloc::Global;
use std::sync::Wait;
use std::thread::Threads;

/// An Ext module, and the rank of the module at its step.
#[derive(Drop)]
struct Presentation {
    rank: u64,
    ext: Ext,
}

// The rank of the module at a step of a resolution of a module of this rank.
fn rank_at_step(rank: u64, maps: &[Map], step: u64) -> u64
    ensures { result ≡ rank_at rank (map (λ m. m.columns) maps.now) step }
{
    if step == 0 {
        return rank;
    }
    let before = (step - 1) as usize;
    if before >= maps.len() {
        return 0;
    }
    maps[before].columns.len() as u64
}

// The Ext module at a step of the canonical resolution of a value with this reduced basis, which is computed as far as the map
// out of the step. `Trail` is that of the resolution.
fn ext_at<R: Threads + Wait + Sync, B: Groebner>(
    rt: &R,
    alloc: Global,
    engine: &mut B,
    ring: &Ring,
    rank: u64,
    basis: &VectList,
    step: u64,
) -> Result<Presentation, OpStop>
    requires rank { rank ≤ 64 }
    requires basis { (list : List _) × Each (HasPositions rank) list × IsReducedBasisOf ring.now rank list basis.now }
    ensures answer { IfOk result (λ p. IsExtAnswer ring.now rank basis.now step p.rank p.ext) }
    ensures same { OnOk result ((B.stops engine.new ≡ B.stops engine.old) × (B.stopped engine.new ≡ B.stopped engine.old)) }
    ensures stop { IfErr result (CallStops (IsExtRun ring.now rank basis.now step) (IsResolutionTrail ring.now rank basis.now)
        (B.stops engine.old) (B.stops engine.new) (B.stopped engine.old) (B.stopped engine.new)) }
    ensures later { B.stops engine.old ≤ B.stops engine.new }
    ensures runs { RoseAtMost (2 * runs_in_order ring.now) (B.runs engine.old) (B.runs engine.new) }
    ensures settings { B.settings engine.new ≡ B.settings engine.old }
{
    lawful_setting(ring);
    let count = u128::from(step) + 1;
    let resolution = match resolve_to(alloc, ring, u128::from(rank), basis, count) {
        Ok(resolution) => resolution,
        Err(stop) => return Err(OpStop::from(stop)),
    };
    match ext(
        rt,
        alloc,
        engine,
        ring,
        u128::from(rank),
        &resolution.maps,
        step,
    ) {
        Ok(ext) => Ok(Presentation {
            rank: rank_at_step(rank, &resolution.maps, step),
            ext,
        }),
        Err(stop) => Err(stop),
    }
}

// Appends the Ext module at a step of a value with this reduced basis. After an error nothing is appended.
fn push_ext_at<R: Threads + Wait + Sync, B: Groebner>(
    rt: &R,
    alloc: Global,
    engine: &mut B,
    ring: &Ring,
    info: &NameInfo,
    basis: &VectList,
    step: u64,
    out: &mut LineText,
) -> Result<(), OpStop>
    requires rank { info.now.rank ≤ 64 }
    requires basis { (list : List _) × Each (HasPositions info.now.rank) list × IsReducedBasisOf ring.now info.now.rank list basis.now }
    ensures text { OnOk result ((list : List _) → IsReducedBasisOf ring.now info.now.rank list basis.now → (kept : Bool) → (text : List ℕ)
        × IsExtText ring.now (record { name = string_bytes info.now.name; rank = info.now.rank; list = list; kept = kept }) step text
        × (out.new ≡ out.old ++ text)) }
    ensures unwritten { OnErr result (out.new ≡ out.old) }
    ensures same { OnOk result ((B.stops engine.new ≡ B.stops engine.old) × (B.stopped engine.new ≡ B.stopped engine.old)) }
    ensures stop { IfErr result (CallStops (IsExtRun ring.now info.now.rank basis.now step) (IsResolutionTrail ring.now info.now.rank basis.now)
        (B.stops engine.old) (B.stops engine.new) (B.stopped engine.old) (B.stopped engine.new)) }
    ensures later { B.stops engine.old ≤ B.stops engine.new }
    ensures runs { RoseAtMost (2 * runs_in_order ring.now) (B.runs engine.old) (B.runs engine.new) }
    ensures settings { B.settings engine.new ≡ B.settings engine.old }
{
    let found = match ext_at(rt, alloc, engine, ring, info.rank, basis, step) {
        Ok(found) => found,
        Err(stop) => return Err(stop),
    };
    let name = info.name.as_bytes();
    match push_ext(alloc, out, ring, name, step, found.rank, &found.ext) {
        Ok(()) => Ok(()),
        Err(_) => Err(OpStop::Memory),
    }
}

/// Appends the Ext module at a step of a value, whose reduced basis is kept from then on. After an error nothing is appended,
/// and no basis is kept that was not.
pub fn extend_value<R: Threads + Wait + Sync, B: Groebner>(
    rt: &R,
    alloc: Global,
    engine: &mut B,
    ring: &Ring,
    info: &NameInfo,
    stored: &mut Stored,
    step: u64,
    out: &mut LineText,
) -> Result<(), OpStop>
    requires sound { IsSound ring.now info.now.rank stored.old }
    ensures sound { IsSound ring.now info.now.rank stored.new }
    ensures list { stored.new.list ≡ stored.old.list }
    ensures kept { OnOk result (IsSome stored.new.basis) }
    ensures as_before { OnErr result (stored.new ≡ stored.old) }
    ensures text { OnOk result ((text : List ℕ) × IsExtText ring.now (value_of info.now stored.old) step text × (out.new ≡ out.old ++ text)) }
    ensures unwritten { OnErr result (out.new ≡ out.old) }
    ensures same { OnOk result ((B.stops engine.new ≡ B.stops engine.old) × (B.stopped engine.new ≡ B.stopped engine.old)) }
    ensures stop { IfErr result (CallStops (IsRunToExtend ring.now (value_of info.now stored.old) step)
        (IsResolvingTrail ring.now (value_of info.now stored.old))
        (B.stops engine.old) (B.stops engine.new) (B.stopped engine.old) (B.stopped engine.new)) }
    ensures later { B.stops engine.old ≤ B.stops engine.new }
    ensures runs { RoseAtMost (fresh_runs stored.old + 2 * runs_in_order ring.now) (B.runs engine.old) (B.runs engine.new) }
    ensures settings { B.settings engine.new ≡ B.settings engine.old }
{
    let fresh = stored.lacks_basis();
    match keep_basis(rt, alloc, engine, ring, info.rank, stored) {
        Ok(()) => {}
        Err(stop) => return Err(OpStop::from(stop)),
    }
    match push_ext_at(rt, alloc, engine, ring, info, stored.basis(), step, out) {
        Ok(()) => Ok(()),
        Err(stop) => {
            forget(stored, fresh);
            Err(stop)
        }
    }
}
