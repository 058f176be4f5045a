// The canonical resolution of a value.
ghost use Rattle.std.specs.Prelude.{◌≡◌, IfErr, IfOk, List, OnErr};
ghost use Rattle.formal_sums.specs.FormalSums.{Each};
ghost use Rattle.groebner_iface.specs.Runs.{IsReducedBasisOf};
ghost use Rattle.term_lists.specs.Vectors.{HasPositions};
ghost use Rattle.resolution_maps.specs.Resolved.{ResolutionStops};
ghost use Rattle.session_reports.specs.Reporting.{Reports};
ghost use Rattle.session_reports.specs.declared.reports.Report.TheVariants as reports;

use crate::step::Step;
use line_text::{LineText, whole_or_none};
use module_vectors::{Ring, VectList, WorkStop, lawful_setting};
use schreyer_resolution::resolve;
use script_parse::NameInfo;
use session_values::append_resolution;
use std::alloc::Global;

/// Appends the canonical resolution of a value with this reduced basis. After an error nothing is appended; `Degree` comes with a
/// trail of the resolution.
pub fn push_resolution(
    alloc: Global,
    out: &mut LineText,
    ring: &Ring,
    info: &NameInfo,
    basis: &VectList,
) -> Result<Step, WorkStop>
    requires { (list : List _) × Each (HasPositions info.now.rank) list × IsReducedBasisOf ring.now info.now.rank list basis.now }
    ensures reports { IfOk result (Reports ring.now info.now basis.now reports.Resolution out.old out.new) }
    ensures unwritten { OnErr result (out.new ≡ out.old) }
    ensures stop { IfErr result (ResolutionStops ring.now info.now.rank basis.now) }
{
    lawful_setting(ring);
    let resolution = match resolve(alloc, ring, u128::from(info.rank), basis) {
        Ok(resolution) => resolution,
        Err(stop) => return Err(stop),
    };
    let before = out.len();
    let name = info.name.as_bytes();
    let written = append_resolution(alloc, out, ring, b"res", name, &resolution);
    match whole_or_none(out, before, written) {
        Ok(()) => Ok(Step::Done),
        Err(_) => Err(WorkStop::Memory),
    }
}
