// What is told of a value once its reduced basis is known, or why it is refused then.
ghost use Rattle.std.specs.Prelude.{◌≡◌, ◌≤◌, IfErr, IfOk, List, OnErr, OnOk};
ghost use Rattle.formal_sums.specs.FormalSums.{Each};
ghost use Rattle.term_lists.specs.Vectors.{HasPositions};
ghost use Rattle.risen_counts.specs.Counts.{count_after};
ghost use Rattle.groebner_iface.specs.Calls.{CallStops};
ghost use Rattle.groebner_iface.specs.Runs.{IsReducedBasisOf};
ghost use Rattle.session_values.specs.Kept.{IsSound, value_of};
ghost use Rattle.session_values.specs.Runs.{fresh_runs};
ghost use Rattle.session_reports.specs.Parts.{IsRunToKeep};
ghost use Rattle.session_reports.specs.Reporting.{HasReport, IsReportTrail, KeepsAs, ReportStops, Reports, ReportsAs};

use crate::counting::push_numbers;
use crate::minimising::{push_betti, push_minimal, push_regularity};
use crate::reordering::push_reordered;
use crate::resolving::push_resolution;
use crate::step::Step;
use groebner_iface::{Groebner, OpStop};
use line_text::LineText;
use module_vectors::{Ring, VectList, WorkStop};
use monomial_orders::Order;
use script_parse::NameInfo;
use session_values::{Stored, forget, keep_basis};
use std::alloc::Global;
use std::sync::Wait;
use std::thread::Threads;

/// What is told of a value.
#[derive(Clone, Copy)]
pub enum Report {
    /// Its Hilbert numbers.
    Numbers,
    /// Its reduced basis in this order.
    InOrder(Order),
    /// Its canonical resolution.
    Resolution,
    /// Its minimal resolution.
    Minimal,
    /// Its Betti numbers.
    Betti,
    /// Its projective dimension and its regularity.
    Regularity,
}

// Appends the report of a value with this reduced basis, or says for which kind it is refused; then, and after an error, nothing
// is appended.
fn push_report(
    alloc: Global,
    out: &mut LineText,
    ring: &Ring,
    info: &NameInfo,
    basis: &VectList,
    report: Report,
) -> Result<Step, WorkStop>
    requires rank { info.now.rank ≤ 64 }
    requires has { HasReport info.now.rank report }
    requires basis { (list : List _) × Each (HasPositions info.now.rank) list × IsReducedBasisOf ring.now info.now.rank list basis.now }
    ensures reports { IfOk result (Reports ring.now info.now basis.now report out.old out.new) }
    ensures unwritten { OnErr result (out.new ≡ out.old) }
    ensures stop { IfErr result (ReportStops ring.now info.now.rank basis.now report) }
{
    match report {
        Report::Numbers => Ok(push_numbers(alloc, out, ring, info, basis)?),
        Report::InOrder(order) => Ok(push_reordered(alloc, out, ring, info, basis, order)?),
        Report::Resolution => push_resolution(alloc, out, ring, info, basis),
        Report::Minimal => push_minimal(alloc, out, ring, info, basis),
        Report::Betti => push_betti(alloc, out, ring, info, basis),
        Report::Regularity => push_regularity(alloc, out, ring, info, basis),
    }
}

/// Appends the report of a value, whose reduced basis is kept from then on, or says for which kind it is refused. Then, and
/// after an error, nothing is appended, and no basis is kept that was not.
pub fn report_value<R: Threads + Wait + Sync, B: Groebner>(
    rt: &R,
    alloc: Global,
    engine: &mut B,
    ring: &Ring,
    info: &NameInfo,
    stored: &mut Stored,
    report: Report,
    out: &mut LineText,
) -> Result<Step, OpStop>
    requires sound { IsSound ring.now info.now.rank stored.old }
    requires has { HasReport info.now.rank report }
    ensures sound { IsSound ring.now info.now.rank stored.new }
    ensures list { stored.new.list ≡ stored.old.list }
    ensures kept { IfOk result (KeepsAs stored.old stored.new) }
    ensures as_before { OnErr result (stored.new ≡ stored.old) }
    ensures reports { IfOk result (ReportsAs ring.now (value_of info.now stored.old) report out.old out.new) }
    ensures unwritten { OnErr result (out.new ≡ out.old) }
    ensures same { OnOk result ((B.stops engine.new ≡ B.stops engine.old) × (B.stopped engine.new ≡ B.stopped engine.old)) }
    ensures stop { IfErr result (CallStops (IsRunToKeep ring.now (value_of info.now stored.old)) (IsReportTrail ring.now (value_of info.now stored.old) report)
        (B.stops engine.old) (B.stops engine.new) (B.stopped engine.old) (B.stopped engine.new)) }
    ensures later { B.stops engine.old ≤ B.stops engine.new }
    ensures runs { B.runs engine.new ≡ count_after (fresh_runs stored.old) (B.runs engine.old) }
    ensures settings { B.settings engine.new ≡ B.settings engine.old }
{
    let fresh = stored.lacks_basis();
    match keep_basis(rt, alloc, engine, ring, info.rank, stored) {
        Ok(()) => {}
        Err(stop) => return Err(OpStop::from(stop)),
    }
    match push_report(alloc, out, ring, info, stored.basis(), report) {
        Ok(Step::Done) => Ok(Step::Done),
        Ok(Step::Refused(kind)) => {
            forget(stored, fresh);
            Ok(Step::Refused(kind))
        }
        Err(stop) => {
            forget(stored, fresh);
            Err(OpStop::from(stop))
        }
    }
}
