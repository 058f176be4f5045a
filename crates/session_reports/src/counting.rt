// The Hilbert numbers of a value, or why they are refused.
ghost use Rattle.std.specs.Prelude.{◌≡◌, ◌≤◌, IfOk, List, OnErr, ℕ};
ghost use Rattle.groebner_iface.specs.Runs.{IsReducedBasisOf};
ghost use Rattle.term_lists.specs.declared.key.Key.{Key as KeyValue};
ghost use Rattle.term_lists.specs.declared.ring.Ring.{Ring as RingValue};
ghost use Rattle.session_reports.specs.Reporting.{Reports, ReportsAs};
ghost use Rattle.session_reports.specs.declared.reports.Report.TheVariants as reports;
ghost use Rattle.session_values.specs.Counting.{NumbersStop};
ghost use Rattle.session_values.specs.Names.{Value};

use crate::step::Step;
use hilbert_series::HilbertStop;
use line_text::{LineText, whole_or_none};
use module_vectors::{NoMemory, Ring, VectList};
use script_parse::{Kind, NameInfo};
use session_values::{append_numbers, numbers_of};
use std::alloc::Global;

// What the stop is to the line.
fn refused(stop: HilbertStop) -> Result<Step, NoMemory>
    ensures { IfOk result (λ step. (ring : RingValue) (value : Value) (basis : List (List (KeyValue × ℕ))) (out : List ℕ)
        → IsReducedBasisOf ring value.rank value.list basis → NumbersStop ring value.rank basis stop → ReportsAs ring value reports.Numbers out out step) }
{
    match stop {
        HilbertStop::Memory => Err(NoMemory),
        HilbertStop::Leads(_) => Ok(Step::Refused(Kind::Leads)),
        HilbertStop::Large => Ok(Step::Refused(Kind::Large)),
    }
}

/// Appends the numbers of a value with this reduced basis, or says for which kind they are refused; then, and after an
/// error, nothing is appended.
pub fn push_numbers(
    alloc: Global,
    out: &mut LineText,
    ring: &Ring,
    info: &NameInfo,
    basis: &VectList,
) -> Result<Step, NoMemory>
    requires rank { info.now.rank ≤ 64 }
    requires basis { (list : List _) × IsReducedBasisOf ring.now info.now.rank list basis.now }
    ensures reports { IfOk result (Reports ring.now info.now basis.now reports.Numbers out.old out.new) }
    ensures unwritten { OnErr result (out.new ≡ out.old) }
{
    let numbers = match numbers_of(alloc, ring, info.rank, basis) {
        Ok(numbers) => numbers,
        Err(stop) => return refused(stop),
    };
    let before = out.len();
    let written = append_numbers(alloc, out, info.name.as_bytes(), &numbers);
    match whole_or_none(out, before, written) {
        Ok(()) => Ok(Step::Done),
        Err(early) => Err(early),
    }
}
