// The reduced basis of an ideal in another order.
ghost use Rattle.std.specs.Prelude.{◌≡◌, IfOk, List, OnErr, ℕ};
ghost use Rattle.change_laws.specs.Standard.{lead_monomials};
ghost use Rattle.formal_sums.specs.FormalSums.{Each};
ghost use Rattle.groebner_iface.specs.Runs.{IsReducedBasisOf};
ghost use Rattle.term_lists.specs.Rings.{variables};
ghost use Rattle.term_lists.specs.Vectors.{HasPositions, sums_of};
ghost use Rattle.term_lists.specs.declared.key.Key.{Key};
ghost use Rattle.term_lists.specs.declared.ring.Ring.{Ring as RingValue};
ghost use Rattle.monomial_orders.specs.declared.order.Order.{Order as OrderValue};
ghost use Rattle.order_change.specs.Stops.{OrderChangeStops};
ghost use Rattle.session_values.specs.Names.{Value};
ghost use Rattle.session_reports.specs.Reporting.{Reports, ReportsAs};
ghost use Rattle.session_reports.specs.declared.reports.Report.TheVariants as reports;

use crate::step::Step;
use line_text::LineText;
use module_vectors::{NoMemory, Ring, VectList, lawful_setting};
use monomial_orders::Order;
use order_change::{ChangeStop, convert};
use script_parse::{Kind, NameInfo};
use session_values::push_listing;
use std::alloc::Global;

// What the stop is to the line.
fn refused(stop: ChangeStop) -> Result<Step, NoMemory>
    ensures { IfOk result (λ step. (ring : RingValue) (value : Value) (order : OrderValue) (basis : List (List (Key × ℕ))) (out : List ℕ)
        → IsReducedBasisOf ring value.rank value.list basis → OrderChangeStops (lead_monomials (sums_of (variables ring) basis)) stop
        → ReportsAs ring value (reports.InOrder order) out out step) }
{
    match stop {
        ChangeStop::Memory => Err(NoMemory),
        ChangeStop::Infinite => Ok(Step::Refused(Kind::Infinite)),
        ChangeStop::Many => Ok(Step::Refused(Kind::Many)),
    }
}

/// Appends the reduced basis in another order of an ideal with this reduced basis, or says for which kind it is refused; then,
/// and after an error, nothing is appended.
pub fn push_reordered(
    alloc: Global,
    out: &mut LineText,
    ring: &Ring,
    info: &NameInfo,
    basis: &VectList,
    order: Order,
) -> Result<Step, NoMemory>
    requires ideal { info.now.rank ≡ 1 }
    requires basis { (list : List _) × Each (HasPositions info.now.rank) list × IsReducedBasisOf ring.now info.now.rank list basis.now }
    ensures reports { IfOk result (Reports ring.now info.now basis.now (reports.InOrder order) out.old out.new) }
    ensures unwritten { OnErr result (out.new ≡ out.old) }
{
    lawful_setting(ring);
    let reordered = match convert(alloc, ring, basis, order) {
        Ok(list) => list,
        Err(stop) => return refused(stop),
    };
    match push_listing(
        alloc,
        out,
        b"fglm",
        info.name.as_bytes(),
        ring,
        info.rank,
        &reordered,
    ) {
        Ok(()) => Ok(Step::Done),
        Err(early) => Err(early),
    }
}
