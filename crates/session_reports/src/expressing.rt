// Polynomials by others.
ghost use Rattle.std.specs.Prelude.{◌≡◌, ◌≤◌, ◌++◌, [], IfErr, IfSome, List, OnErr, OnOk, length, ℕ};
ghost use Rattle.formal_sums.specs.FormalSums.{Each};
ghost use Rattle.term_lists.specs.Rings.{variables};
ghost use Rattle.term_lists.specs.Vectors.{HasVariables};
ghost use Rattle.risen_counts.specs.Counts.{RoseAtMost};
ghost use Rattle.groebner_iface.specs.Calls.{CallStops};
ghost use Rattle.ring_maps.specs.Graphs.{IsExpressionTrail, IsGraphRun};
ghost use Rattle.session_values.specs.Kept.{IsListOver, IsPolynomialOver};
ghost use Rattle.session_reports.specs.Expressing.{IsExpressionText, expression_text};

use groebner_iface::{Groebner, OpStop};
use line_text::LineText;
use module_vectors::{NoMemory, Ring, Vect, VectList};
use ring_maps::express;
use session_values::{push_line, push_verdict};
use std::alloc::Global;
use std::sync::Wait;
use std::thread::Threads;

// Appends a polynomial, or that there is none. After an error nothing is appended.
fn push_expressed(
    alloc: Global,
    out: &mut LineText,
    ring: &Ring,
    expressed: &Option<Vect>,
) -> Result<(), NoMemory>
    requires { IfSome expressed.now (Each (HasVariables (variables ring.now))) }
    ensures ok { OnOk result (out.new ≡ out.old ++ expression_text ring.now expressed.now) }
    ensures err { OnErr result (out.new ≡ out.old) }
{
    match expressed {
        Some(p) => push_line(alloc, out, ring, 1, p),
        None => push_verdict(out, false),
    }
}

/// Appends the polynomial that has the image f where each variable goes to its image, or that there is none. After an error
/// nothing is appended.
pub fn push_expression<R: Threads + Wait + Sync, B: Groebner>(
    rt: &R,
    alloc: Global,
    engine: &mut B,
    ring: &Ring,
    images: &VectList,
    f: &Vect,
    out: &mut LineText,
) -> Result<(), OpStop>
    requires images { IsListOver ring.now 1 images.now }
    requires count { length images.now ≡ variables ring.now }
    requires polynomial { IsPolynomialOver ring.now f.now }
    ensures text { OnOk result ((text : List ℕ) × IsExpressionText ring.now images.now f.now text × (out.new ≡ out.old ++ text)) }
    ensures unwritten { OnErr result (out.new ≡ out.old) }
    ensures same { OnOk result ((B.stops engine.new ≡ B.stops engine.old) × (B.stopped engine.new ≡ B.stopped engine.old)) }
    ensures stop { IfErr result (CallStops (IsGraphRun ring.now images.now []) (IsExpressionTrail ring.now images.now f.now)
        (B.stops engine.old) (B.stops engine.new) (B.stopped engine.old) (B.stopped engine.new)) }
    ensures later { B.stops engine.old ≤ B.stops engine.new }
    ensures runs { RoseAtMost 1 (B.runs engine.old) (B.runs engine.new) }
    ensures settings { B.settings engine.new ≡ B.settings engine.old }
{
    let expressed = match express(rt, alloc, engine, ring, images, f) {
        Ok(expressed) => expressed,
        Err(stop) => return Err(stop),
    };
    match push_expressed(alloc, out, ring, &expressed) {
        Ok(()) => Ok(()),
        Err(_) => Err(OpStop::Memory),
    }
}
