// The answers that the reduced bases of values give.
ghost use Rattle.std.specs.Prelude.{◌≡◌, ◌<◌, ◌≤◌, ◌+◌, ◌++◌, Bool, Err, IfErr, IsSome, List, Ok, OnErr, OnOk, get_or, length, ℕ, string_bytes};
ghost use Rattle.groebner_iface.specs.Calls.{CallStops, NoTrail};
ghost use Rattle.groebner_iface.specs.Runs.{IsReducedBasisOf};
ghost use Rattle.risen_counts.specs.Counts.{RoseAtMost, count_after};
ghost use Rattle.script_parse.specs.declared.named.NameInfo.{NameInfo as NameValue};
ghost use Rattle.term_lists.specs.Rings.{ring_comparison};
ghost use Rattle.term_lists.specs.Vectors.{IsVectorOver};
ghost use Rattle.groebner_iface.specs.declared.stop.OpStop.TheVariants as causes;
ghost use Rattle.session_values.specs.Answers as asked;
ghost use Rattle.session_values.specs.Answers.{Decides, IsAnswer, IsOneModule};
ghost use Rattle.session_reports.specs.Asking.{AnswerStops, IsAskedOver, IsTrailOf, asked_of};
ghost use Rattle.session_values.specs.Held.{StoredShown};
ghost use Rattle.session_values.specs.Kept.{AreSound, IsSound, value_of};
ghost use Rattle.session_values.specs.Runs.{fresh_runs};
ghost use Rattle.session_reports.specs.Parts.{IsRunAt, IsRunAtEither, IsRunToKeep, Keeps};

use groebner_iface::{Groebner, OpStop};
use line_text::LineText;
use module_vectors::{NoMemory, Ring, Vect, VectList};
use script_parse::{NameInfo, NameTable};
use session_values::{
    Stored, forget, is_one_module, keep_basis, normal_form, push_line, push_listing, push_sizes,
    push_verdict,
};
use std::alloc::Global;
use std::sync::Wait;
use std::thread::Threads;

/// What is asked of a value that its reduced basis answers.
#[derive(Clone, Copy)]
pub enum Question<'a> {
    /// The basis itself.
    Basis,
    /// How many members it has, and its leads by degree.
    Sizes,
    /// The normal form of a vector modulo the value.
    NormalForm(&'a Vect),
    /// Whether a vector is in the value.
    Member(&'a Vect),
}

// What became of a text that was to be appended.
fn appended(written: Result<(), NoMemory>) -> Result<(), OpStop>
    ensures ok { OnOk written (result ≡ Ok tt) }
    ensures err { OnErr written (result ≡ Err causes.Memory) }
{
    match written {
        Ok(()) => Ok(()),
        Err(_) => Err(OpStop::Memory),
    }
}

// Appends the normal form of a vector. After an error nothing is appended.
fn push_normal_form(
    alloc: Global,
    out: &mut LineText,
    ring: &Ring,
    info: &NameInfo,
    basis: &VectList,
    v: &Vect,
) -> Result<(), OpStop>
    requires basis { (list : List _) × IsReducedBasisOf ring.now info.now.rank list basis.now }
    requires vector { IsVectorOver ring.now (ring_comparison ring.now) v.now }
    ensures text { OnOk result ((list : List _) → IsReducedBasisOf ring.now info.now.rank list basis.now
        → (kept : Bool) → (text : List ℕ)
        × IsAnswer ring.now (record { name = string_bytes info.now.name; rank = info.now.rank; list = list; kept = kept }) (asked.normal_form v.now) text
        × (out.new ≡ out.old ++ text)) }
    ensures unwritten { OnErr result (out.new ≡ out.old) }
    ensures stop { IfErr result (AnswerStops ring.now (asked.normal_form v.now) basis.now) }
{
    match normal_form(alloc, ring, v, basis) {
        Ok(rest) => appended(push_line(alloc, out, ring, info.rank, &rest)),
        Err(stop) => Err(OpStop::from(stop)),
    }
}

// Appends whether a vector is in the value. After an error nothing is appended.
fn push_membership(
    alloc: Global,
    out: &mut LineText,
    ring: &Ring,
    info: &NameInfo,
    basis: &VectList,
    v: &Vect,
) -> Result<(), OpStop>
    requires basis { (list : List _) × IsReducedBasisOf ring.now info.now.rank list basis.now }
    requires vector { IsVectorOver ring.now (ring_comparison ring.now) v.now }
    ensures text { OnOk result ((list : List _) → IsReducedBasisOf ring.now info.now.rank list basis.now
        → (kept : Bool) → (text : List ℕ)
        × IsAnswer ring.now (record { name = string_bytes info.now.name; rank = info.now.rank; list = list; kept = kept }) (asked.member v.now) text
        × (out.new ≡ out.old ++ text)) }
    ensures unwritten { OnErr result (out.new ≡ out.old) }
    ensures stop { IfErr result (AnswerStops ring.now (asked.member v.now) basis.now) }
{
    match normal_form(alloc, ring, v, basis) {
        Ok(rest) => appended(push_verdict(out, rest.terms().is_empty())),
        Err(stop) => Err(OpStop::from(stop)),
    }
}

/// Appends the answer. After an error nothing is appended.
pub fn push_answer(
    alloc: Global,
    out: &mut LineText,
    ring: &Ring,
    info: &NameInfo,
    basis: &VectList,
    question: Question<'_>,
) -> Result<(), OpStop>
    requires basis { (list : List _) × IsReducedBasisOf ring.now info.now.rank list basis.now }
    requires over { IsAskedOver ring.now (asked_of question) }
    ensures text { OnOk result ((list : List _) → IsReducedBasisOf ring.now info.now.rank list basis.now
        → (kept : Bool) → (text : List ℕ)
        × IsAnswer ring.now (record { name = string_bytes info.now.name; rank = info.now.rank; list = list; kept = kept }) (asked_of question.entry) text
        × (out.new ≡ out.old ++ text)) }
    ensures unwritten { OnErr result (out.new ≡ out.old) }
    ensures stop { IfErr result (AnswerStops ring.now (asked_of question.entry) basis.now) }
{
    match question {
        Question::Basis => {
            let name = info.name.as_bytes();
            appended(push_listing(alloc, out, b"gb", name, ring, info.rank, basis))
        }
        Question::Sizes => appended(push_sizes(out, info.name.as_bytes(), basis.as_slice())),
        Question::NormalForm(v) => push_normal_form(alloc, out, ring, info, basis, v),
        Question::Member(v) => push_membership(alloc, out, ring, info, basis, v),
    }
}

/// Appends the answer to a question of a value, whose reduced basis is kept from then on. After an error nothing is
/// appended, and no basis is kept that was not.
pub fn answer_value<R: Threads + Wait + Sync, B: Groebner>(
    rt: &R,
    alloc: Global,
    engine: &mut B,
    ring: &Ring,
    info: &NameInfo,
    stored: &mut Stored,
    question: Question<'_>,
    out: &mut LineText,
) -> Result<(), OpStop>
    requires sound { IsSound ring.now info.now.rank stored.old }
    requires over { IsAskedOver ring.now (asked_of question) }
    ensures sound { IsSound ring.now info.now.rank stored.new }
    ensures list { stored.new.list ≡ stored.old.list }
    ensures kept { OnOk result (IsSome stored.new.basis) }
    ensures as_before { OnErr result (stored.new ≡ stored.old) }
    ensures text { OnOk result ((text : List ℕ) × IsAnswer ring.now (value_of info.now stored.old) (asked_of question.entry) text
        × (out.new ≡ out.old ++ text)) }
    ensures unwritten { OnErr result (out.new ≡ out.old) }
    ensures same { OnOk result ((B.stops engine.new ≡ B.stops engine.old) × (B.stopped engine.new ≡ B.stopped engine.old)) }
    ensures stop { IfErr result (CallStops (IsRunToKeep ring.now (value_of info.now stored.old))
        (IsTrailOf ring.now (value_of info.now stored.old) (asked_of question.entry))
        (B.stops engine.old) (B.stops engine.new) (B.stopped engine.old) (B.stopped engine.new)) }
    ensures later { B.stops engine.old ≤ B.stops engine.new }
    ensures runs { B.runs engine.new ≡ count_after (fresh_runs stored.old) (B.runs engine.old) }
    ensures settings { B.settings engine.new ≡ B.settings engine.old }
{
    let fresh = stored.lacks_basis();
    match keep_basis(rt, alloc, engine, ring, info.rank, stored) {
        Ok(()) => {}
        Err(stop) => return Err(OpStop::from(stop)),
    }
    match push_answer(alloc, out, ring, info, stored.basis(), question) {
        Ok(()) => Ok(()),
        Err(stop) => {
            forget(stored, fresh);
            Err(stop)
        }
    }
}

// Appends whether the values at these places generate one module. The basis of the first is kept, and so is that of the
// second from then on. After an error nothing is appended, and no basis is kept that was not.
fn compare_with<R: Threads + Wait + Sync, B: Groebner>(
    rt: &R,
    alloc: Global,
    engine: &mut B,
    ring: &Ring,
    names: &NameTable,
    stored: &mut Vec<Stored>,
    places: (usize, usize),
    out: &mut LineText,
) -> Result<(), OpStop>
    requires sound { AreSound ring.now names.now stored.old.items }
    requires within { (places.0 < length names.now) × (places.1 < length names.now) }
    requires rank { (d : NameValue) → (get_or names.now places.0 d).rank ≡ (get_or names.now places.1 d).rank }
    requires first { (e : StoredShown) → IsSome (get_or stored.old.items places.0 e).basis }
    ensures sound { OnOk result (AreSound ring.now names.now stored.new.items) }
    ensures kept { OnOk result (Keeps stored.old.items places.1 stored.new.items) }
    ensures as_before { OnErr result (stored.new.items ≡ stored.old.items) }
    ensures text { OnOk result ((e : StoredShown) → (text : List ℕ)
        × Decides (IsOneModule ring.now (get_or stored.old.items places.0 e).list (get_or stored.old.items places.1 e).list) text
        × (out.new ≡ out.old ++ text)) }
    ensures unwritten { OnErr result (out.new ≡ out.old) }
    ensures same { OnOk result ((B.stops engine.new ≡ B.stops engine.old) × (B.stopped engine.new ≡ B.stopped engine.old)) }
    ensures stop { IfErr result (λ stop. (d : NameValue) (e : StoredShown)
        → CallStops (IsRunAt ring.now names.now stored.old.items places.1 d e) NoTrail
        (B.stops engine.old) (B.stops engine.new) (B.stopped engine.old) (B.stopped engine.new) stop) }
    ensures later { B.stops engine.old ≤ B.stops engine.new }
    ensures runs { (e : StoredShown) → B.runs engine.new ≡ count_after (fresh_runs (get_or stored.old.items places.1 e)) (B.runs engine.old) }
    ensures settings { B.settings engine.new ≡ B.settings engine.old }
{
    let (i, j) = places;
    let fresh = stored[j].lacks_basis();
    match keep_basis(
        rt,
        alloc,
        engine,
        ring,
        names.info_at(j).rank,
        &mut stored[j],
    ) {
        Ok(()) => {}
        Err(stop) => return Err(OpStop::from(stop)),
    }
    let one = is_one_module(ring, stored[i].basis(), stored[j].basis());
    match push_verdict(out, one) {
        Ok(()) => Ok(()),
        Err(_) => {
            forget(&mut stored[j], fresh);
            Err(OpStop::Memory)
        }
    }
}

/// Appends whether the values at these places generate one module, whose reduced bases are kept from then on. After an
/// error nothing is appended, and no basis is kept that was not.
pub fn compare_values<R: Threads + Wait + Sync, B: Groebner>(
    rt: &R,
    alloc: Global,
    engine: &mut B,
    ring: &Ring,
    names: &NameTable,
    stored: &mut Vec<Stored>,
    places: (usize, usize),
    out: &mut LineText,
) -> Result<(), OpStop>
    requires sound { AreSound ring.now names.now stored.old.items }
    requires within { (places.0 < length names.now) × (places.1 < length names.now) }
    requires rank { (d : NameValue) → (get_or names.now places.0 d).rank ≡ (get_or names.now places.1 d).rank }
    ensures sound { OnOk result (AreSound ring.now names.now stored.new.items) }
    ensures kept { OnOk result ((middle : List StoredShown) × Keeps stored.old.items places.0 middle × Keeps middle places.1 stored.new.items) }
    ensures as_before { OnErr result (stored.new.items ≡ stored.old.items) }
    ensures text { OnOk result ((e : StoredShown) → (text : List ℕ)
        × Decides (IsOneModule ring.now (get_or stored.old.items places.0 e).list (get_or stored.old.items places.1 e).list) text
        × (out.new ≡ out.old ++ text)) }
    ensures unwritten { OnErr result (out.new ≡ out.old) }
    ensures same { OnOk result ((B.stops engine.new ≡ B.stops engine.old) × (B.stopped engine.new ≡ B.stopped engine.old)) }
    ensures stop { IfErr result (λ stop. (d : NameValue) (e : StoredShown)
        → CallStops (IsRunAtEither ring.now names.now stored.old.items places d e) NoTrail
        (B.stops engine.old) (B.stops engine.new) (B.stopped engine.old) (B.stopped engine.new) stop) }
    ensures later { B.stops engine.old ≤ B.stops engine.new }
    ensures runs { (e : StoredShown) → (middle : List StoredShown) × Keeps stored.old.items places.0 middle
        × RoseAtMost (fresh_runs (get_or stored.old.items places.0 e) + fresh_runs (get_or middle places.1 e)) (B.runs engine.old) (B.runs engine.new) }
    ensures settings { B.settings engine.new ≡ B.settings engine.old }
{
    let i = places.0;
    let fresh = stored[i].lacks_basis();
    match keep_basis(
        rt,
        alloc,
        engine,
        ring,
        names.info_at(i).rank,
        &mut stored[i],
    ) {
        Ok(()) => {}
        Err(stop) => return Err(OpStop::from(stop)),
    }
    match compare_with(rt, alloc, engine, ring, names, stored, places, out) {
        Ok(()) => Ok(()),
        Err(stop) => {
            forget(&mut stored[i], fresh);
            Err(stop)
        }
    }
}
