// Minimal resolutions of values, and what is read off them.
ghost use Rattle.std.specs.Fmt.{signed_decimal};
ghost use Rattle.std.specs.Prelude.{◌≡◌, ◌++◌, ◌∷◌, [], IfErr, IfOk, List, OnErr, OnOk, false, true, ℕ};
ghost use Rattle.minimal_betti.specs.Tables.{IsBettiTable};
ghost use Rattle.formal_sums.specs.FormalSums.{Each};
ghost use Rattle.groebner_iface.specs.Runs.{IsReducedBasisOf};
ghost use Rattle.term_lists.specs.Vectors.{HasPositions};
ghost use Rattle.poly_text.specs.Writing.{IsFront};
ghost use Rattle.session_reports.specs.Cancelling.{IsCancelledAs, IsTableOfBasis, StopsAsMinimal};
ghost use Rattle.session_reports.specs.Minimising.{AreInvariants, HasTwoDegrees, IsInhomogeneous, entry_line, regularity_text, table_text};
ghost use Rattle.session_reports.specs.Reporting.{Reports};
ghost use Rattle.session_reports.specs.declared.reports.Report.TheVariants as reports;

use crate::step::Step;
use itoa::Buffer;
use line_text::{LineText, whole_or_none};
use minimal_betti::{BettiEntry, betti_table, invariants, minimal};
use module_vectors::{NoMemory, Ring, Vect, VectList, WorkStop, lawful_setting};
use resolution_maps::Resolution;
use schreyer_resolution::resolve;
use script_parse::{Kind, NameInfo};
use session_values::{append_number, append_resolution, append_word};
use std::alloc::Global;

/// The projective dimension and the regularity of a value; -1 and 0 of one that has no table.
#[derive(Clone, Copy)]
struct Measures {
    dimension: i128,
    regularity: i128,
}

// Whether the vector has terms of two degrees.
fn has_two_degrees(v: &Vect) -> bool
    ensures two { result ≡ true → HasTwoDegrees v.now }
    ensures one { result ≡ false → HasTwoDegrees v.now → ⊥ }
{
    let Some((first, rest)) = v.terms().split_first() else {
        return false;
    };
    for term in rest {
        if term.0.monomial.degree() != first.0.monomial.degree() {
            return true;
        }
    }
    false
}

// Whether one of the vectors has.
fn is_inhomogeneous(list: &VectList) -> bool
    ensures some { result ≡ true → IsInhomogeneous list.now }
    ensures none { result ≡ false → IsInhomogeneous list.now → ⊥ }
{
    for v in list.as_slice() {
        if has_two_degrees(v) {
            return true;
        }
    }
    false
}

// The minimal resolution of a value with this reduced basis, which is homogeneous.
fn minimal_of(
    alloc: Global,
    ring: &Ring,
    rank: u64,
    basis: &VectList,
) -> Result<Resolution, WorkStop>
    requires basis { (list : List _) × Each (HasPositions rank) list × IsReducedBasisOf ring.now rank list basis.now }
    requires homogeneous { IsInhomogeneous basis.now → ⊥ }
    ensures cancelled { IfOk result (IsCancelledAs ring.now rank basis.now) }
    ensures stop { IfErr result (StopsAsMinimal ring.now rank basis.now) }
{
    lawful_setting(ring);
    let resolution = match resolve(alloc, ring, u128::from(rank), basis) {
        Ok(resolution) => resolution,
        Err(stop) => return Err(stop),
    };
    minimal(alloc, ring, &resolution)
}

/// Appends the minimal resolution of a value with this reduced basis, or says that it is refused. After an error, and where it is refused,
/// nothing is appended; `Degree` comes with a trail of the resolution or of a cancellation.
pub fn push_minimal(
    alloc: Global,
    out: &mut LineText,
    ring: &Ring,
    info: &NameInfo,
    basis: &VectList,
) -> Result<Step, WorkStop>
    requires { (list : List _) × Each (HasPositions info.now.rank) list × IsReducedBasisOf ring.now info.now.rank list basis.now }
    ensures reports { IfOk result (Reports ring.now info.now basis.now reports.Minimal out.old out.new) }
    ensures unwritten { OnErr result (out.new ≡ out.old) }
    ensures stop { IfErr result (StopsAsMinimal ring.now info.now.rank basis.now) }
{
    if is_inhomogeneous(basis) {
        return Ok(Step::Refused(Kind::Homogeneous));
    }
    let resolution = match minimal_of(alloc, ring, info.rank, basis) {
        Ok(resolution) => resolution,
        Err(stop) => return Err(stop),
    };
    let before = out.len();
    let name = info.name.as_bytes();
    let written = append_resolution(alloc, out, ring, b"minres", name, &resolution);
    match whole_or_none(out, before, written) {
        Ok(()) => Ok(Step::Done),
        Err(_) => Err(WorkStop::Memory),
    }
}

// The Betti numbers of a value with this reduced basis, which is homogeneous: those of its canonical resolution's constants.
fn table_of(
    alloc: Global,
    ring: &Ring,
    rank: u64,
    basis: &VectList,
) -> Result<Vec<BettiEntry>, WorkStop>
    requires basis { (list : List _) × Each (HasPositions rank) list × IsReducedBasisOf ring.now rank list basis.now }
    requires homogeneous { IsInhomogeneous basis.now → ⊥ }
    ensures table { IfOk result (λ entries. IsTableOfBasis ring.now rank basis.now entries.items) }
    ensures stop { IfErr result (StopsAsMinimal ring.now rank basis.now) }
{
    lawful_setting(ring);
    let resolution = match resolve(alloc, ring, u128::from(rank), basis) {
        Ok(resolution) => resolution,
        Err(stop) => return Err(stop),
    };
    Ok(betti_table(alloc, ring, &resolution)?)
}

// Appends an entry of a table on its line. After an error what was written so far stands there.
fn append_entry(out: &mut LineText, entry: &BettiEntry) -> Result<(), NoMemory>
    ensures ok { OnOk result (out.new ≡ out.old ++ entry_line entry.now) }
    ensures err { OnErr result (IsFront out.old out.new) }
{
    let mut digits = Buffer::new();
    append_word(out, digits.format(entry.step).as_bytes(), b' ')?;
    append_word(out, digits.format(entry.degree).as_bytes(), b' ')?;
    append_word(out, digits.format(entry.count).as_bytes(), b'\n')
}

// Appends a table. After an error what was written so far stands there.
fn append_table(out: &mut LineText, entries: &[BettiEntry]) -> Result<(), NoMemory>
    ensures ok { OnOk result (out.new ≡ out.old ++ table_text entries.now) }
    ensures err { OnErr result (IsFront out.old out.new) }
{
    for entry in entries {
        match append_entry(out, entry) {
            Ok(()) => {}
            Err(early) => return Err(early),
        }
    }
    Ok(())
}

/// Appends the Betti numbers of a value with this reduced basis, or says that they are refused. After an error, and where they are
/// refused, nothing is appended; `Degree` comes with a trail of the resolution.
pub fn push_betti(
    alloc: Global,
    out: &mut LineText,
    ring: &Ring,
    info: &NameInfo,
    basis: &VectList,
) -> Result<Step, WorkStop>
    requires { (list : List _) × Each (HasPositions info.now.rank) list × IsReducedBasisOf ring.now info.now.rank list basis.now }
    ensures reports { IfOk result (Reports ring.now info.now basis.now reports.Betti out.old out.new) }
    ensures unwritten { OnErr result (out.new ≡ out.old) }
    ensures stop { IfErr result (StopsAsMinimal ring.now info.now.rank basis.now) }
{
    if is_inhomogeneous(basis) {
        return Ok(Step::Refused(Kind::Homogeneous));
    }
    let entries = match table_of(alloc, ring, info.rank, basis) {
        Ok(entries) => entries,
        Err(stop) => return Err(stop),
    };
    let before = out.len();
    let written = append_table(out, &entries);
    match whole_or_none(out, before, written) {
        Ok(()) => Ok(Step::Done),
        Err(_) => Err(WorkStop::Memory),
    }
}

// What is read off a table.
fn measures_of(entries: &[BettiEntry]) -> Measures
    ensures { (counts : ℕ → ℕ → ℕ) → IsBettiTable counts entries.now → AreInvariants counts result.dimension result.regularity }
{
    match invariants(entries) {
        Some(found) => Measures {
            dimension: i128::from(found.last_step),
            regularity: i128::from(found.regularity),
        },
        None => Measures {
            dimension: -1,
            regularity: 0,
        },
    }
}

// Appends what was measured, to the end of its line. After an error what was written so far stands there.
fn append_measures(alloc: Global, out: &mut LineText, measures: Measures) -> Result<(), NoMemory>
    ensures ok { OnOk result (out.new
        ≡ out.old ++ 32 ∷ (signed_decimal measures.dimension ++ 32 ∷ (signed_decimal measures.regularity ++ 10 ∷ []))) }
    ensures err { OnErr result (IsFront out.old out.new) }
{
    append_number(alloc, out, measures.dimension)?;
    append_number(alloc, out, measures.regularity)?;
    out.push(b'\n')?;
    Ok(())
}

// Appends the name and what was measured. After an error what was written so far stands there.
fn append_regularity(
    alloc: Global,
    out: &mut LineText,
    name: &[u8],
    measures: Measures,
) -> Result<(), NoMemory>
    ensures ok { OnOk result (out.new ≡ out.old ++ regularity_text name.now measures.dimension measures.regularity) }
    ensures err { OnErr result (IsFront out.old out.new) }
{
    out.extend_from_slice(b"reg ")?;
    out.extend_from_slice(name)?;
    append_measures(alloc, out, measures)
}

/// Appends the projective dimension and the regularity of a value with this reduced basis, or says that they are refused. After an error,
/// and where they are refused, nothing is appended; `Degree` comes with a trail of the resolution.
pub fn push_regularity(
    alloc: Global,
    out: &mut LineText,
    ring: &Ring,
    info: &NameInfo,
    basis: &VectList,
) -> Result<Step, WorkStop>
    requires { (list : List _) × Each (HasPositions info.now.rank) list × IsReducedBasisOf ring.now info.now.rank list basis.now }
    ensures reports { IfOk result (Reports ring.now info.now basis.now reports.Regularity out.old out.new) }
    ensures unwritten { OnErr result (out.new ≡ out.old) }
    ensures stop { IfErr result (StopsAsMinimal ring.now info.now.rank basis.now) }
{
    if is_inhomogeneous(basis) {
        return Ok(Step::Refused(Kind::Homogeneous));
    }
    let entries = match table_of(alloc, ring, info.rank, basis) {
        Ok(entries) => entries,
        Err(stop) => return Err(stop),
    };
    let measures = measures_of(&entries);
    let before = out.len();
    let written = append_regularity(alloc, out, info.name.as_bytes(), measures);
    match whole_or_none(out, before, written) {
        Ok(()) => Ok(Step::Done),
        Err(_) => Err(WorkStop::Memory),
    }
}
