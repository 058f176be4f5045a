// Hilbert numerator, dimension and degree of a value.
ghost use Rattle.std.specs.Prelude.{◌≡◌, ◌≤◌, ◌++◌, ◌∷◌, IfErr, IfOk, List, OnErr, OnOk, flat_map};
ghost use Rattle.groebner_iface.specs.Runs.{IsReducedBasisOf};
ghost use Rattle.hilbert_laws.specs.Dimensions.{HasDimension};
ghost use Rattle.hilbert_series.specs.Large.{IsLarge};
ghost use Rattle.term_lists.specs.Rings.{variables};
ghost use Rattle.poly_text.specs.Writing.{IsFront};
ghost use Rattle.std.specs.Fmt.{signed_decimal};
ghost use Rattle.session_values.specs.Counting.{CountsFirst, NumbersStop};
ghost use Rattle.session_values.specs.Numbers.{HasManyLeads, IsNumeratorFor, coefficients_text, leads_of, measures_text, numbers_text};

use crate::texts::append_number;
use hilbert_series::{HilbertStop, Series, dimension_degree, numerator};
use line_text::LineText;
use module_vectors::{Key, NoMemory, Ring, VectList};
use poly_text::push_number;
use std::alloc::Global;

/// The Hilbert numbers of a value, read off its reduced basis.
pub struct Numbers {
    /// The numerator.
    pub series: Series,
    /// The dimension.
    pub dimension: i128,
    /// The degree.
    pub degree: i128,
}

// By hand, so that each drop of one is a call.
impl Drop for Numbers {
    fn drop(self) {
        let Numbers {
            series: _,
            dimension: _,
            degree: _,
        } = self;
    }
}

// The first keys of the vectors.
fn leads_of(alloc: Global, list: &VectList) -> Result<Vec<Key>, NoMemory>
    ensures { IfOk result (λ keys. keys.items ≡ leads_of list.now) }
{
    let mut keys = Vec::with_capacity(alloc, list.len())?;
    for v in list.as_slice() {
        if let Some(term) = v.terms().first() {
            keys.push(term.0.try_copy(alloc)?)?;
        }
    }
    Ok(keys)
}

/// The numbers of a reduced basis of a value of this rank, at most 64. `Leads` comes where a position has more than 120 leads,
/// with the number of leads of the first such position, `Large` where none has and the series of the numerator are too large,
/// `Memory` where a growth was refused.
pub fn numbers_of(
    alloc: Global,
    ring: &Ring,
    rank: u64,
    basis: &VectList,
) -> Result<Numbers, HilbertStop>
    requires rank { rank ≤ 64 }
    requires basis { (list : List _) × IsReducedBasisOf ring.now rank list basis.now }
    ensures few { OnOk result (HasManyLeads ring.now rank basis.now → ⊥) }
    ensures counts { IfOk result (λ numbers. IsNumeratorFor ring.now rank basis.now numbers.series.coefficients.items) }
    ensures narrow { IfOk result (λ numbers. IsLarge numbers.series.coefficients.items → ⊥) }
    ensures measured { IfOk result (λ numbers. HasDimension (variables ring.now) numbers.series.coefficients.items numbers.dimension numbers.degree) }
    ensures stop { IfErr result (NumbersStop ring.now rank basis.now) }
    ensures first { IfErr result (CountsFirst ring.now rank basis.now) }
{
    let Ok(leads) = leads_of(alloc, basis) else {
        return Err(HilbertStop::Memory);
    };
    let series = match numerator(alloc, &ring.weights, rank, leads.as_slice()) {
        Ok(series) => series,
        Err(stop) => return Err(stop),
    };
    match dimension_degree(alloc, &series) {
        Ok((dimension, degree)) => Ok(Numbers {
            series,
            dimension,
            degree,
        }),
        Err(stop) => Err(stop),
    }
}

// Appends each number behind a space. After an error what was written so far stands there.
fn append_each(alloc: Global, out: &mut LineText, numbers: &[i128]) -> Result<(), NoMemory>
    ensures ok { OnOk result (out.new ≡ out.old ++ flat_map (λ k. 32 ∷ signed_decimal k) numbers.now) }
    ensures err { OnErr result (IsFront out.old out.new) }
{
    for k in numbers {
        match append_number(alloc, out, *k) {
            Ok(()) => {}
            Err(early) => return Err(early),
        }
    }
    Ok(())
}

// Appends the coefficients. After an error what was written so far stands there.
fn append_coefficients(
    alloc: Global,
    out: &mut LineText,
    coefficients: &[i128],
) -> Result<(), NoMemory>
    ensures ok { OnOk result (out.new ≡ out.old ++ coefficients_text coefficients.now) }
    ensures err { OnErr result (IsFront out.old out.new) }
{
    if coefficients.len() == 0 {
        append_each(alloc, out, &[0])
    } else {
        append_each(alloc, out, coefficients)
    }
}

// Appends a word and a number. After an error what was written so far stands there.
fn append_measure(
    alloc: Global,
    out: &mut LineText,
    word: &[u8],
    number: i128,
) -> Result<(), NoMemory>
    ensures ok { OnOk result (out.new ≡ out.old ++ (word.now ++ signed_decimal number)) }
    ensures err { OnErr result (IsFront out.old out.new) }
{
    out.extend_from_slice(word)?;
    push_number(alloc, out, number)
}

// Appends dimension and degree. After an error what was written so far stands there.
fn append_measures(
    alloc: Global,
    out: &mut LineText,
    dimension: i128,
    degree: i128,
) -> Result<(), NoMemory>
    ensures ok { OnOk result (out.new ≡ out.old ++ measures_text dimension degree) }
    ensures err { OnErr result (IsFront out.old out.new) }
{
    append_measure(alloc, out, b"\ndim ", dimension)?;
    append_measure(alloc, out, b" degree ", degree)?;
    out.push(b'\n')?;
    Ok(())
}

/// Appends the numerator on one line, dimension and degree on the next. After an error what was written so far stands there.
pub fn append_numbers(
    alloc: Global,
    out: &mut LineText,
    name: &[u8],
    numbers: &Numbers,
) -> Result<(), NoMemory>
    ensures ok { OnOk result (out.new ≡ out.old
        ++ numbers_text name.now numbers.now.series.coefficients.items numbers.now.dimension numbers.now.degree) }
    ensures err { OnErr result (IsFront out.old out.new) }
{
    out.extend_from_slice(b"hilb ")?;
    out.extend_from_slice(name)?;
    append_coefficients(alloc, out, numbers.series.coefficients.as_slice())?;
    append_measures(alloc, out, numbers.dimension, numbers.degree)
}
