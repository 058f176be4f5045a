// How many members a basis has, and its leads by degree.
ghost use Rattle.std.specs.Prelude.{◌≡◌, ◌++◌, OnErr, OnOk, codes, length};
ghost use Rattle.poly_text.specs.Writing.{IsFront};
ghost use Rattle.session_values.specs.Texts.{degree_count, degree_line, degree_lines, greatest_degree, heading, lead_degree};

use crate::texts::{append_heading, append_word};
use itoa::Buffer;
use line_text::{LineText, whole_or_none};
use module_vectors::{NoMemory, Vect};

/// The degree of the lead by the weights of its variables, 0 at zero.
fn lead_degree(v: &Vect) -> u128
    ensures { result ≡ lead_degree v.now }
{
    match v.terms().first() {
        Some(term) => term.0.monomial.degree(),
        None => 0,
    }
}

/// How many vectors have a lead of this degree.
fn degree_count(list: &[Vect], degree: u128) -> usize
    ensures { result ≡ degree_count list.now degree }
{
    let mut count = 0;
    for v in list {
        if lead_degree(v) == degree {
            count += 1;
        }
    }
    count
}

/// The greatest degree of a lead.
fn greatest_degree(list: &[Vect]) -> u128
    ensures { result ≡ greatest_degree list.now }
{
    let mut greatest = 0;
    for v in list {
        greatest = greatest.max(lead_degree(v));
    }
    greatest
}

/// Appends a degree and how many leads have it, and nothing where none has. After an error what was written so far
/// stands there.
fn append_degree(out: &mut LineText, list: &[Vect], degree: u128) -> Result<(), NoMemory>
    ensures ok { OnOk result (out.new ≡ out.old ++ degree_line list.now degree) }
    ensures err { OnErr result (IsFront out.old out.new) }
{
    let count = degree_count(list, degree);
    if count == 0 {
        return Ok(());
    }
    let mut digits = Buffer::new();
    append_word(out, digits.format(degree).as_bytes(), b' ')?;
    append_word(out, digits.format(count).as_bytes(), b'\n')
}

/// Appends how many leads have each degree, the degrees ascending. After an error what was written so far stands there.
fn append_degrees(out: &mut LineText, list: &[Vect]) -> Result<(), NoMemory>
    ensures ok { OnOk result (out.new ≡ out.old ++ degree_lines list.now) }
    ensures err { OnErr result (IsFront out.old out.new) }
{
    let greatest = greatest_degree(list);
    for degree in 0..greatest {
        match append_degree(out, list, degree) {
            Ok(()) => {}
            Err(early) => return Err(early),
        }
    }
    match append_degree(out, list, greatest) {
        Ok(()) => Ok(()),
        Err(early) => Err(early),
    }
}

// Appends the heading and the degrees. After an error what was written so far stands there.
fn append_sizes(out: &mut LineText, name: &[u8], list: &[Vect]) -> Result<(), NoMemory>
    ensures ok { OnOk result (out.new ≡ out.old ++ (heading (codes "size") name.now (length list.now) ++ degree_lines list.now)) }
    ensures err { OnErr result (IsFront out.old out.new) }
{
    append_heading(out, b"size", name, list.len())?;
    append_degrees(out, list)
}

/// Appends how many members a basis has, and its leads by degree. After an error nothing is appended.
pub fn push_sizes(out: &mut LineText, name: &[u8], list: &[Vect]) -> Result<(), NoMemory>
    ensures ok { OnOk result (out.new ≡ out.old ++ (heading (codes "size") name.now (length list.now) ++ degree_lines list.now)) }
    ensures err { OnErr result (out.new ≡ out.old) }
{
    let before = out.len();
    let written = append_sizes(out, name, list);
    whole_or_none(out, before, written)
}
