// The maps of a resolution as they are written.
ghost use Rattle.std.specs.Prelude.{◌≡◌, ◌++◌, ◌+◌, OnErr, OnOk};
ghost use Rattle.formal_sums.specs.FormalSums.{Each};
ghost use Rattle.term_lists.specs.Rings.{variables};
ghost use Rattle.term_lists.specs.Vectors.{HasVariables};
ghost use Rattle.poly_text.specs.Writing.{IsFront};
ghost use Rattle.session_values.specs.Resolving.{columns_text, counts_text, map_line, map_text};
ghost use Rattle.session_values.specs.Writing.{AreOverVariables, resolution_written, written_maps};

use crate::texts::{append_heading, append_word, push_cofactors};
use itoa::Buffer;
use line_text::LineText;
use module_vectors::{NoMemory, Ring, VectList};
use resolution_maps::{Map, Resolution};
use std::alloc::Global;

/// Appends the columns of a map with so many rows. After an error what was written so far stands there.
pub fn append_columns(
    alloc: Global,
    out: &mut LineText,
    ring: &Ring,
    rows: u64,
    columns: &VectList,
) -> Result<(), NoMemory>
    requires { Each (λ v. Each (HasVariables (variables ring.now)) v) columns.now }
    ensures ok { OnOk result (out.new ≡ out.old ++ columns_text ring.now rows columns.now) }
    ensures err { OnErr result (IsFront out.old out.new) }
{
    for column in columns.as_slice() {
        match push_cofactors(alloc, out, ring, rows as usize, column) {
            Ok(()) => {}
            Err(early) => return Err(early),
        }
    }
    Ok(())
}

/// Appends how many rows and columns there are, on a line. After an error what was written so far stands there.
pub fn append_counts(out: &mut LineText, rows: u64, columns: usize) -> Result<(), NoMemory>
    ensures ok { OnOk result (out.new ≡ out.old ++ counts_text rows columns) }
    ensures err { OnErr result (IsFront out.old out.new) }
{
    let mut digits = Buffer::new();
    append_word(out, digits.format(rows).as_bytes(), b' ')?;
    append_word(out, digits.format(columns).as_bytes(), b'\n')
}

// Appends the line before a map's columns. After an error what was written so far stands there.
fn append_map_line(
    out: &mut LineText,
    number: usize,
    rows: u64,
    columns: usize,
) -> Result<(), NoMemory>
    ensures ok { OnOk result (out.new ≡ out.old ++ map_line number rows columns) }
    ensures err { OnErr result (IsFront out.old out.new) }
{
    let mut digits = Buffer::new();
    out.extend_from_slice(b"map ")?;
    append_word(out, digits.format(number).as_bytes(), b' ')?;
    append_counts(out, rows, columns)
}

// Appends a map with its number. After an error what was written so far stands there.
fn append_map(
    alloc: Global,
    out: &mut LineText,
    ring: &Ring,
    number: usize,
    map: &Map,
) -> Result<(), NoMemory>
    requires { Each (λ v. Each (HasVariables (variables ring.now)) v) map.now.columns }
    ensures ok { OnOk result (out.new ≡ out.old ++ map_text ring.now number map.now.rows map.now.columns) }
    ensures err { OnErr result (IsFront out.old out.new) }
{
    append_map_line(out, number, map.rows, map.columns.len())?;
    append_columns(alloc, out, ring, map.rows, &map.columns)
}

// Appends the maps with their numbers. After an error what was written so far stands there.
#[tactic(auto, using(poly_text::proofs::Writing::begins_more))]
fn append_maps(alloc: Global, out: &mut LineText, ring: &Ring, maps: &[Map]) -> Result<(), NoMemory>
    requires { Each (AreOverVariables ring.now) maps.now }
    ensures ok { OnOk result (out.new ≡ out.old ++ written_maps ring.now 1 maps.now) }
    ensures err { OnErr result (IsFront out.old out.new) }
{
    for k in 0..maps.len() {
        match append_map(alloc, out, ring, k + 1, &maps[k]) {
            Ok(()) => {}
            Err(early) => return Err(early),
        }
    }
    Ok(())
}

/// Appends a resolution with its heading. After an error what was written so far stands there.
pub fn append_resolution(
    alloc: Global,
    out: &mut LineText,
    ring: &Ring,
    word: &[u8],
    name: &[u8],
    resolution: &Resolution,
) -> Result<(), NoMemory>
    requires { Each (AreOverVariables ring.now) resolution.now.maps.items }
    ensures ok { OnOk result (out.new ≡ out.old ++ resolution_written ring.now word.now name.now resolution.now.maps.items) }
    ensures err { OnErr result (IsFront out.old out.new) }
{
    append_heading(out, word, name, resolution.maps.len())?;
    append_maps(alloc, out, ring, &resolution.maps)
}
