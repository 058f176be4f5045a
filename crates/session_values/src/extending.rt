// Presentations of Ext modules as they are written.
ghost use Rattle.std.specs.Prelude.{◌≡◌, ◌++◌, OnErr, OnOk, codes, length};
ghost use Rattle.formal_sums.specs.FormalSums.{Each};
ghost use Rattle.term_lists.specs.Rings.{variables};
ghost use Rattle.term_lists.specs.Vectors.{HasVariables};
ghost use Rattle.poly_text.specs.Writing.{IsFront};
ghost use Rattle.session_values.specs.Extending.{ext_line, ext_text};
ghost use Rattle.session_values.specs.Texts.{verdict};

use crate::maps::{append_columns, append_counts};
use crate::texts::{append_word, push_verdict};
use ext_modules::Ext;
use itoa::Buffer;
use line_text::{LineText, whole_or_none};
use module_vectors::{NoMemory, Ring};
use std::alloc::Global;

// Appends name and step, and how many generators and relations there are. After an error what was written so far stands there.
fn append_ext_line(
    out: &mut LineText,
    name: &[u8],
    step: u64,
    generators: u64,
    relations: usize,
) -> Result<(), NoMemory>
    ensures ok { OnOk result (out.new ≡ out.old ++ ext_line name.now step generators relations) }
    ensures err { OnErr result (IsFront out.old out.new) }
{
    let mut digits = Buffer::new();
    out.extend_from_slice(b"ext ")?;
    append_word(out, name, b' ')?;
    append_word(out, digits.format(step).as_bytes(), b' ')?;
    append_counts(out, generators, relations)
}

// Appends whether the module is zero. After an error what was written so far stands there.
fn append_zero(out: &mut LineText, zero: bool) -> Result<(), NoMemory>
    ensures ok { OnOk result (out.new ≡ out.old ++ (codes "zero " ++ verdict zero)) }
    ensures err { OnErr result (IsFront out.old out.new) }
{
    out.extend_from_slice(b"zero ")?;
    push_verdict(out, zero)
}

// Appends the presentation. After an error what was written so far stands there.
fn append_ext(
    alloc: Global,
    out: &mut LineText,
    ring: &Ring,
    name: &[u8],
    step: u64,
    rank: u64,
    ext: &Ext,
) -> Result<(), NoMemory>
    requires kernel { Each (λ v. Each (HasVariables (variables ring.now)) v) ext.now.kernel }
    requires relations { Each (λ v. Each (HasVariables (variables ring.now)) v) ext.now.relations }
    ensures ok { OnOk result (out.new ≡ out.old ++ ext_text ring.now name.now step rank ext.now) }
    ensures err { OnErr result (IsFront out.old out.new) }
{
    let generators = ext.kernel.len() as u64;
    append_ext_line(out, name, step, generators, ext.relations.len())?;
    append_columns(alloc, out, ring, rank, &ext.kernel)?;
    append_columns(alloc, out, ring, generators, &ext.relations)?;
    append_zero(out, ext.zero)
}

/// Appends a presentation of the Ext module at a step of this rank. After an error nothing is appended.
pub fn push_ext(
    alloc: Global,
    out: &mut LineText,
    ring: &Ring,
    name: &[u8],
    step: u64,
    rank: u64,
    ext: &Ext,
) -> Result<(), NoMemory>
    requires kernel { Each (λ v. Each (HasVariables (variables ring.now)) v) ext.now.kernel }
    requires relations { Each (λ v. Each (HasVariables (variables ring.now)) v) ext.now.relations }
    ensures ok { OnOk result (out.new ≡ out.old ++ ext_text ring.now name.now step rank ext.now) }
    ensures err { OnErr result (out.new ≡ out.old) }
{
    let before = out.len();
    let written = append_ext(alloc, out, ring, name, step, rank, ext);
    whole_or_none(out, before, written)
}
