// The lines that are printed of values.
ghost use Rattle.std.specs.Prelude.{◌≡◌, ◌++◌, ◌∷◌, [], OnErr, OnOk, length, take};
ghost use Rattle.std.specs.Fmt.{signed_decimal};
ghost use Rattle.formal_sums.specs.FormalSums.{Each};
ghost use Rattle.term_lists.specs.Rings.{variables};
ghost use Rattle.term_lists.specs.Vectors.{HasVariables};
ghost use Rattle.poly_text.specs.Texts.{entries_text, list_text, names_of, vector_text};
ghost use Rattle.poly_text.specs.Writing.{IsFront};
ghost use Rattle.session_values.specs.Texts.{heading, verdict};

use itoa::Buffer;
use line_text::{LineText, whole_or_none};
use module_vectors::{NoMemory, Ring, Vect, VectList};
use poly_text::{push_entries, push_list, push_number, push_vect};
use std::alloc::Global;

/// Appends a word and the byte that ends it. After an error what was written so far stands there.
pub fn append_word(out: &mut LineText, word: &[u8], end: u8) -> Result<(), NoMemory>
    ensures ok { OnOk result (out.new ≡ out.old ++ (word.now ++ end ∷ [])) }
    ensures err { OnErr result (IsFront out.old out.new) }
{
    out.extend_from_slice(word)?;
    out.push(end)?;
    Ok(())
}

/// Appends a word, a name and a number. After an error what was written so far stands there.
pub fn append_heading(
    out: &mut LineText,
    word: &[u8],
    name: &[u8],
    count: usize,
) -> Result<(), NoMemory>
    ensures ok { OnOk result (out.new ≡ out.old ++ heading word.now name.now count) }
    ensures err { OnErr result (IsFront out.old out.new) }
{
    let mut digits = Buffer::new();
    append_word(out, word, b' ')?;
    append_word(out, name, b' ')?;
    append_word(out, digits.format(count).as_bytes(), b'\n')
}

/// Appends a number behind a space. After an error what was written so far stands there.
pub fn append_number(alloc: Global, out: &mut LineText, number: i128) -> Result<(), NoMemory>
    ensures ok { OnOk result (out.new ≡ out.old ++ (32 ∷ signed_decimal number)) }
    ensures err { OnErr result (IsFront out.old out.new) }
{
    out.push(b' ')?;
    push_number(alloc, out, number)
}

// Appends a heading and a list. After an error what was written so far stands there.
fn append_listing(
    alloc: Global,
    out: &mut LineText,
    word: &[u8],
    name: &[u8],
    ring: &Ring,
    rank: u64,
    list: &VectList,
) -> Result<(), NoMemory>
    requires { Each (λ v. Each (HasVariables (variables ring.now)) v) list.now }
    ensures ok { OnOk result (out.new ≡ out.old ++ (heading word.now name.now (length list.now) ++ list_text (names_of ring.now) rank list.now)) }
    ensures err { OnErr result (IsFront out.old out.new) }
{
    append_heading(out, word, name, list.len())?;
    push_list(alloc, out, ring, u128::from(rank), list)
}

/// Appends a list of a value with its heading. After an error nothing is appended.
pub fn push_listing(
    alloc: Global,
    out: &mut LineText,
    word: &[u8],
    name: &[u8],
    ring: &Ring,
    rank: u64,
    list: &VectList,
) -> Result<(), NoMemory>
    requires { Each (λ v. Each (HasVariables (variables ring.now)) v) list.now }
    ensures ok { OnOk result (out.new ≡ out.old ++ (heading word.now name.now (length list.now) ++ list_text (names_of ring.now) rank list.now)) }
    ensures err { OnErr result (out.new ≡ out.old) }
{
    let before = out.len();
    let written = append_listing(alloc, out, word, name, ring, rank, list);
    whole_or_none(out, before, written)
}

/// Appends a vector on a line of its own. After an error nothing is appended.
pub fn push_line(
    alloc: Global,
    out: &mut LineText,
    ring: &Ring,
    rank: u64,
    v: &Vect,
) -> Result<(), NoMemory>
    requires { Each (HasVariables (variables ring.now)) v.now }
    ensures ok { OnOk result (out.new ≡ out.old ++ (vector_text (names_of ring.now) rank v.now ++ 10 ∷ [])) }
    ensures err { OnErr result (out.new ≡ out.old) }
{
    let before = out.len();
    if push_vect(alloc, out, ring, u128::from(rank), v).is_err() {
        return Err(NoMemory);
    }
    if out.push(b'\n').is_err() {
        out.truncate(before);
        return Err(NoMemory);
    }
    Ok(())
}

/// Appends cofactors in brackets, so many, on a line of their own. After an error nothing is appended.
pub fn push_cofactors(
    alloc: Global,
    out: &mut LineText,
    ring: &Ring,
    count: usize,
    v: &Vect,
) -> Result<(), NoMemory>
    requires { Each (HasVariables (variables ring.now)) v.now }
    ensures ok { OnOk result (out.new ≡ out.old ++ (entries_text (names_of ring.now) count v.now ++ 10 ∷ [])) }
    ensures err { OnErr result (out.new ≡ out.old) }
{
    let before = out.len();
    if push_entries(alloc, out, ring, count as u128, v).is_err() {
        return Err(NoMemory);
    }
    if out.push(b'\n').is_err() {
        out.truncate(before);
        return Err(NoMemory);
    }
    Ok(())
}

/// Appends yes or no. After an error nothing is appended.
pub fn push_verdict(out: &mut LineText, yes: bool) -> Result<(), NoMemory>
    ensures ok { OnOk result (out.new ≡ out.old ++ verdict yes) }
    ensures err { OnErr result (out.new ≡ out.old) }
{
    if yes {
        out.extend_from_slice(b"yes\n")?;
    } else {
        out.extend_from_slice(b"no\n")?;
    }
    Ok(())
}
