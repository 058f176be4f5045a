// The text of a vector, written from left to right. After an error what was written so far stands there.
ghost use Rattle.std.specs.Prelude.{◌≡◌, ◌≢◌, ◌++◌, ◌+◌, ◌-◌, ◌<◌, ◌≤◌, [], IsTrue, OnOk, OnErr, length, map, string_bytes, ℕ};
ghost use Rattle.formal_sums.specs.FormalSums.{Each};
ghost use Rattle.term_lists.specs.Vectors.{HasVariables};
ghost use Rattle.poly_text.specs.Texts.{terms_at, entries_text, entry_texts, joined, poly_text, term_text};
ghost use Rattle.poly_text.specs.Writing.{AscendsFrom, IsFront, IsStretch, entries_rest, later_entries, term_start};

use crate::NoMemory;
use crate::gaps::append_between;
use crate::polynomial::{append_term, append_terms};
use line_text::LineText;
use module_vectors::Key;

/// Appends a term, behind a `+` where it is not the first.
fn append_next_term(
    out: &mut LineText,
    vars: &[String],
    begun: bool,
    term: &(Key, u32),
) -> Result<(), NoMemory>
    requires { HasVariables (length vars.now) term.now }
    ensures ok { OnOk result (out.new ≡ out.old ++ (term_start begun ++ term_text (map string_bytes vars.now) term.now)) }
    ensures err { OnErr result (IsFront out.old out.new) }
{
    if begun {
        out.push(b'+')?;
    }
    append_term(out, vars, term)
}

/// Appends the polynomial at a position, of terms in any order of positions.
fn append_entry(
    out: &mut LineText,
    vars: &[String],
    position: u128,
    terms: &[(Key, u32)],
) -> Result<(), NoMemory>
    requires { Each (HasVariables (length vars.now)) terms.now }
    ensures ok { OnOk result (out.new ≡ out.old ++ poly_text (map string_bytes vars.now) (terms_at position terms.now)) }
    ensures err { OnErr result (IsFront out.old out.new) }
{
    let mut begun = false;
    for term in terms {
        if u128::from(term.0.position) == position {
            match append_next_term(out, vars, begun, term) {
                Ok(()) => {}
                Err(early) => return Err(early),
            }
            begun = true;
        }
    }
    if begun {
        return Ok(());
    }
    out.push(b'0')?;
    Ok(())
}

/// The least position from this one on, and before the bound, at which a term stands, or else the bound.
fn next_position(terms: &[(Key, u32)], from: u128, bound: u128) -> u128
    requires { from ≤ bound }
    ensures within { (from ≤ result) × (result ≤ bound) }
    ensures empty { (q : ℕ) → from ≤ q → q < result → terms_at q terms.now ≡ [] }
{
    let mut least = bound;
    for term in terms {
        least = nearer(from, u128::from(term.0.position), least);
    }
    least
}

/// The position where it is not before `from` and before the bound, else the bound.
fn nearer(from: u128, position: u128, bound: u128) -> u128
    requires { from ≤ bound }
    ensures within { (from ≤ result) × (result ≤ bound) }
    ensures apart { (q : ℕ) → from ≤ q → q < result → position ≢ q }
{
    if position < from || bound < position {
        return bound;
    }
    position
}

/// Appends the entries from the second on, each behind a comma, of terms in any order of positions.
fn append_later(
    out: &mut LineText,
    vars: &[String],
    rank: u128,
    terms: &[(Key, u32)],
) -> Result<(), NoMemory>
    requires { Each (HasVariables (length vars.now)) terms.now }
    ensures ok { OnOk result (out.new ≡ out.old ++ later_entries (map string_bytes vars.now) 1 (rank - 1) terms.now) }
    ensures err { OnErr result (IsFront out.old out.new) }
{
    let mut next = 1;
    while next < rank {
        let position = next_position(terms, next, rank);
        if position == rank {
            return out.push_zeros(rank - next);
        }
        match out.push_gap(position - next) {
            Ok(()) => {}
            Err(early) => return Err(early),
        }
        match append_entry(out, vars, position, terms) {
            Ok(()) => {}
            Err(early) => return Err(early),
        }
        next = position + 1;
    }
    Ok(())
}

/// Appends the entries, of terms in any order of positions.
fn append_scattered(
    out: &mut LineText,
    vars: &[String],
    rank: u128,
    terms: &[(Key, u32)],
) -> Result<(), NoMemory>
    requires { Each (HasVariables (length vars.now)) terms.now }
    ensures ok { OnOk result (out.new ≡ out.old ++ joined 44 (entry_texts (map string_bytes vars.now) rank terms.now)) }
    ensures err { OnErr result (IsFront out.old out.new) }
{
    if rank == 0 {
        return Ok(());
    }
    match append_entry(out, vars, 0, terms) {
        Ok(()) => {}
        Err(early) => return Err(early),
    }
    append_later(out, vars, rank, terms)
}

/// Whether the positions of the terms ascend, as they do in an order of position over term.
fn ascends(terms: &[(Key, u32)]) -> bool
    ensures { IsTrue result → AscendsFrom 0 terms.now }
{
    let mut low = 0;
    for term in terms {
        let position = term.0.position;
        if position < low {
            return false;
        }
        low = position;
    }
    true
}

/// How many terms at the front stand at a position.
fn run_length(terms: &[(Key, u32)], position: u128) -> usize
    ensures { IsStretch position terms.now result }
{
    for (i, term) in terms.iter().enumerate() {
        if u128::from(term.0.position) != position {
            return i;
        }
    }
    terms.len()
}

/// Appends the rest of the entries where one has begun, of terms whose positions ascend from its own.
fn append_rest(
    out: &mut LineText,
    vars: &[String],
    rank: u128,
    begun: u128,
    terms: &[(Key, u32)],
) -> Result<(), NoMemory>
    requires variables { Each (HasVariables (length vars.now)) terms.now }
    requires ascending { AscendsFrom begun terms.now }
    requires within { begun < rank }
    ensures ok { OnOk result (out.new ≡ out.old ++ entries_rest (map string_bytes vars.now) begun (rank - (begun + 1)) terms.now) }
    ensures err { OnErr result (IsFront out.old out.new) }
{
    let mut last = begun;
    for term in terms {
        let position = u128::from(term.0.position);
        if position >= rank {
            return out.push_zeros(rank - last - 1);
        }
        match append_between(out, last, position) {
            Ok(()) => {}
            Err(early) => return Err(early),
        }
        match append_term(out, vars, term) {
            Ok(()) => {}
            Err(early) => return Err(early),
        }
        last = position;
    }
    out.push_zeros(rank - last - 1)
}

/// Appends the entries, of terms whose positions ascend: the terms of the first entry stand at the front.
fn append_runs(
    out: &mut LineText,
    vars: &[String],
    rank: u128,
    terms: &[(Key, u32)],
) -> Result<(), NoMemory>
    requires variables { Each (HasVariables (length vars.now)) terms.now }
    requires ascending { AscendsFrom 0 terms.now }
    ensures ok { OnOk result (out.new ≡ out.old ++ joined 44 (entry_texts (map string_bytes vars.now) rank terms.now)) }
    ensures err { OnErr result (IsFront out.old out.new) }
{
    if rank == 0 {
        return Ok(());
    }
    let (first, others) = terms.split_at(run_length(terms, 0));
    append_terms(out, vars, first)?;
    append_rest(out, vars, rank, 0, others)
}

/// Appends the entries.
fn append_each(
    out: &mut LineText,
    vars: &[String],
    rank: u128,
    terms: &[(Key, u32)],
) -> Result<(), NoMemory>
    requires { Each (HasVariables (length vars.now)) terms.now }
    ensures ok { OnOk result (out.new ≡ out.old ++ joined 44 (entry_texts (map string_bytes vars.now) rank terms.now)) }
    ensures err { OnErr result (IsFront out.old out.new) }
{
    if ascends(terms) {
        return append_runs(out, vars, rank, terms);
    }
    append_scattered(out, vars, rank, terms)
}

/// Appends the entries in brackets.
pub fn append_entries(
    out: &mut LineText,
    vars: &[String],
    rank: u128,
    terms: &[(Key, u32)],
) -> Result<(), NoMemory>
    requires { Each (HasVariables (length vars.now)) terms.now }
    ensures ok { OnOk result (out.new ≡ out.old ++ entries_text (map string_bytes vars.now) rank terms.now) }
    ensures err { OnErr result (IsFront out.old out.new) }
{
    out.push(b'[')?;
    append_each(out, vars, rank, terms)?;
    out.push(b']')?;
    Ok(())
}
