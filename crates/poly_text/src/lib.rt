//! The printed texts of polynomials, vectors, lists and numbers.
#![tactic(auto)]

ghost use Rattle.std.specs.Prelude.{◌≡◌, ◌++◌, OnOk, OnErr, List, ℕ};
ghost use Rattle.std.specs.Fmt.{signed_decimal};
ghost use Rattle.formal_sums.specs.FormalSums.{Each};
ghost use Rattle.term_lists.specs.Rings.{variables};
ghost use Rattle.term_lists.specs.Vectors.{HasVariables};
ghost use Rattle.poly_text.specs.Texts.{entries_text, list_text, names_of, poly_text, vector_text};

use itoa::Buffer;
use line_text::{LineText, whole_or_none};
use list::append_list;
use module_vectors::{Ring, Vect, VectList};
use polynomial::append_terms;
use std::alloc::Global;
use vector::append_entries;

mod gaps;
mod list;
mod polynomial;
mod text_laws;
mod vector;

pub use no_memory::NoMemory;
pub use text_laws::{lists, numbers, polynomials, vectors};

/// Appends the text of a polynomial: its terms, the greatest first. After an error nothing is appended.
pub fn push_poly(alloc: Global, out: &mut LineText, ring: &Ring, v: &Vect) -> Result<(), NoMemory>
    requires { Each (HasVariables (variables ring.now)) v.now }
    ensures ok { OnOk result (out.new ≡ out.old ++ poly_text (names_of ring.now) v.now) }
    ensures err { OnErr result (out.new ≡ out.old) }
{
    let _alloc = alloc;
    let old = out.len();
    let written = append_terms(out, ring.vars.as_slice(), v.terms());
    whole_or_none(out, old, written)
}

/// Appends the entries of a vector in brackets, joined by commas: for each position below the rank the polynomial that
/// stands there, of the terms in the order in which they stand in `v`. After an error nothing is appended.
pub fn push_entries(
    alloc: Global,
    out: &mut LineText,
    ring: &Ring,
    rank: u128,
    v: &Vect,
) -> Result<(), NoMemory>
    requires { Each (HasVariables (variables ring.now)) v.now }
    ensures ok { OnOk result (out.new ≡ out.old ++ entries_text (names_of ring.now) rank v.now) }
    ensures err { OnErr result (out.new ≡ out.old) }
{
    let _alloc = alloc;
    let old = out.len();
    let written = append_entries(out, ring.vars.as_slice(), rank, v.terms());
    whole_or_none(out, old, written)
}

/// Appends the text of a vector: at rank 1 the polynomial, else its entries in brackets. After an error nothing is
/// appended.
pub fn push_vect(
    alloc: Global,
    out: &mut LineText,
    ring: &Ring,
    rank: u128,
    v: &Vect,
) -> Result<(), NoMemory>
    requires { Each (HasVariables (variables ring.now)) v.now }
    ensures ok { OnOk result (out.new ≡ out.old ++ vector_text (names_of ring.now) rank v.now) }
    ensures err { OnErr result (out.new ≡ out.old) }
{
    if rank == 1 {
        return push_poly(alloc, out, ring, v);
    }
    push_entries(alloc, out, ring, rank, v)
}

/// Appends the text of a list of vectors, each on a line of its own. After an error nothing is appended.
pub fn push_list(
    alloc: Global,
    out: &mut LineText,
    ring: &Ring,
    rank: u128,
    list: &VectList,
) -> Result<(), NoMemory>
    requires { Each (λ v. Each (HasVariables (variables ring.now)) v) list.now }
    ensures ok { OnOk result (out.new ≡ out.old ++ list_text (names_of ring.now) rank list.now) }
    ensures err { OnErr result (out.new ≡ out.old) }
{
    let old = out.len();
    let written = append_list(alloc, out, ring, rank, list.as_slice());
    whole_or_none(out, old, written)
}

/// Appends a number in decimal, without leading zeros, a negative one behind a `-`. After an error nothing is appended.
pub fn push_number(alloc: Global, out: &mut LineText, n: i128) -> Result<(), NoMemory>
    ensures ok { OnOk result (out.new ≡ out.old ++ signed_decimal n) }
    ensures err { OnErr result (out.new ≡ out.old) }
{
    let _alloc = alloc;
    let mut buffer = Buffer::new();
    out.extend_from_slice(buffer.format(n).as_bytes())?;
    Ok(())
}
