// The matrix of a list of vectors.
ghost use Rattle.std.specs.Prelude.{◌≡◌, ◌<◌, List, [], ℕ, length, get_or, IfOk, OnOk};
ghost use Rattle.monomials.specs.Exponents.{unit};
ghost use Rattle.formal_sums.specs.FormalSums.{Each};
ghost use Rattle.row_laws.specs.Rows.{HasSameSpan};
ghost use Rattle.monomial_orders.specs.Kept.{IsWeighed};
ghost use Rattle.monomial_orders.specs.Monomials.{IsMonomial};
ghost use Rattle.term_lists.specs.Multiples.{rescaled};
ghost use Rattle.term_lists.specs.Rings.{variables};
ghost use Rattle.term_lists.specs.Vectors.{AreVectorsOver, HasVariables, sum_of, sums_of};
ghost use Rattle.row_matrix.specs.Hashes.{IsNumbered, key_product};
ghost use Rattle.row_matrix.specs.MonicRows.{AreDivided, AreNamedRows, IsNamedRow, first_source};
ghost use Rattle.row_matrix.specs.Naming.{AreNamed, IsGrown};
ghost use Rattle.row_matrix.specs.Rows.{AreKeys, IsFromSources, IsMatrix, vectors_of};

use crate::{KeyTable, Matrix, Row, hash_of_factor, hash_of_key, kept_number, place_matrix};
use module_vectors::{Frame, Key, NoMemory, Vect};
use monomial_orders::Mono;
use std::alloc::Global;
use zp_field::Modulus;

// The number of the key, which is put at the end of the table where it has none; `one` is the monomial 1.
fn number_of(alloc: Global, keys: &mut KeyTable, one: &Mono, key: &Key) -> Result<u32, NoMemory>
    requires { length one.now.exponents ≡ length key.now.monomial.exponents }
    ensures { IfOk result (IsNumbered keys.old keys.new (key_product one.now key.now)) }
{
    let added = hash_of_factor(one);
    let hash = hash_of_key(key);
    match keys.number_of_product(alloc, one, added, key, hash) {
        Ok(number) => kept_number(number),
        Err(_) => Err(NoMemory),
    }
}

// The entries of c v, by the numbers of their keys.
fn multiple_entries(
    alloc: Global,
    modulus: &Modulus,
    keys: &mut KeyTable,
    one: &Mono,
    c: u32,
    v: &[(Key, u32)],
) -> Result<Vec<(u32, u32)>, NoMemory>
    requires factor { c < modulus.now.value }
    requires residues { Each (λ t. t.1 < modulus.now.value) v.now }
    requires variables { Each (HasVariables (length one.now.exponents)) v.now }
    requires one { let n = length one.now.exponents in IsMonomial n (unit n) one.now.exponents }
    ensures named { let n = length one.now.exponents in
        IfOk result (λ entries. AreNamed n keys.new entries.items (sum_of n (rescaled modulus.now.value c v.now))) }
    ensures grown { IfOk result (λ entries. IsGrown keys.old keys.new entries.items) }
    ensures weighed { let n = length one.now.exponents in OnOk result ((ws : List ℕ) → IsWeighed n ws one.now
        → Each (λ u. IsWeighed n ws u.0.monomial) v.now → AreKeys n ws keys.old → AreKeys n ws keys.new) }
{
    let mut entries = Vec::with_capacity(alloc, v.len())?;
    for i in 0..v.len() {
        let term = &v[i];
        let number = number_of(alloc, keys, one, &term.0)?;
        entries.push_reserved((number, modulus.mul(c, term.1)));
    }
    Ok(entries)
}

// The row of the vector with this number, which is not zero: the vector times the inverse of its first residue.
fn monic_row<F: Frame>(
    alloc: Global,
    frame: &F,
    keys: &mut KeyTable,
    one: &Mono,
    list: &[Vect],
    number: usize,
) -> Result<Row, NoMemory>
    requires vectors { AreVectorsOver (F.over frame.now) (F.compare frame.now) list.now }
    requires within { number < length list.now }
    requires some { 0 < length (get_or list.now number []) }
    requires one { let n = variables (F.over frame.now) in IsMonomial n (unit n) one.now.exponents }
    requires weighed { (ws : List ℕ) → IsWeighed (variables (F.over frame.now)) ws one.now }
    ensures named { let ring = F.over frame.now in
        IfOk result (IsNamedRow (variables ring) ring.modulus.value list.now keys.new) }
    ensures source { IfOk result (λ r. first_source r ≡ number) }
    ensures grown { IfOk result (λ r. IsGrown keys.old keys.new r.entries) }
    ensures weighed { let n = variables (F.over frame.now) in let ws = (F.over frame.now).weights in
        OnOk result (AreKeys n ws keys.old → AreKeys n ws keys.new) }
{
    let modulus = &frame.ring().modulus;
    let terms = list[number].terms();
    match modulus.invert(terms[0].1) {
        None => unreachable!(),
        Some(c) => {
            let entries = multiple_entries(alloc, modulus, keys, one, c, terms)?;
            let sources = vec![in alloc; (kept_number(number)?, c)]?;
            Ok(Row::new(entries, sources))
        }
    }
}

// The rows of the vectors that are not zero, whose keys are put into the table, which has none.
fn monic_rows<F: Frame>(
    alloc: Global,
    frame: &F,
    keys: &mut KeyTable,
    list: &[Vect],
) -> Result<Vec<Row>, NoMemory>
    requires vectors { AreVectorsOver (F.over frame.now) (F.compare frame.now) list.now }
    requires fresh { keys.old ≡ [] }
    ensures { let ring = F.over frame.now in
        IfOk result (λ rows. AreNamedRows (variables ring) ring.weights ring.modulus.value list.now keys.new rows.items) }
{
    let one = Mono::unit(alloc, frame.ring().vars.len())?;
    let mut rows = Vec::new(alloc);
    for i in 0..list.len() {
        if list[i].terms().len() > 0 {
            let row = monic_row(alloc, frame, keys, &one, list, i)?;
            rows.push(row)?;
        }
    }
    Ok(rows)
}

/// The matrix of a list of vectors: its columns are the keys that occur, and each vector that is not zero has a row, in
/// their order, which is that vector times the inverse of the residue of its lead. So row and vector are multiples of
/// each other, and rows and vectors have one span. The vectors are the matrix's input rows: the row of vector i has the
/// one source i, with that inverse. (Faugère 1999, section 2)
///
/// `NoMemory` where a growth was refused, where a number is 2^32 or more, and where a monomial is of a degree above 65,535,
/// which no product has.
pub fn from_vectors<F: Frame>(alloc: Global, frame: &F, list: &[Vect]) -> Result<Matrix, NoMemory>
    requires { AreVectorsOver (F.over frame.now) (F.compare frame.now) list.now }
    ensures matrix { let ring = F.over frame.now in let n = variables ring in
        IfOk result (IsMatrix n ring.weights ring.modulus.value (F.compare frame.now n)) }
    ensures inputs { IfOk result (λ m. m.inputs ≡ length list.now) }
    ensures rows { let ring = F.over frame.now in
        IfOk result (λ m. AreDivided (variables ring) ring.modulus.value list.now m.rows) }
    ensures sources { let ring = F.over frame.now in let n = variables ring in
        IfOk result (λ m. Each (IsFromSources n ring.modulus.value (sums_of n list.now) m.columns) m.rows) }
    ensures span { let ring = F.over frame.now in let n = variables ring in
        IfOk result (λ m. HasSameSpan ring.modulus.value (sums_of n list.now) (vectors_of n m.columns m.rows)) }
{
    frame.ring().modulus.domain();
    let mut keys = KeyTable::new(alloc)?;
    let rows = monic_rows(alloc, frame, &mut keys, list)?;
    place_matrix(alloc, frame, keys.keys(), list.len(), rows)
}
