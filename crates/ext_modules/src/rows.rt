// The rows of a map, as lists of terms that grow column by column.
ghost use Rattle.std.specs.Prelude.{◌≡◌, ◌<◌, ◌++◌, ◌∷◌, [], IfOk, OnOk, length};
ghost use Rattle.formal_sums.specs.FormalSums.{Each};
ghost use Rattle.term_lists.specs.Vectors.{HasPositions};
ghost use Rattle.ext_modules.specs.Rows.{ArePut, AreRowsOf};

use module_vectors::{Key, NoMemory, Vect, VectList};
use std::alloc::Global;
use std::marker::Model;

/// The terms of a row, in the order in which they were put. Contracts see the list of them.
pub(crate) struct Row {
    terms: Vec<(Key, u32)>,
}

// By hand, so that each drop of one is a call.
impl Drop for Row {
    fn drop(self) {
        let Row { terms: _ } = self;
    }
}

impl Model for Row {
    ghost use Rattle.std.specs.Prelude.{ℕ, List};
    ghost use Rattle.term_lists.specs.declared.key.Key.{Key};

    ghost Value = { List (Key × ℕ) };

    ghost view = { λ r. r.terms.items };
}

impl Row {
    // No terms.
    fn new(alloc: Global) -> Row
        ensures { result ≡ [] }
    {
        Row {
            terms: Vec::new(alloc),
        }
    }

    // Puts a term behind the others.
    fn push(&mut self, term: (Key, u32)) -> Result<(), NoMemory>
        ensures { OnOk result (self.new ≡ self.old ++ term ∷ []) }
    {
        self.terms.push(term)?;
        Ok(())
    }

    /// The terms, without taking memory.
    pub(crate) fn into_terms(self) -> Vec<(Key, u32)>
        ensures { result.items ≡ self }
    {
        let Row { terms } = self;
        terms
    }
}

// Puts a term of this column into its row.
fn put_term(
    alloc: Global,
    term: &(Key, u32),
    column: u64,
    rows: &mut Vec<Row>,
) -> Result<(), NoMemory>
    requires { term.now.0.position < length rows.old.items }
    ensures { OnOk result (ArePut column (term.now ∷ []) rows.old.items rows.new.items) }
{
    let monomial = term.0.monomial.try_copy(alloc)?;
    let position = column;
    rows[term.0.position as usize].push((Key { position, monomial }, term.1))
}

// Puts the terms of this column into their rows.
fn put_column(alloc: Global, terms: &Vect, column: u64, rows: &mut Vec<Row>) -> Result<(), NoMemory>
    requires { HasPositions (length rows.old.items) terms.now }
    ensures { OnOk result (ArePut column terms.now rows.old.items rows.new.items) }
{
    for term in terms.terms() {
        put_term(alloc, term, column, rows)?;
    }
    Ok(())
}

// So many rows without terms.
fn no_rows(alloc: Global, count: u64) -> Result<Vec<Row>, NoMemory>
    ensures { IfOk result (λ rows. AreRowsOf count [] rows.items) }
{
    let mut rows = Vec::with_capacity(alloc, count as usize)?;
    for _ in 0..count {
        rows.push(Row::new(alloc))?;
    }
    Ok(rows)
}

/// The rows of a map with these columns: of each row its terms, each at the position of its column. Each term of a column is
/// read once.
pub(crate) fn rows_of_columns(
    alloc: Global,
    count: u64,
    columns: &VectList,
) -> Result<Vec<Row>, NoMemory>
    requires { Each (HasPositions count) columns.now }
    ensures { IfOk result (λ rows. AreRowsOf count columns.now rows.items) }
{
    let mut rows = no_rows(alloc, count)?;
    for j in 0..columns.len() {
        put_column(alloc, &columns.as_slice()[j], j as u64, &mut rows)?;
    }
    Ok(rows)
}
