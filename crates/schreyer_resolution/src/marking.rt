// What is kept of the terms of columns, for products that are made of them over numbers of keys.
ghost use Rattle.std.specs.Prelude.{◌≡◌, ◌<◌, ◌≤◌, IfOk, length};
ghost use Rattle.formal_sums.specs.FormalSums.{Each};
ghost use Rattle.induced_leads.specs.Spans.{IsIndexOf};
ghost use Rattle.induced_leads.specs.Reaching.{positions_of};
ghost use Rattle.schreyer_resolution.specs.Marking.{AreColumnMarks, AreTermMarks, IsTermMark};

use induced_leads::LeadIndex;
use module_vectors::{Key, NoMemory, Vect};
use row_matrix::hash_of_key;
use std::alloc::Global;
use vector_division::occurring_variables;

/// What is kept of a term: whether leads stand at its position, and if so the hash of its key, a bit for each of the first 64 variables
/// that occurs in it, and whether these are enough for a lead to divide a product of it.
#[derive(Clone, Copy)]
pub(crate) struct TermMark {
    pub(crate) hash: u64,
    pub(crate) variables: u64,
    pub(crate) is_reached: bool,
    pub(crate) is_sure: bool,
}

/// The marks of a column's terms, and a degree that none of their keys is above.
pub(crate) struct ColumnMarks {
    pub(crate) marks: Vec<TermMark>,
    pub(crate) degree: u128,
}

// By hand, so that each drop of one is a call.
impl Drop for ColumnMarks {
    fn drop(self) {
        let ColumnMarks {
            marks: _,
            degree: _,
        } = self;
    }
}

// The mark of a term with this key.
fn term_mark(columns: &[Vect], index: &LeadIndex, key: &Key) -> TermMark
    requires { IsIndexOf columns.now index.now }
    ensures { IsTermMark columns.now (positions_of index.now) key.now result }
{
    let _columns = columns;
    if !index.has_leads(key.position) {
        return TermMark {
            hash: 0,
            variables: 0,
            is_reached: false,
            is_sure: false,
        };
    }
    let variables = occurring_variables(&key.monomial);
    TermMark {
        hash: hash_of_key(key),
        variables,
        is_reached: true,
        is_sure: index.may_divide(key.position, variables),
    }
}

// A degree that none of the keys is above.
fn greatest_degree(terms: &[(Key, u32)]) -> u128
    ensures above { Each (λ u. u.0.monomial.degree ≤ result) terms.now }
    ensures small { result < 4294967296 }
{
    let mut greatest = 0;
    for term in terms {
        greatest = term.0.monomial.degree().max(greatest);
    }
    greatest
}

// The marks of a column's terms.
fn marks_of(
    alloc: Global,
    columns: &[Vect],
    index: &LeadIndex,
    terms: &[(Key, u32)],
) -> Result<ColumnMarks, NoMemory>
    requires { IsIndexOf columns.now index.now }
    ensures { IfOk result (AreTermMarks columns.now (positions_of index.now) terms.now) }
{
    let mut marks = Vec::with_capacity(alloc, terms.len())?;
    for term in terms {
        marks.push_reserved(term_mark(columns, index, &term.0));
    }
    Ok(ColumnMarks {
        marks,
        degree: greatest_degree(terms),
    })
}

/// The marks of each column. `NoMemory` where there is none.
pub(crate) fn column_marks(
    alloc: Global,
    columns: &[Vect],
    index: &LeadIndex,
) -> Result<Vec<ColumnMarks>, NoMemory>
    requires { IsIndexOf columns.now index.now }
    ensures { IfOk result (λ marks. AreColumnMarks columns.now (positions_of index.now) marks.items) }
{
    let mut marks = Vec::with_capacity(alloc, columns.len())?;
    for column in columns {
        marks.push_reserved(marks_of(alloc, columns, index, column.terms())?);
    }
    Ok(marks)
}
