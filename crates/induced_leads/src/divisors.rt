// The last column whose lead divides a key.
ghost use Rattle.std.specs.Prelude.{◌≡◌, ◌<◌, ◌≤◌, List, false, ℕ, IfOk, IsTrue, OnOk, length};
ghost use Rattle.term_lists.specs.Rings.{variables};
ghost use Rattle.term_lists.specs.Vectors.{IsMonomialOver, key_of, sums_of};
ghost use Rattle.term_lists.specs.declared.key.Key.{Key as KeyValue};
ghost use Rattle.vector_division.specs.Divisions.{IsUncovered};
ghost use Rattle.vector_division.specs.Progress.{AreWeighed};
ghost use Rattle.induced_leads.specs.Spans.{ArePast, IsFoundLast, IsIndexOf, IsWidened};
ghost use Rattle.induced_leads.specs.Reaching.{OccurInLead, HasNoLeads, OccurAmong, positions_of};

use module_vectors::{Key, NoMemory, Ring, Vect};
use monomial_orders::Mono;
use std::alloc::Global;
use vector_division::{Mark, mark_of, occurring_variables, quotient_by_marked};

/// Where the columns stand whose leads are at one position: none before the first index, none from the second on.
#[derive(Clone, Copy)]
pub(crate) struct Span {
    pub(crate) from: usize,
    pub(crate) to: usize,
}

// No column has its lead at a position that has this span.
const NO_SPAN: Span = Span {
    from: usize::MAX,
    to: 0,
};

/// An index of the leads of a map's columns, by which divisors of a key are found: the mark of each column, a bit for each of the first
/// 64 variables that occurs in its lead, and the span of each position.
pub struct LeadIndex {
    pub(crate) marks: Vec<Mark>,
    pub(crate) variables: Vec<u64>,
    pub(crate) spans: Vec<Span>,
}

// By hand, so that each drop of one is a call.
impl Drop for LeadIndex {
    fn drop(self) {
        let LeadIndex {
            marks: _,
            variables: _,
            spans: _,
        } = self;
    }
}

impl LeadIndex {
    /// From this index on no lead of the columns is at the position.
    pub(crate) fn end(&self, columns: &[Vect], position: u64) -> usize
        requires { IsIndexOf columns.now self.now }
        ensures inside { result ≤ length columns.now }
        ensures past { ArePast columns.now position result }
    {
        if position < self.spans.len() as u64 {
            self.spans[position as usize].to.min(columns.len())
        } else {
            0
        }
    }

    /// How many positions have spans.
    pub fn positions(&self) -> usize
        ensures { result ≡ positions_of self.now }
    {
        self.spans.len()
    }

    /// Can a lead of the columns stand at this position? Where not, none does.
    pub fn has_leads(&self, position: u64) -> bool
        ensures none { (result ≡ false) → (columns : List (List (KeyValue × ℕ))) → IsIndexOf columns self.now → HasNoLeads columns position }
        ensures inside { IsTrue result → position < positions_of self.now }
    {
        if position >= self.spans.len() as u64 {
            return false;
        }
        let span = self.spans[position as usize];
        if span.from >= span.to {
            return false;
        }
        true
    }

    /// Can a lead of the columns divide a key at this position in which these variables occur, and no other of the first 64? Where not,
    /// none does. So keys that no lead divides are mostly told before they are made.
    pub fn may_divide(&self, position: u64, variables: u64) -> bool
        ensures { (result ≡ false) → (n : ℕ) (ws : List ℕ) (columns : List (List (KeyValue × ℕ))) (k : KeyValue) → IsIndexOf columns self.now
            → AreWeighed n ws columns → length k.monomial.exponents ≡ n → k.position ≡ position → OccurAmong k.monomial.exponents variables
            → IsUncovered (sums_of n columns) (key_of n k) }
    {
        if position >= self.spans.len() as u64 {
            return false;
        }
        let span = self.spans[position as usize];
        for i in span.from..span.to.min(self.variables.len()) {
            let least = self.variables[i];
            if least & variables == least {
                return true;
            }
        }
        false
    }
}

// The variables that occur in the lead of a column; all of them, which occur in few keys, where it has none.
fn lead_variables(column: &Vect) -> u64
    ensures { OccurInLead column.now result }
{
    match column.lead() {
        Some(lead) => occurring_variables(&lead.key.monomial),
        None => u64::MAX,
    }
}

// Makes the span of a position so wide that it has this one in it.
fn widen(alloc: Global, position: u64, more: Span, spans: &mut Vec<Span>) -> Result<(), NoMemory>
    ensures { OnOk result (IsWidened position more spans.old.items spans.new.items) }
{
    while spans.len() as u64 <= position {
        spans.push(NO_SPAN)?;
    }
    let at = position as usize;
    let span = spans[at];
    spans[at] = Span {
        from: span.from.min(more.from),
        to: span.to.max(more.to),
    };
    Ok(())
}

/// The index of the leads of these columns.
pub fn index_leads(alloc: Global, columns: &[Vect]) -> Result<LeadIndex, NoMemory>
    ensures { IfOk result (IsIndexOf columns.now) }
{
    let mut marks = Vec::with_capacity(alloc, columns.len())?;
    let mut variables = Vec::with_capacity(alloc, columns.len())?;
    let mut spans = Vec::new(alloc);
    for i in 0..columns.len() {
        marks.push_reserved(mark_of(&columns[i]));
        variables.push_reserved(lead_variables(&columns[i]));
        if let Some(lead) = columns[i].lead() {
            let place = Span { from: i, to: i + 1 };
            widen(alloc, lead.key.position, place, &mut spans)?;
        }
    }
    Ok(LeadIndex {
        marks,
        variables,
        spans,
    })
}

/// The last column whose lead divides the key, by its index, and the quotient; none where there is no such column. Divided by
/// last columns alone, the columns of the next map come out reduced (Eisenbud, section 15.5).
pub fn last_divisor(
    alloc: Global,
    ring: &Ring,
    columns: &[Vect],
    index: &LeadIndex,
    key: &Key,
) -> Result<Option<(u64, Mono)>, NoMemory>
    requires key { IsMonomialOver ring.now key.now.monomial }
    requires columns { AreWeighed (variables ring.now) ring.now.weights columns.now }
    requires index { IsIndexOf columns.now index.now }
    ensures { let n = variables ring.now in IfOk result (IsFoundLast n ring.now.weights columns.now (key_of n key.now)) }
{
    if key.position >= index.spans.len() as u64 {
        return Ok(None);
    }
    let span = index.spans[key.position as usize];
    let occurring = occurring_variables(&key.monomial);
    let mut i = span.to.min(columns.len());
    while i > span.from {
        i -= 1;
        let mark = &index.marks[i];
        if let Some(monomial) = quotient_by_marked(
            alloc,
            ring,
            key,
            occurring,
            mark,
            &columns[i],
        )? {
            return Ok(Some((i as u64, monomial)));
        }
    }
    Ok(None)
}
