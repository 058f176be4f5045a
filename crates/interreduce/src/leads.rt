// Which members of a list are needed for its leads, and their order.
ghost use Rattle.std.specs.Prelude.{◌≡◌, ◌<◌, ◌↔◌, ◌∷◌, ℕ, List, [], Contains, IfOk, IsTrue, MatchOption, get_or, length};
ghost use Rattle.formal_sums.specs.FormalSums.{Each};
ghost use Rattle.term_lists.specs.Rings.{variables};
ghost use Rattle.term_lists.specs.Vectors.{AreVectorsOver, key_of};
ghost use Rattle.module_vectors.specs.Trails.{lead_at};
ghost use Rattle.vector_division.specs.Progress.{HaveVariables};
ghost use Rattle.interreduce.specs.Leads.{AreNeeded, HaveLeads, IsCoveredBy, LeadsRise, by_lead};

use module_vectors::{Frame, Key, LeadTerm, NoMemory, Vectors};
use std::alloc::Global;
use std::cmp::Ordering;
use vector_division::key_divides;

// The lead of a member, or `None` where it is zero or is not in the list.
fn lead_of<L: Vectors>(list: &L, index: usize) -> Option<LeadTerm<'_>>
    ensures { MatchOption result (get_or (L.listed list.now) index [] ≡ [])
        (λ lead. (rest : List (_ × ℕ)) × (get_or (L.listed list.now) index [] ≡ (lead.key.now, lead.residue) ∷ rest)) }
{
    if index >= list.count() {
        return None;
    }
    list.at(index).lead()
}

// Compares two members for a sort with the least lead first. Those without a lead come last.
fn ascending<F: Frame, L: Vectors>(frame: &F, list: &L, i: usize, j: usize) -> Ordering
    requires { AreVectorsOver (F.over frame.now) (F.compare frame.now) (L.listed list.now) }
    ensures { let n = variables (F.over frame.now) in result ≡ by_lead n (F.compare frame.now n) (L.listed list.now) i j }
{
    match lead_of(list, i) {
        Some(left) => match lead_of(list, j) {
            Some(right) => frame.cmp(left.key, right.key),
            None => Ordering::Less,
        },
        None => match lead_of(list, j) {
            Some(_) => Ordering::Greater,
            None => Ordering::Equal,
        },
    }
}

// The members that are not zero.
fn nonzero_members<L: Vectors>(alloc: Global, list: &L) -> Result<Vec<usize>, NoMemory>
    ensures within { IfOk result (λ found. Each (λ i. i < length (L.listed list.now)) found.items) }
    ensures leads { IfOk result (λ found. HaveLeads (L.listed list.now) found.items) }
    ensures all { IfOk result (λ found. (i : ℕ) → i < length (L.listed list.now) → 0 < length (get_or (L.listed list.now) i []) → Contains found.items i) }
{
    let mut found = Vec::with_capacity(alloc, list.count())?;
    for i in 0..list.count() {
        if !list.at(i).terms().is_empty() {
            found.push_reserved(i);
        }
    }
    Ok(found)
}

// The same by ascending leads.
fn by_ascending_lead<F: Frame, L: Vectors>(
    alloc: Global,
    frame: &F,
    list: &L,
) -> Result<Vec<usize>, NoMemory>
    requires { AreVectorsOver (F.over frame.now) (F.compare frame.now) (L.listed list.now) }
    ensures within { IfOk result (λ order. Each (λ i. i < length (L.listed list.now)) order.items) }
    ensures leads { IfOk result (λ order. HaveLeads (L.listed list.now) order.items) }
    ensures all { IfOk result (λ order. (i : ℕ) → i < length (L.listed list.now) → 0 < length (get_or (L.listed list.now) i []) → Contains order.items i) }
    ensures rises { let n = variables (F.over frame.now) in IfOk result (λ order. LeadsRise n (F.compare frame.now n) (L.listed list.now) order.items) }
{
    let mut order = nonzero_members(alloc, list)?;
    order.sort_unstable_by(|i, j| ascending(frame, list, *i, *j));
    Ok(order)
}

// The key of a member's lead.
fn lead_key<L: Vectors>(list: &L, index: usize) -> &Key
    requires index { index < length (L.listed list.now) }
    requires some { 0 < length (get_or (L.listed list.now) index []) }
    ensures { (n : ℕ) → HaveVariables n (L.listed list.now)
        → (lead_at n (L.listed list.now) index ≡ key_of n result.now) × (length result.now.monomial.exponents ≡ n) }
{
    &list.at(index).terms()[0].0
}

// Does the lead of one of these members divide that of member j?
fn is_covered<L: Vectors>(list: &L, kept: &[usize], j: usize) -> bool
    requires divisors { Each (λ i. i < length (L.listed list.now)) kept.now }
    requires multiple { j < length (L.listed list.now) }
    requires leads { HaveLeads (L.listed list.now) kept.now }
    requires some { 0 < length (get_or (L.listed list.now) j []) }
    requires variables { (n : ℕ) × HaveVariables n (L.listed list.now) }
    ensures { (n : ℕ) → HaveVariables n (L.listed list.now) → IsTrue result ↔ IsCoveredBy n (L.listed list.now) kept.now j }
{
    let multiple = lead_key(list, j);
    for i in kept {
        let divisor = lead_key(list, *i);
        if key_divides(divisor, multiple) {
            return true;
        }
    }
    false
}

/// The members that are needed, by ascending leads: each one that is not zero, and whose lead is divisible by none that was taken
/// before it, so that of members with one lead one stays; and the others that are not zero, by ascending leads too.
pub(crate) fn needed_members<F: Frame, L: Vectors>(
    alloc: Global,
    frame: &F,
    list: &L,
) -> Result<(Vec<usize>, Vec<usize>), NoMemory>
    requires { AreVectorsOver (F.over frame.now) (F.compare frame.now) (L.listed list.now) }
    ensures needed { let n = variables (F.over frame.now) in IfOk result (λ m. AreNeeded n (F.compare frame.now n) (L.listed list.now) m.0.items) }
    ensures others { IfOk result (λ m. Each (λ i. i < length (L.listed list.now)) m.1.items) }
{
    let order = by_ascending_lead(alloc, frame, list)?;
    let mut kept = Vec::new(alloc);
    let mut others = Vec::new(alloc);
    for i in &order {
        if !is_covered(list, &kept, *i) {
            kept.push(*i)?;
        } else {
            others.push(*i)?;
        }
    }
    Ok((kept, others))
}

/// The degree of a member's lead, 0 where it has none.
pub(crate) fn lead_degree<L: Vectors>(list: &L, index: usize) -> u128 {
    match lead_of(list, index) {
        Some(lead) => lead.key.monomial.degree(),
        None => 0,
    }
}
