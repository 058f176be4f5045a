// Which member has a lead that divides a key.
ghost use Rattle.std.specs.Prelude.{◌≡◌, ◌<◌, ◌≤◌, ◌+◌, ◌*◌, ◌^◌, ◌%◌, ℕ, length, IfOk};
ghost use Rattle.std.specs.List.Sorted.{IsNonDecreasingBy, IsPartitionPoint};
ghost use Rattle.formal_sums.specs.FormalSums.{Each};
ghost use Rattle.term_lists.specs.Rings.{variables};
ghost use Rattle.term_lists.specs.Vectors.{key_of, IsMonomialOver};
ghost use Rattle.vector_division.specs.Divisors.{IsNoHigher};
ghost use Rattle.vector_division.specs.Progress.{AreWeighed, IsFound};
ghost use Rattle.symbolic_prep.specs.Divisors.{
  AreAll,
  AreAscendingBounds,
  AreGreaterFrom,
  AreLeadBits,
  AreLeastDegrees,
  AreSortedDivisors,
  AreUpToLeads,
  HaveBits,
  HaveMissing,
  IsDivisorOf,
  position_of,
};

use crate::words::unary_word;
use module_vectors::{Key, NoMemory, Ring, Vect, Vectors};
use monomial_orders::Mono;
use std::alloc::Global;
use vector_division::{Mark, mark_of, occurring_variables, quotient_by_marked};

/// A vector of a list: its number, how many terms it has, and its mark.
#[derive(Clone, Copy)]
pub(crate) struct Divisor {
    pub(crate) member: usize,
    pub(crate) terms: usize,
    pub(crate) mark: Mark,
}

/// The vectors of a list by the positions of their leads, those of one position with fewer terms first, and beside each the word
/// of its lead, so that the test that most leads fail reads these alone, and the least degree of the leads from it on.
pub(crate) struct Divisors {
    sorted: Vec<Divisor>,
    bits: Vec<u64>,
    least: Vec<u32>,
}

// By hand, so that each drop of one is a call.
impl Drop for Divisors {
    fn drop(self) {
        let Divisors {
            sorted: _,
            bits: _,
            least: _,
        } = self;
    }
}

// How many of these vectors come before those whose lead has this position.
fn count_before(divisors: &[Divisor], position: u64) -> usize
    requires { IsNonDecreasingBy position_of divisors.now }
    ensures bound { result ≤ length divisors.now }
    ensures point { IsPartitionPoint (λ d. position_of d < position) (λ d. position ≤ position_of d) divisors.now result }
{
    // Where all leads have one position nothing is searched.
    if let Some(first) = divisors.first() {
        if position <= first.mark.position() {
            return 0;
        }
    }
    divisors.partition_point(|divisor| divisor.mark.position() < position)
}

// How many of these vectors come before those whose lead has a position behind this one.
fn count_through(divisors: &[Divisor], position: u64) -> usize
    requires { IsNonDecreasingBy position_of divisors.now }
    ensures bound { result ≤ length divisors.now }
    ensures point { IsPartitionPoint (λ d. position_of d ≤ position) (λ d. position < position_of d) divisors.now result }
{
    // Where all leads have one position nothing is searched.
    if let Some(last) = divisors.last() {
        if last.mark.position() <= position {
            return divisors.len();
        }
    }
    divisors.partition_point(|divisor| divisor.mark.position() <= position)
}

// How many of these vectors come before the last ones, none of whose leads has a position and a degree up to these.
fn count_possible(divisors: &[Divisor], least: &[u32], position: u64, degree: u32) -> usize
    requires positions { IsNonDecreasingBy position_of divisors.now }
    requires degrees { IsNonDecreasingBy (λ (d : ℕ). d) least.now }
    requires count { length least.now ≡ length divisors.now }
    ensures bound { result ≤ length divisors.now }
    ensures behind { AreGreaterFrom divisors.now least.now position degree result }
{
    let through = count_through(divisors, position);
    through.min(least.partition_point(|d| *d <= degree))
}

// The first place from `at` on, and before `end`, whose bits are none of the missing ones; `end` where there is none.
fn candidate_in_turn(bits: &[u64], at: usize, end: usize, missing: u64) -> usize
    requires order { at ≤ end }
    requires within { end ≤ length bits.now }
    ensures first { at ≤ result }
    ensures last { result ≤ end }
    ensures others { HaveMissing bits.now missing at result }
{
    for i in at..end {
        if bits[i] & missing == 0 {
            return i;
        }
    }
    end
}

// The same place, where the loop looks at four in each turn: most leads fail this test, and there are many.
fn next_candidate(bits: &[u64], at: usize, end: usize, missing: u64) -> usize
    requires order { at ≤ end }
    requires within { end ≤ length bits.now }
    ensures first { at ≤ result }
    ensures last { result ≤ end }
    ensures others { HaveMissing bits.now missing at result }
{
    let mut i = at;
    while end - i > 3 {
        if bits[i] & missing == 0 {
            return i;
        }
        if bits[i + 1] & missing == 0 {
            return i + 1;
        }
        if bits[i + 2] & missing == 0 {
            return i + 2;
        }
        if bits[i + 3] & missing == 0 {
            return i + 3;
        }
        i += 4;
    }
    candidate_in_turn(bits, i, end, missing)
}

// The degree, which has 32 bits.
fn degree_of(m: &Mono) -> u32
    ensures { result ≡ m.now.degree }
{
    m.degree() as u32
}

// The first of these vectors, of which the bits and least degrees are given, whose lead divides the key, and the quotient.
fn find_among<L: Vectors>(
    alloc: Global,
    ring: &Ring,
    key: &Key,
    list: &L,
    sorted: &[Divisor],
    bits: &[u64],
    least: &[u32],
) -> Result<Option<(usize, Mono)>, NoMemory>
    requires key { IsMonomialOver ring.now key.now.monomial }
    requires list { AreWeighed (variables ring.now) ring.now.weights (L.listed list.now) }
    requires divisors { AreSortedDivisors (L.listed list.now) sorted.now bits.now least.now }
    ensures { let n = variables ring.now in IfOk result (IsFound n ring.now.weights (L.listed list.now) (key_of n key.now)) }
{
    let occurring = occurring_variables(&key.monomial);
    let missing = !unary_word(key.monomial.exponents());
    let mut at = count_before(sorted, key.position);
    // The degree of a lead that divides the key is at most the key's.
    let end = count_possible(sorted, least, key.position, degree_of(&key.monomial));
    while at < end {
        // A lead with a bit that the key's word lacks does not divide it: for the few others a quotient is tried.
        at = next_candidate(bits, at, end, missing);
        if at == end {
            return Ok(None);
        }
        let divisor = &sorted[at];
        let v = list.at(divisor.member);
        if let Some(monomial) = quotient_by_marked(alloc, ring, key, occurring, &divisor.mark, v)? {
            return Ok(Some((divisor.member, monomial)));
        }
        at += 1;
    }
    Ok(None)
}

/// The first of these vectors of the list whose lead divides the key, and the quotient; none where there is no such vector
/// in the list.
pub(crate) fn find_divisor<L: Vectors>(
    alloc: Global,
    ring: &Ring,
    key: &Key,
    list: &L,
    divisors: &Divisors,
) -> Result<Option<(usize, Mono)>, NoMemory>
    requires key { IsMonomialOver ring.now key.now.monomial }
    requires list { AreWeighed (variables ring.now) ring.now.weights (L.listed list.now) }
    requires divisors { AreSortedDivisors (L.listed list.now) divisors.now.sorted.items divisors.now.bits.items divisors.now.least.items }
    ensures { let n = variables ring.now in IfOk result (IsFound n ring.now.weights (L.listed list.now) (key_of n key.now)) }
{
    find_among(
        alloc,
        ring,
        key,
        list,
        &divisors.sorted,
        &divisors.bits,
        &divisors.least,
    )
}

// A list's vectors, one after another.
fn list_divisors<L: Vectors>(alloc: Global, list: &L) -> Result<Vec<Divisor>, NoMemory>
    ensures each { IfOk result (λ divisors. Each (IsDivisorOf (L.listed list.now)) divisors.items) }
    ensures all { IfOk result (λ divisors. AreAll (L.listed list.now) divisors.items) }
{
    let mut divisors = Vec::with_capacity(alloc, list.count())?;
    for i in 0..list.count() {
        let v = list.at(i);
        divisors.push_reserved(Divisor {
            member: i,
            terms: v.terms().len(),
            mark: mark_of(v),
        });
    }
    Ok(divisors)
}

// The rank of a vector: by the position of its lead, and at one position by the number of terms.
fn rank(divisor: &Divisor) -> u128
    ensures { result ≡ divisor.now.mark.position * 2 ^ 64 + divisor.now.terms % 2 ^ 64 }
{
    u128::from(divisor.mark.position()) * 18446744073709551616 + divisor.terms as u128
}

// The word of the lead of a vector. Zero, which has no lead, gets one that most keys fail.
fn lead_bits(v: &Vect) -> u64
    ensures { AreLeadBits v.now result }
{
    match v.lead() {
        Some(lead) => unary_word(lead.key.monomial.exponents()),
        None => u64::MAX,
    }
}

// The words of the leads of these vectors of the list, in their order.
fn bits_of<L: Vectors>(alloc: Global, list: &L, divisors: &[Divisor]) -> Result<Vec<u64>, NoMemory>
    requires { Each (IsDivisorOf (L.listed list.now)) divisors.now }
    ensures { IfOk result (λ bits. HaveBits (L.listed list.now) divisors.now bits.items) }
{
    let mut bits = Vec::with_capacity(alloc, divisors.len())?;
    for i in 0..divisors.len() {
        bits.push_reserved(lead_bits(list.at(divisors[i].member)));
    }
    Ok(bits)
}

// The degree of the lead of `v`. Zero, which has no lead, is above all.
fn lead_degree(v: &Vect) -> u32
    ensures { IsNoHigher result v.now }
{
    match v.lead() {
        Some(lead) => degree_of(&lead.key.monomial),
        None => u32::MAX,
    }
}

// The degrees of the leads of these vectors of the list, in their order.
fn degrees_of<L: Vectors>(
    alloc: Global,
    list: &L,
    divisors: &[Divisor],
) -> Result<Vec<u32>, NoMemory>
    requires { Each (IsDivisorOf (L.listed list.now)) divisors.now }
    ensures { IfOk result (λ degrees. AreUpToLeads (L.listed list.now) divisors.now degrees.items) }
{
    let mut degrees = Vec::with_capacity(alloc, divisors.len())?;
    for i in 0..divisors.len() {
        degrees.push_reserved(lead_degree(list.at(divisors[i].member)));
    }
    Ok(degrees)
}

// Sets each degree to the least one from it on.
fn set_least(degrees: &mut [u32])
    ensures { AreAscendingBounds degrees.old degrees.new }
{
    let mut least = u32::MAX;
    for k in 0..degrees.len() {
        let i = degrees.len() - 1 - k;
        least = least.min(degrees[i]);
        degrees[i] = least;
    }
}

// For each of these vectors of the list the least degree of the leads from it on.
fn least_degrees<L: Vectors>(
    alloc: Global,
    list: &L,
    divisors: &[Divisor],
) -> Result<Vec<u32>, NoMemory>
    requires { Each (IsDivisorOf (L.listed list.now)) divisors.now }
    ensures { IfOk result (λ least. AreLeastDegrees (L.listed list.now) divisors.now least.items) }
{
    let mut degrees = degrees_of(alloc, list, divisors)?;
    set_least(&mut degrees);
    Ok(degrees)
}

/// A list's vectors by the positions of their leads, those of one position with fewer terms first: a reducer with few terms
/// costs the least.
pub(crate) fn divisors_of<L: Vectors>(alloc: Global, list: &L) -> Result<Divisors, NoMemory>
    ensures { IfOk result (λ divisors. AreSortedDivisors (L.listed list.now) divisors.sorted.items divisors.bits.items divisors.least.items) }
{
    let mut sorted = list_divisors(alloc, list)?;
    sorted.sort_unstable_by_key(|divisor| rank(divisor));
    let bits = bits_of(alloc, list, &sorted)?;
    let least = least_degrees(alloc, list, &sorted)?;
    Ok(Divisors {
        sorted,
        bits,
        least,
    })
}
