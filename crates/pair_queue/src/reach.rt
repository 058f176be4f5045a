// Which leads reach an exponent of a variable.
ghost use Rattle.std.specs.Int.{bit_at};
ghost use Rattle.std.specs.Prelude.{ℕ, ◌≡◌, ◌<◌, ◌≤◌, ◌+◌, ◌-◌, ◌/◌, OnErr, OnOk, get_or, length, min, take};
ghost use Rattle.pair_queue.specs.Reaches.{BitsStay, FallsShort, HasRoomFor, IsReach, bit_of_member, exponent_of_lead, place_of_word};

use crate::row::with_flag;
use module_vectors::NoMemory;
use pair_updates::Leads;
use std::alloc::Global;

// Greater exponents than this one have no words.
const DEPTH: usize = 15;

/// Which leads reach an exponent of a variable: a word for 64 members, each variable and each exponent from 1 to `DEPTH`, with a bit
/// for each member. Bits of members that were taken back may stay, so a lead whose bit is set need not reach the exponent; one whose
/// bit is clear does not.
pub(crate) struct Reach {
    // Those of 64 members side by side, and of these those of one variable.
    words: Vec<u64>,
}

// By hand, so that each drop of one is a call.
impl Drop for Reach {
    fn drop(self) {
        let Reach { words: _ } = self;
    }
}

// Makes room for so many members over n variables.
fn reserve(words: &mut Vec<u64>, n: usize, count: usize) -> Result<(), NoMemory>
    ensures room { OnOk result (HasRoomFor n count words.new.items) }
    ensures stay { BitsStay words.old.items words.new.items }
    ensures err { OnErr result (words.new.items ≡ words.old.items) }
{
    let width = count.div_ceil(64).saturating_mul(n).saturating_mul(DEPTH);
    if words.len() < width {
        words.resize(width, 0)?;
    }
    Ok(())
}

// Sets the bit at this place of the word with this index.
fn mark(words: &mut Vec<u64>, at: usize, place: usize)
    requires at { at < length words.old.items }
    requires place { place < 64 }
    ensures len { length words.new.items ≡ length words.old.items }
    ensures stay { BitsStay words.old.items words.new.items }
    ensures here { bit_at (get_or words.new.items at 0) place ≡ 1 }
{
    words[at] = with_flag(words[at], place, true);
}

// Sets the bit at this place of each of `count` words.
fn mark_each(words: &mut Vec<u64>, first: usize, count: usize, place: usize)
    requires room { first + count ≤ length words.old.items }
    requires place { place < 64 }
    ensures len { length words.new.items ≡ length words.old.items }
    ensures stay { BitsStay words.old.items words.new.items }
    ensures here { (e : ℕ) → e < count → bit_at (get_or words.new.items (first + e) 0) place ≡ 1 }
{
    for e in 0..count {
        mark(words, first + e, place);
    }
}

// Sets the bits of a member whose lead has these exponents.
fn mark_member(words: &mut Vec<u64>, exponents: &[u16], member: usize)
    requires room { (v : ℕ) → v < length exponents.now → place_of_word (length exponents.now) (member / 64) v 15 ≤ length words.old.items }
    ensures len { length words.new.items ≡ length words.old.items }
    ensures stay { BitsStay words.old.items words.new.items }
    ensures here { (v e : ℕ) → v < length exponents.now → e < 15 → e < get_or exponents.now v 0
        → bit_of_member (length exponents.now) words.new.items member v e ≡ 1 }
{
    for v in 0..exponents.len() {
        let first = (member / 64 * exponents.len() + v) * DEPTH;
        let count = (exponents[v] as usize).min(DEPTH);
        mark_each(words, first, count, member % 64);
    }
}

// Sets the bits of the members from number `first` on.
fn mark_members(words: &mut Vec<u64>, leads: &Leads, first: usize)
    requires room { HasRoomFor leads.now.variables (length leads.now.keys) words.old.items }
    ensures len { length words.new.items ≡ length words.old.items }
    ensures stay { BitsStay words.old.items words.new.items }
    ensures here { (c v e : ℕ) → first ≤ c → c < length leads.now.keys → v < leads.now.variables → e < 15 → e < exponent_of_lead leads.now c v
        → bit_of_member leads.now.variables words.new.items c v e ≡ 1 }
{
    for c in first..leads.len() {
        mark_member(words, leads.at(c).monomial.exponents(), c);
    }
}

impl Reach {
    /// Of no leads.
    pub(crate) fn new(alloc: Global) -> Reach {
        Reach {
            words: Vec::new(alloc),
        }
    }

    /// The members from number `first` on come. After `NoMemory` it is as before.
    pub(crate) fn add(&mut self, leads: &Leads, first: usize) -> Result<(), NoMemory>
        requires first { first ≤ length leads.now.keys }
        requires earlier { IsReach (record leads.now { keys = take first leads.now.keys }) self.old }
        ensures reach { OnOk result (IsReach leads.now self.new) }
        ensures earlier { OnErr result (IsReach (record leads.now { keys = take first leads.now.keys }) self.new) }
    {
        reserve(&mut self.words, leads.weights().len(), leads.len())?;
        mark_members(&mut self.words, leads, first);
        Ok(())
    }

    // Which of the 64 members from number 64·`index` on reach this exponent of variable v, of n.
    fn word(&self, n: usize, index: usize, v: usize, exponent: u16) -> u64
        requires room { place_of_word n index v 15 ≤ length self.now.words.items }
        requires some { 0 < exponent }
        ensures { result ≡ get_or self.now.words.items (place_of_word n index v (min exponent 15 - 1)) 0 }
    {
        self.words[(index * n + v) * DEPTH + (exponent as usize).min(DEPTH) - 1]
    }

    /// Of the 64 members from number 64·`index` on those of these bits whose leads reach the exponent of the one monomial in each
    /// variable in which it is above that of the other: a bit for each.
    pub(crate) fn reaching(&self, above: &[u16], below: &[u16], index: usize, among: u64) -> u64
        requires variables { length below.now ≡ length above.now }
        requires room { (v : ℕ) → v < length above.now → place_of_word (length above.now) index v 15 ≤ length self.now.words.items }
        ensures fewer { (r : ℕ) → bit_at result r ≡ 1 → bit_at among r ≡ 1 }
        ensures short { (r : ℕ) → bit_at among r ≡ 1 → bit_at result r ≡ 0 → FallsShort self.now.words.items above.now below.now index r }
    {
        let mut found = among;
        for v in 0..above.len() {
            if found == 0 {
                return 0;
            }
            if above[v] > below[v] {
                found &= self.word(above.len(), index, v, above[v]);
            }
        }
        found
    }
}
