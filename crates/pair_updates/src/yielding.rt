// To which pair of its new member each new pair yields first (Gebauer and Möller 1988).
ghost use Rattle.std.specs.Prelude.{IfOk, OnOk, List, MatchOption, None, Option, Some, length, ℕ, ◌+◌, ◌<◌, ◌≡◌, ◌≤◌};
ghost use Rattle.std.specs.Vec.{vec_capacity, vec_len};
ghost use Rattle.pair_updates.specs.Dropping.{AreNewPairs, IsPairWithBits};
ghost use Rattle.pair_updates.specs.FirstYields.{AreActive, AreFirstYields, AreLowerYields, AreSettled, IsFirstAmong};
ghost use Rattle.pair_updates.specs.Leads.{sums_shown};
ghost use Rattle.pair_updates.specs.Rows.{TellsAll};
ghost use Rattle.pair_updates.specs.Seen.{AreSeen};

use crate::dropping::yields_to;
use crate::leads::Leads;
use crate::meeting::NewPair;
use crate::rows::{next_within, tells_all};
use crate::seen::{SLOTS, SeenWord, next_seen, no_words};
use module_vectors::NoMemory;
use std::alloc::Global;

/// For each pair of a new member the first earlier member to whose pair it yields, and in their order those that yield to none.
pub(crate) struct FirstYields {
    pub firsts: Vec<Option<usize>>,
    pub left: Vec<usize>,
}

// By hand, so that each drop of one is a call.
impl Drop for FirstYields {
    fn drop(self) {
        let FirstYields { firsts: _, left: _ } = self;
    }
}

/// Members whose pairs with a new one yield to none that was looked at, in their order, and for each in which variables its lead exceeds
/// the new one.
struct Active {
    members: Vec<usize>,
    above: Vec<u64>,
}

// By hand, so that each drop of one is a call.
impl Drop for Active {
    fn drop(self) {
        let Active {
            members: _,
            above: _,
        } = self;
    }
}

// The first of these members, from index `from` on, to whose pair with the same new one the given pair yields, where exponents may
// have to be read.
#[inline(never)]
fn first_read(
    leads: &Leads,
    pair: &NewPair,
    members: &[usize],
    above: &[u64],
    from: usize,
) -> Option<usize>
    requires pair { IsPairWithBits leads.now pair.now }
    requires active { AreActive leads.now pair.now.j members.now above.now }
    ensures { IsFirstAmong (sums_shown leads.now) pair.now.j pair.now.i members.now from result }
{
    // A pair whose word has a bit that this one lacks is passed over by its word alone.
    let missing = !pair.above;
    let mut k = from;
    while k < above.len() {
        k = next_within(above, k, missing);
        if k == above.len() {
            return None;
        }
        let member = members[k];
        if yields_to(leads, pair, member, above[k]) {
            return Some(member);
        }
        k += 1;
    }
    None
}

// The same where the pair's word tells all and the ring has at most sixteen variables: then words alone say to which pairs it yields.
#[inline(always)]
fn first_told(
    _leads: &Leads,
    pair: &NewPair,
    members: &[usize],
    above: &[u64],
    seen: &mut [SeenWord; SLOTS],
    from: usize,
) -> Option<usize>
    requires pair { IsPairWithBits _leads.now pair.now }
    requires active { AreActive _leads.now pair.now.j members.now above.now }
    requires seen { AreSeen above.now seen.old }
    requires from { from ≤ length members.now }
    requires all { TellsAll pair.now.above }
    requires few { _leads.now.variables ≤ 16 }
    ensures first { IsFirstAmong (sums_shown _leads.now) pair.now.j pair.now.i members.now from result }
    ensures seen { AreSeen above.now seen.new }
{
    let k = next_seen(seen, above, from, pair.above);
    if k == members.len() {
        return None;
    }
    Some(members[k])
}

// The first of these members, from index `from` on, to whose pair with the same new one the given pair yields.
#[inline(always)]
fn first_yield(
    leads: &Leads,
    pair: &NewPair,
    members: &[usize],
    above: &[u64],
    seen: &mut [SeenWord; SLOTS],
    from: usize,
) -> Option<usize>
    requires pair { IsPairWithBits leads.now pair.now }
    requires active { AreActive leads.now pair.now.j members.now above.now }
    requires seen { AreSeen above.now seen.old }
    requires from { from ≤ length members.now }
    ensures first { IsFirstAmong (sums_shown leads.now) pair.now.j pair.now.i members.now from result }
    ensures seen { AreSeen above.now seen.new }
{
    if tells_all(pair.above) && leads.weights().len() <= 16 {
        return first_told(leads, pair, members, above, seen, from);
    }
    first_read(leads, pair, members, above, from)
}

// The first of the active members, from index `from` on, to whose pair that of i yields.
#[inline(always)]
fn first_among(
    leads: &Leads,
    news: &[Option<u64>],
    active: &Active,
    seen: &mut [SeenWord; SLOTS],
    from: usize,
    i: usize,
) -> Option<usize>
    requires known { i < length news.now }
    requires news { AreNewPairs leads.now (length news.now) news.now }
    requires active { AreActive leads.now (length news.now) active.now.members.items active.now.above.items }
    requires seen { AreSeen active.now.above.items seen.old }
    requires from { from ≤ length active.now.members.items }
    ensures first { IsFirstAmong (sums_shown leads.now) (length news.now) i active.now.members.items from result }
    ensures seen { AreSeen active.now.above.items seen.new }
{
    match news[i] {
        None => None,
        Some(above) => {
            let pair = NewPair {
                i: i as u64,
                j: news.len() as u64,
                above,
            };
            first_yield(leads, &pair, &active.members, &active.above, seen, from)
        }
    }
}

// The word of the pair, if it is there and yields to no lower one.
fn active_one(first: Option<usize>, word: Option<u64>) -> Option<u64>
    ensures { MatchOption result (first ≡ None → word ≡ None) (λ x. (first ≡ None) × (word ≡ Some x)) }
{
    match first {
        Some(_) => None,
        None => word,
    }
}

// Finds to which lower member the pair of i yields first; where there is a pair and no such member, i is active.
fn look_below(
    leads: &Leads,
    news: &[Option<u64>],
    i: usize,
    firsts: &mut Vec<Option<usize>>,
    active: &mut Active,
    seen: &mut [SeenWord; SLOTS],
) -> Result<(), NoMemory>
    requires known { i < length news.now }
    requires news { AreNewPairs leads.now (length news.now) news.now }
    requires active { AreActive leads.now (length news.now) active.old.members.items active.old.above.items }
    requires seen { AreSeen active.old.above.items seen.old }
    requires room { vec_len firsts.old < vec_capacity firsts.old }
    ensures active { OnOk result (AreActive leads.now (length news.now) active.new.members.items active.new.above.items) }
    ensures seen { OnOk result (AreSeen active.new.above.items seen.new) }
    ensures len { OnOk result (vec_len firsts.new ≡ vec_len firsts.old + 1) }
    ensures capacity { vec_capacity firsts.new ≡ vec_capacity firsts.old }
    ensures lower { OnOk result (AreLowerYields leads.now (length news.now) i firsts.old.items active.old.members.items
        → AreLowerYields leads.now (length news.now) (i + 1) firsts.new.items active.new.members.items) }
{
    let first = first_among(leads, news, active, seen, 0, i);
    firsts.push_reserved(first);
    match active_one(first, news[i]) {
        Some(above) => {
            active.members.push(i)?;
            active.above.push(above)?;
            Ok(())
        }
        None => Ok(()),
    }
}

// Finds to which later member the pair of the active one at index k yields first; where there is none, it is left.
fn look_above(
    leads: &Leads,
    news: &[Option<u64>],
    active: &Active,
    seen: &mut [SeenWord; SLOTS],
    k: usize,
    yields: &mut FirstYields,
) -> Result<(), NoMemory>
    requires k { k < length active.now.members.items }
    requires active { AreActive leads.now (length news.now) active.now.members.items active.now.above.items }
    requires seen { AreSeen active.now.above.items seen.old }
    requires news { AreNewPairs leads.now (length news.now) news.now }
    requires long { length yields.old.firsts.items ≡ length news.now }
    ensures long { OnOk result (length yields.new.firsts.items ≡ length news.now) }
    ensures seen { AreSeen active.now.above.items seen.new }
    ensures settled { OnOk result (let m = leads.now in let h = length news.now in let active = active.now.members.items in
        (lower : List (Option ℕ)) → AreLowerYields m h h lower active
        → AreSettled m h active k yields.old.firsts.items yields.old.left.items
        → AreSettled m h active (k + 1) yields.new.firsts.items yields.new.left.items) }
{
    let i = active.members[k];
    match first_among(leads, news, active, seen, k + 1, i) {
        Some(c) => yields.firsts[i] = Some(c),
        None => yields.left.push(i)?,
    }
    Ok(())
}

/// For the pair of each earlier member the first member to whose pair with the new one it yields. Where it yields to a lower one, no
/// other pair is asked whether it yields to it: what does yields to that of the lower one too.
#[inline(never)]
pub(crate) fn first_yields(
    alloc: Global,
    leads: &Leads,
    news: &[Option<u64>],
) -> Result<FirstYields, NoMemory>
    requires { AreNewPairs leads.now (length news.now) news.now }
    ensures { IfOk result (λ yields. AreFirstYields leads.now (length news.now) yields.firsts.items yields.left.items) }
{
    let mut firsts = Vec::with_capacity(alloc, news.len())?;
    // Room for all is made at once: lists that grow on the way are copied several times.
    let mut active = Active {
        members: Vec::with_capacity(alloc, news.len())?,
        above: Vec::with_capacity(alloc, news.len())?,
    };
    let mut seen = no_words();
    for i in 0..news.len() {
        look_below(leads, news, i, &mut firsts, &mut active, &mut seen)?;
    }
    let mut yields = FirstYields {
        firsts,
        left: Vec::with_capacity(alloc, active.members.len())?,
    };
    for k in 0..active.members.len() {
        look_above(leads, news, &active, &mut seen, k, &mut yields)?;
    }
    Ok(yields)
}
