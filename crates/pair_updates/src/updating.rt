// What leaves the queue and what joins it as new members come (Gebauer and Möller 1988).
ghost use Rattle.std.specs.Prelude.{ℕ, List, ◌≡◌, ◌<◌, ◌≤◌, ◌+◌, ◌++◌, ◌∷◌, [], drop, length, take, IfOk, OnOk, OnErr};
ghost use Rattle.formal_sums.specs.FormalSums.{Each};
ghost use Rattle.basis_steps.specs.Pairs.{Drop, Pair as PlainPair};
ghost use Rattle.basis_steps.specs.Queues.{IsSorted};
ghost use Rattle.basis_steps.specs.Criteria.{IsPair};
ghost use Rattle.basis_steps.specs.Updates.{Remains, Updates};
ghost use Rattle.pair_criteria.specs.declared.pair.Pair.{Pair as CodePair};
ghost use Rattle.pair_updates.specs.Dropping.{AreNewPairs, drops_of};
ghost use Rattle.pair_updates.specs.FirstYields.{AreFirstYields, HasGroup};
ghost use Rattle.pair_updates.specs.Leads.{setting_of_leads, sums_shown};
ghost use Rattle.pair_updates.specs.Pairs.{AreIndices, HasLcm, IsRealPair, pairs_of};
ghost use Rattle.pair_updates.specs.Updating.{Joining, Staying, Updating};

use crate::dropped::Dropped;
use crate::dropping::{Fate, fate_of_left, leaves_by_row, leaves_for};
use crate::joining::push_pair;
use crate::leads::Leads;
use crate::meeting::pairs_with;
use crate::merging::merge;
use crate::sorting::sort_pairs;
use crate::yielding::{FirstYields, first_yields};
use module_vectors::NoMemory;
use pair_criteria::Pair;
use std::alloc::Global;
use std::collections::VecDeque;

// Room for at most so many dropped pairs is made at once.
const ROOM: usize = 65536;

// Copies of the pairs.
fn copies(alloc: Global, pairs: &[Pair]) -> Result<Vec<Pair>, NoMemory>
    ensures { IfOk result (λ copied. copied.items ≡ pairs.now) }
{
    let mut copied = Vec::with_capacity(alloc, pairs.len())?;
    for k in 0..pairs.len() {
        let x = &pairs[k];
        copied.push_reserved(Pair {
            i: x.i,
            j: x.j,
            lcm: x.lcm.try_copy(alloc)?,
        });
    }
    Ok(copied)
}

// The pair at place `next` stays as member h comes, and moves to place `kept`, or it is dropped for h. Returns how many are kept.
fn stay_or_drop(
    leads: &Leads,
    h: usize,
    pairs: &mut Vec<Pair>,
    kept: usize,
    next: usize,
    dropped: &mut Vec<Dropped>,
) -> Result<usize, NoMemory>
    requires within { h < length leads.now.keys }
    requires kept { kept ≤ next }
    requires next { next < length pairs.old.items }
    requires real { Each (IsRealPair leads.now) (drop next pairs.old.items) }
    requires earlier { Each (AreIndices h) (pairs_of (drop next pairs.old.items)) }
    ensures staying { IfOk result (λ count. (whole : List PlainPair) (drops : List Drop)
        → Staying leads.now h whole drops (take kept pairs.old.items) (drop next pairs.old.items) (drops_of dropped.old.items)
        → Staying leads.now h whole drops (take count pairs.new.items) (drop (next + 1) pairs.new.items) (drops_of dropped.new.items)) }
    ensures few { IfOk result (λ count. count ≤ kept + 1) }
    ensures len { length pairs.new.items ≡ length pairs.old.items }
{
    let x = &pairs[next];
    let i = x.i;
    let j = x.j;
    if leaves_for(leads, h, i as usize, j as usize) {
        dropped.push(Dropped { i, j, k: h as u64 })?;
        return Ok(kept);
    }
    pairs.swap(kept, next);
    Ok(kept + 1)
}

// How many of the pairs do not leave for member h until one does: most members drop none.
fn count_staying(leads: &Leads, h: usize, pairs: &[Pair]) -> usize
    requires within { h < length leads.now.keys }
    requires real { Each (IsRealPair leads.now) pairs.now }
    requires earlier { Each (AreIndices h) (pairs_of pairs.now) }
    ensures few { result ≤ length pairs.now }
    ensures staying { (drops : List Drop) → Staying leads.now h (pairs_of pairs.now) drops (take result pairs.now) (drop result pairs.now) drops }
{
    let row = *leads.row(h);
    for k in 0..pairs.len() {
        let x = &pairs[k];
        if leaves_by_row(leads, h, &row, x.i as usize, x.j as usize) {
            return k;
        }
    }
    pairs.len()
}

// Those of the pairs that do not leave for member h stay, and the others are dropped for it.
fn stay(
    leads: &Leads,
    h: usize,
    pairs: &mut Vec<Pair>,
    dropped: &mut Vec<Dropped>,
) -> Result<(), NoMemory>
    requires within { h < length leads.now.keys }
    requires real { Each (IsRealPair leads.now) pairs.old.items }
    requires earlier { Each (AreIndices h) (pairs_of pairs.old.items) }
    ensures { OnOk result (Staying leads.now h (pairs_of pairs.old.items) (drops_of dropped.old.items) pairs.new.items [] (drops_of dropped.new.items)) }
{
    let staying = count_staying(leads, h, pairs);
    let mut kept = staying;
    for next in staying..pairs.len() {
        kept = stay_or_drop(leads, h, pairs, kept, next, dropped)?;
    }
    pairs.truncate(kept);
    Ok(())
}

// The pair of i and the new member h, which yields to none, is queued or dropped, as the rules say. Few pairs come here, so the loop
// over all of them is kept free of it.
#[inline(never)]
fn join_left(
    alloc: Global,
    leads: &Leads,
    news: &[Option<u64>],
    left: &[usize],
    h: usize,
    i: usize,
    queued: &mut Vec<Pair>,
    dropped: &mut Vec<Dropped>,
) -> Result<(), NoMemory>
    requires within { h < length leads.now.keys }
    requires known { i < h }
    requires news { AreNewPairs leads.now h news.now }
    requires members { Each (λ c. c < h) left.now }
    requires group { IsPair (sums_shown leads.now) (i, h) → HasGroup (sums_shown leads.now) h i left.now }
    requires remains { IsPair (sums_shown leads.now) (i, h) → Remains (sums_shown leads.now) h i }
    requires real { Each (IsRealPair leads.now) queued.old.items }
    ensures joining { OnOk result ((start : List PlainPair) (drops : List Drop) → Each (AreIndices h) start
        → Joining leads.now h i start drops queued.old.items (drops_of dropped.old.items)
        → Joining leads.now h (i + 1) start drops queued.new.items (drops_of dropped.new.items)) }
    ensures real { OnOk result (Each (IsRealPair leads.now) queued.new.items) }
{
    match fate_of_left(leads, news, left, h, i) {
        Fate::Queued => {
            push_pair(alloc, leads, i, h, queued)?;
            Ok(())
        }
        Fate::Dropped(k) => {
            dropped.push(Dropped {
                i: i as u64,
                j: h as u64,
                k: k as u64,
            })?;
            Ok(())
        }
        Fate::Apart => Ok(()),
        Fate::Spared => Ok(()),
    }
}

// The pair of i and the new member h is queued or dropped, as the rules say.
fn join_one(
    alloc: Global,
    leads: &Leads,
    news: &[Option<u64>],
    yields: &FirstYields,
    h: usize,
    i: usize,
    queued: &mut Vec<Pair>,
    dropped: &mut Vec<Dropped>,
) -> Result<(), NoMemory>
    requires within { h < length leads.now.keys }
    requires known { i < h }
    requires news { AreNewPairs leads.now h news.now }
    requires yields { AreFirstYields leads.now h yields.now.firsts.items yields.now.left.items }
    requires real { Each (IsRealPair leads.now) queued.old.items }
    ensures joining { OnOk result ((start : List PlainPair) (drops : List Drop) → Each (AreIndices h) start
        → Joining leads.now h i start drops queued.old.items (drops_of dropped.old.items)
        → Joining leads.now h (i + 1) start drops queued.new.items (drops_of dropped.new.items)) }
    ensures real { OnOk result (Each (IsRealPair leads.now) queued.new.items) }
{
    match yields.firsts[i] {
        Some(k) => {
            dropped.push(Dropped {
                i: i as u64,
                j: h as u64,
                k: k as u64,
            })?;
            Ok(())
        }
        None => join_left(alloc, leads, news, &yields.left, h, i, queued, dropped),
    }
}

// The new pairs of member h are queued or dropped, as the rules say. A call, as are those that it makes ahead of its loop: each of the
// three loops over all pairs then has the registers for itself.
#[inline(never)]
fn join(
    alloc: Global,
    leads: &Leads,
    h: usize,
    queued: &mut Vec<Pair>,
    dropped: &mut Vec<Dropped>,
) -> Result<(), NoMemory>
    requires within { h < length leads.now.keys }
    requires real { Each (IsRealPair leads.now) queued.old.items }
    requires earlier { Each (AreIndices h) (pairs_of queued.old.items) }
    ensures { OnOk result (Joining leads.now h h (pairs_of queued.old.items) (drops_of dropped.old.items) queued.new.items (drops_of dropped.new.items)) }
{
    let news = pairs_with(alloc, leads, h)?;
    let yields = first_yields(alloc, leads, &news)?;
    for i in 0..h {
        join_one(alloc, leads, &news, &yields, h, i, queued, dropped)?;
    }
    Ok(())
}

// The update with member h: of the pairs that were queued before those stay in `kept` and `queued` that the rules leave, and of
// the new pairs those join `queued`.
fn update_with(
    alloc: Global,
    leads: &Leads,
    h: usize,
    kept: &mut Vec<Pair>,
    queued: &mut Vec<Pair>,
    dropped: &mut Vec<Dropped>,
) -> Result<(), NoMemory>
    requires within { h < length leads.now.keys }
    requires kept { Each (IsRealPair leads.now) kept.old.items }
    requires queued { Each (IsRealPair leads.now) queued.old.items }
    requires kept_earlier { Each (AreIndices h) (pairs_of kept.old.items) }
    requires queued_earlier { Each (AreIndices h) (pairs_of queued.old.items) }
    ensures { OnOk result ((first : ℕ) (old : List PlainPair) (drops : List Drop) → first ≤ h
        → Updating leads.now first h old drops kept.old.items queued.old.items (drops_of dropped.old.items)
        → Updating leads.now first (h + 1) old drops kept.new.items queued.new.items (drops_of dropped.new.items)) }
{
    stay(leads, h, kept, dropped)?;
    stay(leads, h, queued, dropped)?;
    join(alloc, leads, h, queued, dropped)?;
    Ok(())
}

/// The queue after the updates with the members from number `first` on, and the pairs that they drop.
pub fn updated(
    alloc: Global,
    leads: &Leads,
    first: usize,
    queue: &[Pair],
) -> Result<(Vec<Pair>, Vec<Dropped>), NoMemory>
    requires first { first < length leads.now.keys }
    requires real { Each (IsRealPair leads.now) queue.now }
    requires earlier { Each (AreIndices first) (pairs_of queue.now) }
    requires sorted { IsSorted (setting_of_leads leads.now.variables leads.now) (sums_shown leads.now) (pairs_of queue.now) }
    ensures real { IfOk result (λ u. Each (IsRealPair leads.now) u.0.items) }
    ensures updates { IfOk result (λ u. Updates (setting_of_leads leads.now.variables leads.now) first (sums_shown leads.now)
        (pairs_of queue.now) [] (pairs_of u.0.items) (drops_of u.1.items)) }
{
    let mut kept = copies(alloc, queue)?;
    let mut queued = Vec::new(alloc);
    // Most pairs of a new member are dropped, and a list that grows on the way is copied several times. By powers of two the room that
    // one update gives back suits the next.
    let many = (leads.len() - first).saturating_mul(leads.len());
    let mut dropped = Vec::with_capacity(alloc, many.min(ROOM).next_power_of_two())?;
    for h in first..leads.len() {
        update_with(alloc, leads, h, &mut kept, &mut queued, &mut dropped)?;
    }
    let joined = sort_pairs(alloc, leads, queued)?;
    let room = Vec::with_capacity(alloc, kept.len() + joined.len())?;
    let pairs = merge(leads, VecDeque::from_vec(kept), joined, room);
    Ok((pairs, dropped))
}
