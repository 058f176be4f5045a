// Skipping the queued pairs to which a criterion applies.
ghost use Rattle.std.specs.Prelude.{◌≡◌, ◌<◌, ◌≤◌, ◌+◌, ◌-◌, ◌++◌, ◌∷◌, length, take, drop, get_or, true, List, [], ℕ};
ghost use Rattle.std.specs.Vec.{vec_capacity};
ghost use Rattle.formal_sums.specs.FormalSums.{Each};
ghost use Rattle.pair_criteria.specs.declared.pair.Pair.{Pair as CodePair};
ghost use Rattle.pair_updates.specs.Leads.{LeadsShown, setting_of_leads, sums_shown};
ghost use Rattle.pair_updates.specs.Pairs.{IsRealPair, index_pair_of, pairs_of, AreIndices};
ghost use Rattle.pair_queue.specs.Reaches.{IsReach};
ghost use Rattle.pair_queue.specs.Skipping.{AreSkipped, IsKnown, IsSpared, NoneIsSpared};
ghost use Rattle.pair_queue.specs.Tables.{IsFlagTable, flag, flag_cleared, member_count};
ghost use Rattle.basis_steps.specs.Pairs.{Pair as PlainPair};
ghost use Rattle.basis_steps.specs.Queues.{IsSorted};
ghost use Rattle.queue_updates.specs.declared.Update.TheVariants as updates;

use crate::closing::pass;
use crate::queue::Queue;
use crate::reach::Reach;
use crate::table::Table;
use monomial_orders::Mono;
use pair_criteria::Pair;
use pair_updates::Leads;
use queue_updates::Update;

// How many of the kept pairs stand before those at their end whose lcms have this monomial.
fn count_before(kept: &[Pair], monomial: &Mono) -> usize
    ensures within { result ≤ length kept.now }
    ensures other { (y : CodePair) → 0 < result → y ≡ get_or kept.now (result - 1) y → monomial.now ≡ y.lcm.monomial → ⊥ }
{
    let mut count = kept.len();
    while count > 0 {
        if !monomial.equal(&kept[count - 1].lcm.monomial) {
            return count;
        }
        count -= 1;
    }
    0
}

// How many of the kept pairs stand before the first that is not due. Of the first `before` none is.
fn count_due(due: &Table, kept: &[Pair], before: usize) -> usize
    requires within { Each (λ x. AreIndices (member_count due.now) (index_pair_of x)) kept.now }
    requires before { before ≤ length kept.now }
    ensures few { result ≤ length kept.now }
    ensures before { before ≤ result }
    ensures due { (k : ℕ) (x : CodePair) → before ≤ k → k < result → x ≡ get_or kept.now k x → (flag due.now) (index_pair_of x) ≡ true }
{
    for k in before..kept.len() {
        let x = &kept[k];
        if !due.has(x.i as usize, x.j as usize) {
            return k;
        }
    }
    kept.len()
}

// Moves the kept pairs behind the first `count` before those from place `next` on, and returns where these begin now.
fn put_back(queue: &mut Queue, count: usize, kept: usize, next: usize) -> usize
    requires count { count ≤ kept }
    requires kept { kept < next }
    requires next { next ≤ length queue.old.items }
    ensures len { length queue.new.items ≡ length queue.old.items }
    ensures place { result + kept ≡ next + count }
    ensures first { take count queue.new.items ≡ take count queue.old.items }
    ensures rest { drop result queue.new.items ≡ drop count (take kept queue.old.items) ++ drop next queue.old.items }
    ensures real { (m : LeadsShown) → Each (IsRealPair m) queue.old.items → Each (IsRealPair m) queue.new.items }
{
    let mut last = kept;
    let mut first = next;
    while last > count {
        last -= 1;
        first -= 1;
        queue.swap(last, first);
    }
    first
}

// The pair at place `next` is skipped. It waits no more, so a criterion may apply now to pairs that were kept: from the
// first such pair on they are put back. Its lcm divides theirs, which stand before it in the queue: they have the same
// lcm, and stand last among those kept. Returns how many are kept, and where those that are still to be looked at begin.
fn skip_pair(
    leads: &Leads,
    reach: &Reach,
    waits: &mut Table,
    due: &mut Table,
    queue: &mut Queue,
    kept: usize,
    next: usize,
    pair: (u64, u64),
) -> (usize, usize)
    requires reach { IsReach leads.now reach.now }
    requires waits { member_count waits.old ≡ length leads.now.keys }
    requires due { member_count due.old ≡ length leads.now.keys }
    requires real { Each (IsRealPair leads.now) queue.old.items }
    requires kept { kept ≤ next }
    requires next { next < length queue.old.items }
    requires pair { AreIndices (length leads.now.keys) pair }
    requires spared { IsSpared leads.now (flag waits.old) pair }
    requires place { pairs_of (drop next queue.old.items) ≡ pair ∷ pairs_of (drop (next + 1) queue.old.items) }
    requires sorted { IsSorted (setting_of_leads leads.now.variables leads.now) (sums_shown leads.now)
        (pairs_of (take kept queue.old.items) ++ pairs_of (drop next queue.old.items)) }
    requires none { NoneIsSpared leads.now (flag waits.old) (pairs_of (take kept queue.old.items)) }
    requires known { Each (IsKnown leads.now (flag waits.old) (flag due.old))
        (pairs_of (take kept queue.old.items) ++ pairs_of (drop (next + 1) queue.old.items)) }
    ensures waits { (flag waits.new) ≡ flag_cleared (flag waits.old) pair }
    ensures waits_size { member_count waits.new ≡ member_count waits.old }
    ensures due_size { member_count due.new ≡ member_count due.old }
    ensures fewer { result.0 ≤ kept }
    ensures place { result.1 + kept ≡ next + 1 + result.0 }
    ensures len { length queue.new.items ≡ length queue.old.items }
    ensures first { take result.0 queue.new.items ≡ take result.0 (take kept queue.old.items) }
    ensures rest { drop result.1 queue.new.items ≡ drop result.0 (take kept queue.old.items) ++ drop (next + 1) queue.old.items }
    ensures real { Each (IsRealPair leads.now) queue.new.items }
    ensures none { NoneIsSpared leads.now (flag waits.new) (pairs_of (take result.0 queue.new.items)) }
    ensures known { Each (IsKnown leads.now (flag waits.new) (flag due.new))
        (pairs_of (take result.0 queue.new.items) ++ pairs_of (drop result.1 queue.new.items)) }
{
    let pairs = queue.as_slice();
    let before = count_before(&pairs[..kept], &pairs[next].lcm.monomial);
    pass(leads, reach, waits, due, pair.0 as usize, pair.1 as usize);
    let count = count_due(due, &pairs[..kept], before);
    let next = put_back(queue, count, kept, next + 1);
    (count, next)
}

// Moves the pair at place `next` to the end of the kept ones. While none was skipped, it stands there.
fn keep(queue: &mut Queue, kept: usize, next: usize)
    requires kept { kept ≤ next }
    requires next { next < length queue.old.items }
    ensures len { length queue.new.items ≡ length queue.old.items }
    ensures first { (x : CodePair) → x ≡ get_or queue.old.items next x → take (kept + 1) queue.new.items ≡ take kept queue.old.items ++ x ∷ [] }
    ensures rest { drop (next + 1) queue.new.items ≡ drop (next + 1) queue.old.items }
    ensures real { (m : LeadsShown) → Each (IsRealPair m) queue.old.items → Each (IsRealPair m) queue.new.items }
{
    if kept < next {
        queue.swap(kept, next);
    }
}

/// Skips each queued pair to which a criterion applies, the first one each time: those that are not due. IVA chapter 2,
/// section 10.
pub(crate) fn skip(
    leads: &Leads,
    reach: &Reach,
    waits: &mut Table,
    due: &mut Table,
    queue: &mut Queue,
    skipped: &mut Vec<(u64, u64)>,
)
    requires reach { IsReach leads.now reach.now }
    requires waits { member_count waits.old ≡ length leads.now.keys }
    requires due { member_count due.old ≡ length leads.now.keys }
    requires real { Each (IsRealPair leads.now) queue.old.items }
    requires sorted { IsSorted (setting_of_leads leads.now.variables leads.now) (sums_shown leads.now) (pairs_of queue.old.items) }
    requires skipped { (skipped.old.items ≡ []) × (length queue.old.items ≤ vec_capacity skipped.old) }
    requires known { Each (IsKnown leads.now (flag waits.old) (flag due.old)) (pairs_of queue.old.items) }
    ensures waits_size { member_count waits.new ≡ member_count waits.old }
    ensures due_size { member_count due.new ≡ member_count due.old }
    ensures few { length queue.new.items ≤ length queue.old.items }
    ensures real { Each (IsRealPair leads.now) queue.new.items }
    ensures skips { (out : List (PlainPair × ℕ)) → IsFlagTable (flag waits.old) (pairs_of queue.old.items) out
        → AreSkipped leads.now out (pairs_of queue.old.items) skipped.new.items (pairs_of queue.new.items) (flag waits.new) }
    ensures none { NoneIsSpared leads.now (flag waits.new) (pairs_of queue.new.items) }
    ensures known { Each (IsKnown leads.now (flag waits.new) (flag due.new)) (pairs_of queue.new.items) }
{
    // The first `kept` pairs are kept, and those from `next` on are still to be looked at.
    let mut kept = 0;
    let mut next = 0;
    while next < queue.len() {
        let x = &queue.as_slice()[next];
        if !due.has(x.i as usize, x.j as usize) {
            let pair = (x.i, x.j);
            skipped.push_reserved(pair);
            (kept, next) = skip_pair(leads, reach, waits, due, queue, kept, next, pair);
        } else {
            keep(queue, kept, next);
            kept += 1;
            next += 1;
        }
    }
    queue.truncate(kept);
}

/// Skips where new members drop no pairs, and else leaves all as they are.
pub(crate) fn skip_by(
    update: Update,
    leads: &Leads,
    reach: &Reach,
    waits: &mut Table,
    due: &mut Table,
    queue: &mut Queue,
    skipped: &mut Vec<(u64, u64)>,
)
    requires reach { update ≡ updates.Plain → IsReach leads.now reach.now }
    requires waits { update ≡ updates.Plain → member_count waits.old ≡ length leads.now.keys }
    requires due { update ≡ updates.Plain → member_count due.old ≡ length leads.now.keys }
    requires real { Each (IsRealPair leads.now) queue.old.items }
    requires sorted { IsSorted (setting_of_leads leads.now.variables leads.now) (sums_shown leads.now) (pairs_of queue.old.items) }
    requires skipped { (skipped.old.items ≡ []) × (length queue.old.items ≤ vec_capacity skipped.old) }
    requires known { update ≡ updates.Plain → Each (IsKnown leads.now (flag waits.old) (flag due.old)) (pairs_of queue.old.items) }
    ensures waits_size { update ≡ updates.Plain → member_count waits.new ≡ member_count waits.old }
    ensures due_size { update ≡ updates.Plain → member_count due.new ≡ member_count due.old }
    ensures few { length queue.new.items ≤ length queue.old.items }
    ensures real { Each (IsRealPair leads.now) queue.new.items }
    ensures skips { update ≡ updates.Plain → (out : List (PlainPair × ℕ)) → IsFlagTable (flag waits.old) (pairs_of queue.old.items) out
        → AreSkipped leads.now out (pairs_of queue.old.items) skipped.new.items (pairs_of queue.new.items) (flag waits.new) }
    ensures none { update ≡ updates.Plain → NoneIsSpared leads.now (flag waits.new) (pairs_of queue.new.items) }
    ensures known { update ≡ updates.Plain → Each (IsKnown leads.now (flag waits.new) (flag due.new)) (pairs_of queue.new.items) }
    ensures nothing { update ≡ updates.Gebauer → (skipped.new.items ≡ []) × (queue.new.items ≡ queue.old.items) }
{
    match update {
        Update::Plain => skip(leads, reach, waits, due, queue, skipped),
        Update::Gebauer => {}
    }
}
