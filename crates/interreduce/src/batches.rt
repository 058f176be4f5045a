// Tails divided by the members that were reduced before them.
ghost use Rattle.std.specs.Prelude.{◌≡◌, ◌<◌, ◌≤◌, ◌+◌, ◌-◌, ◌++◌, ◌∷◌, ℕ, [], IfOk, OnOk, get_or, length, map, take};
ghost use Rattle.formal_sums.specs.FormalSums.{Each};
ghost use Rattle.term_lists.specs.Rings.{variables};
ghost use Rattle.term_lists.specs.Vectors.{AreVectorsOver};
ghost use Rattle.vector_division.specs.Divisors.{AreDivisors, AreFreeKeys};
ghost use Rattle.interreduce.specs.Leads.{AreNeeded, HaveLeads, HaveLeadsOf};
ghost use Rattle.interreduce.specs.Members.{AreBatchOf, AreReducedMembers, HaveReducedTails};

use crate::leads::lead_degree;
use crate::side_by_side::{is_worth_threads, reduced_by_known};
use crate::tail_keys::free_keys;
use module_vectors::{Frame, NoMemory, Vect, VectList, Vectors, WorkStop, lawful_setting};
use std::alloc::Global;
use std::thread::Threads;
use vector_division::{Divisor, FreeKeys, divisors_from_last, insert_divisor};

// Appends the members with these indices, as they are.
fn push_members<L: Vectors>(
    alloc: Global,
    list: &L,
    indices: &[usize],
    vectors: &mut Vec<Vect>,
) -> Result<(), NoMemory>
    requires { Each (λ i. i < length (L.listed list.now)) indices.now }
    ensures { OnOk result (vectors.new.items ≡ vectors.old.items ++ map (λ i. get_or (L.listed list.now) i []) indices.now) }
{
    for index in indices {
        vectors.push(list.at(*index).try_copy(alloc)?)?;
    }
    Ok(())
}

// The end of the members from here on whose leads have one degree.
fn degree_end<L: Vectors>(list: &L, kept: &[usize], start: usize) -> usize
    requires { start < length kept.now }
    ensures { (start < result) × (result ≤ length kept.now) }
{
    let degree = lead_degree(list, kept[start]);
    for end in start + 1..kept.len() {
        if lead_degree(list, kept[end]) != degree {
            return end;
        }
    }
    kept.len()
}

// The end of the members from here on whose tails are divided together: those of one degree, where there is work for threads, or
// one alone.
fn batch_end<L: Vectors>(list: &L, kept: &[usize], start: usize) -> usize
    requires start { start < length kept.now }
    requires within { Each (λ i. i < length (L.listed list.now)) kept.now }
    ensures { (start < result) × (result ≤ length kept.now) }
{
    let end = degree_end(list, kept, start);
    if is_worth_threads(list, &kept[start..end]) {
        end
    } else {
        start + 1
    }
}

// A vector more behind the known ones, with its divisor at this place.
fn push_known(
    known: &mut VectList,
    divisors: &mut Vec<Divisor>,
    place: usize,
    v: Vect,
) -> Result<(), NoMemory>
    requires place { place ≤ length divisors.old.items }
    requires divisors { (n : ℕ) → AreDivisors n known.old divisors.old.items }
    ensures known { OnOk result (known.new ≡ known.old ++ v ∷ []) }
    ensures divisors { OnOk result ((n : ℕ) → AreDivisors n known.new divisors.new.items) }
    ensures place { OnOk result (place ≤ length divisors.new.items) }
{
    known.push(v)?;
    insert_divisor(known, divisors, place)?;
    Ok(())
}

// These vectors behind the known ones, each with its divisor at this place.
fn push_all(
    vectors: Vec<Vect>,
    known: &mut VectList,
    divisors: &mut Vec<Divisor>,
    place: usize,
) -> Result<(), NoMemory>
    requires place { place ≤ length divisors.old.items }
    requires divisors { (n : ℕ) → AreDivisors n known.old divisors.old.items }
    ensures known { OnOk result (known.new ≡ known.old ++ vectors.items) }
    ensures divisors { OnOk result ((n : ℕ) → AreDivisors n known.new divisors.new.items) }
    ensures place { OnOk result (place ≤ length divisors.new.items) }
{
    for v in vectors {
        match push_known(known, divisors, place, v) {
            Ok(()) => {}
            Err(NoMemory) => return Err(NoMemory),
        }
    }
    Ok(())
}

// The members of a batch of more than one with their tails reduced, and the known vectors again.
fn tails_together<R: Threads + Sync, F: Frame + Sync, L: Vectors + Sync>(
    rt: &R,
    alloc: Global,
    frame: &F,
    list: &L,
    known: VectList,
    divisors: &[Divisor],
    free: &FreeKeys,
    place: usize,
    batch: &[usize],
) -> Result<(VectList, Vec<Vect>), WorkStop>
    requires some { 0 < length batch.now }
    requires batch { Each (λ i. i < length (L.listed list.now)) batch.now }
    requires vectors { AreVectorsOver (F.over frame.now) (F.compare frame.now) (L.listed list.now) }
    requires leads { HaveLeads (L.listed list.now) batch.now }
    requires known { AreVectorsOver (F.over frame.now) (F.compare frame.now) known }
    requires place { place ≤ length divisors.now }
    requires divisors { (n : ℕ) → AreDivisors n known divisors.now }
    requires free { AreFreeKeys (variables (F.over frame.now)) (L.listed list.now) free.now }
    requires serving { HaveLeadsOf (variables (F.over frame.now)) (L.listed list.now) known }
    ensures known { IfOk result (λ r. r.0 ≡ known) }
    ensures tails { IfOk result (λ r. HaveReducedTails (F.over frame.now) (F.compare frame.now) (L.listed list.now)
        (known ++ map (λ i. get_or (L.listed list.now) i []) (take (length batch.now - 1) batch.now)) batch.now r.1.items) }
{
    let width = known.len();
    let mut copies = Vec::new(alloc);
    push_members(alloc, list, &batch[0..batch.len() - 1], &mut copies)?;
    let mut tried = Vec::new(alloc);
    tried.extend_from_slice(divisors)?;
    let mut together = known;
    push_all(copies, &mut together, &mut tried, place)?;
    let members = reduced_by_known(rt, alloc, frame, list, &together, &tried, free, batch)?;
    let mut whole = together.into_vec();
    whole.truncate(width);
    Ok((VectList::from_vec(whole), members))
}

// The members of a batch with their tails reduced, and the known vectors again. A key is divided by a member that is not needed
// where that is possible, else by a member of the batch as it came, else by a reduced one: of each kind the greatest lead is
// tried first.
fn batch_tails<R: Threads + Sync, F: Frame + Sync, L: Vectors + Sync>(
    rt: &R,
    alloc: Global,
    frame: &F,
    list: &L,
    known: VectList,
    divisors: &[Divisor],
    free: &FreeKeys,
    place: usize,
    batch: &[usize],
) -> Result<(VectList, Vec<Vect>), WorkStop>
    requires some { 0 < length batch.now }
    requires batch { Each (λ i. i < length (L.listed list.now)) batch.now }
    requires vectors { AreVectorsOver (F.over frame.now) (F.compare frame.now) (L.listed list.now) }
    requires leads { HaveLeads (L.listed list.now) batch.now }
    requires known { AreVectorsOver (F.over frame.now) (F.compare frame.now) known }
    requires place { place ≤ length divisors.now }
    requires divisors { (n : ℕ) → AreDivisors n known divisors.now }
    requires free { AreFreeKeys (variables (F.over frame.now)) (L.listed list.now) free.now }
    requires serving { HaveLeadsOf (variables (F.over frame.now)) (L.listed list.now) known }
    ensures known { IfOk result (λ r. r.0 ≡ known) }
    ensures tails { IfOk result (λ r. HaveReducedTails (F.over frame.now) (F.compare frame.now) (L.listed list.now)
        (known ++ map (λ i. get_or (L.listed list.now) i []) (take (length batch.now - 1) batch.now)) batch.now r.1.items) }
{
    if batch.len() > 1 {
        return tails_together(rt, alloc, frame, list, known, divisors, free, place, batch);
    }
    let members = reduced_by_known(rt, alloc, frame, list, &known, divisors, free, batch)?;
    Ok((known, members))
}

// The known vectors, and behind them the members of a batch with their tails reduced; their divisors stand at this place.
fn with_batch<R: Threads + Sync, F: Frame + Sync, L: Vectors + Sync>(
    rt: &R,
    alloc: Global,
    frame: &F,
    list: &L,
    known: VectList,
    divisors: &mut Vec<Divisor>,
    free: &FreeKeys,
    place: usize,
    batch: &[usize],
) -> Result<VectList, WorkStop>
    requires some { 0 < length batch.now }
    requires batch { Each (λ i. i < length (L.listed list.now)) batch.now }
    requires vectors { AreVectorsOver (F.over frame.now) (F.compare frame.now) (L.listed list.now) }
    requires leads { HaveLeads (L.listed list.now) batch.now }
    requires known { AreVectorsOver (F.over frame.now) (F.compare frame.now) known }
    requires place { place ≤ length divisors.old.items }
    requires divisors { (n : ℕ) → AreDivisors n known divisors.old.items }
    requires free { AreFreeKeys (variables (F.over frame.now)) (L.listed list.now) free.now }
    requires serving { HaveLeadsOf (variables (F.over frame.now)) (L.listed list.now) known }
    ensures known { IfOk result (λ r. AreBatchOf (F.over frame.now) (F.compare frame.now) (L.listed list.now) known batch.now r) }
    ensures divisors { IfOk result (λ r. (n : ℕ) → AreDivisors n r divisors.new.items) }
    ensures place { OnOk result (place ≤ length divisors.new.items) }
{
    let (mut more, members) = batch_tails(
        rt, alloc, frame, list, known, divisors, free, place, batch,
    )?;
    push_all(members, &mut more, divisors, place)?;
    Ok(more)
}

/// The needed members, by ascending leads, each with its tail reduced: each tail is divided by the members reduced before it, those
/// with lower leads: the leads of the others stand above its keys. As the divisors' own tails are reduced, one subtraction mostly
/// does for a key. Members of one degree are reduced together, in threads where there is work for them: then those among them with
/// lower leads serve as they came. So do the members that are not needed: among the members of a homogenised list, with 1 for its
/// last variable, they have tails of low degree.
pub(crate) fn reduced_by_earlier<R: Threads + Sync, F: Frame + Sync, L: Vectors + Sync>(
    rt: &R,
    alloc: Global,
    frame: &F,
    list: &L,
    kept: &[usize],
    others: &[usize],
) -> Result<Vec<Vect>, WorkStop>
    requires vectors { AreVectorsOver (F.over frame.now) (F.compare frame.now) (L.listed list.now) }
    requires needed { let n = variables (F.over frame.now) in AreNeeded n (F.compare frame.now n) (L.listed list.now) kept.now }
    requires others { Each (λ i. i < length (L.listed list.now)) others.now }
    ensures { IfOk result (λ members. AreReducedMembers (F.over frame.now) (F.compare frame.now) (L.listed list.now) kept.now members.items) }
{
    lawful_setting(frame);
    let free = free_keys(alloc, frame, list, kept)?;
    let mut vectors = Vec::new(alloc);
    push_members(alloc, list, others, &mut vectors)?;
    let width = vectors.len();
    let mut known = VectList::from_vec(vectors);
    let mut divisors = divisors_from_last(alloc, &known)?;
    let place = divisors.len();
    let mut start = 0;
    while start < kept.len() {
        let end = batch_end(list, kept, start);
        let batch = &kept[start..end];
        match with_batch(
            rt,
            alloc,
            frame,
            list,
            known,
            &mut divisors,
            &free,
            place,
            batch,
        ) {
            Ok(more) => known = more,
            Err(stop) => return Err(stop),
        }
        start = end;
    }
    let mut whole = known.into_vec();
    Ok(whole.split_off(width)?)
}
