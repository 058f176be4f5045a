// The reduced list.
ghost use Rattle.std.specs.Prelude.{ℕ, ◌<◌, List, IfErr, IfOk, length};
ghost use Rattle.formal_sums.specs.FormalSums.{Each, FormalSum};
ghost use Rattle.bases.specs.Bases.{IsGroebnerBasis, IsReducedBasis};
ghost use Rattle.term_lists.specs.Rings.{setting, variables};
ghost use Rattle.term_lists.specs.Vectors.{AreVectorsOver, HasPositions, sums_of};
ghost use Rattle.interreduce.specs.Trails.{InterreductionStops};
ghost use Rattle.interreduce.specs.Leads.{AreNeeded};
ghost use Rattle.interreduce.specs.Members.{AreReducedMembers, StopsAtFirst, StopsAtLeast};

use crate::batches::reduced_by_earlier;
use crate::leads::needed_members;
use crate::side_by_side::{is_worth_threads, reduced_side_by_side};
use crate::turns::reduced_in_turn;
use module_vectors::{Frame, Vect, VectList, Vectors, WorkStop, lawful_setting};
use std::alloc::Global;
use std::thread::Threads;
use vector_division::divisors_at;

// How many members are left out for each that stays, where they are many.
const MANY: usize = 8;

// The needed members, each with its tail divided by the list itself, in the same order: by several threads where there is work
// for them.
fn reduced_by_list<R: Threads + Sync, F: Frame + Sync, L: Vectors + Sync>(
    rt: &R,
    alloc: Global,
    frame: &F,
    list: &L,
    kept: &[usize],
) -> Result<Vec<Vect>, WorkStop>
    requires vectors { AreVectorsOver (F.over frame.now) (F.compare frame.now) (L.listed list.now) }
    requires needed { let n = variables (F.over frame.now) in AreNeeded n (F.compare frame.now n) (L.listed list.now) kept.now }
    ensures reduced { IfOk result (λ members. AreReducedMembers (F.over frame.now) (F.compare frame.now) (L.listed list.now) kept.now members.items) }
    ensures stop { IfErr result (StopsAtFirst (F.over frame.now) (F.compare frame.now) (L.listed list.now) kept.now) }
{
    let divisors = divisors_at(alloc, list, kept)?;
    if is_worth_threads(list, kept) {
        reduced_side_by_side(rt, alloc, frame, list, &divisors, kept)
    } else {
        reduced_in_turn(alloc, frame, list, &divisors, kept)
    }
}

// The needed members, by ascending leads, each with its tail reduced: by those before it and these others, which is soon done, or by
// the list itself where that would meet a product of too great a degree.
//
// `Degree` comes with a trail of the division by the list of the first member whose tail it can't reduce, `Memory` where a
// growth was refused.
fn reduced_members<R: Threads + Sync, F: Frame + Sync, L: Vectors + Sync>(
    rt: &R,
    alloc: Global,
    frame: &F,
    list: &L,
    kept: &[usize],
    others: &[usize],
) -> Result<Vec<Vect>, WorkStop>
    requires vectors { AreVectorsOver (F.over frame.now) (F.compare frame.now) (L.listed list.now) }
    requires needed { let n = variables (F.over frame.now) in AreNeeded n (F.compare frame.now n) (L.listed list.now) kept.now }
    requires others { Each (λ i. i < length (L.listed list.now)) others.now }
    ensures reduced { IfOk result (λ members. AreReducedMembers (F.over frame.now) (F.compare frame.now) (L.listed list.now) kept.now members.items) }
    ensures stop { IfErr result (StopsAtFirst (F.over frame.now) (F.compare frame.now) (L.listed list.now) kept.now) }
{
    match reduced_by_earlier(rt, alloc, frame, list, kept, others) {
        Ok(members) => Ok(members),
        Err(WorkStop::Memory) => Err(WorkStop::Memory),
        Err(WorkStop::Degree(trail)) => {
            drop(trail);
            reduced_by_list(rt, alloc, frame, list, kept)
        }
    }
}

// The members that serve as divisors beside those that stay: those that are left out where they are many, as where leads have low
// degrees and tails high ones, and division by those that stay goes long ways. Else none, since each is one more lead to look at.
fn serving<'a>(kept: &[usize], others: &'a [usize]) -> &'a [usize]
    ensures { (count : ℕ) → Each (λ i. i < count) others.now → Each (λ i. i < count) result.now }
{
    if others.len() / MANY > kept.len() {
        return others;
    }
    let (none, _) = others.split_at(0);
    none
}

/// The list without zero and without the members whose leads others divide, each other member monic and with its tail
/// reduced by the list, by descending leads: of a Gröbner basis the reduced one (IVA chapter 2, section 7). From the least lead
/// on each tail is divided by the members that were reduced before it, and by those that are left out where they are many; where such
/// a product would have too great a degree, all tails are divided by the list itself. Tails of members of one degree, or all by the list, are divided
/// side by side in threads where there is much work; what comes out does not hang on their number.
///
/// `Degree` comes with a trail of the division of a member by the list, to a product of degree above 65,535: of the members that stay,
/// from the least lead on, it is the first whose tail the list itself can't reduce. `Memory` where a growth was refused.
pub fn interreduce<R: Threads + Sync, F: Frame + Sync, L: Vectors + Sync>(
    rt: &R,
    alloc: Global,
    frame: &F,
    list: &L,
) -> Result<VectList, WorkStop>
    requires vectors { AreVectorsOver (F.over frame.now) (F.compare frame.now) (L.listed list.now) }
    ensures vectors { IfOk result (AreVectorsOver (F.over frame.now) (F.compare frame.now)) }
    ensures reduced { let n = variables (F.over frame.now) in IfOk result (λ answer. (rank : ℕ) (G : List (FormalSum n))
        → IsGroebnerBasis (setting (F.over frame.now) n (F.compare frame.now n) rank) G (sums_of n (L.listed list.now))
        → IsReducedBasis (setting (F.over frame.now) n (F.compare frame.now n) rank) G (sums_of n answer)) }
    ensures positions { IfOk result (λ answer. (rank : ℕ) → Each (HasPositions rank) (L.listed list.now) → Each (HasPositions rank) answer) }
    ensures stop { IfErr result (InterreductionStops (F.over frame.now) (L.listed list.now)) }
    ensures first { IfErr result (StopsAtLeast (F.over frame.now) (F.compare frame.now) (L.listed list.now)) }
{
    lawful_setting(frame);
    let (kept, others) = needed_members(alloc, frame, list)?;
    let mut members = reduced_members(rt, alloc, frame, list, &kept, serving(&kept, &others))?;
    members.reverse();
    Ok(VectList::from_vec(members))
}
