// One member with its tail reduced.
ghost use Rattle.std.specs.Prelude.{◌≡◌, ◌<◌, ◌++◌, [], IfErr, IfOk, drop, get_or, length, take};
ghost use Rattle.std.specs.declared.cmp.Ordering.TheVariants.{Greater};
ghost use Rattle.formal_sums.specs.FormalSums.{Each};
ghost use Rattle.bases.specs.Leads.{head_key};
ghost use Rattle.term_lists.specs.Rings.{variables};
ghost use Rattle.term_lists.specs.Vectors.{AreVectorsOver, IsVectorOver, sum_of};
ghost use Rattle.vector_division.specs.Divisions.{DivisionStops, IsDivisionTrail};
ghost use Rattle.vector_division.specs.Divisors.{AreDivisors, AreFreeKeys};
ghost use Rattle.interreduce.specs.Members.{HasDivision, HasReducedTail, IsDividedMember, ReducesTail};
ghost use Rattle.interreduce.specs.Trails.{MemberStops};

use module_vectors::{
    Frame, KeptTrail, NoMemory, Vect, VectList, Vectors, WorkStop, lawful_setting,
};
use std::alloc::Global;
use vector_division::{Divisor, FreeKeys, reduce_knowing};

// The vector without its greatest term.
fn tail_of<F: Frame>(alloc: Global, frame: &F, v: &Vect) -> Result<Vect, NoMemory>
    requires some { 0 < length v.now }
    requires vector { IsVectorOver (F.over frame.now) (F.compare frame.now) v.now }
    ensures { IfOk result (λ tail. tail ≡ drop 1 v.now) }
{
    let mut terms = v.try_copy(alloc)?.into_terms();
    drop(terms.remove(0));
    Ok(Vect::from_ordered(frame, terms))
}

// The greatest term of `v`, and behind it `rest`, which is below it.
fn with_lead_of<F: Frame>(alloc: Global, frame: &F, v: &Vect, rest: Vect) -> Result<Vect, NoMemory>
    requires some { 0 < length v.now }
    requires vector { IsVectorOver (F.over frame.now) (F.compare frame.now) v.now }
    requires rest { IsVectorOver (F.over frame.now) (F.compare frame.now) rest }
    requires below { let n = variables (F.over frame.now) in Each (λ t. F.compare frame.now n (head_key (sum_of n v.now)) t.0 ≡ Greater) (sum_of n rest) }
    ensures vector { IfOk result (IsVectorOver (F.over frame.now) (F.compare frame.now)) }
    ensures terms { IfOk result (λ whole. whole ≡ take 1 v.now ++ rest) }
{
    let lead = &v.terms()[0];
    let mut terms = rest.into_terms();
    terms.insert(0, (lead.0.try_copy(alloc)?, lead.1))?;
    Ok(Vect::from_ordered(frame, terms))
}

// A trail of the division of the member's tail, as one of the division of the member.
fn trail_of_member(
    alloc: Global,
    member: &Vect,
    mut trail: KeptTrail,
) -> Result<KeptTrail, NoMemory>
    requires { IsDivisionTrail trail.ring (drop 1 member.now) trail.members trail }
    ensures { IfOk result (IsDivisionTrail trail.ring member.now trail.members) }
{
    trail.vector = member.try_copy(alloc)?;
    Ok(trail)
}

/// The member, which is not zero, monic and with its tail divided by the vectors of the list, of which these divisors are
/// tried, where these keys are known to be free of leads. What the division leaves stands below the lead.
///
/// `Degree` comes with a trail of the division of the member by the list, `Memory` where a growth was refused.
pub(crate) fn reduced_by<F: Frame, L: Vectors>(
    alloc: Global,
    frame: &F,
    member: &Vect,
    list: &L,
    divisors: &[Divisor],
    free: &FreeKeys,
) -> Result<Vect, WorkStop>
    requires some { 0 < length member.now }
    requires member { IsVectorOver (F.over frame.now) (F.compare frame.now) member.now }
    requires list { AreVectorsOver (F.over frame.now) (F.compare frame.now) (L.listed list.now) }
    requires divisors { AreDivisors (variables (F.over frame.now)) (L.listed list.now) divisors.now }
    requires free { AreFreeKeys (variables (F.over frame.now)) (L.listed list.now) free.now }
    ensures reduced { IfOk result (HasReducedTail (F.over frame.now) (F.compare frame.now) (L.listed list.now) member.now) }
    ensures divided { IfOk result (λ _. HasDivision (F.over frame.now) (L.listed list.now) (drop 1 member.now)) }
    ensures stop { IfErr result (DivisionStops (F.over frame.now) member.now (L.listed list.now)) }
{
    lawful_setting(frame);
    let tail = tail_of(alloc, frame, member)?;
    match reduce_knowing(alloc, frame, &tail, list, divisors, free) {
        Ok(reduction) => {
            let mut reduced = with_lead_of(alloc, frame, member, reduction.rest)?;
            reduced.monic(frame);
            Ok(reduced)
        }
        Err(WorkStop::Memory) => Err(WorkStop::Memory),
        Err(WorkStop::Degree(trail)) => {
            let trail = trail_of_member(alloc, member, trail)?;
            Err(WorkStop::Degree(trail))
        }
    }
}

/// Member `index`, monic and with its tail divided by the whole list, of which these divisors are tried.
///
/// `Degree` comes with a trail of the division of the member by the list, `Memory` where a growth was refused.
pub(crate) fn reduced_member<F: Frame, L: Vectors>(
    alloc: Global,
    frame: &F,
    list: &L,
    divisors: &[Divisor],
    index: usize,
) -> Result<Vect, WorkStop>
    requires divisors { AreDivisors (variables (F.over frame.now)) (L.listed list.now) divisors.now }
    requires index { index < length (L.listed list.now) }
    requires vectors { AreVectorsOver (F.over frame.now) (F.compare frame.now) (L.listed list.now) }
    requires some { 0 < length (get_or (L.listed list.now) index []) }
    ensures reduced { IfOk result (IsDividedMember (F.over frame.now) (F.compare frame.now) (L.listed list.now) index) }
    ensures stop { IfErr result (MemberStops (F.over frame.now) (L.listed list.now) index) }
{
    lawful_setting(frame);
    match reduced_by(
        alloc,
        frame,
        list.at(index),
        list,
        divisors,
        &FreeKeys::new(alloc),
    ) {
        Ok(reduced) => Ok(reduced),
        Err(WorkStop::Memory) => Err(WorkStop::Memory),
        Err(WorkStop::Degree(trail)) => Err(WorkStop::Degree(trail)),
    }
}

/// Member `index`, monic and with its tail divided by these vectors, of which these divisors are tried. It stops as `reduced_by`
/// does.
pub(crate) fn member_reduced_by<F: Frame, L: Vectors>(
    alloc: Global,
    frame: &F,
    list: &L,
    known: &VectList,
    divisors: &[Divisor],
    free: &FreeKeys,
    index: usize,
) -> Result<Vect, WorkStop>
    requires divisors { AreDivisors (variables (F.over frame.now)) known.now divisors.now }
    requires free { AreFreeKeys (variables (F.over frame.now)) known.now free.now }
    requires index { index < length (L.listed list.now) }
    requires vectors { AreVectorsOver (F.over frame.now) (F.compare frame.now) (L.listed list.now) }
    requires known { AreVectorsOver (F.over frame.now) (F.compare frame.now) known.now }
    requires some { 0 < length (get_or (L.listed list.now) index []) }
    ensures { ReducesTail (F.over frame.now) (F.compare frame.now) (L.listed list.now) known.now index result }
{
    match reduced_by(alloc, frame, list.at(index), known, divisors, free) {
        Ok(reduced) => Ok(reduced),
        Err(stop) => Err(stop),
    }
}
