// Tails divided by the list side by side, in threads.
ghost use Rattle.std.specs.Prelude.{◌≡◌, ◌<◌, [], IfErr, IfOk, get_or, length, map};
ghost use Rattle.std.specs.declared.result.Result.TheVariants.{Ok};
ghost use Rattle.formal_sums.specs.FormalSums.{Each};
ghost use Rattle.term_lists.specs.Rings.{variables};
ghost use Rattle.term_lists.specs.Vectors.{AreVectorsOver};
ghost use Rattle.vector_division.specs.Divisors.{AreDivisors, AreFreeKeys};
ghost use Rattle.interreduce.specs.Leads.{HaveLeads};
ghost use Rattle.interreduce.specs.Members.{AreReducedMembers, HaveReducedTails, IsFirstRefusal, ReducesMember, ReducesTail, StopsAtFirst};

use crate::member::{member_reduced_by, reduced_member};
use module_vectors::{Frame, Vect, VectList, Vectors, WorkStop};
use rayon::prelude::*;
use std::alloc::Global;
use std::thread::Threads;
use vector_division::{Divisor, FreeKeys};

// So many terms make up for the threads that divide their tails.
const WORTH_THREADS: usize = 2_048;

/// Have the members with these indices so many terms?
pub(crate) fn is_worth_threads<L: Vectors>(list: &L, indices: &[usize]) -> bool
    requires { Each (λ i. i < length (L.listed list.now)) indices.now }
{
    let mut terms: usize = 0;
    for index in indices {
        terms = terms.saturating_add(list.at(*index).terms().len());
    }
    terms >= WORTH_THREADS
}

// All the vectors, or the first refusal in their order.
fn all_or_first_refusal(
    alloc: Global,
    answers: Vec<Result<Vect, WorkStop>>,
) -> Result<Vec<Vect>, WorkStop>
    ensures all { IfOk result (λ members. answers.items ≡ map Ok members.items) }
    ensures stop { IfErr result (IsFirstRefusal answers.items) }
{
    let mut members = Vec::with_capacity(alloc, answers.len())?;
    for answer in answers {
        match answer {
            Ok(member) => members.push_reserved(member),
            Err(stop) => return Err(stop),
        }
    }
    Ok(members)
}

/// The members with these indices, each with its tail reduced, in the same order: by several threads.
pub(crate) fn reduced_side_by_side<R: Threads + Sync, F: Frame + Sync, L: Vectors + Sync>(
    rt: &R,
    alloc: Global,
    frame: &F,
    list: &L,
    divisors: &[Divisor],
    indices: &[usize],
) -> Result<Vec<Vect>, WorkStop>
    requires divisors { AreDivisors (variables (F.over frame.now)) (L.listed list.now) divisors.now }
    requires indices { Each (λ i. i < length (L.listed list.now)) indices.now }
    requires vectors { AreVectorsOver (F.over frame.now) (F.compare frame.now) (L.listed list.now) }
    requires leads { HaveLeads (L.listed list.now) indices.now }
    ensures reduced { IfOk result (λ members. AreReducedMembers (F.over frame.now) (F.compare frame.now) (L.listed list.now) indices.now members.items) }
    ensures stop { IfErr result (StopsAtFirst (F.over frame.now) (F.compare frame.now) (L.listed list.now) indices.now) }
{
    let answers = indices
        .par_iter()
        .with_min_len(1)
        .map(
            |index: &usize| -> Result<Vect, WorkStop>
                requires divisors { AreDivisors (variables (F.over frame.now)) (L.listed list.now) divisors.now }
                requires index { index.now < length (L.listed list.now) }
                requires vectors { AreVectorsOver (F.over frame.now) (F.compare frame.now) (L.listed list.now) }
                requires some { 0 < length (get_or (L.listed list.now) index.now []) }
                ensures { ReducesMember (F.over frame.entry.now) (F.compare frame.entry.now) (L.listed list.entry.now) index.now result }
            { reduced_member(alloc, frame, list, divisors, *index) },
        )
        .collect::<Vec<Result<Vect, WorkStop>>>(rt, alloc)?;
    all_or_first_refusal(alloc, answers)
}

/// The members with these indices, each with its tail divided by these vectors, in the same order: by several threads where there
/// is work for them.
pub(crate) fn reduced_by_known<R: Threads + Sync, F: Frame + Sync, L: Vectors + Sync>(
    rt: &R,
    alloc: Global,
    frame: &F,
    list: &L,
    known: &VectList,
    divisors: &[Divisor],
    free: &FreeKeys,
    indices: &[usize],
) -> Result<Vec<Vect>, WorkStop>
    requires divisors { AreDivisors (variables (F.over frame.now)) known.now divisors.now }
    requires free { AreFreeKeys (variables (F.over frame.now)) known.now free.now }
    requires indices { Each (λ i. i < length (L.listed list.now)) indices.now }
    requires vectors { AreVectorsOver (F.over frame.now) (F.compare frame.now) (L.listed list.now) }
    requires known { AreVectorsOver (F.over frame.now) (F.compare frame.now) known.now }
    requires leads { HaveLeads (L.listed list.now) indices.now }
    ensures { IfOk result (λ members. HaveReducedTails (F.over frame.now) (F.compare frame.now) (L.listed list.now) known.now indices.now members.items) }
{
    let least = if is_worth_threads(list, indices) {
        1
    } else {
        indices.len()
    };
    let answers = indices
        .par_iter()
        .with_min_len(least)
        .map(
            |index: &usize| -> Result<Vect, WorkStop>
                requires divisors { AreDivisors (variables (F.over frame.now)) known.now divisors.now }
                requires free { AreFreeKeys (variables (F.over frame.now)) known.now free.now }
                requires index { index.now < length (L.listed list.now) }
                requires vectors { AreVectorsOver (F.over frame.now) (F.compare frame.now) (L.listed list.now) }
                requires known { AreVectorsOver (F.over frame.now) (F.compare frame.now) known.now }
                requires some { 0 < length (get_or (L.listed list.now) index.now []) }
                ensures { ReducesTail (F.over frame.entry.now) (F.compare frame.entry.now) (L.listed list.entry.now) known.entry.now index.now result }
            { member_reduced_by(alloc, frame, list, known, divisors, free, *index) },
        )
        .collect::<Vec<Result<Vect, WorkStop>>>(rt, alloc)?;
    all_or_first_refusal(alloc, answers)
}
