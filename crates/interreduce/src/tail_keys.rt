// The keys of tails that no lead divides.
ghost use Rattle.std.specs.Prelude.{◌<◌, IfOk, OnOk, length};
ghost use Rattle.term_lists.specs.Rings.{variables};
ghost use Rattle.term_lists.specs.Vectors.{AreVectorsOver};
ghost use Rattle.vector_division.specs.Divisors.{AreDivisors, AreFreeKeys};
ghost use Rattle.interreduce.specs.Leads.{AreNeeded};

use crate::side_by_side::is_worth_threads;
use module_vectors::{Frame, NoMemory, Vectors};
use std::alloc::Global;
use vector_division::{Divisor, FreeKeys, divisors_at};

// Puts the keys of the member's tail that no lead of the list divides behind the others.
fn put_tail<F: Frame, L: Vectors>(
    alloc: Global,
    frame: &F,
    list: &L,
    divisors: &[Divisor],
    index: usize,
    free: &mut FreeKeys,
) -> Result<(), NoMemory>
    requires index { index < length (L.listed list.now) }
    requires vectors { AreVectorsOver (F.over frame.now) (F.compare frame.now) (L.listed list.now) }
    requires divisors { AreDivisors (variables (F.over frame.now)) (L.listed list.now) divisors.now }
    requires free { AreFreeKeys (variables (F.over frame.now)) (L.listed list.now) free.old }
    ensures { OnOk result (AreFreeKeys (variables (F.over frame.now)) (L.listed list.now) free.new) }
{
    match list.at(index).terms().split_first() {
        None => Ok(()),
        Some((_, tail)) => free.put_free(alloc, frame, tail, list, divisors),
    }
}

/// The keys of the needed members' tails that no lead of the list divides: each is asked once, where many terms share few keys, and
/// is free of the leads of all that a tail is divided by, since these are leads of the list. None where there are few terms.
pub(crate) fn free_keys<F: Frame, L: Vectors>(
    alloc: Global,
    frame: &F,
    list: &L,
    kept: &[usize],
) -> Result<FreeKeys, NoMemory>
    requires vectors { AreVectorsOver (F.over frame.now) (F.compare frame.now) (L.listed list.now) }
    requires needed { let n = variables (F.over frame.now) in AreNeeded n (F.compare frame.now n) (L.listed list.now) kept.now }
    ensures { IfOk result (AreFreeKeys (variables (F.over frame.now)) (L.listed list.now)) }
{
    let mut free = FreeKeys::new(alloc);
    if !is_worth_threads(list, kept) {
        return Ok(free);
    }
    let divisors = divisors_at(alloc, list, kept)?;
    for index in kept {
        match put_tail(alloc, frame, list, &divisors, *index, &mut free) {
            Ok(()) => {}
            Err(NoMemory) => return Err(NoMemory),
        }
    }
    Ok(free)
}
