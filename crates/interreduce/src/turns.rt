// Tails divided one after another.
ghost use Rattle.std.specs.Prelude.{◌<◌, IfErr, IfOk, length};
ghost use Rattle.formal_sums.specs.FormalSums.{Each};
ghost use Rattle.term_lists.specs.Rings.{variables};
ghost use Rattle.term_lists.specs.Vectors.{AreVectorsOver};
ghost use Rattle.vector_division.specs.Divisors.{AreDivisors};
ghost use Rattle.interreduce.specs.Leads.{HaveLeads};
ghost use Rattle.interreduce.specs.Members.{AreReducedMembers, StopsAtFirst};

use crate::member::reduced_member;
use module_vectors::{Frame, Vect, Vectors, WorkStop};
use std::alloc::Global;
use vector_division::Divisor;

/// The members with these indices, each with its tail divided by the list, in the same order.
pub(crate) fn reduced_in_turn<F: Frame, L: Vectors>(
    alloc: Global,
    frame: &F,
    list: &L,
    divisors: &[Divisor],
    indices: &[usize],
) -> Result<Vec<Vect>, WorkStop>
    requires divisors { AreDivisors (variables (F.over frame.now)) (L.listed list.now) divisors.now }
    requires indices { Each (λ i. i < length (L.listed list.now)) indices.now }
    requires vectors { AreVectorsOver (F.over frame.now) (F.compare frame.now) (L.listed list.now) }
    requires leads { HaveLeads (L.listed list.now) indices.now }
    ensures reduced { IfOk result (λ members. AreReducedMembers (F.over frame.now) (F.compare frame.now) (L.listed list.now) indices.now members.items) }
    ensures stop { IfErr result (StopsAtFirst (F.over frame.now) (F.compare frame.now) (L.listed list.now) indices.now) }
{
    let mut members = Vec::with_capacity(alloc, indices.len())?;
    for index in indices {
        match reduced_member(alloc, frame, list, divisors, *index) {
            Ok(member) => members.push_reserved(member),
            Err(stop) => return Err(stop),
        }
    }
    Ok(members)
}
