// The terms of a vector that leads of the columns divide. In a member of the columns' module all others cancel.
ghost use Rattle.std.specs.Prelude.{[], IfOk, OnOk};
ghost use Rattle.term_lists.specs.Rings.{variables};
ghost use Rattle.term_lists.specs.Vectors.{AreVectorsOver, IsMonomialOver, IsVectorOver};
ghost use Rattle.vector_division.specs.Progress.{AreWeighed};
ghost use Rattle.induced_leads.specs.Sifting.{IsSifting, IsTermSifted};
ghost use Rattle.induced_leads.specs.Spans.{IsIndexOf};

use crate::divisors::{LeadIndex, last_divisor};
use module_vectors::{Frame, Key, NoMemory, Ring, Vect, VectList, lawful_setting};
use std::alloc::Global;
use std::collections::VecDeque;

// Puts the term behind the others, unless no lead of the columns divides it.
fn sift_term(
    alloc: Global,
    ring: &Ring,
    columns: &[Vect],
    index: &LeadIndex,
    term: (Key, u32),
    kept: &mut Vec<(Key, u32)>,
) -> Result<(), NoMemory>
    requires key { IsMonomialOver ring.now term.0.monomial }
    requires columns { AreWeighed (variables ring.now) ring.now.weights columns.now }
    requires index { IsIndexOf columns.now index.now }
    ensures { OnOk result (IsTermSifted (variables ring.now) columns.now term kept.old.items kept.new.items) }
{
    match last_divisor(alloc, ring, columns, index, &term.0)? {
        Some(_) => {
            kept.push(term)?;
            Ok(())
        }
        None => Ok(()),
    }
}

/// The terms of a vector whose keys a lead of the columns divides, in their order. What is dropped has no covered key.
pub fn covered_terms<F: Frame>(
    alloc: Global,
    frame: &F,
    columns: &VectList,
    index: &LeadIndex,
    v: Vect,
) -> Result<Vect, NoMemory>
    requires vectors { AreVectorsOver (F.over frame.now) (F.compare frame.now) columns.now }
    requires index { IsIndexOf columns.now index.now }
    requires vector { IsVectorOver (F.over frame.now) (F.compare frame.now) v }
    ensures { IfOk result (λ kept. IsSifting (F.over frame.now) (F.compare frame.now) columns.now v kept []) }
{
    lawful_setting(frame);
    let ring = frame.ring();
    let mut kept = Vec::new(alloc);
    let mut rest = VecDeque::from_vec(v.into_terms());
    while let Some(term) = rest.pop_front() {
        sift_term(alloc, ring, columns.as_slice(), index, term, &mut kept)?;
    }
    Ok(Vect::from_ordered(frame, kept))
}
