// The members of a basis that stand at the marks alone, moved to the front.
ghost use Rattle.std.specs.Prelude.{◌≡◌, ◌++◌, ◌∷◌, ◌≤◌, [], ℕ, List, true, IfOk, OnOk};
ghost use Rattle.formal_sums.specs.FormalSums.{Each, FormalSum};
ghost use Rattle.division_laws.specs.Elimination.{is_from_position};
ghost use Rattle.syzygy_laws.specs.Kernels.{all_kept, kernel_of, lowered};
ghost use Rattle.term_lists.specs.Rings.{ring_comparison, variables};
ghost use Rattle.term_lists.specs.Vectors.{AreTermsOver, AreVectorsOver, IsVectorOver, StandsFor, sum_of, sums_of};
ghost use Rattle.syzygy_engine.specs.Marking.{StandOneByOne, lowered_terms};

use module_vectors::{Key, NoMemory, Ring, Vect, VectList};
use std::alloc::Global;

/// Does each term stand at this position or a later one?
pub(crate) fn is_from(v: &Vect, position: u64) -> bool
    ensures { (n : ℕ) → result ≡ all_kept (is_from_position position) (sum_of n v.now) }
{
    for term in v.terms() {
        if term.0.position < position {
            return false;
        }
    }
    true
}

// Lowers each position, in place.
fn lower_terms(terms: &mut Vec<(Key, u32)>, by: u64)
    requires { Each (λ t. by ≤ t.0.position) terms.old.items }
    ensures { terms.new.items ≡ lowered_terms by terms.old.items }
{
    for i in 0..terms.len() {
        let position = terms[i].0.position - by;
        terms[i].0.position = position;
    }
}

/// The vector, its positions lowered, in the ring's own order. Its terms are moved.
pub(crate) fn lowered_vector(alloc: Global, ring: &Ring, v: Vect, by: u64) -> Result<Vect, NoMemory>
    requires terms { AreTermsOver ring.now v }
    requires from { all_kept (is_from_position by) (sum_of (variables ring.now) v) ≡ true }
    ensures vector { IfOk result (IsVectorOver ring.now (ring_comparison ring.now)) }
    ensures sum { let n = variables ring.now in IfOk result (λ u. StandsFor ring.now u (lowered by (sum_of n v))) }
{
    let mut terms = v.into_terms();
    lower_terms(&mut terms, by);
    Vect::from_terms(alloc, ring, terms)
}

// Puts a member, lowered, behind the others where it stands at this position and later ones alone.
fn take_member(
    alloc: Global,
    ring: &Ring,
    v: Vect,
    position: u64,
    kernel: &mut Vec<Vect>,
) -> Result<(), NoMemory>
    requires { AreTermsOver ring.now v }
    ensures vectors { AreVectorsOver ring.now (ring_comparison ring.now) kernel.old.items
        → OnOk result (AreVectorsOver ring.now (ring_comparison ring.now) kernel.new.items) }
    ensures stand { let n = variables ring.now in (G : List (FormalSum (variables ring.now))) → StandOneByOne ring.now kernel.old.items (kernel_of position G)
        → OnOk result (StandOneByOne ring.now kernel.new.items (kernel_of position (G ++ sum_of n v ∷ []))) }
{
    if !is_from(&v, position) {
        return Ok(());
    }
    kernel.push(lowered_vector(alloc, ring, v, position)?)?;
    Ok(())
}

/// The members of a basis that stand at this position and later ones alone, lowered, in the ring's own order. Their terms
/// are moved.
pub(crate) fn kernel_part(
    alloc: Global,
    ring: &Ring,
    basis: VectList,
    position: u64,
) -> Result<VectList, NoMemory>
    requires { Each (AreTermsOver ring.now) basis }
    ensures vectors { IfOk result (AreVectorsOver ring.now (ring_comparison ring.now)) }
    ensures kernel { let n = variables ring.now in IfOk result (λ kernel. StandOneByOne ring.now kernel (kernel_of position (sums_of n basis))) }
{
    let mut kernel = Vec::new(alloc);
    for v in basis.into_vec() {
        take_member(alloc, ring, v, position, &mut kernel)?;
    }
    Ok(VectList::from_vec(kernel))
}
