// A row leaves the columns of a map.
ghost use Rattle.std.specs.Prelude.{◌≡◌, ◌<◌, ◌≤◌, ◌++◌, ◌∷◌, ◌-◌, ℕ, [], IfErr, IfOk, OnOk, cond, false, length, nat_lt};
ghost use Rattle.formal_sums.specs.FormalSums.{Each};
ghost use Rattle.minimal_laws.specs.Cancellation.{cleared, without_row};
ghost use Rattle.term_lists.specs.Rings.{ring_comparison, variables};
ghost use Rattle.term_lists.specs.Vectors.{AreTermsOver, IsMonomialOver, IsVectorOver, StandsFor, sum_of};
ghost use Rattle.column_passes.specs.Clearing.{ClearingStops, MakeEntry, lowered_behind, multiple_of};

use crate::placing::lower_position;
use module_vectors::{Key, NoMemory, Ring, Vect, VectStop, lawful_setting};
use std::alloc::Global;

// Adds the multiple of w that a term of row r takes away; other terms take nothing away.
fn clear_term(
    alloc: Global,
    ring: &Ring,
    w: &Vect,
    row: u64,
    inverse: u32,
    term: &(Key, u32),
    out: &mut Vect,
) -> Result<(), VectStop>
    requires inverse { inverse < ring.now.modulus.value }
    requires monomial { IsMonomialOver ring.now term.now.0.monomial }
    requires residue { term.now.1 < ring.now.modulus.value }
    requires column { IsVectorOver ring.now (ring_comparison ring.now) w.now }
    requires vector { IsVectorOver ring.now (ring_comparison ring.now) out.old }
    ensures vector { OnOk result (IsVectorOver ring.now (ring_comparison ring.now) out.new) }
    ensures sum { OnOk result (StandsFor ring.now out.new
        (sum_of (variables ring.now) out.old ++ multiple_of ring.now row inverse w.now (term.now ∷ []))) }
    ensures stop { IfErr result (ClearingStops row w.now (term.now ∷ [])) }
{
    lawful_setting(ring);
    if term.0.position != row {
        return Ok(());
    }
    let factor = ring.modulus.neg(ring.modulus.mul(inverse, term.1));
    out.add_scaled(alloc, ring, factor, &term.0.monomial, w)
}

// The same of at most one term.
fn small_multiple(
    alloc: Global,
    ring: &Ring,
    w: &Vect,
    row: u64,
    inverse: u32,
    terms: &[(Key, u32)],
) -> Result<Vect, VectStop>
    requires few { length terms.now ≤ 1 }
    requires inverse { inverse < ring.now.modulus.value }
    requires column { IsVectorOver ring.now (ring_comparison ring.now) w.now }
    requires terms { AreTermsOver ring.now terms.now }
    ensures vector { IfOk result (IsVectorOver ring.now (ring_comparison ring.now)) }
    ensures sum { IfOk result (λ m. StandsFor ring.now m (multiple_of ring.now row inverse w.now terms.now)) }
    ensures stop { IfErr result (ClearingStops row w.now terms.now) }
{
    lawful_setting(ring);
    let mut out = Vect::zero(alloc);
    for term in terms {
        match clear_term(alloc, ring, w, row, inverse, term, &mut out) {
            Ok(()) => {}
            Err(stop) => return Err(stop),
        }
    }
    Ok(out)
}

// The sum of two vectors; where one is zero, the other as it is.
fn sum_of_two(alloc: Global, ring: &Ring, left: Vect, right: Vect) -> Result<Vect, NoMemory>
    requires left { IsVectorOver ring.now (ring_comparison ring.now) left }
    requires right { IsVectorOver ring.now (ring_comparison ring.now) right }
    ensures vector { IfOk result (IsVectorOver ring.now (ring_comparison ring.now)) }
    ensures sum { let n = variables ring.now in IfOk result (λ s. StandsFor ring.now s (sum_of n left ++ sum_of n right)) }
{
    lawful_setting(ring);
    if right.terms().is_empty() {
        return Ok(left);
    }
    if left.terms().is_empty() {
        return Ok(right);
    }
    let mut sum = left;
    sum.add(alloc, ring, right)?;
    Ok(sum)
}

// The multiple of w that the terms' entry in row r takes away, by halves of the terms: so none of its terms is moved more often than
// they can be halved.
fn multiple(
    alloc: Global,
    ring: &Ring,
    w: &Vect,
    row: u64,
    inverse: u32,
    terms: &[(Key, u32)],
) -> Result<Vect, VectStop>
    requires inverse { inverse < ring.now.modulus.value }
    requires column { IsVectorOver ring.now (ring_comparison ring.now) w.now }
    requires terms { AreTermsOver ring.now terms.now }
    ensures vector { IfOk result (IsVectorOver ring.now (ring_comparison ring.now)) }
    ensures sum { IfOk result (λ m. StandsFor ring.now m (multiple_of ring.now row inverse w.now terms.now)) }
    ensures stop { IfErr result (ClearingStops row w.now terms.now) }
{
    lawful_setting(ring);
    if terms.len() <= 1 {
        return small_multiple(alloc, ring, w, row, inverse, terms);
    }
    let (front, back) = terms.split_at(terms.len() / 2);
    let left = match multiple(alloc, ring, w, row, inverse, front) {
        Ok(left) => left,
        Err(stop) => return Err(stop),
    };
    let right = match multiple(alloc, ring, w, row, inverse, back) {
        Ok(right) => right,
        Err(stop) => return Err(stop),
    };
    Ok(sum_of_two(alloc, ring, left, right)?)
}

// Puts a copy of the term behind the others, where it stands in the row.
fn copy_in_row(
    alloc: Global,
    row: u64,
    term: &(Key, u32),
    entry: &mut Vec<(Key, u32)>,
) -> Result<(), NoMemory>
    ensures here { OnOk result (term.now.0.position ≡ row → entry.new.items ≡ entry.old.items ++ term.now ∷ []) }
    ensures other { OnOk result ((term.now.0.position ≡ row → ⊥) → entry.new.items ≡ entry.old.items) }
{
    if term.0.position != row {
        return Ok(());
    }
    let key = term.0.try_copy(alloc)?;
    entry.push((key, term.1))?;
    Ok(())
}

// Copies of the terms in the row.
fn terms_in_row(
    alloc: Global,
    ring: &Ring,
    row: u64,
    terms: &[(Key, u32)],
) -> Result<Vec<(Key, u32)>, NoMemory>
    requires { AreTermsOver ring.now terms.now }
    ensures { IfOk result (λ entry. MakeEntry ring.now row terms.now entry.items) }
{
    let _ring = ring;
    let mut entry = Vec::new(alloc);
    for term in terms {
        copy_in_row(alloc, row, term, &mut entry)?;
    }
    Ok(entry)
}

/// v less the multiple of the column w by which its entry in the row vanishes; `inverse` is that of the constant of w there.
///
/// `Degree` comes where a monomial of the entry times one of w has a degree above 65,535, and carries the two; `Memory` where
/// there is none.
pub fn cleared_vector(
    alloc: Global,
    ring: &Ring,
    w: &Vect,
    row: u64,
    inverse: u32,
    v: Vect,
) -> Result<Vect, VectStop>
    requires inverse { inverse < ring.now.modulus.value }
    requires column { IsVectorOver ring.now (ring_comparison ring.now) w.now }
    requires vector { IsVectorOver ring.now (ring_comparison ring.now) v }
    ensures vector { IfOk result (IsVectorOver ring.now (ring_comparison ring.now)) }
    ensures sum { let n = variables ring.now in
        IfOk result (λ u. StandsFor ring.now u (cleared ring.now.modulus.value row inverse (sum_of n w.now) (sum_of n v))) }
    ensures stop { IfErr result (ClearingStops row w.now v) }
{
    lawful_setting(ring);
    let entry = terms_in_row(alloc, ring, row, v.terms())?;
    let taken = match multiple(alloc, ring, w, row, inverse, &entry) {
        Ok(taken) => taken,
        Err(stop) => return Err(stop),
    };
    Ok(sum_of_two(alloc, ring, v, taken)?)
}

// Each term at the position that is left to it when the row leaves.
fn lower_terms(row: u64, terms: &mut Vec<(Key, u32)>)
    ensures { terms.new.items ≡ lowered_behind row terms.old.items }
{
    for i in 0..terms.len() {
        let position = lower_position(row, terms[i].0.position);
        terms[i].0.position = position;
    }
}

/// v without its component in the row; the later ones move up. No memory.
pub fn vector_without(ring: &Ring, row: u64, v: Vect) -> Vect
    requires { IsVectorOver ring.now (ring_comparison ring.now) v }
    ensures vector { IsVectorOver ring.now (ring_comparison ring.now) result }
    ensures sum { (n : ℕ) → sum_of n result ≡ without_row row (sum_of n v) }
{
    let mut terms = v.into_terms();
    terms.retain(|term| term.0.position != row);
    lower_terms(row, &mut terms);
    Vect::from_ordered(ring, terms)
}
