// A colon that is the ideal itself, by leads without a variable in common.
ghost use Rattle.std.specs.Prelude.{◌≡◌, ◌<◌, ℕ, IfOk, IfSome, IsTrue, [], get_or, length};
ghost use Rattle.std.specs.Thread.{IsSync};
ghost use Rattle.monomials.specs.Exponents.{exponents_of, lcm, times};
ghost use Rattle.formal_sums.specs.FormalSums.{Each, IsOfRank, product};
ghost use Rattle.formal_sums.specs.Combinations.{IsMember};
ghost use Rattle.bases.specs.Leads.{head_key};
ghost use Rattle.term_lists.specs.Rings.{ring_comparison, variables};
ghost use Rattle.term_lists.specs.Vectors.{AreVectorsOver, HasPositions, IsVectorOver, sum_of, sums_of};
ghost use Rattle.syzygy_engine.specs.Answers.{IsBasisOfThose};
ghost use Rattle.ideal_ops.specs.CoprimeLeads.{HasCoprimeLead};

use groebner_iface::Groebner;
use module_vectors::{Key, NoMemory, Ring, Vect, VectList, lawful_setting};
use std::alloc::Global;
use std::sync::Wait;
use std::thread::Threads;

// Has the vector's lead no variable in common with the key? Zero has no lead.
fn is_coprime(_ring: &Ring, v: &Vect, key: &Key) -> bool
    requires vector { IsVectorOver _ring.now (ring_comparison _ring.now) v.now }
    requires variables { length key.now.monomial.exponents ≡ variables _ring.now }
    ensures { let n = variables _ring.now in let m = exponents_of n key.now.monomial.exponents in
        IsTrue result → times (head_key (sum_of n v.now)).1 m ≡ lcm (head_key (sum_of n v.now)).1 m }
{
    match v.lead() {
        Some(lead) => lead.key.monomial.coprime(&key.monomial),
        None => true,
    }
}

/// Is the vector not 0, and has its lead no variable in common with that of any vector of the list?
pub(crate) fn has_coprime_lead(ring: &Ring, list: &VectList, b: &Vect) -> bool
    requires list { AreVectorsOver ring.now (ring_comparison ring.now) list.now }
    requires vector { IsVectorOver ring.now (ring_comparison ring.now) b.now }
    ensures { let n = variables ring.now in IsTrue result → HasCoprimeLead (sum_of n b.now) (sums_of n list.now) }
{
    let Some(lead) = b.lead() else {
        return false;
    };
    for v in list.as_slice() {
        if !is_coprime(ring, v, lead.key) {
            return false;
        }
    }
    true
}

/// Is such a vector in `by`?
pub(crate) fn coprime_one(ring: &Ring, list: &VectList, by: &VectList) -> bool
    requires list { AreVectorsOver ring.now (ring_comparison ring.now) list.now }
    requires by { AreVectorsOver ring.now (ring_comparison ring.now) by.now }
    ensures { let n = variables ring.now in IsTrue result
        → (i : ℕ) × (i < length by.now) × HasCoprimeLead (sum_of n (get_or by.now i [])) (sums_of n list.now) }
{
    for b in by.as_slice() {
        if has_coprime_lead(ring, list, b) {
            return true;
        }
    }
    false
}

/// The reduced basis of an ideal, where some polynomial of `by`, of two or more, has a lead without a variable in common
/// with each lead of this: then it is the colon too, since such a polynomial is a nonzerodivisor modulo the ideal (Eisenbud,
/// Commutative Algebra, section 15.7). For if v is in normal form modulo the basis, not 0, and v b in the ideal, some lead of
/// the basis divides the product of the leads of v and b, and so that of v. The leads of the list say whether an attempt at
/// the basis is worth its time. None where there is no such polynomial, or the attempt has no answer.
pub(crate) fn colon_by_coprime<R: Threads + Wait + Sync, B: Groebner>(
    rt: &R,
    alloc: Global,
    engine: &B,
    ring: &Ring,
    rank: u128,
    list: &VectList,
    by: &VectList,
) -> Result<Option<VectList>, NoMemory>
    requires sync { IsSync R.row }
    requires vectors { AreVectorsOver ring.now (ring_comparison ring.now) list.now }
    requires positions { Each (HasPositions rank) list.now }
    requires by { AreVectorsOver ring.now (ring_comparison ring.now) by.now }
    requires by_positions { Each (HasPositions rank) by.now }
    ensures { let n = variables ring.now in let p = ring.now.modulus.value in IfOk result (λ found. IfSome found
        (IsBasisOfThose ring.now 1 (λ v. IsOfRank p 1 v × Each (λ c. IsMember p (sums_of n list.now) (product v c)) (sums_of n by.now)))) }
{
    lawful_setting(ring);
    if rank != 1 || by.len() < 2 || !coprime_one(ring, list, by) {
        return Ok(None);
    }
    let Some(basis) = engine.attempted(rt, alloc, ring, 1, list)? else {
        return Ok(None);
    };
    if !coprime_one(ring, &basis, by) {
        return Ok(None);
    }
    Ok(Some(basis))
}
