// A table's sums as terms.
ghost use Rattle.std.specs.Prelude.{ℕ, ◌≡◌, ◌<◌, ◌%◌, IfOk, IfSome, IsTrue, length};
ghost use Rattle.std.specs.List.Sorted.{IsPermutation};
ghost use Rattle.formal_sums.specs.FormalSums.{Each, IsSame};
ghost use Rattle.term_lists.specs.Vectors.{AreTermsOver, sum_of};
ghost use Rattle.term_tables.specs.Digits.{digits, packed_sum};
ghost use Rattle.term_tables.specs.Tables.{IsUnpackedTerm, ranked_sum, table_sum};

use crate::packing::base;
use crate::ranks::rank;
use module_vectors::{Key, NoMemory, Ring};
use monomial_orders::{Mono, MonoStop, Weights};
use std::alloc::Global;
use zp_field::Modulus;

/// The residue of a sum.
fn residue_of(modulus: &Modulus, sum: u64) -> u32
    ensures value { result ≡ sum % modulus.now.value }
    ensures small { result < modulus.now.value }
{
    (sum % u64::from(modulus.value())) as u32
}

/// How many sums are not 0.
fn count_nonzero(sums: &[u64]) -> usize {
    sums.iter().filter(|sum| **sum != 0).count()
}

/// The terms of a table: the rank, the number and the residue of each that is not 0.
pub(crate) fn ranked_terms(
    alloc: Global,
    ring: &Ring,
    bases: &[(u16, u16)],
    sums: &[u64],
) -> Result<Vec<(u64, usize, u32)>, NoMemory>
    ensures sum { (n : ℕ) → IfOk result (λ v. IsSame ring.now.modulus.value (ranked_sum n bases.now v.items) (table_sum n bases.now 0 sums.now)) }
    ensures residues { IfOk result (λ v. Each (λ t. t.2 < ring.now.modulus.value) v.items) }
{
    let mut terms = Vec::with_capacity(alloc, count_nonzero(sums))?;
    let mut rest = sums;
    let mut k = 0;
    while let Some((sum, more)) = rest.split_first() {
        let residue = residue_of(&ring.modulus, *sum);
        if residue != 0 {
            terms.push((rank(ring, bases, k), k, residue))?;
        }
        rest = more;
        k += 1;
    }
    Ok(terms)
}

/// How many slots are taken.
pub(crate) fn count_taken(slots: &[(usize, u64)]) -> usize {
    slots.iter().filter(|slot| slot.1 != 0).count()
}

/// The terms of slots: the rank, the number and the residue of each that is not 0.
pub(crate) fn ranked_slots(
    alloc: Global,
    ring: &Ring,
    bases: &[(u16, u16)],
    slots: &[(usize, u64)],
) -> Result<Vec<(u64, usize, u32)>, NoMemory>
    ensures sum { (n : ℕ) → IfOk result (λ v. IsSame ring.now.modulus.value (ranked_sum n bases.now v.items) (packed_sum n bases.now slots.now)) }
    ensures residues { IfOk result (λ v. Each (λ t. t.2 < ring.now.modulus.value) v.items) }
{
    let mut terms = Vec::with_capacity(alloc, count_taken(slots))?;
    let mut rest = slots;
    while let Some((slot, more)) = rest.split_first() {
        let residue = residue_of(&ring.modulus, slot.1);
        if residue != 0 {
            terms.push((rank(ring, bases, slot.0), slot.0, residue))?;
        }
        rest = more;
    }
    Ok(terms)
}

/// The same terms by ascending ranks.
pub(crate) fn sorted_terms(terms: Vec<(u64, usize, u32)>) -> Vec<(u64, usize, u32)>
    ensures { IsPermutation terms.items result.items }
{
    let mut sorted = terms;
    sorted.sort_unstable_by_key(|term| term.0);
    sorted
}

/// Makes the list the digits of a number; `false` where one has no room.
fn put_digits(bases: &[(u16, u16)], key: usize, exponents: &mut Vec<u16>) -> Result<bool, NoMemory>
    ensures { IfOk result (λ put. IsTrue put → exponents.new.items ≡ digits bases.now key) }
{
    exponents.clear();
    let mut rest = bases;
    let mut left = key;
    while let Some((b, more)) = rest.split_first() {
        let size = base(b.0, b.1);
        let Ok(digit) = u16::try_from(left % size) else {
            return Ok(false);
        };
        exponents.push(digit)?;
        left /= size;
        rest = more;
    }
    Ok(true)
}

/// A ranked term as a term, by a list for its exponents; `None` where its degree is above 65,535.
fn unpacked_term(
    alloc: Global,
    weights: &Weights,
    bases: &[(u16, u16)],
    exponents: &mut Vec<u16>,
    term: &(u64, usize, u32),
) -> Result<Option<(Key, u32)>, NoMemory>
    requires { length bases.now ≡ length weights.now }
    ensures { IfOk result (λ o. IfSome o (IsUnpackedTerm weights.now bases.now term.now)) }
{
    if !put_digits(bases, term.1, exponents)? {
        return Ok(None);
    }
    match Mono::from_exponents(alloc, weights, exponents) {
        Ok(monomial) => Ok(Some((
            Key {
                position: 0,
                monomial,
            },
            term.2,
        ))),
        Err(MonoStop::Memory) => Err(NoMemory),
        Err(MonoStop::Degree) => Ok(None),
    }
}

/// The ranked terms as terms, in their order; `None` where a degree is above 65,535.
pub(crate) fn unpacked_terms(
    alloc: Global,
    ring: &Ring,
    bases: &[(u16, u16)],
    terms: &[(u64, usize, u32)],
) -> Result<Option<Vec<(Key, u32)>>, NoMemory>
    requires bases { length bases.now ≡ length ring.now.weights }
    requires residues { Each (λ t. t.2 < ring.now.modulus.value) terms.now }
    ensures over { IfOk result (λ o. IfSome o (λ v. AreTermsOver ring.now v.items)) }
    ensures sum { (n : ℕ) → IfOk result (λ o. IfSome o (λ v. sum_of n v.items ≡ ranked_sum n bases.now terms.now)) }
{
    let mut unpacked = Vec::with_capacity(alloc, terms.len())?;
    let mut exponents = Vec::with_capacity(alloc, bases.len())?;
    for term in terms {
        let Some(t) = unpacked_term(alloc, &ring.weights, bases, &mut exponents, term)? else {
            return Ok(None);
        };
        unpacked.push(t)?;
    }
    Ok(Some(unpacked))
}
