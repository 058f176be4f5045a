// Monomials as numbers.
ghost use Rattle.std.specs.Prelude.{ℕ, ◌≡◌, ◌<◌, ◌≤◌, ◌+◌, ◌*◌, IfOk, IfSome, cond};
ghost use Rattle.formal_sums.specs.FormalSums.{Each};
ghost use Rattle.term_lists.specs.Vectors.{sum_of};
ghost use Rattle.term_tables.specs.Digits.{ArePacked, HasDigitsWithin, IsPackedTerm, digits, limit_of, packed_sum};

use module_vectors::{Key, NoMemory};
use std::alloc::Global;

/// The base of a variable whose exponents in the two factors are at most these.
pub(crate) fn base(left: u16, right: u16) -> usize
    ensures value { result ≡ left + right + 1 }
    ensures positive { 0 < result }
{
    usize::from(left) + usize::from(right) + 1
}

/// Raises the limits of the left factor, or else of the right, to the exponents of the terms. That they are kept is tested by `pack`.
pub(crate) fn raise_limits(bases: &mut [(u16, u16)], is_left: bool, terms: &[(Key, u32)]) {
    for term in terms {
        let exponents = term.0.monomial.exponents();
        for i in 0..bases.len().min(exponents.len()) {
            if is_left {
                bases[i].0 = bases[i].0.max(exponents[i]);
            } else {
                bases[i].1 = bases[i].1.max(exponents[i]);
            }
        }
    }
}

/// The limit of the left factor, or else of the right.
fn limit(is_left: bool, left: u16, right: u16) -> u16
    ensures { result ≡ cond is_left left right }
{
    if is_left { left } else { right }
}

/// The number with one digit more, the lowest; `None` where it has no room.
fn with_digit(k: usize, size: usize, digit: u16) -> Option<usize>
    ensures { IfSome result (λ sum. sum ≡ k * size + digit) }
{
    let shifted = k.checked_mul(size)?;
    shifted.checked_add(usize::from(digit))
}

/// The number of the monomial with these exponents; `None` where one is above its limit, or the number has no room.
fn pack(bases: &[(u16, u16)], is_left: bool, exponents: &[u16]) -> Option<usize>
    ensures digits { IfSome result (λ k. digits bases.now k ≡ exponents.now) }
    ensures within { IfSome result (λ k. HasDigitsWithin (limit_of is_left) bases.now k) }
{
    let Some((b, other_bases)) = bases.split_first() else {
        if exponents.len() > 0 {
            return None;
        }
        return Some(0);
    };
    let Some((e, others)) = exponents.split_first() else {
        return None;
    };
    if *e > limit(is_left, b.0, b.1) {
        return None;
    }
    let k = pack(other_bases, is_left, others)?;
    let sum = with_digit(k, base(b.0, b.1), *e)?;
    Some(sum)
}

/// A term at position 0 with its monomial as a number.
fn packed_term(bases: &[(u16, u16)], is_left: bool, term: &(Key, u32)) -> Option<(usize, u32)>
    ensures { IfSome result (IsPackedTerm is_left bases.now term.now) }
{
    if term.0.position != 0 {
        return None;
    }
    let k = pack(bases, is_left, term.0.monomial.exponents())?;
    Some((k, term.1))
}

/// The terms with their monomials as numbers; `None` where one has none.
pub(crate) fn packed_terms(
    alloc: Global,
    bases: &[(u16, u16)],
    is_left: bool,
    terms: &[(Key, u32)],
) -> Result<Option<Vec<(usize, u32)>>, NoMemory>
    ensures sum { (n : ℕ) → IfOk result (λ o. IfSome o (λ v. packed_sum n bases.now v.items ≡ sum_of n terms.now)) }
    ensures packed { (p : ℕ) → Each (λ t. t.1 < p) terms.now → IfOk result (λ o. IfSome o (λ v. ArePacked is_left bases.now p v.items)) }
{
    let mut packed = Vec::with_capacity(alloc, terms.len())?;
    for term in terms {
        let Some(t) = packed_term(bases, is_left, term) else {
            return Ok(None);
        };
        packed.push(t)?;
    }
    Ok(Some(packed))
}

/// The greatest number of a term; 0 of none.
pub(crate) fn top_number(terms: &[(usize, u32)]) -> usize
    ensures { Each (λ t. t.0 ≤ result) terms.now }
{
    let mut top = 0;
    for term in terms {
        top = term.0.max(top);
    }
    top
}
