// Sums at the numbers that occur, found by hashes, for numbers that reach too far for a place each.
ghost use Rattle.std.specs.Prelude.{List, ℕ, ◌≡◌, ◌<◌, ◌≤◌, ◌+◌, ◌*◌, ◌++◌, [], ◌∷◌, false, IfOk, IfSome, IsTrue};
ghost use Rattle.residues.specs.Residues.{IsCongruent};
ghost use Rattle.formal_sums.specs.FormalSums.{Each, IsSame, product, scale};
ghost use Rattle.term_tables.specs.Digits.{EachPair, HaveNoCarry, monomial_at, packed_sum};
ghost use Rattle.term_tables.specs.Tables.{IsOpen};

use crate::table::{added, times};
use crate::unpacking::count_taken;
use module_vectors::NoMemory;
use std::alloc::Global;

// In as many slots, from the one of its hash on, a number is looked for.
const PROBES: usize = 32;

// At least one in so many slots is taken when their number is doubled.
const SPARSE: usize = 8;

/// Where a number is looked for first (Knuth, *The Art of Computer Programming*, volume 3, section 6.4: multiplicative hashing).
fn start_of(count: usize, key: usize) -> usize {
    let hash = (key as u64).wrapping_mul(11400714819323198485);
    (u128::from(hash).wrapping_mul(count.saturating_sub(PROBES) as u128) >> 64) as usize
}

/// The first slot from `start` on that has the number, or the sum 0; `None` where it is not among the next few.
fn find(slots: &[(usize, u64)], start: usize, key: usize) -> Option<usize>
    ensures { IfSome result (IsOpen slots.now key) }
{
    for i in start..slots.len().min(start.saturating_add(PROBES)) {
        if slots[i].0 == key {
            return Some(i);
        }
        if slots[i].1 == 0 {
            return Some(i);
        }
    }
    None
}

/// Adds c at the number; `false` where no slot is open to it.
fn put(square: u64, slots: &mut Vec<(usize, u64)>, key: usize, c: u64) -> bool
    requires small { c ≤ square }
    requires half { square < 9223372036854775808 }
    ensures sum { (n p : ℕ) (bs : List (ℕ × ℕ)) → IsCongruent p square 0 → IsTrue result
        → IsSame p (packed_sum n bs slots.new.items) (((0, monomial_at n bs key), c) ∷ packed_sum n bs slots.old.items) }
    ensures unchanged { result ≡ false → slots.new ≡ slots.old }
{
    let Some(i) = find(slots, start_of(slots.len(), key), key) else {
        return false;
    };
    let sum = slots[i].1;
    slots[i] = (key, added(square, sum, c));
    true
}

/// Adds the sums of slots to others; `false` where no slot is open to one.
fn put_all(square: u64, larger: &mut Vec<(usize, u64)>, slots: &[(usize, u64)]) -> bool
    requires half { square < 9223372036854775808 }
    requires positive { 0 < square }
    ensures { (n p : ℕ) (bs : List (ℕ × ℕ)) → IsCongruent p square 0 → IsTrue result
        → IsSame p (packed_sum n bs larger.new.items) (packed_sum n bs slots.now ++ packed_sum n bs larger.old.items) }
{
    let mut rest = slots;
    while let Some((slot, more)) = rest.split_first() {
        if !put(square, larger, slot.0, slot.1 % square) {
            return false;
        }
        rest = more;
    }
    true
}

/// Free slots.
fn free_slots(alloc: Global, count: usize) -> Result<Vec<(usize, u64)>, NoMemory>
    ensures { (n p : ℕ) (bs : List (ℕ × ℕ)) → IfOk result (λ slots. IsSame p (packed_sum n bs slots.items) []) }
{
    Ok(vec![in alloc; (0, 0); count]?)
}

/// The sums of the slots in twice as many; `None` where too few are taken, or no slot is open to one.
fn doubled(
    alloc: Global,
    square: u64,
    slots: &[(usize, u64)],
) -> Result<Option<Vec<(usize, u64)>>, NoMemory>
    requires half { square < 9223372036854775808 }
    requires positive { 0 < square }
    ensures { (n p : ℕ) (bs : List (ℕ × ℕ)) → IsCongruent p square 0
        → IfOk result (λ o. IfSome o (λ v. IsSame p (packed_sum n bs v.items) (packed_sum n bs slots.now))) }
{
    if count_taken(slots) < slots.len() / SPARSE {
        return Ok(None);
    }
    let mut larger = free_slots(alloc, slots.len().saturating_mul(2))?;
    if put_all(square, &mut larger, slots) {
        Ok(Some(larger))
    } else {
        Ok(None)
    }
}

/// Adds c at the number, in twice as many slots where none is open to it; `false` where that does not serve.
fn insert(
    alloc: Global,
    square: u64,
    slots: &mut Vec<(usize, u64)>,
    key: usize,
    c: u64,
) -> Result<bool, NoMemory>
    requires small { c ≤ square }
    requires half { square < 9223372036854775808 }
    requires positive { 0 < square }
    ensures { (n p : ℕ) (bs : List (ℕ × ℕ)) → IsCongruent p square 0 → IfOk result (λ done. IsTrue done
        → IsSame p (packed_sum n bs slots.new.items) (((0, monomial_at n bs key), c) ∷ packed_sum n bs slots.old.items)) }
{
    if put(square, slots, key, c) {
        return Ok(true);
    }
    let Some(larger) = doubled(alloc, square, slots)? else {
        return Ok(false);
    };
    *slots = larger;
    Ok(put(square, slots, key, c))
}

/// Adds c times the monomial `key` times each of the terms; `false` where the slots do not serve.
fn insert_multiple(
    alloc: Global,
    square: u64,
    slots: &mut Vec<(usize, u64)>,
    key: usize,
    c: u32,
    terms: &[(usize, u32)],
) -> Result<bool, NoMemory>
    requires small { Each (λ t. c * t.1 ≤ square) terms.now }
    requires half { square < 9223372036854775808 }
    requires positive { 0 < square }
    ensures { (n p : ℕ) (bs : List (ℕ × ℕ)) → IsCongruent p square 0 → Each (λ t. HaveNoCarry bs key t.0) terms.now → IfOk result (λ done. IsTrue done
        → IsSame p (packed_sum n bs slots.new.items) (scale c (monomial_at n bs key) (packed_sum n bs terms.now) ++ packed_sum n bs slots.old.items)) }
{
    let mut rest = terms;
    while let Some((t, more)) = rest.split_first() {
        let Some(sum) = key.checked_add(t.0) else {
            return Ok(false);
        };
        if !insert(alloc, square, slots, sum, times(c, t.1))? {
            return Ok(false);
        }
        rest = more;
    }
    Ok(true)
}

/// Adds the products of each term of `a` with each of `b`; `false` where the slots do not serve.
fn insert_products(
    alloc: Global,
    square: u64,
    slots: &mut Vec<(usize, u64)>,
    a: &[(usize, u32)],
    b: &[(usize, u32)],
) -> Result<bool, NoMemory>
    requires small { EachPair (λ s t. s.1 * t.1 ≤ square) a.now b.now }
    requires half { square < 9223372036854775808 }
    requires positive { 0 < square }
    ensures { (n p : ℕ) (bs : List (ℕ × ℕ)) → IsCongruent p square 0 → EachPair (λ s t. HaveNoCarry bs s.0 t.0) a.now b.now → IfOk result (λ done. IsTrue done
        → IsSame p (packed_sum n bs slots.new.items) (product (packed_sum n bs a.now) (packed_sum n bs b.now) ++ packed_sum n bs slots.old.items)) }
{
    let mut rest = a;
    while let Some((s, more)) = rest.split_first() {
        if !insert_multiple(alloc, square, slots, s.0, s.1, b)? {
            return Ok(false);
        }
        rest = more;
    }
    Ok(true)
}

/// The sums of the products of packed terms; `None` where slots do not serve.
pub(crate) fn slots_of(
    alloc: Global,
    square: u64,
    a: &[(usize, u32)],
    b: &[(usize, u32)],
) -> Result<Option<Vec<(usize, u64)>>, NoMemory>
    requires small { EachPair (λ s t. s.1 * t.1 ≤ square) a.now b.now }
    requires half { square < 9223372036854775808 }
    requires positive { 0 < square }
    ensures { (n p : ℕ) (bs : List (ℕ × ℕ)) → IsCongruent p square 0 → EachPair (λ s t. HaveNoCarry bs s.0 t.0) a.now b.now → IfOk result (λ o. IfSome o (λ v.
        IsSame p (packed_sum n bs v.items) (product (packed_sum n bs a.now) (packed_sum n bs b.now)))) }
{
    let mut slots = free_slots(alloc, a.len().saturating_add(b.len()).saturating_mul(4))?;
    if insert_products(alloc, square, &mut slots, a, b)? {
        Ok(Some(slots))
    } else {
        Ok(None)
    }
}
