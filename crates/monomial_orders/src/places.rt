// Loops over lists of exponents.
ghost use Rattle.std.specs.Prelude.{ℕ, ◌≡◌, ◌<◌, ◌≤◌, ◌↔◌, ◌+◌, ◌-◌, ◌*◌, ◌∷◌, IfOk, IsTrue, length, max, min, slice_index};
ghost use Rattle.monomials.specs.Exponents.{exponents_of};
ghost use Rattle.monomials.specs.Weights.{weighted_degree};
ghost use Rattle.monomial_orders.specs.Differences.{EndsDifferences};
ghost use Rattle.monomial_orders.specs.Kept.{AreWeights};
ghost use Rattle.monomial_orders.specs.Monomials.{IsPlaceByPlace};

use smallvec::SmallVec;
use std::alloc::{AllocError, Global};

/// The degree by the weights: the sum of weight times exponent.
pub(crate) fn total(weights: &[u8], a: &[u16]) -> u128
    requires variables { length weights.now ≡ length a.now }
    requires positive { AreWeights weights.now }
    ensures value { result ≡ weighted_degree weights.now (exponents_of (length a.now) a.now) }
    ensures small { result ≤ 16711425 * length a.now }
{
    let mut degree: u128 = 0;
    for k in 0..a.len() {
        degree += u128::from(u32::from(weights[k]) * u32::from(a[k]));
    }
    degree
}

/// The same number of variables, of fewer bits.
pub(crate) fn count(n: usize) -> u32
    requires { n < 4294967296 }
    ensures { result ≡ n }
{
    n as u32
}

/// The same degree, of fewer bits.
pub(crate) fn narrow(n: u128) -> u32
    requires { n < 4294967296 }
    ensures { result ≡ n }
{
    n as u32
}

// What follows serves more than 16 variables, by calls of its own, so that the way over 16 places stays short.

/// The same places again.
#[cold]
#[inline(never)]
pub(crate) fn copy_places(alloc: Global, places: &[u16]) -> Result<SmallVec<u16, 16>, AllocError>
    ensures { IfOk result (λ again. again.items ≡ places.now) }
{
    SmallVec::from_slice(alloc, places)
}

/// 0 and then these places.
#[cold]
#[inline(never)]
pub(crate) fn places_behind_zero(
    alloc: Global,
    places: &[u16],
) -> Result<SmallVec<u16, 16>, AllocError>
    ensures { IfOk result (λ to. to.items ≡ 0 ∷ places.now) }
{
    let mut to = Vec::with_capacity(alloc, places.len().saturating_add(1))?;
    to.push(0)?;
    to.extend_from_slice(places)?;
    Ok(SmallVec::from_vec(to))
}

/// The sums, which have room.
#[cold]
#[inline(never)]
pub(crate) fn add_places(
    alloc: Global,
    a: &[u16],
    b: &[u16],
) -> Result<SmallVec<u16, 16>, AllocError>
    requires variables { length a.now ≡ length b.now }
    requires room { (k : ℕ) → k < length a.now → slice_index a.now k + slice_index b.now k ≤ 65535 }
    ensures places { IfOk result (λ to. IsPlaceByPlace ◌+◌ a.now b.now to.items) }
    ensures bounded { IfOk result (λ to. (k : ℕ) → slice_index to.items k < 65536) }
{
    let mut to = vec![in alloc; 0; a.len()]?;
    for k in 0..a.len() {
        to[k] = a[k] + b[k];
    }
    Ok(SmallVec::from_vec(to))
}

/// The larger of each two.
#[cold]
#[inline(never)]
pub(crate) fn max_places(
    alloc: Global,
    a: &[u16],
    b: &[u16],
) -> Result<SmallVec<u16, 16>, AllocError>
    requires variables { length a.now ≡ length b.now }
    ensures places { IfOk result (λ to. IsPlaceByPlace max a.now b.now to.items) }
    ensures bounded { IfOk result (λ to. (k : ℕ) → slice_index to.items k < 65536) }
{
    let mut to = vec![in alloc; 0; a.len()]?;
    for k in 0..a.len() {
        to[k] = a[k].max(b[k]);
    }
    Ok(SmallVec::from_vec(to))
}

/// The differences, where none is negative.
#[cold]
#[inline(never)]
pub(crate) fn subtract_places(
    alloc: Global,
    a: &[u16],
    b: &[u16],
) -> Result<SmallVec<u16, 16>, AllocError>
    requires variables { length a.now ≡ length b.now }
    requires room { (k : ℕ) → k < length a.now → slice_index b.now k ≤ slice_index a.now k }
    ensures places { IfOk result (λ to. IsPlaceByPlace ◌-◌ a.now b.now to.items) }
    ensures bounded { IfOk result (λ to. (k : ℕ) → slice_index to.items k < 65536) }
{
    let mut to = vec![in alloc; 0; a.len()]?;
    for k in 0..a.len() {
        to[k] = a[k] - b[k];
    }
    Ok(SmallVec::from_vec(to))
}

/// Is each exponent at most the other's?
#[cold]
#[inline(never)]
pub(crate) fn divides_places(a: &[u16], b: &[u16]) -> bool
    requires { length a.now ≡ length b.now }
    ensures { IsTrue result ↔ ((k : ℕ) → k < length a.now → slice_index a.now k ≤ slice_index b.now k) }
{
    for k in 0..a.len() {
        if a[k] > b[k] {
            return false;
        }
    }
    true
}

/// Is one of each two exponents 0?
#[cold]
#[inline(never)]
pub(crate) fn are_apart(a: &[u16], b: &[u16]) -> bool
    requires { length a.now ≡ length b.now }
    ensures { IsTrue result ↔ ((k : ℕ) → k < length a.now → min (slice_index a.now k) (slice_index b.now k) ≡ 0) }
{
    for k in 0..a.len() {
        if a[k].min(b[k]) > 0 {
            return false;
        }
    }
    true
}

/// Of the first m places, how many there are up to and with the last that differs: 0 where none does.
#[cold]
#[inline(never)]
pub(crate) fn differing_places(a: &[u16], b: &[u16], m: usize) -> usize
    requires variables { length a.now ≡ length b.now }
    requires inside { m ≤ length a.now }
    ensures { EndsDifferences m a.now b.now result }
{
    let mut n = m;
    while n > 0 {
        if a[n - 1] != b[n - 1] {
            return n;
        }
        n -= 1;
    }
    0
}
