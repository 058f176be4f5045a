// Loops over 16 places.
ghost use Rattle.std.specs.Prelude.{ℕ, nat_eq, not, ◌≡◌, ◌<◌, ◌≤◌, ◌↔◌, ◌+◌, ◌-◌, ◌∷◌, IsTrue, length, max, min, slice_index};
ghost use Rattle.std.specs.Simd.Lanes.{mask_l, zip2};
ghost use Rattle.monomial_orders.specs.Differences.{EndsDifferences};
ghost use Rattle.monomial_orders.specs.Monomials.{IsPlaceByPlace};

use std::simd::prelude::*;

/// At most 16 exponents, with zeros behind them.
pub(crate) fn first_sixteen(exponents: &[u16]) -> [u16; 16]
    requires { length exponents.now ≤ 16 }
    ensures places { (k : ℕ) → slice_index result k ≡ slice_index exponents.now k }
    ensures bounded { (k : ℕ) → slice_index result k < 65536 }
{
    let mut to = [0; 16];
    for k in 0..exponents.len() {
        to[k] = exponents[k];
    }
    to
}

/// 0 and then at most 15 exponents, with zeros behind them.
pub(crate) fn sixteen_behind_zero(exponents: &[u16]) -> [u16; 16]
    requires { length exponents.now < 16 }
    ensures places { (k : ℕ) → slice_index result k ≡ slice_index (0 ∷ exponents.now) k }
    ensures bounded { (k : ℕ) → slice_index result k < 65536 }
{
    let mut to = [0; 16];
    for k in 0..exponents.len() {
        to[k + 1] = exponents[k];
    }
    to
}

/// The sums, which have room.
pub(crate) fn add_sixteen(a: &[u16; 16], b: &[u16; 16]) -> [u16; 16]
    requires { (k : ℕ) → slice_index a.now k + slice_index b.now k ≤ 65535 }
    ensures places { IsPlaceByPlace ◌+◌ a.now b.now result }
    ensures bounded { (k : ℕ) → slice_index result k < 65536 }
{
    let mut to = [0; 16];
    for k in 0..16 {
        to[k] = a[k] + b[k];
    }
    to
}

/// The larger of each two.
pub(crate) fn max_sixteen(a: &[u16; 16], b: &[u16; 16]) -> [u16; 16]
    ensures places { IsPlaceByPlace max a.now b.now result }
    ensures bounded { (k : ℕ) → slice_index result k < 65536 }
{
    let mut to = [0; 16];
    for k in 0..16 {
        to[k] = a[k].max(b[k]);
    }
    to
}

/// The differences, where none is negative.
pub(crate) fn subtract_sixteen(a: &[u16; 16], b: &[u16; 16]) -> [u16; 16]
    requires { (k : ℕ) → slice_index b.now k ≤ slice_index a.now k }
    ensures places { IsPlaceByPlace ◌-◌ a.now b.now result }
    ensures bounded { (k : ℕ) → slice_index result k < 65536 }
{
    let mut to = [0; 16];
    for k in 0..16 {
        to[k] = a[k] - b[k];
    }
    to
}

/// Is each place at most the other's? All are looked at, so that no branch is taken.
pub(crate) fn divides_sixteen(a: &[u16; 16], b: &[u16; 16]) -> bool
    ensures { IsTrue result ↔ ((k : ℕ) → k < length a.now → slice_index a.now k ≤ slice_index b.now k) }
{
    let mut divides = true;
    for k in 0..16 {
        if a[k] > b[k] {
            divides = false;
        }
    }
    divides
}

/// Is one of each two places 0? All are looked at, so that no branch is taken.
pub(crate) fn are_sixteen_apart(a: &[u16; 16], b: &[u16; 16]) -> bool
    ensures { IsTrue result ↔ ((k : ℕ) → k < length a.now → min (slice_index a.now k) (slice_index b.now k) ≡ 0) }
{
    let mut apart = true;
    for k in 0..16 {
        if a[k].min(b[k]) > 0 {
            apart = false;
        }
    }
    apart
}

/// A bit for each place, the first place's lowest: is the place of the one not that of the other?
#[inline(always)]
fn different(a: &[u16; 16], b: &[u16; 16]) -> u64
    ensures { result ≡ mask_l (zip2 (λ x y. not (nat_eq x y)) a.now b.now) }
{
    u16x16::from_array(*a)
        .simd_ne(u16x16::from_array(*b))
        .to_bitmask()
}

/// Of the first m places, how many there are up to and with the last that differs: 0 where none does.
pub(crate) fn differing_sixteen(a: &[u16; 16], b: &[u16; 16], m: usize) -> usize
    requires { m ≤ 16 }
    ensures { EndsDifferences m a.now b.now result }
{
    let first = different(a, b) % (1 << m);
    (64 - first.leading_zeros()) as usize
}
