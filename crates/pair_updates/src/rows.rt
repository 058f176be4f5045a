// The first sixteen exponents of leads, side by side.
ghost use Rattle.std.specs.Prelude.{ℕ, ◌≡◌, ◌<◌, ◌≤◌, ◌↔◌, ◌-◌, IsTrue, bit_and, length, ltb, max, min, replicate, slice_index};
ghost use Rattle.std.specs.Simd.Lanes.{Each1, mask_l, zip2};
ghost use Rattle.monomials.specs.Exponents.{exponents_of};
ghost use Rattle.pair_updates.specs.Rows.{EachHasMissing, EachNotBelow, IsBelow, TellsAll, exceeding, row};

use monomial_orders::Mono;
use std::simd::prelude::*;

/// The first sixteen exponents, with zeros behind the last.
pub(crate) fn row_of(m: &Mono) -> [u16; 16]
    ensures { let es = m.now.exponents in result ≡ row 16 (exponents_of (length es) es) }
{
    let exponents = m.exponents();
    let mut places = [0; 16];
    for k in 0..exponents.len().min(16) {
        places[k] = exponents[k];
    }
    places
}

/// Is each place of the one at most the greater of the two others? All are looked at, so that no branch is taken.
#[inline(always)]
pub(crate) fn divides_rows(k: &[u16; 16], a: &[u16; 16], b: &[u16; 16]) -> bool
    ensures { IsTrue result ↔ ((v : ℕ) → v < 16 → slice_index k.now v ≤ max (slice_index a.now v) (slice_index b.now v)) }
{
    let mut divides = true;
    for v in 0..16 {
        if k[v] > a[v].max(b[v]) {
            divides = false;
        }
    }
    divides
}

// A bit for each of sixteen bytes below 128, the first byte's lowest: is it above this number? The bytes are raised until the highest bit
// of each says so: a plain comparison with 0 is compiled into one of the wider places that the bytes come from, which takes longer.
fn places_above(bytes: u8x16, number: u8) -> u64
    requires long { length bytes ≡ 16 }
    requires bytes { Each1 (λ e. e < 128) bytes }
    requires number { number < 128 }
    ensures { result ≡ mask_l (zip2 (λ u e. ltb u e) (replicate 16 number) bytes) }
{
    u8x16::splat(127)
        .simd_lt(bytes + u8x16::splat(127 - number))
        .to_bitmask()
}

// By how much each place of the one is above the other's, 0 where it is not, and 4 where it is by more: a byte each, so that one
// comparison of sixteen bytes tells all places.
fn excesses(a: &[u16; 16], b: &[u16; 16]) -> [u8; 16]
    ensures { result ≡ zip2 (λ x y. min (x - y) 4) a.now b.now }
{
    let mut to = [0; 16];
    for v in 0..16 {
        to[v] = a[v].saturating_sub(b[v]).min(4) as u8;
    }
    to
}

/// In which places the one exceeds the other by more than 0, 1, 2 and 3: a bit for each place and number, those of one number together.
pub(crate) fn exceeding_places(a: &[u16; 16], b: &[u16; 16]) -> u64
    ensures { result ≡ mask_l (exceeding a.now b.now) }
{
    let excess = u8x16::from_array(excesses(a, b));
    places_above(excess, 0)
        | places_above(excess, 1) << 16
        | places_above(excess, 2) << 32
        | places_above(excess, 3) << 48
}

/// Is each bit of the one a bit of the other?
pub(crate) fn is_within(a: u64, b: u64) -> bool
    ensures { IsTrue result ↔ (bit_and a b ≡ a) }
{
    a & b == a
}

/// Has the word none of the bits for excesses above 3? Then its other bits count each excess.
pub(crate) fn tells_all(word: u64) -> bool
    ensures { IsTrue result ↔ TellsAll word }
{
    word >> 48 == 0
}

// The first word from this place on that has none of the missing bits; the number of words where there is none.
fn within_in_turn(words: &[u64], from: usize, missing: u64) -> usize
    requires { from ≤ length words.now }
    ensures late { from ≤ result }
    ensures bound { result ≤ length words.now }
    ensures before { EachHasMissing words.now missing from result }
    ensures found { result < length words.now → bit_and (slice_index words.now result) missing ≡ 0 }
{
    for i in from..words.len() {
        if words[i] & missing == 0 {
            return i;
        }
    }
    words.len()
}

/// The first word from this place on that has none of the missing bits; the number of words where there is none. Most words have one,
/// and there are many: so the loop looks at four in each turn.
#[inline(always)]
pub(crate) fn next_within(words: &[u64], from: usize, missing: u64) -> usize
    requires { from ≤ length words.now }
    ensures late { from ≤ result }
    ensures bound { result ≤ length words.now }
    ensures before { EachHasMissing words.now missing from result }
    ensures found { result < length words.now → bit_and (slice_index words.now result) missing ≡ 0 }
{
    let end = words.len().saturating_sub(3);
    let mut i = from;
    while i < end {
        if words[i] & missing == 0 {
            return i;
        }
        if words[i + 1] & missing == 0 {
            return i + 1;
        }
        if words[i + 2] & missing == 0 {
            return i + 2;
        }
        if words[i + 3] & missing == 0 {
            return i + 3;
        }
        i += 4;
    }
    within_in_turn(words, i, missing)
}

/// The first word from this place on that has no bit but the given word's, and not all of them; the number of words where there is none.
#[inline(always)]
pub(crate) fn next_below(words: &[u64], from: usize, word: u64) -> usize
    requires { from ≤ length words.now }
    ensures late { from ≤ result }
    ensures bound { result ≤ length words.now }
    ensures before { EachNotBelow words.now word from result }
    ensures found { result < length words.now → IsBelow (slice_index words.now result) word }
{
    let mut i = from;
    while i < words.len() {
        i = next_within(words, i, !word);
        if i == words.len() {
            return i;
        }
        if words[i] != word {
            return i;
        }
        i += 1;
    }
    i
}
