// Remainders of a row of numbers by p.
ghost use Rattle.std.specs.Prelude.{◌≡◌, ◌<◌, ◌≤◌, ◌*◌, ◌+◌, ◌-◌, ◌/◌, ◌%◌, ◌^◌, length, map, nat_lt, if◌then◌else◌};
ghost use Rattle.std.specs.Simd.Lanes.{Each2, put_chunk, chunk};
ghost use Rattle.lane_kernels.specs.Places.{AreRemainders};

use std::simd::prelude::*;
use zp_field::Modulus;

// What is left of eight numbers when about as many times p are taken away as go into them: less than 4 p. `inverse` is
// (2^64 - 1) / p. Of the product of a number and the inverse, which is 2^64 times that quotient, each of the two products
// in the middle is cut to whole words, and the product of the low words is left out; nothing here wraps.
fn rests(numbers: u64x8, modulus: u64, inverse: u64) -> u64x8
    requires modulus { (1 < modulus) × (modulus < 2 ^ 31) }
    requires inverse { inverse ≡ (2 ^ 64 - 1) / modulus }
    ensures count { length result ≡ 8 }
    ensures rests { Each2 (λ x r. (r < 4 * modulus) × (r % modulus ≡ x % modulus)) numbers result }
{
    let word = u64x8::splat(32);
    let high = numbers >> word;
    let low = numbers & u64x8::splat(0xffff_ffff);
    let inverse_high = u64x8::splat(inverse >> 32);
    let inverse_low = u64x8::splat(inverse % 0x1_0000_0000);
    let quotients = high * inverse_high
        + (high * inverse_low >> word)
        + (low * inverse_high >> word);
    numbers - quotients * u64x8::splat(modulus)
}

// The numbers, less the subtrahend where they are not below it.
fn subtract_once(numbers: u64x8, subtrahend: u64) -> u64x8
    requires subtrahend { (0 < subtrahend) × (subtrahend < 2 ^ 32) }
    ensures { result ≡ map (λ x. if nat_lt x subtrahend then x else x - subtrahend) numbers }
{
    // A difference below 0 wraps to a number above both.
    numbers.simd_min(numbers - u64x8::splat(subtrahend))
}

// The remainders of eight numbers.
fn remainders(numbers: u64x8, modulus: u64, inverse: u64) -> u64x8
    requires modulus { (1 < modulus) × (modulus < 2 ^ 31) }
    requires inverse { inverse ≡ (2 ^ 64 - 1) / modulus }
    ensures { result ≡ map (λ x. x % modulus) numbers }
{
    let left = rests(numbers, modulus, inverse);
    subtract_once(subtract_once(left, 2 * modulus), modulus)
}

// The remainders of the numbers at the eight places from `at` on.
fn reduce_eight(numbers: &mut [u64], at: usize, modulus: u64, inverse: u64)
    requires room { at + 8 ≤ length numbers.old }
    requires modulus { (1 < modulus) × (modulus < 2 ^ 31) }
    requires inverse { inverse ≡ (2 ^ 64 - 1) / modulus }
    ensures { numbers.new ≡ put_chunk at numbers.old (map (λ x. x % modulus) (chunk at 8 numbers.old)) }
{
    let left = remainders(u64x8::from_slice(&numbers[at..]), modulus, inverse);
    left.copy_to_slice(&mut numbers[at..]);
}

/// The remainder by p of each number, in its place.
///
/// Eight places at a time are divided by multiplication with 2^64 / p (Granlund and Montgomery 1994, *Division by Invariant
/// Integers using Multiplication*; Barrett 1986), in products of 32 bits, and the quotient is mended by two subtractions.
pub fn reduce_lanes(acc: &mut [u64], p: &Modulus)
    ensures { AreRemainders p.now.value acc.old acc.new }
{
    p.domain();
    let modulus = u64::from(p.value());
    let inverse = u64::MAX / modulus;
    let eights = acc.len() / 8;
    for turn in 0..eights {
        reduce_eight(acc, 8 * turn, modulus, inverse);
    }
    for i in 8 * eights..acc.len() {
        acc[i] %= modulus;
    }
}
