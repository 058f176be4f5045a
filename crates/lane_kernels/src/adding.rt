// Sums of a row of numbers and a multiple of a row of residues.
ghost use Rattle.std.specs.Prelude.{◌≡◌, ◌<◌, ◌≤◌, ◌*◌, ◌+◌, ◌^◌, ℕ, length, get_or};
ghost use Rattle.std.specs.Simd.Lanes.{zip2, Each1, put_chunk, chunk};
ghost use Rattle.lane_kernels.specs.Places.{AddsRow, AreNumbersBelow};

use std::simd::prelude::*;
use zp_field::Modulus;

// The sums of eight numbers and `factor` times eight residues.
fn add_products(numbers: u64x8, factor: u64, residues: u32x8) -> u64x8
    requires numbers { Each1 (λ a. a < 2 ^ 63) numbers }
    requires factor { factor < 2 ^ 31 }
    requires residues { Each1 (λ x. x < 2 ^ 31) residues }
    ensures { result ≡ zip2 (λ a x. a + factor * x) numbers residues }
{
    let products = residues.cast::<u64>().strict_mul(u64x8::splat(factor));
    numbers.strict_add(products)
}

// Adds `factor` times the residues at the eight places from `at` on.
fn add_eight(numbers: &mut [u64], at: usize, factor: u64, residues: &[u32])
    requires room { at + 8 ≤ length numbers.old }
    requires count { length residues.now ≡ length numbers.old }
    requires factor { factor < 2 ^ 31 }
    requires residues { AreNumbersBelow (2 ^ 31) residues.now }
    requires numbers { (i : ℕ) → at ≤ i → i < length numbers.old → get_or numbers.old i 0 < 2 ^ 63 }
    ensures { numbers.new ≡ put_chunk at numbers.old (zip2 (λ a x. a + factor * x) (chunk at 8 numbers.old) (chunk at 8 residues.now)) }
{
    let sums = add_products(
        u64x8::from_slice(&numbers[at..]),
        factor,
        u32x8::from_slice(&residues[at..]),
    );
    sums.copy_to_slice(&mut numbers[at..]);
}

/// Adds `c` times the row to the numbers, place by place, with nothing reduced.
///
/// The row is as long as the numbers, `c` and its residues are below p, and each number is below 2^63, so that each sum
/// has room in 64 bits. Eight places at a time are widened from 32 bits and multiplied.
pub fn axpy_dense(acc: &mut [u64], c: u32, row: &[u32], p: &Modulus)
    requires count { length row.now ≡ length acc.old }
    requires factor { c < p.now.value }
    requires row { AreNumbersBelow p.now.value row.now }
    requires numbers { AreNumbersBelow (2 ^ 63) acc.old }
    ensures { AddsRow c row.now acc.old acc.new }
{
    p.domain();
    let factor = u64::from(c);
    let eights = acc.len() / 8;
    for turn in 0..eights {
        add_eight(acc, 8 * turn, factor, row);
    }
    for i in 8 * eights..acc.len() {
        acc[i] += factor * u64::from(row[i]);
    }
}
