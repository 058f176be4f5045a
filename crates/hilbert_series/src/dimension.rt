// Dimension and degree.
ghost use Rattle.std.specs.Prelude.{ℕ, ◌≡◌, ◌<◌, ◌≤◌, ◌^◌, ◌+ℤ◌, ◌-ℤ◌, false, get_or, nat_abs, pos};
ghost use Rattle.std.specs.Prelude.{IfErr, IfOk, IfSome, IsTrue, None, OnOk};
ghost use Rattle.hilbert_laws.specs.Dimensions.{HasDimension};
ghost use Rattle.hilbert_series.specs.Division.{AreSums, SumStops};
ghost use Rattle.hilbert_series.specs.Large.{DimensionStops, IsLarge};

use crate::{HilbertStop, Series};
use std::alloc::Global;

/// Is the number above -2^127?
fn is_narrow(a: i128) -> bool
    ensures narrow { IsTrue result → nat_abs a < 2 ^ 127 }
    ensures wide { result ≡ false → 2 ^ 127 ≤ nat_abs a }
{
    a != i128::MIN
}

/// Is each coefficient above -2^127?
fn are_narrow(list: &[i128]) -> bool
    ensures narrow { IsTrue result → (d : ℕ) → nat_abs (get_or list.now d (pos 0)) < 2 ^ 127 }
    ensures wide { result ≡ false → (d : ℕ) × (2 ^ 127 ≤ nat_abs (get_or list.now d (pos 0))) }
{
    for d in 0..list.len() {
        if !is_narrow(list[d]) {
            return false;
        }
    }
    true
}

/// The sum, where it is below 2^127 and above -2^127.
fn narrow_sum(a: i128, b: i128) -> Option<i128>
    ensures some { IfSome result (λ sum. (sum ≡ a +ℤ b) × (nat_abs sum < 2 ^ 127)) }
    ensures none { result ≡ None → 2 ^ 127 ≤ nat_abs (a +ℤ b) }
{
    match a.checked_add(b) {
        Some(sum) if sum != i128::MIN => Some(sum),
        Some(_) => None,
        None => None,
    }
}

/// The sums of the first coefficients, or `Large` at one that is 2^127 or more, or -2^127 or less.
fn running_sums(alloc: Global, list: &[i128]) -> Result<Vec<i128>, HilbertStop>
    ensures sums { IfOk result (λ v. AreSums list.now v.items) }
    ensures stop { IfErr result (SumStops list.now) }
{
    let mut sums = Vec::with_capacity(alloc, list.len())?;
    let mut sum: i128 = 0;
    for d in 0..list.len() {
        match narrow_sum(sum, list[d]) {
            Some(next) => sum = next,
            None => return Err(HilbertStop::Large),
        }
        sums.push(sum)?;
    }
    Ok(sums)
}

/// n - z
fn difference(n: usize, z: usize) -> i128
    ensures value { result ≡ pos n -ℤ pos z }
    ensures narrow { nat_abs result < 2 ^ 127 }
{
    n as i128 - z as i128
}

/// Dimension and degree of the module with this series: n - z and the value at 1 of K / (1 - t)^z, where z is the order of the numerator
/// K at 1, and -1 and 0 where K is 0. UAG chapter 6, section 4.
///
/// `Large` exactly where K is not 0 and a coefficient of K / (1 - t)^j is 2^127 or more, or -2^127 or less, for a j from 0 to z + 1;
/// never `Leads`.
pub fn dimension_degree(alloc: Global, series: &Series) -> Result<(i128, i128), HilbertStop>
    ensures value { IfOk result (λ a. HasDimension series.now.n series.now.coefficients.items a.0 a.1) }
    ensures not_large { OnOk result (IsLarge series.now.coefficients.items → ⊥) }
    ensures stop { IfErr result (DimensionStops series.now.coefficients.items) }
{
    if !are_narrow(&series.coefficients) {
        return Err(HilbertStop::Large);
    }
    let mut rest = Vec::from_slice(alloc, &series.coefficients)?;
    for order in 0..series.coefficients.len() {
        let mut sums = match running_sums(alloc, rest.as_slice()) {
            Ok(sums) => sums,
            Err(stop) => return Err(stop),
        };
        let Some(value) = sums.pop() else {
            return Ok((-1, 0));
        };
        if value != 0 {
            return Ok((difference(series.n, order), value));
        }
        rest = sums;
    }
    Ok((-1, 0))
}
