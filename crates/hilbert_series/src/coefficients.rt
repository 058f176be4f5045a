// Lists of coefficients.
ghost use Rattle.std.specs.Prelude.{ℕ, ◌≡◌, ◌≤◌, ◌^◌, IfOk, get_or, pos};
ghost use Rattle.hilbert_laws.specs.Numerators.{plus, size};
ghost use Rattle.hilbert_laws.specs.Shifting.{minus, shifted};
ghost use Rattle.hilbert_series.specs.Generators.{HaveSameCoefficients};

use monomial_orders::NoMemory;
use std::alloc::Global;

/// The coefficient at t^d, which is 0 behind the last.
fn coefficient(list: &[i128], d: usize) -> i128
    ensures { result ≡ get_or list.now d (pos 0) }
{
    if d < list.len() { list[d] } else { 0 }
}

/// The coefficient at t^d of t^m times the list.
fn shifted_coefficient(list: &[i128], m: usize, d: usize) -> i128
    ensures { result ≡ get_or (shifted m list.now) d (pos 0) }
{
    if d < m { 0 } else { coefficient(list, d - m) }
}

/// left + t^m right.
pub(crate) fn plus_shifted(
    alloc: Global,
    left: &[i128],
    m: usize,
    right: &[i128],
) -> Result<Vec<i128>, NoMemory>
    requires small_left { size left.now ≤ 2 ^ 126 }
    requires small_right { size right.now ≤ 2 ^ 120 }
    ensures sum { IfOk result (λ v. HaveSameCoefficients v.items (plus left.now (shifted m right.now))) }
{
    let Some(behind) = m.checked_add(right.len()) else {
        return Err(NoMemory);
    };
    let most = left.len().max(behind);
    let mut sums = Vec::with_capacity(alloc, most)?;
    for d in 0..most {
        sums.push(coefficient(left, d) + shifted_coefficient(right, m, d))?;
    }
    Ok(sums)
}

/// left - t^m right.
pub(crate) fn minus_shifted(
    alloc: Global,
    left: &[i128],
    m: usize,
    right: &[i128],
) -> Result<Vec<i128>, NoMemory>
    requires small_left { size left.now ≤ 2 ^ 126 }
    requires small_right { size right.now ≤ 2 ^ 120 }
    ensures difference { IfOk result (λ v. HaveSameCoefficients v.items (minus left.now (shifted m right.now))) }
{
    let Some(behind) = m.checked_add(right.len()) else {
        return Err(NoMemory);
    };
    let most = left.len().max(behind);
    let mut differences = Vec::with_capacity(alloc, most)?;
    for d in 0..most {
        differences.push(coefficient(left, d) - shifted_coefficient(right, m, d))?;
    }
    Ok(differences)
}
