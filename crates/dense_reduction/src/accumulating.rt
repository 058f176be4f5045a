// Sums of multiples of rows, with a number for each column.
ghost use Rattle.std.specs.Prelude.{◌≡◌, ◌<◌, ◌≤◌, ◌*◌, ◌+◌, ◌-◌, ℕ, length, IfOk};
ghost use Rattle.std.specs.Vec.{vec_len};
ghost use Rattle.residues.specs.Residues.{IsCongruent};
ghost use Rattle.row_matrix.specs.Rows.{AreEntries};
ghost use Rattle.dense_reduction.specs.Dense.{AddsMultiple, AreWithin, HasRoom, IsDense};

use zp_field::Modulus;

/// p * p: the first limit of numbers, which are 0.
pub(crate) fn first_limit(modulus: &Modulus) -> u64
    ensures square { result ≡ modulus.now.value * modulus.now.value }
    ensures room { HasRoom modulus.now.value result }
{
    modulus.domain();
    u64::from(modulus.value()) * u64::from(modulus.value())
}

/// `sum` and a product of residues, less the limit where that is too great.
pub(crate) fn add_product(modulus: &Modulus, limit: u64, sum: u64, factor: u32, residue: u32) -> u64
    requires limit { HasRoom modulus.now.value limit }
    requires sum { sum < limit }
    requires factor { factor < modulus.now.value }
    requires residue { residue < modulus.now.value }
    ensures small { result < limit }
    ensures congruent { IsCongruent modulus.now.value result (sum + factor * residue) }
{
    modulus.domain();
    let more = sum + u64::from(factor) * u64::from(residue);
    if more < limit { more } else { more - limit }
}

// Adds `factor` times the entries to numbers that stay below the limit.
fn add_below(modulus: &Modulus, acc: &mut [u64], limit: u64, factor: u32, entries: &[(u32, u32)])
    requires factor { factor < modulus.now.value }
    requires limit { HasRoom modulus.now.value limit }
    requires small { IsDense limit acc.old }
    requires entries { AreWithin modulus.now.value (length acc.old) entries.now }
    ensures adds { AddsMultiple modulus.now.value factor entries.now acc.old acc.new }
    ensures small { IsDense limit acc.new }
{
    modulus.domain();
    for entry in entries {
        let at = entry.0 as usize;
        acc[at] = add_product(modulus, limit, acc[at], factor, entry.1);
    }
}

// Adds `factor` times the entries, whose columns are apart, to numbers below the limit: one product each, and nothing is
// tested.
fn add_freely(modulus: &Modulus, acc: &mut [u64], _limit: u64, factor: u32, entries: &[(u32, u32)])
    requires factor { factor < modulus.now.value }
    requires limit { HasRoom modulus.now.value _limit }
    requires small { IsDense _limit acc.old }
    requires within { AreWithin modulus.now.value (length acc.old) entries.now }
    requires entries { (low : ℕ) × AreEntries modulus.now.value low (length acc.old) entries.now }
    ensures adds { AddsMultiple modulus.now.value factor entries.now acc.old acc.new }
    ensures small { IsDense (_limit + modulus.now.value * modulus.now.value) acc.new }
{
    modulus.domain();
    let times = u64::from(factor);
    for entry in entries {
        let at = entry.0 as usize;
        acc[at] = acc[at] + times * u64::from(entry.1);
    }
}

/// Adds `factor` times the entries to the numbers of their columns, which are below the limit. The answer is the limit
/// from then on: while there is room it grows, and no number is tested; then it stays.
pub(crate) fn add_multiple(
    modulus: &Modulus,
    acc: &mut [u64],
    limit: u64,
    factor: u32,
    entries: &[(u32, u32)],
) -> u64
    requires factor { factor < modulus.now.value }
    requires limit { HasRoom modulus.now.value limit }
    requires small { IsDense limit acc.old }
    requires entries { (low : ℕ) × AreEntries modulus.now.value low (length acc.old) entries.now }
    ensures adds { AddsMultiple modulus.now.value factor entries.now acc.old acc.new }
    ensures room { HasRoom modulus.now.value result }
    ensures small { IsDense result acc.new }
{
    modulus.domain();
    let square = u64::from(modulus.value()) * u64::from(modulus.value());
    if u64::MAX - square - square < limit {
        add_below(modulus, acc, limit, factor, entries);
        return limit;
    }
    add_freely(modulus, acc, limit, factor, entries);
    limit + square
}
