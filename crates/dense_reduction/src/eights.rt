// Numbers for the columns of eight rows that are reduced together. They stand side by side at each column, so that an entry of
// a pivot is read once and multiplied for all by vectors of the processor.
ghost use Rattle.std.specs.Prelude.{◌≡◌, ◌<◌, ◌≤◌, ◌+◌, ◌*◌, ◌%◌, ◌^◌, ℕ, IsTrue, get_or, length, set};
ghost use Rattle.residues.specs.Residues.{IsCongruent};
ghost use Rattle.row_matrix.specs.Rows.{AreEntries};
ghost use Rattle.dense_reduction.specs.Dense.{AddsMultiple, AreWithin, HasRoom};
ghost use Rattle.dense_reduction.specs.Eights.{AreDense, lane};

use crate::accumulating::add_product;
use lane_kernels::{axpy_dense, reduce_lanes};
use zp_field::Modulus;

/// How many rows are reduced together.
pub const EIGHT: usize = 8;

// Up to this limit the numbers have room for a product where they are added eight at a time.
const FREE: u64 = 0x8000_0000_0000_0000;

/// Adds `factor` times the entries to the numbers of one of the rows, all of which stay below the limit.
pub(crate) fn add_to_one(
    modulus: &Modulus,
    numbers: &mut [[u64; 8]],
    row: usize,
    limit: u64,
    factor: u32,
    entries: &[(u32, u32)],
)
    requires row { row < 8 }
    requires factor { factor < modulus.now.value }
    requires limit { HasRoom modulus.now.value limit }
    requires small { AreDense limit numbers.old }
    requires entries { AreWithin modulus.now.value (length numbers.old) entries.now }
    ensures count { length numbers.new ≡ length numbers.old }
    ensures adds { AddsMultiple modulus.now.value factor entries.now (lane row numbers.old) (lane row numbers.new) }
    ensures others { (j : ℕ) → j < 8 → (j ≡ row → ⊥) → lane j numbers.new ≡ lane j numbers.old }
    ensures small { AreDense limit numbers.new }
{
    for entry in entries {
        let eight = &mut numbers[entry.0 as usize];
        eight[row] = add_product(modulus, limit, eight[row], factor, entry.1);
    }
}

// Eight numbers and `residue` times the factors, less the limit where that is too great.
fn add_below_limit(
    _modulus: &Modulus,
    numbers: &[u64; 8],
    limit: u64,
    factors: &[u32; 8],
    residue: u32,
) -> [u64; 8]
    requires limit { HasRoom _modulus.now.value limit }
    requires small { (j : ℕ) → j < 8 → get_or numbers.now j 0 < limit }
    requires factors { (j : ℕ) → j < 8 → get_or factors.now j 0 < _modulus.now.value }
    requires residue { residue < _modulus.now.value }
    ensures small { (j : ℕ) → j < 8 → get_or result j 0 < limit }
    ensures congruent { (j : ℕ) → j < 8 → IsCongruent _modulus.now.value (get_or result j 0) (get_or numbers.now j 0 + get_or factors.now j 0 * residue) }
    ensures idle { (j : ℕ) → j < 8 → get_or factors.now j 0 ≡ 0 → get_or result j 0 ≡ get_or numbers.now j 0 }
{
    let mut sums = [0; 8];
    for j in 0..EIGHT {
        let more = numbers[j] + u64::from(factors[j]) * u64::from(residue);
        sums[j] = if more < limit { more } else { more - limit };
    }
    sums
}

// Adds the entries, each row's times its factor, to numbers that stay below the limit.
fn add_below_to_all(
    modulus: &Modulus,
    numbers: &mut [[u64; 8]],
    limit: u64,
    factors: &[u32; 8],
    entries: &[(u32, u32)],
)
    requires limit { HasRoom modulus.now.value limit }
    requires small { AreDense limit numbers.old }
    requires factors { (j : ℕ) → j < 8 → get_or factors.now j 0 < modulus.now.value }
    requires entries { AreWithin modulus.now.value (length numbers.old) entries.now }
    ensures count { length numbers.new ≡ length numbers.old }
    ensures adds { (j : ℕ) → j < 8 → AddsMultiple modulus.now.value (get_or factors.now j 0) entries.now (lane j numbers.old) (lane j numbers.new) }
    ensures idle { (j : ℕ) → j < 8 → get_or factors.now j 0 ≡ 0 → lane j numbers.new ≡ lane j numbers.old }
    ensures small { AreDense limit numbers.new }
{
    for entry in entries {
        let at = entry.0 as usize;
        numbers[at] = add_below_limit(modulus, &numbers[at], limit, factors, entry.1);
    }
}

// Adds the entries, whose columns are apart, each row's times its factor, to numbers below the limit: nothing is tested.
fn add_freely_to_all(
    modulus: &Modulus,
    numbers: &mut [[u64; 8]],
    _limit: u64,
    factors: &[u32; 8],
    entries: &[(u32, u32)],
)
    requires limit { _limit ≤ 2 ^ 63 }
    requires small { AreDense _limit numbers.old }
    requires factors { (j : ℕ) → j < 8 → get_or factors.now j 0 < modulus.now.value }
    requires within { AreWithin modulus.now.value (length numbers.old) entries.now }
    requires entries { (low : ℕ) × AreEntries modulus.now.value low (length numbers.old) entries.now }
    ensures count { length numbers.new ≡ length numbers.old }
    ensures adds { (j : ℕ) → j < 8 → AddsMultiple modulus.now.value (get_or factors.now j 0) entries.now (lane j numbers.old) (lane j numbers.new) }
    ensures idle { (j : ℕ) → j < 8 → get_or factors.now j 0 ≡ 0 → lane j numbers.new ≡ lane j numbers.old }
    ensures small { AreDense (_limit + modulus.now.value * modulus.now.value) numbers.new }
{
    for entry in entries {
        axpy_dense(&mut numbers[entry.0 as usize], entry.1, factors, modulus);
    }
}

/// Adds the entries to the numbers of all eight rows, each row's times its factor. The answer is the limit from then on: while
/// there is room it grows, and no number is tested; then it stays.
pub(crate) fn add_to_all(
    modulus: &Modulus,
    numbers: &mut [[u64; 8]],
    limit: u64,
    factors: &[u32; 8],
    entries: &[(u32, u32)],
) -> u64
    requires limit { HasRoom modulus.now.value limit }
    requires small { AreDense limit numbers.old }
    requires factors { (j : ℕ) → j < 8 → get_or factors.now j 0 < modulus.now.value }
    requires entries { (low : ℕ) × AreEntries modulus.now.value low (length numbers.old) entries.now }
    ensures count { length numbers.new ≡ length numbers.old }
    ensures adds { (j : ℕ) → j < 8 → AddsMultiple modulus.now.value (get_or factors.now j 0) entries.now (lane j numbers.old) (lane j numbers.new) }
    ensures idle { (j : ℕ) → j < 8 → get_or factors.now j 0 ≡ 0 → lane j numbers.new ≡ lane j numbers.old }
    ensures room { HasRoom modulus.now.value result }
    ensures small { AreDense result numbers.new }
{
    modulus.domain();
    if limit > FREE {
        add_below_to_all(modulus, numbers, limit, factors, entries);
        return limit;
    }
    add_freely_to_all(modulus, numbers, limit, factors, entries);
    limit + u64::from(modulus.value()) * u64::from(modulus.value())
}

/// The residues of the eight numbers of a column, which are 0 then.
pub(crate) fn take_residues(modulus: &Modulus, numbers: &mut [[u64; 8]], c: usize) -> [u32; 8]
    requires at { c < length numbers.old }
    ensures count { length numbers.new ≡ length numbers.old }
    ensures residues { (j : ℕ) → j < 8 → get_or result j 0 ≡ get_or (lane j numbers.old) c 0 % modulus.now.value }
    ensures taken { (j : ℕ) → j < 8 → lane j numbers.new ≡ set (lane j numbers.old) c 0 }
{
    modulus.domain();
    let mut left = numbers[c];
    numbers[c] = [0; 8];
    reduce_lanes(&mut left, modulus);
    let mut residues = [0; 8];
    for j in 0..EIGHT {
        residues[j] = left[j] as u32;
    }
    residues
}

/// The negatives of residues.
pub(crate) fn negate_all(modulus: &Modulus, residues: &[u32; 8]) -> [u32; 8]
    requires { (j : ℕ) → j < 8 → get_or residues.now j 0 < modulus.now.value }
    ensures small { (j : ℕ) → j < 8 → get_or result j 0 < modulus.now.value }
    ensures negative { (j : ℕ) → j < 8 → IsCongruent modulus.now.value (get_or result j 0 + get_or residues.now j 0) 0 }
    ensures idle { (j : ℕ) → j < 8 → get_or residues.now j 0 ≡ 0 → get_or result j 0 ≡ 0 }
{
    let mut factors = [0; 8];
    for j in 0..EIGHT {
        factors[j] = modulus.neg(residues[j]);
    }
    factors
}

// Are all eight numbers 0? Their bits are joined, so that one test serves for all.
fn are_zero(numbers: &[u64; 8]) -> bool
    ensures { IsTrue result → (j : ℕ) → j < 8 → get_or numbers.now j 0 ≡ 0 }
{
    let mut joined = 0;
    for j in 0..EIGHT {
        joined |= numbers[j];
    }
    if joined != 0 {
        return false;
    }
    true
}

/// The first column from this one on where one of the numbers is not 0, or the count of the columns.
pub(crate) fn next_column_of_all(numbers: &[[u64; 8]], from: u32, columns: u32) -> u32
    requires columns { columns ≡ length numbers.now }
    requires from { from ≤ columns }
    ensures from { from ≤ result }
    ensures within { result ≤ columns }
    ensures zeros { (j i : ℕ) → j < 8 → from ≤ i → i < result → get_or (lane j numbers.now) i 0 ≡ 0 }
{
    for c in from..columns {
        if !are_zero(&numbers[c as usize]) {
            return c;
        }
    }
    columns
}
