// Multiples of products are added to the sums.
ghost use Rattle.std.specs.Prelude.{◌≡◌, ◌<◌, ◌%◌, ◌*◌, ◌+◌, ◌^◌, [], ℕ, Contains, IsTrue, OnOk, get_or, length};
ghost use Rattle.residues.specs.Residues.{IsCongruent};
ghost use Rattle.formal_sums.specs.FormalSums.{Each, IsSame, Key as SumKey};
ghost use Rattle.numbered_sums.specs.KeySums.{AddsProduct, AreEntriesWithin, AreSmall, AreTouched, AreZeroSums, numbered_sum};

use module_vectors::NoMemory;
use zp_field::Modulus;

// From here on a sum is reduced: below it there is room for the product of two residues more in 64 bits.
const GREAT: u64 = 1 << 63;

// The sum and the product of two residues more.
fn add_product(modulus: &Modulus, sum: u64, factor: u32, residue: u32) -> u64
    requires sum { sum < 2 ^ 63 }
    requires factor { factor < modulus.now.value }
    requires residue { residue < modulus.now.value }
    ensures small { result < 2 ^ 63 }
    ensures congruent { IsCongruent modulus.now.value result (sum + factor * residue) }
{
    modulus.domain();
    let more = sum + u64::from(factor) * u64::from(residue);
    if more < GREAT {
        more
    } else {
        more % u64::from(modulus.value())
    }
}

// Puts the number behind the others where its sum is 0.
fn touch(number: u32, sum: u64, touched: &mut Vec<u32>) -> Result<(), NoMemory>
    ensures kept { (i : ℕ) → OnOk result (Contains touched.old.items i → Contains touched.new.items i) }
    ensures added { OnOk result (sum ≡ 0 → Contains touched.new.items number) }
{
    if sum == 0 {
        touched.push(number)?;
    }
    Ok(())
}

/// Adds `factor` times the entries to the sums.
pub fn add_multiple(
    modulus: &Modulus,
    factor: u32,
    entries: &[(u32, u32)],
    sums: &mut [u64],
    touched: &mut Vec<u32>,
) -> Result<(), NoMemory>
    requires factor { factor < modulus.now.value }
    requires small { AreSmall sums.old }
    requires touched { AreTouched touched.old.items sums.old }
    requires within { AreEntriesWithin modulus.now.value (length sums.old) entries.now }
    ensures adds { OnOk result (AddsProduct modulus.now.value factor entries.now sums.old sums.new) }
    ensures small { OnOk result (AreSmall sums.new) }
    ensures touched { OnOk result (AreTouched touched.new.items sums.new) }
{
    modulus.domain();
    for entry in entries {
        let at = entry.0 as usize;
        let sum = sums[at];
        touch(entry.0, sum, touched)?;
        sums[at] = add_product(modulus, sum, factor, entry.1);
    }
    Ok(())
}

/// The residue of the sum with this number, 0 past the end.
pub fn residue_at(modulus: &Modulus, sums: &[u64], number: u32) -> u32
    ensures reduced { result < modulus.now.value }
    ensures residue { number < length sums.now → result ≡ get_or sums.now number 0 % modulus.now.value }
{
    modulus.domain();
    if number as usize >= sums.len() {
        return 0;
    }
    (sums[number as usize] % u64::from(modulus.value())) as u32
}

/// Sets the touched sums to 0. Were they 0 modulo p?
pub fn clear_sums(modulus: &Modulus, touched: &[u32], sums: &mut Vec<u64>) -> bool
    requires { AreTouched touched.now sums.old.items }
    ensures same { (n : ℕ) (key : ℕ → SumKey n) → IsTrue result
        → IsSame modulus.now.value (numbered_sum key 0 sums.old.items) [] }
    ensures idle { IsTrue result → AreZeroSums sums.new.items }
    ensures none { Each (λ t. t < length sums.old.items) touched.now → Each (λ a. a % modulus.now.value ≡ 0) sums.old.items → IsTrue result }
    ensures count { length sums.new.items ≡ length sums.old.items }
{
    modulus.domain();
    for number in touched {
        let at = *number as usize;
        if at >= sums.len() || sums[at] % u64::from(modulus.value()) != 0 {
            return false;
        }
        sums[at] = 0;
    }
    true
}
