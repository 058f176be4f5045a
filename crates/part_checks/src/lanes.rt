// Both kernels beside their plain loops, at lengths about one and more vectors, over each modulus.
ghost use Rattle.std.specs.Prelude.{◌≡◌, ◌<◌, ◌≤◌, ◌+◌, ◌-◌, ◌^◌, length};
ghost use Rattle.lane_kernels.specs.Places.{AreNumbersBelow};

use lane_kernels::{axpy_dense, reduce_lanes};
use std::test::Fail;
use zp_field::Modulus;

// One place after another.
fn add_plainly(acc: &mut [u64], c: u32, row: &[u32]) {
    for (number, residue) in acc.iter_mut().zip(row) {
        *number = number.wrapping_add(u64::from(c).wrapping_mul(u64::from(*residue)));
    }
}

fn reduce_plainly(acc: &mut [u64], p: u64)
    requires { 0 < p }
{
    for number in acc.iter_mut() {
        *number %= p;
    }
}

// Residues that differ from place to place.
fn fill_row(row: &mut [u32], p: &Modulus)
    ensures count { length row.new ≡ length row.old }
    ensures residues { AreNumbersBelow p.now.value row.new }
{
    for i in 0..row.len() {
        row[i] = p.from_u128(3 * i as u128 + 2147483600);
    }
}

// Numbers below 2^63 that differ from place to place.
fn fill_numbers(acc: &mut [u64])
    ensures count { length acc.new ≡ length acc.old }
    ensures small { AreNumbersBelow (2 ^ 63) acc.new }
{
    for i in 0..acc.len() {
        acc[i] = (i as u64).wrapping_mul(0x9e37_79b9_7f4a_7c15) / 2;
    }
}

// Adds a row to numbers below the limit, which are then below a higher one.
fn add_below(acc: &mut [u64], _limit: u64, c: u32, row: &[u32], p: &Modulus)
    requires count { length row.now ≡ length acc.old }
    requires factor { c < p.now.value }
    requires row { AreNumbersBelow p.now.value row.now }
    requires limit { _limit ≤ 2 ^ 63 }
    requires numbers { AreNumbersBelow _limit acc.old }
    ensures count { length acc.new ≡ length acc.old }
    ensures numbers { AreNumbersBelow (_limit + (2 ^ 62 - 1)) acc.new }
{
    p.domain();
    axpy_dense(acc, c, row, p);
}

// Three times (p - 1)^2 at each place, modulo p.
fn three_times(p: &Modulus) -> [u64; 33] {
    p.domain();
    let c = p.value() - 1;
    let row = [c; 33];
    let mut acc = [0; 33];
    add_below(&mut acc, 1, c, &row, p);
    add_below(&mut acc, 0x4000_0000_0000_0000, c, &row, p);
    add_below(&mut acc, 0x7fff_ffff_ffff_ffff, c, &row, p);
    reduce_lanes(&mut acc, p);
    acc
}

// Whether the kernels do to the first `count` places what the plain loops do.
fn is_as_plain(p: &Modulus, count: usize) -> bool
    requires { count ≤ 33 }
{
    p.domain();
    let c = p.value() - 1;
    let mut row = [0; 33];
    let mut acc = [0; 33];
    let mut plain = [0; 33];
    fill_row(&mut row, p);
    fill_numbers(&mut acc);
    fill_numbers(&mut plain);
    axpy_dense(&mut acc[..count], c, &row[..count], p);
    add_plainly(&mut plain[..count], c, &row[..count]);
    if acc != plain {
        return false;
    }
    reduce_lanes(&mut acc[..count], p);
    reduce_plainly(&mut plain[..count], u64::from(p.value()));
    acc == plain
}

#[test]
fn rows(rt: HostRuntime) -> Result<(), Fail> {
    for p in [2, 3, 5, 7, 101, 32003, 32749, 65521, 2147483647] {
        let Some(modulus) = Modulus::of(p) else {
            assert!(rt; false, "{p}");
            return Ok(());
        };
        for count in [0, 1, 31, 32, 33] {
            assert!(rt; is_as_plain(&modulus, count), "{count} places modulo {p}");
        }
        assert_eq!(rt; three_times(&modulus), [3 % p; 33], "modulo {p}");
    }
    Ok(())
}
