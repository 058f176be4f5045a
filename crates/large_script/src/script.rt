// The script, written from left to right.
ghost use Rattle.std.specs.Prelude.{◌≡◌, ◌++◌, IfOk, OnOk, [], codes, if◌then◌else◌};
ghost use Rattle.large_script.specs.Script.{next_state, polynomial, polynomials, quadratic_term, residue, script_of, separated, state_after};

use crate::NoMemory;
use itoa::Buffer;
use std::alloc::Global;

// The products of two variables, the first not behind the second.
const PRODUCTS: [[u8; 3]; 21] = [
    *b"a*a", *b"a*b", *b"a*c", *b"a*d", *b"a*e", *b"a*f", *b"b*b", *b"b*c", *b"b*d", *b"b*e",
    *b"b*f", *b"c*c", *b"c*d", *b"c*e", *b"c*f", *b"d*d", *b"d*e", *b"d*f", *b"e*e", *b"e*f",
    *b"f*f",
];

/// The state that follows, of a linear congruential generator.
fn advance(state: u32) -> u32
    ensures { result ≡ next_state state }
{
    ((u64::from(state) * 1_103_515_245 + 12_345) % 2_147_483_648) as u32
}

/// Appends the separator, but not before the first text.
fn separate(out: &mut Vec<u8>, is_first: bool, separator: &[u8]) -> Result<(), NoMemory>
    ensures ok { OnOk result (out.new.items ≡ out.old.items ++ (if is_first then [] else separator.now)) }
{
    if !is_first {
        out.extend_from_slice(separator)?;
    }
    Ok(())
}

/// Appends a term, behind a `+` where it is not the first.
fn append_term(
    out: &mut Vec<u8>,
    is_first: bool,
    state: u32,
    product: &[u8],
) -> Result<(), NoMemory>
    ensures ok { OnOk result (out.new.items
        ≡ (out.old.items ++ (if is_first then [] else (codes "+"))) ++ quadratic_term (residue state) product.now) }
{
    separate(out, is_first, b"+")?;
    let mut buffer = Buffer::new();
    out.extend_from_slice(buffer.format(state / 65_536 % 32_003).as_bytes())?;
    out.push(b'*')?;
    out.extend_from_slice(product)?;
    Ok(())
}

/// Appends the polynomial that is drawn from this state, and answers the state behind it.
fn append_polynomial(out: &mut Vec<u8>, start: u32) -> Result<u32, NoMemory>
    ensures text { OnOk result (out.new.items ≡ out.old.items ++ polynomial start) }
    ensures state { IfOk result (λ state. state ≡ state_after start 21) }
{
    let mut state = start;
    for k in 0..PRODUCTS.len() {
        state = advance(state);
        match append_term(out, k == 0, state, &PRODUCTS[k]) {
            Ok(()) => {}
            Err(early) => return Err(early),
        }
    }
    Ok(state)
}

/// Appends the polynomials, joined by a comma and a blank.
fn append_polynomials(out: &mut Vec<u8>, seed: u32) -> Result<(), NoMemory>
    ensures ok { OnOk result (out.new.items ≡ out.old.items ++ separated (codes ", ") (polynomials seed 6)) }
{
    let mut state = seed;
    for k in 0..6_u32 {
        match separate(out, k == 0, b", ") {
            Ok(()) => {}
            Err(early) => return Err(early),
        }
        match append_polynomial(out, state) {
            Ok(behind) => state = behind,
            Err(early) => return Err(early),
        }
    }
    Ok(())
}

/// The script of a seed: a ring of six variables modulo 32003, the ideal of six quadrics whose 126 coefficients are drawn
/// from the seed, and two questions about it, `size` and `hilb`.
///
/// The generator of the numbers is the linear congruential one of the C standard's example, reduced modulo 2^31.
pub fn large_script(alloc: Global, seed: u32) -> Result<Vec<u8>, NoMemory>
    ensures { IfOk result (λ script. script.items ≡ script_of seed) }
{
    let mut script = Vec::from_slice(alloc, b"ring 32003 a,b,c,d,e,f grevlex\nideal L = ")?;
    append_polynomials(&mut script, seed)?;
    script.extend_from_slice(b"\nsize L\nhilb L\n")?;
    Ok(script)
}
