// Products of numbers and powers of variables.
ghost use Rattle.std.specs.Prelude.{◌≡◌, ◌<◌, IfOk, IfSome, length};
ghost use Rattle.term_lists.specs.Rings.{variables};
ghost use Rattle.term_lists.specs.Vectors.{IsMonomialOver};

use crate::no_value::NoValue;
use module_vectors::Ring;
use monomial_orders::Mono;
use std::alloc::Global;

// The index of the variable with this name.
fn index_of(names: &[String], name: &str) -> Option<usize>
    ensures { IfSome result (λ i. i < length names.now) }
{
    for i in 0..names.len() {
        if names[i].as_str() == name {
            return Some(i);
        }
    }
    None
}

// The index and the exponent of a text `NAME` or `NAME^NUM`.
fn power_of(names: &[String], text: &str) -> Option<(usize, u16)>
    ensures { IfSome result (λ power. power.0 < length names.now) }
{
    let (name, exponent) = text.split_once('^').unwrap_or((text, "1"));
    let index = index_of(names, name)?;
    match exponent.parse::<u16>() {
        Ok(exponent) => Some((index, exponent)),
        Err(_) => None,
    }
}

// Multiplies by a power of a variable; false where the text is none, or the exponent would be too great.
fn put_power(names: &[String], text: &str, exponents: &mut Vec<u16>) -> bool
    requires { length exponents.old.items ≡ length names.now }
    ensures { length exponents.new.items ≡ length exponents.old.items }
{
    let Some((index, exponent)) = power_of(names, text) else {
        return false;
    };
    match exponents[index].checked_add(exponent) {
        Some(sum) => {
            exponents[index] = sum;
            true
        }
        None => false,
    }
}

fn zeros(alloc: Global, count: usize) -> Result<Vec<u16>, NoValue>
    ensures { IfOk result (λ zeros. length zeros.items ≡ count) }
{
    let mut zeros = Vec::new(alloc);
    zeros.resize(count, 0u16)?;
    Ok(zeros)
}

/// The monomial and the residue of a number times a text `FACTOR{*FACTOR}` with the factors `NUM`, `NAME` and `NAME^NUM`.
pub(crate) fn multiple_of(
    alloc: Global,
    ring: &Ring,
    number: u128,
    text: &str,
) -> Result<(Mono, u32), NoValue>
    ensures over { IfOk result (λ t. IsMonomialOver ring.now t.0) }
    ensures residue { IfOk result (λ t. t.1 < ring.now.modulus.value) }
{
    let mut residue = ring.modulus.from_u128(number);
    let mut exponents = zeros(alloc, ring.vars.len())?;
    for factor in text.split('*') {
        if let Ok(number) = factor.parse::<u128>() {
            residue = ring.modulus.mul(residue, ring.modulus.from_u128(number));
        } else if !put_power(ring.vars.as_slice(), factor, &mut exponents) {
            return Err(NoValue);
        }
    }
    let monomial = Mono::from_exponents(alloc, &ring.weights, &exponents)?;
    Ok((monomial, residue))
}

/// The monomial and the residue of a text `FACTOR{*FACTOR}` with the factors `NUM`, `NAME` and `NAME^NUM`.
pub fn product_of(alloc: Global, ring: &Ring, text: &str) -> Result<(Mono, u32), NoValue>
    ensures over { IfOk result (λ t. IsMonomialOver ring.now t.0) }
    ensures residue { IfOk result (λ t. t.1 < ring.now.modulus.value) }
{
    multiple_of(alloc, ring, 1, text)
}
