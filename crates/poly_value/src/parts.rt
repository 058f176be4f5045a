//! Sums of terms at position 0, in any order and with repeats, and what polynomials are made of them.
//!
//! A sum is brought to normal form where it is multiplied. Products and powers are those of a degree of at most 65,535.

ghost use Rattle.std.specs.Prelude.{◌≡◌, ◌-◌, ◌<◌, ◌∷◌, [], false, IfOk, IfSome, IsTrue};
ghost use Rattle.monomials.specs.Exponents.{unit};
ghost use Rattle.formal_sums.specs.FormalSums.{Each, FormalSum, product, scale};
ghost use Rattle.term_lists.specs.Multiples.{rescaled};
ghost use Rattle.term_lists.specs.Rings.{variables};
ghost use Rattle.term_lists.specs.Vectors.{HasPositions, IsVectorOver, StandsFor, sum_of};
ghost use Rattle.term_lists.specs.declared.stop.VectStop.TheVariants.{Memory};
ghost use Rattle.sparse_poly.specs.Powers.{constant, polynomial_power};
ghost use Rattle.poly_value.specs.Parts.{IsOperandPart, IsSum, PowerFits, ProductFitsBounds};
ghost use Rattle.poly_value.specs.Values.{variable_sum};

use module_vectors::{Frame, Key, NoMemory, Vect, VectStop};
use monomial_orders::Mono;
use sparse_poly::{formal_constant, mul, pow};
use std::alloc::Global;
use zp_field::Modulus;

/// The vector that terms stand for.
pub fn normal<F: Frame>(alloc: Global, frame: &F, terms: Vec<(Key, u32)>) -> Result<Vect, NoMemory>
    requires { IsSum (F.over frame.now) terms.items }
    ensures vector { IfOk result (λ v. IsVectorOver (F.over frame.now) (F.compare frame.now) v) }
    ensures polynomial { IfOk result (λ v. HasPositions 1 v) }
    ensures same { IfOk result (λ v. StandsFor (F.over frame.now) v (sum_of (variables (F.over frame.now)) terms.items)) }
{
    Vect::from_terms(alloc, frame, terms)
}

/// Turns the sign of each term.
fn negate(modulus: &Modulus, terms: &mut Vec<(Key, u32)>)
    requires { Each (λ t. t.1 < modulus.now.value) terms.old.items }
    ensures { terms.new.items ≡ rescaled modulus.now.value (modulus.now.value - 1) terms.old.items }
{
    modulus.domain();
    let minus_one = modulus.value() - 1;
    for i in 0..terms.len() {
        let residue = modulus.mul(minus_one, terms[i].1);
        terms[i].1 = residue;
    }
}

/// Turns the sign of a sum.
pub fn oppose<F: Frame>(frame: &F, terms: &mut Vec<(Key, u32)>)
    requires { IsSum (F.over frame.now) terms.old.items }
    ensures { (v : FormalSum (variables (F.over frame.now))) → IsOperandPart (F.over frame.now) v terms.old.items
        → IsOperandPart (F.over frame.now) (scale ((F.over frame.now).modulus.value - 1) (unit (variables (F.over frame.now))) v) terms.new.items }
{
    let modulus = &frame.ring().modulus;
    modulus.domain();
    negate(modulus, terms);
}

/// The answer to a stop that is want of memory.
fn no_memory(stop: VectStop) -> NoMemory
    requires { stop ≡ Memory }
{
    match stop {
        VectStop::Memory => NoMemory,
        VectStop::Degree(_, _) => unreachable!(),
    }
}

/// The terms of a constant.
pub fn constant_part<F: Frame>(
    alloc: Global,
    frame: &F,
    n: u128,
) -> Result<Vec<(Key, u32)>, NoMemory>
    ensures { IfOk result (λ terms. IsOperandPart (F.over frame.now) (constant (variables (F.over frame.now)) n) terms.items) }
{
    match formal_constant(alloc, frame, n) {
        Ok(v) => Ok(v.into_terms()),
        Err(stop) => Err(no_memory(stop)),
    }
}

/// The term of a variable, by its index from 0.
pub fn variable_part<F: Frame>(
    alloc: Global,
    frame: &F,
    i: usize,
) -> Result<Vec<(Key, u32)>, NoMemory>
    requires { i < variables (F.over frame.now) }
    ensures { IfOk result (λ terms. IsOperandPart (F.over frame.now) (variable_sum (variables (F.over frame.now)) i) terms.items) }
{
    let ring = frame.ring();
    ring.modulus.domain();
    let monomial = Mono::variable(alloc, &ring.weights, i)?;
    let mut terms = Vec::new(alloc);
    terms.push((
        Key {
            position: 0,
            monomial,
        },
        1,
    ))?;
    Ok(terms)
}

// The product of two terms; none where its degree is above 65,535, or there is no memory.
fn term_product<F: Frame>(
    alloc: Global,
    frame: &F,
    left: &(Key, u32),
    right: &(Key, u32),
) -> Option<(Key, u32)>
    requires left { IsSum (F.over frame.now) (left.now ∷ []) }
    requires right { IsSum (F.over frame.now) (right.now ∷ []) }
    ensures sum { IfSome result (λ t. IsSum (F.over frame.now) (t ∷ [])) }
    ensures product { let n = variables (F.over frame.now) in IfSome result
        (λ t. StandsFor (F.over frame.now) (t ∷ []) (product (sum_of n (left.now ∷ [])) (sum_of n (right.now ∷ [])))) }
{
    let modulus = &frame.ring().modulus;
    modulus.domain();
    match Mono::mul(alloc, &left.0.monomial, &right.0.monomial) {
        Ok(monomial) => {
            let position = 0;
            Some((Key { position, monomial }, modulus.mul(left.1, right.1)))
        }
        Err(_) => None,
    }
}

// Puts the product of two sums of one term each in the place of the first. Was that done?
fn single_product<F: Frame>(
    alloc: Global,
    frame: &F,
    left: &mut Vec<(Key, u32)>,
    right: &[(Key, u32)],
) -> bool
    requires left { IsSum (F.over frame.now) left.old.items }
    requires right { IsSum (F.over frame.now) right.now }
    ensures kept { result ≡ false → left.new.items ≡ left.old.items }
    ensures sum { IsTrue result → IsSum (F.over frame.now) left.new.items }
    ensures product { let n = variables (F.over frame.now) in IsTrue result
        → StandsFor (F.over frame.now) left.new.items (product (sum_of n left.old.items) (sum_of n right.now)) }
{
    if left.len() != 1 || right.len() != 1 {
        return false;
    }
    match term_product(alloc, frame, &left[0], &right[0]) {
        Some(term) => {
            left[0] = term;
            true
        }
        None => false,
    }
}

/// The terms of a product.
pub fn product_part<F: Frame>(
    alloc: Global,
    frame: &F,
    left: Vec<(Key, u32)>,
    right: Vec<(Key, u32)>,
) -> Result<Vec<(Key, u32)>, NoMemory>
    requires left { IsSum (F.over frame.now) left.items }
    requires right { IsSum (F.over frame.now) right.items }
    requires fits { ProductFitsBounds (F.over frame.now) left.items right.items }
    ensures { (v w : FormalSum (variables (F.over frame.now))) → IsOperandPart (F.over frame.now) v left.items → IsOperandPart (F.over frame.now) w right.items
        → IfOk result (λ terms. IsOperandPart (F.over frame.now) (product v w) terms.items) }
{
    frame.ring().modulus.domain();
    let mut left = left;
    if single_product(alloc, frame, &mut left, &right) {
        return Ok(left);
    }
    let left = normal(alloc, frame, left)?;
    let right = normal(alloc, frame, right)?;
    match mul(alloc, frame, &left, &right) {
        Ok(v) => Ok(v.into_terms()),
        Err(stop) => Err(no_memory(stop)),
    }
}

/// The terms of a power.
pub fn power_part<F: Frame>(
    alloc: Global,
    frame: &F,
    base: Vec<(Key, u32)>,
    n: u128,
) -> Result<Vec<(Key, u32)>, NoMemory>
    requires base { IsSum (F.over frame.now) base.items }
    requires fits { PowerFits (F.over frame.now) base.items n }
    ensures { (v : FormalSum (variables (F.over frame.now))) → IsOperandPart (F.over frame.now) v base.items
        → IfOk result (λ terms. IsOperandPart (F.over frame.now) (polynomial_power v n) terms.items) }
{
    frame.ring().modulus.domain();
    let base = normal(alloc, frame, base)?;
    match pow(alloc, frame, &base, n) {
        Ok(v) => Ok(v.into_terms()),
        Err(stop) => Err(no_memory(stop)),
    }
}
