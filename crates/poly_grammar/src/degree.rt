//! The formal degree of a polynomial.

ghost use Rattle.std.specs.Prelude.{◌≡◌, ◌*◌, ℕ, List, reverse, IfOk};
ghost use Rattle.poly_grammar.specs.Algebras.{worth_of_steps, worth_step};
ghost use Rattle.poly_grammar.specs.Degrees.{bounded, degrees, formal_degree};
ghost use Rattle.poly_grammar.specs.Numerals.{number_of, numeral_value, text_of};
ghost use Rattle.poly_grammar.specs.Machine.{greater, stack_left};
ghost use Rattle.poly_grammar.specs.Steps.{steps as steps_of};
ghost use Rattle.poly_grammar.specs.Trees.{Poly};

use crate::numeral::{number, text};
use crate::step::PolyStep;
use std::alloc::{AllocError, Global};

/// The weights of names: of each the degree of the variable that it stands for.
pub trait NameWeights {
    /// The weight of a name with this text.
    ghost weight: { Self → List ℕ → ℕ };

    /// The weight of the name with this text.
    fn weight(&self, text: &[u8]) -> u32
        ensures { result ≡ weight self.now text.now };
}

/// The greatest formal degree that is allowed.
const GREATEST: u64 = 1000;

/// A degree, if it is allowed.
fn bounded(n: u64) -> Option<u32>
    ensures { result ≡ bounded n }
{
    if n <= GREATEST { Some(n as u32) } else { None }
}

/// The degree of a power, if it is allowed.
fn raised(degree: u32, exponent: &[u8]) -> Option<u32>
    ensures { result ≡ bounded (degree * number_of exponent.now) }
{
    if degree == 0 {
        return Some(0);
    }
    match number(exponent) {
        Some(n) if n <= 1000 => bounded(u64::from(degree) * n as u64),
        _ => None,
    }
}

/// Puts the greater of the two degrees on top in their place.
fn push_greater(stack: &mut Vec<u32>) -> Result<bool, AllocError>
    ensures { IfOk result (λ done. stack_left done stack.new.items ≡ greater (reverse stack.old.items)) }
{
    let (Some(right), Some(left)) = (stack.pop(), stack.pop()) else {
        return Ok(false);
    };
    stack.push(left.max(right))?;
    Ok(true)
}

/// Does one step on the stack of degrees, and says whether it could be done.
fn step_degree<N: NameWeights>(
    names: &N,
    line: &[u8],
    step: PolyStep,
    stack: &mut Vec<u32>,
) -> Result<bool, AllocError>
    ensures { IfOk result (λ done. stack_left done stack.new.items
        ≡ worth_step (degrees (λ t. N.weight names.now (text_of line.now t)) (numeral_value line.now)) step (reverse stack.old.items)) }
{
    match step {
        PolyStep::Number(_) => stack.push(0)?,
        PolyStep::Name(name) => {
            let Some(weight) = bounded(u64::from(names.weight(text(line, name)))) else {
                return Ok(false);
            };
            stack.push(weight)?;
        }
        PolyStep::Power(exponent) => {
            let Some(base) = stack.pop() else {
                return Ok(false);
            };
            let Some(power) = raised(base, text(line, exponent)) else {
                return Ok(false);
            };
            stack.push(power)?;
        }
        PolyStep::Multiply => {
            let (Some(right), Some(left)) = (stack.pop(), stack.pop()) else {
                return Ok(false);
            };
            let Some(product) = bounded(u64::from(left) + u64::from(right)) else {
                return Ok(false);
            };
            stack.push(product)?;
        }
        PolyStep::Add | PolyStep::Subtract => return push_greater(stack),
        PolyStep::Negate => return Ok(!stack.is_empty()),
    }
    Ok(true)
}

/// The degree that steps leave on top.
fn degree_left<N: NameWeights>(
    alloc: Global,
    names: &N,
    line: &[u8],
    steps: &[PolyStep],
) -> Result<Option<u32>, AllocError>
    ensures { IfOk result (λ found. found ≡ worth_of_steps (degrees (λ t. N.weight names.now (text_of line.now t)) (numeral_value line.now)) steps.now) }
{
    let mut stack = Vec::new(alloc);
    for step in steps {
        if !step_degree(names, line, *step, &mut stack)? {
            return Ok(None);
        }
    }
    Ok(stack.pop())
}

/// The formal degree of the polynomial of a line that has these steps, as `read_polynomial` gives them.
///
/// A number has degree 0 and a name its weight; a power has its base's degree times the exponent, a product the sum of its
/// factors' degrees, a sum the greatest of its terms'. None exactly where the degree of some part is above 1,000.
/// Answers `AllocError` where a growth was refused.
pub fn formal_degree<N: NameWeights>(
    alloc: Global,
    names: &N,
    line: &[u8],
    steps: &[PolyStep],
) -> Result<Option<u32>, AllocError>
    ensures { (p : Poly) → steps.now ≡ steps_of p
        → IfOk result (λ found. found ≡ formal_degree (λ t. N.weight names.now (text_of line.now t)) (numeral_value line.now) p) }
{
    degree_left(alloc, names, line, steps)
}
