//! One step of working out, on a stack of sums of terms with the last operand on top.
//!
//! Each step that is done has a worth and a formal degree, so that it finds its operands there, numbers below 2^128 and names
//! of variables. Answers `NoMemory` where a growth was refused, and leaves the stack to be dropped.

ghost use Rattle.std.specs.Prelude.{◌≡◌, ◌∷◌, [], reverse, MatchOption, OnOk};
ghost use Rattle.poly_grammar.specs.declared.step.PolyStep.TheVariants as steps;
ghost use Rattle.poly_value.specs.Parts.{Advances, IsStepReady};

use crate::names::place;
use crate::operands::{Operand, joined, operand_of};
use crate::parts::{constant_part, oppose, power_part, product_part, variable_part};
use module_vectors::{Frame, NoMemory};
use poly_grammar::{PolyStep, number, text};
use script_tokens::Token;
use std::alloc::Global;

/// Takes what is on top.
pub fn take_top(stack: &mut Vec<Operand>) -> Option<Operand>
    ensures { MatchOption result (reverse stack.old.items ≡ []) (λ operand. reverse stack.old.items ≡ operand ∷ reverse stack.new.items) }
{
    stack.pop()
}

/// Puts an operand on top.
fn put_top(stack: &mut Vec<Operand>, operand: Operand) -> Result<(), NoMemory>
    ensures { OnOk result (reverse stack.new.items ≡ operand ∷ reverse stack.old.items) }
{
    stack.push(operand)?;
    Ok(())
}

/// Puts a number.
fn put_number<F: Frame>(
    alloc: Global,
    frame: &F,
    line: &[u8],
    token: Token,
    stack: &mut Vec<Operand>,
) -> Result<(), NoMemory>
    requires { IsStepReady (F.over frame.now) line.now (steps.Number token) (reverse stack.old.items) }
    ensures { OnOk result (Advances (F.over frame.now) line.now (steps.Number token) (reverse stack.old.items) (reverse stack.new.items)) }
{
    let Some(n) = number(text(line, token)) else {
        unreachable!()
    };
    let terms = constant_part(alloc, frame, n)?;
    put_top(stack, operand_of(terms))
}

/// Puts the variable of a name.
fn put_name<F: Frame>(
    alloc: Global,
    frame: &F,
    line: &[u8],
    token: Token,
    stack: &mut Vec<Operand>,
) -> Result<(), NoMemory>
    requires { IsStepReady (F.over frame.now) line.now (steps.Name token) (reverse stack.old.items) }
    ensures { OnOk result (Advances (F.over frame.now) line.now (steps.Name token) (reverse stack.old.items) (reverse stack.new.items)) }
{
    let Some(i) = place(&frame.ring().vars, text(line, token)) else {
        unreachable!()
    };
    let terms = variable_part(alloc, frame, i)?;
    put_top(stack, operand_of(terms))
}

/// Raises the top to a power.
fn raise_top<F: Frame>(
    alloc: Global,
    frame: &F,
    line: &[u8],
    token: Token,
    stack: &mut Vec<Operand>,
) -> Result<(), NoMemory>
    requires { IsStepReady (F.over frame.now) line.now (steps.Power token) (reverse stack.old.items) }
    ensures { OnOk result (Advances (F.over frame.now) line.now (steps.Power token) (reverse stack.old.items) (reverse stack.new.items)) }
{
    let Some(base) = take_top(stack) else {
        unreachable!()
    };
    let Some(n) = number(text(line, token)) else {
        unreachable!()
    };
    let terms = power_part(alloc, frame, base.terms, n)?;
    put_top(stack, operand_of(terms))
}

/// Puts the product of the two on top in their place.
fn multiply_top<F: Frame>(
    alloc: Global,
    frame: &F,
    line: &[u8],
    stack: &mut Vec<Operand>,
) -> Result<(), NoMemory>
    requires { IsStepReady (F.over frame.now) line.now steps.Multiply (reverse stack.old.items) }
    ensures { OnOk result (Advances (F.over frame.now) line.now steps.Multiply (reverse stack.old.items) (reverse stack.new.items)) }
{
    let Some(right) = take_top(stack) else {
        unreachable!()
    };
    let Some(left) = take_top(stack) else {
        unreachable!()
    };
    let terms = product_part(alloc, frame, left.terms, right.terms)?;
    put_top(stack, operand_of(terms))
}

/// Puts the sum of the two on top in their place.
fn add_top<F: Frame>(
    alloc: Global,
    frame: &F,
    line: &[u8],
    stack: &mut Vec<Operand>,
) -> Result<(), NoMemory>
    requires { IsStepReady (F.over frame.now) line.now steps.Add (reverse stack.old.items) }
    ensures { OnOk result (Advances (F.over frame.now) line.now steps.Add (reverse stack.old.items) (reverse stack.new.items)) }
{
    let _line = line;
    let Some(right) = take_top(stack) else {
        unreachable!()
    };
    let Some(left) = take_top(stack) else {
        unreachable!()
    };
    let sum = joined(alloc, frame, left, right)?;
    put_top(stack, sum)
}

/// Puts the difference of the two on top in their place.
fn subtract_top<F: Frame>(
    alloc: Global,
    frame: &F,
    line: &[u8],
    stack: &mut Vec<Operand>,
) -> Result<(), NoMemory>
    requires { IsStepReady (F.over frame.now) line.now steps.Subtract (reverse stack.old.items) }
    ensures { OnOk result (Advances (F.over frame.now) line.now steps.Subtract (reverse stack.old.items) (reverse stack.new.items)) }
{
    let _line = line;
    let Some(mut right) = take_top(stack) else {
        unreachable!()
    };
    let Some(left) = take_top(stack) else {
        unreachable!()
    };
    oppose(frame, &mut right.terms);
    let sum = joined(alloc, frame, left, right)?;
    put_top(stack, sum)
}

/// Turns the sign of the top.
fn negate_top<F: Frame>(frame: &F, line: &[u8], stack: &mut Vec<Operand>) -> Result<(), NoMemory>
    requires { IsStepReady (F.over frame.now) line.now steps.Negate (reverse stack.old.items) }
    ensures { OnOk result (Advances (F.over frame.now) line.now steps.Negate (reverse stack.old.items) (reverse stack.new.items)) }
{
    let _line = line;
    let Some(mut operand) = take_top(stack) else {
        unreachable!()
    };
    oppose(frame, &mut operand.terms);
    put_top(stack, operand)
}

/// Does one step on the stack.
pub fn do_step<F: Frame>(
    alloc: Global,
    frame: &F,
    line: &[u8],
    step: PolyStep,
    stack: &mut Vec<Operand>,
) -> Result<(), NoMemory>
    requires { IsStepReady (F.over frame.now) line.now step (reverse stack.old.items) }
    ensures { OnOk result (Advances (F.over frame.now) line.now step (reverse stack.old.items) (reverse stack.new.items)) }
{
    match step {
        PolyStep::Number(token) => put_number(alloc, frame, line, token, stack),
        PolyStep::Name(token) => put_name(alloc, frame, line, token, stack),
        PolyStep::Power(token) => raise_top(alloc, frame, line, token, stack),
        PolyStep::Multiply => multiply_top(alloc, frame, line, stack),
        PolyStep::Add => add_top(alloc, frame, line, stack),
        PolyStep::Subtract => subtract_top(alloc, frame, line, stack),
        PolyStep::Negate => negate_top(frame, line, stack),
    }
}
