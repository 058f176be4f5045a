//! What a `let` line states.

ghost use Rattle.std.specs.Prelude.{◌≡◌, List, Vec as VecValue, map};
ghost use Rattle.std.specs.Global.{Global};
ghost use Rattle.std.specs.List.{AllByRecursion};
ghost use Rattle.std.specs.Str.{IsAscii};
ghost use Rattle.poly_grammar.specs.Numerals.{text_of};
ghost use Rattle.poly_grammar.specs.Steps.{steps};
ghost use Rattle.poly_grammar.specs.declared.step.PolyStep.{PolyStep as StepValue};
ghost use Rattle.term_lists.specs.declared.ring.Ring.{Ring as RingValue};
ghost use Rattle.script_forms.specs.Forms.{operands_of};
ghost use Rattle.script_forms.specs.Written.{WrittenOperation, operation_polys};
ghost use Rattle.script_forms.specs.declared.form.Head.TheVariants as heads;
ghost use Rattle.script_forms.specs.declared.operands.Operands.TheVariants as shapes;
ghost use Rattle.script_parse.specs.Tests.{IsOperationStated, IsStated, IsWorkable, operand_places};

use crate::kind::ParseStop;
use crate::name_text::name_of;
use crate::numbers::small_number;
use crate::operation::Operation;
use crate::stated::Statement;
use crate::values::list_value;
use module_vectors::Ring;
use poly_grammar::PolyStep;
use poly_value::polynomial_value;
use script_forms::{Binary, ByPolynomial, Operands};
use script_tokens::Token;
use std::alloc::Global;

/// The operation on two values.
fn of_two(
    alloc: Global,
    line: &[u8],
    word: Binary,
    left: Token,
    right: Token,
) -> Result<Operation, ParseStop>
    requires left { IsAscii (text_of line.now left) }
    requires right { IsAscii (text_of line.now right) }
    ensures { (ring : RingValue) (pieces : List (VecValue StepValue Global)) → IsOperationStated ring line.now (shapes.Two word left right) pieces result }
{
    let first = name_of(alloc, line, left)?;
    let second = name_of(alloc, line, right)?;
    match word {
        Binary::Sum => Ok(Operation::Sum(first, second)),
        Binary::Product => Ok(Operation::Product(first, second)),
        Binary::Intersect => Ok(Operation::Intersect(first, second)),
        Binary::Colon => Ok(Operation::Colon(first, second)),
    }
}

/// The operation on a value by a polynomial.
fn by_polynomial(
    alloc: Global,
    ring: &Ring,
    line: &[u8],
    word: ByPolynomial,
    value: Token,
    polynomials: &[Vec<PolyStep>],
) -> Result<Operation, ParseStop>
    requires ascii { IsAscii (text_of line.now value) }
    requires workable { AllByRecursion (IsWorkable ring.now line.now) polynomials.now }
    requires written { (w : WrittenOperation) × (operands_of w ≡ shapes.Polynomial word value)
        × (map (λ v. v.items) polynomials.now ≡ map steps (operation_polys w)) }
    ensures { IsOperationStated ring.now line.now (shapes.Polynomial word value) polynomials.now result }
{
    let name = name_of(alloc, line, value)?;
    let Some((steps, _)) = polynomials.split_first() else {
        unreachable!()
    };
    match polynomial_value(alloc, ring, line, steps) {
        Ok(polynomial) => match word {
            ByPolynomial::Quotient => Ok(Operation::Quotient(name, polynomial)),
            ByPolynomial::Saturate => Ok(Operation::Saturate(name, polynomial)),
        },
        Err(_) => Err(ParseStop::Memory),
    }
}

/// The operation of `eliminate`. A number of 2^32 or more is one of variables whose names no memory holds.
fn elimination(
    alloc: Global,
    line: &[u8],
    value: Token,
    count: Token,
) -> Result<Operation, ParseStop>
    requires { IsAscii (text_of line.now value) }
    ensures { (ring : RingValue) (pieces : List (VecValue StepValue Global)) → IsOperationStated ring line.now (shapes.Eliminate value count) pieces result }
{
    let name = name_of(alloc, line, value)?;
    match small_number(line, count) {
        Some(k) => Ok(Operation::Eliminate(name, k)),
        None => Err(ParseStop::Memory),
    }
}

/// The operation of `syz`.
fn syzygies(alloc: Global, line: &[u8], value: Token) -> Result<Operation, ParseStop>
    requires { IsAscii (text_of line.now value) }
    ensures { (ring : RingValue) (pieces : List (VecValue StepValue Global)) → IsOperationStated ring line.now (shapes.Syzygies value) pieces result }
{
    let name = name_of(alloc, line, value)?;
    Ok(Operation::Syzygies(name))
}

/// The operation of `preimage`.
fn preimage(
    alloc: Global,
    ring: &Ring,
    line: &[u8],
    value: Token,
    polynomials: &[Vec<PolyStep>],
) -> Result<Operation, ParseStop>
    requires ascii { IsAscii (text_of line.now value) }
    requires workable { AllByRecursion (IsWorkable ring.now line.now) polynomials.now }
    ensures { IsOperationStated ring.now line.now (shapes.Preimage value) polynomials.now result }
{
    let name = name_of(alloc, line, value)?;
    match list_value(alloc, ring, line, polynomials) {
        Ok(images) => Ok(Operation::Preimage(name, images)),
        Err(_) => Err(ParseStop::Memory),
    }
}

/// The operation that operands and polynomials are.
fn operation_of(
    alloc: Global,
    ring: &Ring,
    line: &[u8],
    operands: Operands,
    polynomials: &[Vec<PolyStep>],
) -> Result<Operation, ParseStop>
    requires ascii { AllByRecursion (λ t. IsAscii (text_of line.now t)) (operand_places operands) }
    requires workable { AllByRecursion (IsWorkable ring.now line.now) polynomials.now }
    requires written { (w : WrittenOperation) × (operands_of w ≡ operands) × (map (λ v. v.items) polynomials.now ≡ map steps (operation_polys w)) }
    ensures { IsOperationStated ring.now line.now operands polynomials.now result }
{
    match operands {
        Operands::Two(word, left, right) => of_two(alloc, line, word, left, right),
        Operands::Polynomial(word, value) => {
            by_polynomial(alloc, ring, line, word, value, polynomials)
        }
        Operands::Eliminate(value, count) => elimination(alloc, line, value, count),
        Operands::Syzygies(value) => syzygies(alloc, line, value),
        Operands::Preimage(value) => preimage(alloc, ring, line, value, polynomials),
    }
}

/// The statement of `let`.
pub fn let_statement(
    alloc: Global,
    ring: &Ring,
    line: &[u8],
    given: Token,
    operands: Operands,
    polynomials: &[Vec<PolyStep>],
) -> Result<Statement, ParseStop>
    requires ascii { IsAscii (text_of line.now given) }
    requires places { AllByRecursion (λ t. IsAscii (text_of line.now t)) (operand_places operands) }
    requires workable { AllByRecursion (IsWorkable ring.now line.now) polynomials.now }
    requires written { (w : WrittenOperation) × (operands_of w ≡ operands) × (map (λ v. v.items) polynomials.now ≡ map steps (operation_polys w)) }
    ensures { IsStated ring.now line.now (heads.Let given operands) polynomials.now result }
{
    let name = name_of(alloc, line, given)?;
    match operation_of(alloc, ring, line, operands, polynomials) {
        Ok(operation) => Ok(Statement::Let(name, operation)),
        Err(stop) => Err(stop),
    }
}
