//! The tests of a line's names, ranks and degrees.

ghost use Rattle.std.specs.Prelude.{◌≡◌, IfOk, length};
ghost use Rattle.std.specs.List.{AllByRecursion, list_all};
ghost use Rattle.poly_grammar.specs.Numerals.{numeral_value, text_of};
ghost use Rattle.script_parse.specs.Refusals.{length_named, rank_named};
ghost use Rattle.script_parse.specs.Tests.{AreStepsOfPolynomial, factor_fits, given_name, has_width, is_known, is_no_value, is_no_variable, length_fits, low_degree, low_rank, module_fits, names_pass, number_fits, operand_places, operands_fit, rank_fits, same_rank, value_operands};

use crate::name_table::NameTable;
use crate::named::{length_named, rank_named};
use crate::numbers::{is_at_most, is_within, number_within};
use module_vectors::{Names, Ring};
use poly_grammar::{PolyStep, formal_degree, text};
use poly_value::{RingNames, place};
use script_forms::{Binary, Head, Operands, OrderName, Shape};
use script_tokens::Token;
use std::alloc::{AllocError, Global};

/// The greatest number of an ideal's or a module's vectors.
const GENERATORS: usize = 1000;

/// The greatest rank, and the greatest length of a list whose syzygies are asked for.
const RANK: u32 = 64;

/// Whether the text is a variable or the name of a value.
fn is_known(vars: &Names, names: &NameTable, text: &[u8]) -> bool
    ensures { result ≡ is_known vars.now names.now text.now }
{
    place(vars, text).is_some() || rank_named(names, text).is_some()
}

/// Whether each name among the steps is a variable or a value.
fn steps_known(line: &[u8], vars: &Names, names: &NameTable, steps: &[PolyStep]) -> bool
    ensures { result ≡ names_pass (is_known vars.now names.now) line.now steps.now }
{
    for step in steps {
        if let PolyStep::Name(token) = *step {
            if !is_known(vars, names, text(line, token)) {
                return false;
            }
        }
    }
    true
}

/// Whether no variable has the name of a value.
fn variables_apart(vars: &Names, names: &NameTable) -> bool
    ensures { result ≡ list_all (is_no_value names.now) vars.now }
{
    let all = vars.as_slice();
    for name in all {
        if rank_named(names, name.as_bytes()).is_some() {
            return false;
        }
    }
    true
}

/// Whether the text is not the name of a value. Where no variable is, a variable is not searched for among the values.
fn is_no_value(vars: &Names, names: &NameTable, apart: bool, text: &[u8]) -> bool
    requires { apart ≡ list_all (is_no_value names.now) vars.now }
    ensures { result ≡ is_no_value names.now text.now }
{
    if apart && place(vars, text).is_some() {
        return true;
    }
    rank_named(names, text).is_none()
}

/// Whether no name among the steps is a value.
fn steps_free(line: &[u8], vars: &Names, names: &NameTable, apart: bool, steps: &[PolyStep]) -> bool
    requires { apart ≡ list_all (is_no_value names.now) vars.now }
    ensures { result ≡ names_pass (is_no_value names.now) line.now steps.now }
{
    for step in steps {
        if let PolyStep::Name(token) = *step {
            if !is_no_value(vars, names, apart, text(line, token)) {
                return false;
            }
        }
    }
    true
}

/// Whether each name in the polynomials is a variable or a value.
pub fn polynomials_known(
    line: &[u8],
    vars: &Names,
    names: &NameTable,
    polynomials: &[Vec<PolyStep>],
) -> bool
    ensures { result ≡ list_all (λ v. names_pass (is_known vars.now names.now) line.now v.items) polynomials.now }
{
    for steps in polynomials {
        if !steps_known(line, vars, names, steps) {
            return false;
        }
    }
    true
}

/// Whether no name in the polynomials is a value.
pub fn polynomials_free(
    line: &[u8],
    vars: &Names,
    names: &NameTable,
    polynomials: &[Vec<PolyStep>],
) -> bool
    ensures { result ≡ list_all (λ v. names_pass (is_no_value names.now) line.now v.items) polynomials.now }
{
    let apart = variables_apart(vars, names);
    for steps in polynomials {
        if !steps_free(line, vars, names, apart, steps) {
            return false;
        }
    }
    true
}

/// Whether each name of an operation in a value's place is a variable or a value.
fn operands_known(line: &[u8], vars: &Names, names: &NameTable, operands: Operands) -> bool
    ensures { result ≡ list_all (λ t. is_known vars.now names.now (text_of line.now t)) (operand_places operands) }
{
    match operands {
        Operands::Two(_, left, right) => {
            is_known(vars, names, text(line, left)) && is_known(vars, names, text(line, right))
        }
        Operands::Polynomial(_, value)
        | Operands::Eliminate(value, _)
        | Operands::Syzygies(value)
        | Operands::Preimage(value) => is_known(vars, names, text(line, value)),
    }
}

/// Whether no name of an operation in a value's place is a variable.
fn operands_free(line: &[u8], vars: &Names, operands: Operands) -> bool
    ensures { result ≡ list_all (λ t. is_no_variable vars.now (text_of line.now t)) (operand_places operands) }
{
    match operands {
        Operands::Two(_, left, right) => {
            place(vars, text(line, left)).is_none() && place(vars, text(line, right)).is_none()
        }
        Operands::Polynomial(_, value)
        | Operands::Eliminate(value, _)
        | Operands::Syzygies(value)
        | Operands::Preimage(value) => place(vars, text(line, value)).is_none(),
    }
}

/// Whether each name in a value's place is a variable or a value.
pub fn places_known(line: &[u8], vars: &Names, names: &NameTable, head: Head) -> bool
    ensures { result ≡ list_all (λ t. is_known vars.now names.now (text_of line.now t)) (value_operands head) }
{
    match head {
        Head::Show | Head::Ideal(_) | Head::Module(_, _, _) | Head::Express => true,
        Head::Let(_, operands) => operands_known(line, vars, names, operands),
        Head::Ask(_, value) => is_known(vars, names, text(line, value)),
        Head::Divide(_, value) => is_known(vars, names, text(line, value)),
        Head::Change(value, _) => is_known(vars, names, text(line, value)),
        Head::Ext(value, _) => is_known(vars, names, text(line, value)),
        Head::Equal(left, right) => {
            is_known(vars, names, text(line, left)) && is_known(vars, names, text(line, right))
        }
    }
}

/// Whether no name in a value's place is a variable.
pub fn places_free(line: &[u8], vars: &Names, head: Head) -> bool
    ensures { result ≡ list_all (λ t. is_no_variable vars.now (text_of line.now t)) (value_operands head) }
{
    match head {
        Head::Show | Head::Ideal(_) | Head::Module(_, _, _) | Head::Express => true,
        Head::Let(_, operands) => operands_free(line, vars, operands),
        Head::Ask(_, value) => place(vars, text(line, value)).is_none(),
        Head::Divide(_, value) => place(vars, text(line, value)).is_none(),
        Head::Change(value, _) => place(vars, text(line, value)).is_none(),
        Head::Ext(value, _) => place(vars, text(line, value)).is_none(),
        Head::Equal(left, right) => {
            place(vars, text(line, left)).is_none() && place(vars, text(line, right)).is_none()
        }
    }
}

/// Whether the name to be given, if there is one, is no variable.
pub fn given_free(line: &[u8], vars: &Names, head: Head) -> bool
    ensures { result ≡ list_all (λ t. is_no_variable vars.now (text_of line.now t)) (given_name head) }
{
    match head {
        Head::Ideal(given) | Head::Module(given, _, _) | Head::Let(given, _) => {
            place(vars, text(line, given)).is_none()
        }
        Head::Show
        | Head::Ask(_, _)
        | Head::Divide(_, _)
        | Head::Equal(_, _)
        | Head::Change(_, _)
        | Head::Express
        | Head::Ext(_, _) => true,
    }
}

/// Whether the number of `eliminate`, or of an order `elim`, is from 1 to the number of variables, and that of `ext` at most that.
pub fn number_fits(line: &[u8], vars: &Names, head: Head) -> bool
    ensures { result ≡ number_fits (length vars.now) line.now head }
{
    match head {
        Head::Let(_, Operands::Eliminate(_, count)) => is_within(
            line,
            count,
            vars.as_slice().len(),
        ),
        Head::Change(_, OrderName::Elim(count)) => is_within(line, count, vars.as_slice().len()),
        Head::Ext(_, count) => is_at_most(line, count, vars.as_slice().len()),
        _ => true,
    }
}

/// Whether a value has no rank above 1, where it is there.
fn is_low(line: &[u8], names: &NameTable, value: Token) -> bool
    ensures { result ≡ low_rank (rank_named names.now (text_of line.now value)) }
{
    match rank_named(names, text(line, value)) {
        Some(rank) => rank <= 1,
        None => true,
    }
}

/// Whether the first operand of `product`, or the value of `preimage`, has no rank above 1.
pub fn factor_fits(line: &[u8], names: &NameTable, head: Head) -> bool
    ensures { result ≡ factor_fits names.now line.now head }
{
    match head {
        Head::Let(_, Operands::Two(Binary::Product, left, _)) => is_low(line, names, left),
        Head::Let(_, Operands::Preimage(value)) => is_low(line, names, value),
        _ => true,
    }
}

/// Whether two values have the same rank, where both are there.
fn ranks_agree(line: &[u8], names: &NameTable, left: Token, right: Token) -> bool
    ensures { result ≡ same_rank (rank_named names.now (text_of line.now left)) (rank_named names.now (text_of line.now right)) }
{
    let Some(first) = rank_named(names, text(line, left)) else {
        return true;
    };
    let Some(second) = rank_named(names, text(line, right)) else {
        return true;
    };
    first == second
}

/// Whether a value's stored list is neither empty nor longer than 64, where the value is there.
fn list_fits(line: &[u8], names: &NameTable, value: Token) -> bool
    ensures { result ≡ length_fits (length_named names.now (text_of line.now value)) }
{
    match length_named(names, text(line, value)) {
        Some(length) => length >= 1 && length <= u64::from(RANK),
        None => true,
    }
}

/// Whether the ranks and lengths of operands fit, with so many polynomials in the variables.
fn operands_fit(
    line: &[u8],
    vars: &Names,
    names: &NameTable,
    operands: Operands,
    count: usize,
) -> bool
    ensures { result ≡ operands_fit (length vars.now) names.now line.now operands count }
{
    match operands {
        Operands::Two(Binary::Product, _, _) => true,
        Operands::Two(_, left, right) => ranks_agree(line, names, left, right),
        Operands::Syzygies(value) => list_fits(line, names, value),
        Operands::Polynomial(_, _) | Operands::Eliminate(_, _) => true,
        Operands::Preimage(_) => count == vars.as_slice().len(),
    }
}

/// Whether all vectors of the shape have so many entries.
fn has_width(rank: u32, shape: Shape) -> bool
    ensures { result ≡ has_width rank shape }
{
    match shape {
        Shape::Empty => true,
        Shape::Each(count) => count as u64 == u64::from(rank),
        Shape::Mixed => false,
    }
}

/// Whether vectors of the shape with so many entries in all are at most 1,000 of the rank, which is from 1 to 64.
fn module_fits(line: &[u8], rank: Token, shape: Shape, count: usize) -> bool
    ensures { result ≡ module_fits (numeral_value line.now rank) shape count }
{
    match number_within(line, rank, RANK) {
        Some(rank) => has_width(rank, shape) && count <= GENERATORS * rank as usize,
        None => false,
    }
}

/// Whether the ranks fit: those of two values, or the rank of a value or a module and how many entries the vectors have, which
/// are as many as the polynomials; whether an ideal or a module has few enough vectors; and whether there are as many images as
/// variables, where images are wanted.
pub fn rank_fits(line: &[u8], vars: &Names, names: &NameTable, head: Head, count: usize) -> bool
    ensures { result ≡ rank_fits (length vars.now) names.now line.now head count }
{
    match head {
        Head::Show | Head::Ask(_, _) | Head::Ext(_, _) => true,
        Head::Ideal(_) => count <= GENERATORS,
        Head::Module(_, rank, shape) => module_fits(line, rank, shape, count),
        Head::Let(_, operands) => operands_fit(line, vars, names, operands, count),
        Head::Divide(_, value) => match rank_named(names, text(line, value)) {
            Some(rank) => rank == count as u64,
            None => true,
        },
        Head::Equal(left, right) => ranks_agree(line, names, left, right),
        Head::Change(value, _) => match rank_named(names, text(line, value)) {
            Some(rank) => rank == 1,
            None => true,
        },
        Head::Express => count > 0 && count - 1 == vars.as_slice().len(),
    }
}

/// Whether the formal degree by the ring's weights of each polynomial, and of each part of it, is at most 1,000.
pub fn degrees_fit(
    alloc: Global,
    line: &[u8],
    ring: &Ring,
    polynomials: &[Vec<PolyStep>],
) -> Result<bool, AllocError>
    requires { AllByRecursion AreStepsOfPolynomial polynomials.now }
    ensures { IfOk result (λ fit. fit ≡ list_all (λ v. low_degree ring.now line.now v.items) polynomials.now) }
{
    let names = RingNames::new(ring);
    for steps in polynomials {
        if formal_degree(alloc, &names, line, steps)?.is_none() {
            return Ok(false);
        }
    }
    Ok(true)
}
