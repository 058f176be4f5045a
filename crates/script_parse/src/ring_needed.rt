//! What a line that needs a ring states.

ghost use Rattle.std.specs.Prelude.{◌≡◌, ◌<◌, List, MatchOption, Vec as VecValue, length, true};
ghost use Rattle.std.specs.Global.{Global};
ghost use Rattle.std.specs.List.{AllByRecursion};
ghost use Rattle.std.specs.Option.{option_copied};
ghost use Rattle.std.specs.Str.{IsAscii};
ghost use Rattle.poly_grammar.specs.Numerals.{numeral_value, text_of};
ghost use Rattle.poly_grammar.specs.declared.step.PolyStep.{PolyStep as StepValue};
ghost use Rattle.term_lists.specs.declared.ring.Ring.{Ring as RingValue};
ghost use Rattle.script_forms.specs.Forms.{IsLineOf};
ghost use Rattle.script_forms.specs.Written.{Written};
ghost use Rattle.script_forms.specs.declared.form.Head.TheVariants as heads;
ghost use Rattle.script_parse.specs.Statements.{order_stated};
ghost use Rattle.script_parse.specs.Tests.{AnswersForm, HasGreatElim, HaveNumerals, AreStepsOfPolynomial, IsStated, IsWorkable, head_names, known_names, module_fits, rank_fits, right_kinds};

use crate::checks::{
    degrees_fit, factor_fits, given_free, number_fits, places_free, places_known, polynomials_free,
    polynomials_known, rank_fits,
};
use crate::kind::{Kind, ParseStop};
use crate::name_table::NameTable;
use crate::name_text::name_of;
use crate::numbers::{number_within, small_number};
use crate::operation_line::let_statement;
use crate::stated::Statement;
use crate::values::{list_value, vector_value, vectors_value};
use module_vectors::Ring;
use monomial_orders::Order;
use poly_grammar::PolyStep;
use poly_value::polynomial_value;
use script_forms::{DivisionWord, Head, OrderName, QuestionWord, Shape};
use script_tokens::Token;
use std::alloc::Global;

/// Whether each name in a polynomial or in a value's place is known, and the name to be given is no variable.
fn names_known(
    line: &[u8],
    ring: &Ring,
    names: &NameTable,
    head: Head,
    polynomials: &[Vec<PolyStep>],
) -> bool
    ensures { result ≡ known_names ring.now.vars names.now line.now head polynomials.now }
{
    places_known(line, &ring.vars, names, head)
        && given_free(line, &ring.vars, head)
        && polynomials_known(line, &ring.vars, names, polynomials)
}

/// Whether no name in a polynomial is a value, none in a value's place a variable, and a value that has to be an ideal is one.
fn kinds_right(
    line: &[u8],
    ring: &Ring,
    names: &NameTable,
    head: Head,
    polynomials: &[Vec<PolyStep>],
) -> bool
    ensures { result ≡ right_kinds ring.now.vars names.now line.now head polynomials.now }
{
    places_free(line, &ring.vars, head)
        && factor_fits(line, names, head)
        && polynomials_free(line, &ring.vars, names, polynomials)
}

/// The statement of `show`.
fn show_statement(
    alloc: Global,
    ring: &Ring,
    line: &[u8],
    polynomials: &[Vec<PolyStep>],
) -> Result<Statement, ParseStop>
    requires some { 0 < length polynomials.now }
    requires workable { AllByRecursion (IsWorkable ring.now line.now) polynomials.now }
    ensures { IsStated ring.now line.now heads.Show polynomials.now result }
{
    let Some((steps, _)) = polynomials.split_first() else {
        unreachable!()
    };
    match polynomial_value(alloc, ring, line, steps) {
        Ok(value) => Ok(Statement::Show(value)),
        Err(_) => Err(ParseStop::Memory),
    }
}

/// The statement of `ideal`.
fn ideal_statement(
    alloc: Global,
    ring: &Ring,
    line: &[u8],
    given: Token,
    polynomials: &[Vec<PolyStep>],
) -> Result<Statement, ParseStop>
    requires ascii { IsAscii (text_of line.now given) }
    requires workable { AllByRecursion (IsWorkable ring.now line.now) polynomials.now }
    ensures { IsStated ring.now line.now (heads.Ideal given) polynomials.now result }
{
    let name = name_of(alloc, line, given)?;
    match list_value(alloc, ring, line, polynomials) {
        Ok(list) => Ok(Statement::Ideal(name, list)),
        Err(_) => Err(ParseStop::Memory),
    }
}

/// The statement of `module`.
fn module_statement(
    alloc: Global,
    ring: &Ring,
    line: &[u8],
    given: Token,
    rank: Token,
    shape: Shape,
    polynomials: &[Vec<PolyStep>],
) -> Result<Statement, ParseStop>
    requires ascii { IsAscii (text_of line.now given) }
    requires workable { AllByRecursion (IsWorkable ring.now line.now) polynomials.now }
    requires fits { module_fits (numeral_value line.now rank) shape (length polynomials.now) ≡ true }
    ensures { IsStated ring.now line.now (heads.Module given rank shape) polynomials.now result }
{
    let name = name_of(alloc, line, given)?;
    let Some(entries) = number_within(line, rank, 64) else {
        unreachable!()
    };
    match vectors_value(alloc, ring, line, entries as usize, polynomials) {
        Ok(list) => Ok(Statement::Module(name, u64::from(entries), list)),
        Err(_) => Err(ParseStop::Memory),
    }
}

/// The statement of a question.
fn ask_statement(
    alloc: Global,
    line: &[u8],
    question: QuestionWord,
    value: Token,
) -> Result<Statement, ParseStop>
    requires { IsAscii (text_of line.now value) }
    ensures { (ring : RingValue) (pieces : List (VecValue StepValue Global)) → IsStated ring line.now (heads.Ask question value) pieces result }
{
    let name = name_of(alloc, line, value)?;
    match question {
        QuestionWord::Gens => Ok(Statement::Gens(name)),
        QuestionWord::Gb => Ok(Statement::Gb(name)),
        QuestionWord::Size => Ok(Statement::Size(name)),
        QuestionWord::Hilbert => Ok(Statement::Hilbert(name)),
        QuestionWord::Resolution => Ok(Statement::Resolution(name)),
        QuestionWord::Minimal => Ok(Statement::Minimal(name)),
        QuestionWord::Betti => Ok(Statement::Betti(name)),
        QuestionWord::Regularity => Ok(Statement::Regularity(name)),
    }
}

/// The statement of a division.
fn divide_statement(
    alloc: Global,
    ring: &Ring,
    line: &[u8],
    division: DivisionWord,
    value: Token,
    polynomials: &[Vec<PolyStep>],
) -> Result<Statement, ParseStop>
    requires ascii { IsAscii (text_of line.now value) }
    requires workable { AllByRecursion (IsWorkable ring.now line.now) polynomials.now }
    ensures { IsStated ring.now line.now (heads.Divide division value) polynomials.now result }
{
    let name = name_of(alloc, line, value)?;
    match vector_value(alloc, ring, line, polynomials) {
        Ok(vector) => match division {
            DivisionWord::NormalForm => Ok(Statement::NormalForm(name, vector)),
            DivisionWord::Member => Ok(Statement::Member(name, vector)),
            DivisionWord::Lift => Ok(Statement::Lift(name, vector)),
        },
        Err(_) => Err(ParseStop::Memory),
    }
}

/// The statement of `equal`.
fn equal_statement(
    alloc: Global,
    line: &[u8],
    left: Token,
    right: Token,
) -> Result<Statement, ParseStop>
    requires left { IsAscii (text_of line.now left) }
    requires right { IsAscii (text_of line.now right) }
    ensures { (ring : RingValue) (pieces : List (VecValue StepValue Global)) → IsStated ring line.now (heads.Equal left right) pieces result }
{
    let first = name_of(alloc, line, left)?;
    let second = name_of(alloc, line, right)?;
    Ok(Statement::Equal(first, second))
}

/// The order that is stated; none where its number is 2^32 or more.
fn small_order(line: &[u8], order: OrderName) -> Option<Order>
    ensures { MatchOption result (HasGreatElim line.now order) (λ made. made ≡ order_stated line.now order) }
{
    match order {
        OrderName::Lex => Some(Order::Lex),
        OrderName::Grevlex => Some(Order::Grevlex),
        OrderName::Elim(token) => match small_number(line, token) {
            Some(k) => Some(Order::Elim(k)),
            None => None,
        },
    }
}

/// The statement of `fglm`. A number of 2^32 or more is one of variables whose names no memory holds.
fn change_statement(
    alloc: Global,
    line: &[u8],
    value: Token,
    order: OrderName,
) -> Result<Statement, ParseStop>
    requires { IsAscii (text_of line.now value) }
    ensures { (ring : RingValue) (pieces : List (VecValue StepValue Global)) → IsStated ring line.now (heads.Change value order) pieces result }
{
    let name = name_of(alloc, line, value)?;
    match small_order(line, order) {
        Some(order) => Ok(Statement::Change(name, order)),
        None => Err(ParseStop::Memory),
    }
}

/// The statement of `express`.
fn express_statement(
    alloc: Global,
    ring: &Ring,
    line: &[u8],
    polynomials: &[Vec<PolyStep>],
) -> Result<Statement, ParseStop>
    requires some { 0 < length polynomials.now }
    requires workable { AllByRecursion (IsWorkable ring.now line.now) polynomials.now }
    ensures { IsStated ring.now line.now heads.Express polynomials.now result }
{
    let Some((steps, others)) = polynomials.split_first() else {
        unreachable!()
    };
    let Ok(image) = polynomial_value(alloc, ring, line, steps) else {
        return Err(ParseStop::Memory);
    };
    match list_value(alloc, ring, line, others) {
        Ok(images) => Ok(Statement::Express(image, images)),
        Err(_) => Err(ParseStop::Memory),
    }
}

/// The statement of `ext`. A number of 2^32 or more is one of variables whose names no memory holds.
fn ext_statement(
    alloc: Global,
    line: &[u8],
    value: Token,
    count: Token,
) -> Result<Statement, ParseStop>
    requires { IsAscii (text_of line.now value) }
    ensures { (ring : RingValue) (pieces : List (VecValue StepValue Global)) → IsStated ring line.now (heads.Ext value count) pieces result }
{
    let name = name_of(alloc, line, value)?;
    match small_number(line, count) {
        Some(k) => Ok(Statement::Ext(name, u64::from(k))),
        None => Err(ParseStop::Memory),
    }
}

/// The statement of a line that is refused for no kind.
fn stated(
    alloc: Global,
    ring: &Ring,
    line: &[u8],
    names: &NameTable,
    head: Head,
    polynomials: &[Vec<PolyStep>],
) -> Result<Statement, ParseStop>
    requires written { (w : Written) × IsLineOf head polynomials.now w }
    requires ascii { AllByRecursion (λ t. IsAscii (text_of line.now t)) (head_names head) }
    requires workable { AllByRecursion (IsWorkable ring.now line.now) polynomials.now }
    requires ranks { rank_fits (length ring.now.vars) names.now line.now head (length polynomials.now) ≡ true }
    ensures { IsStated ring.now line.now head polynomials.now result }
{
    match head {
        Head::Show => show_statement(alloc, ring, line, polynomials),
        Head::Ideal(given) => ideal_statement(alloc, ring, line, given, polynomials),
        Head::Module(given, rank, shape) => {
            module_statement(alloc, ring, line, given, rank, shape, polynomials)
        }
        Head::Let(given, operands) => {
            let_statement(alloc, ring, line, given, operands, polynomials)
        }
        Head::Ask(question, value) => ask_statement(alloc, line, question, value),
        Head::Divide(division, value) => {
            divide_statement(alloc, ring, line, division, value, polynomials)
        }
        Head::Equal(left, right) => equal_statement(alloc, line, left, right),
        Head::Change(value, order) => change_statement(alloc, line, value, order),
        Head::Express => express_statement(alloc, ring, line, polynomials),
        Head::Ext(value, count) => ext_statement(alloc, line, value, count),
    }
}

/// What a line states that needs a ring, by its head and its polynomials: else `Ring` where none is stated, or `eliminate` or
/// the order of `fglm` has a number outside 1..n, or `ext` one above n, then `Name`, `OfKind`, `Rank` and `Degree`, the first that
/// holds.
pub fn line_statement(
    alloc: Global,
    line: &[u8],
    ring: Option<&Ring>,
    names: &NameTable,
    head: Head,
    polynomials: &[Vec<PolyStep>],
) -> Result<Statement, ParseStop>
    requires written { (w : Written) × IsLineOf head polynomials.now w }
    requires ascii { AllByRecursion (λ t. IsAscii (text_of line.now t)) (head_names head) }
    requires polynomials { AllByRecursion AreStepsOfPolynomial polynomials.now }
    requires numerals { AllByRecursion (HaveNumerals line.now) polynomials.now }
    ensures { (w : Written) → IsLineOf head polynomials.now w → AnswersForm (option_copied ring.entry) names.now line.now w result }
{
    let Some(ring) = ring else {
        return Err(ParseStop::Refused(Kind::Ring));
    };
    if !number_fits(line, &ring.vars, head) {
        return Err(ParseStop::Refused(Kind::Ring));
    }
    if !names_known(line, ring, names, head, polynomials) {
        return Err(ParseStop::Refused(Kind::Name));
    }
    if !kinds_right(line, ring, names, head, polynomials) {
        return Err(ParseStop::Refused(Kind::OfKind));
    }
    if !rank_fits(line, &ring.vars, names, head, polynomials.len()) {
        return Err(ParseStop::Refused(Kind::Rank));
    }
    if !degrees_fit(alloc, line, ring, polynomials)? {
        return Err(ParseStop::Refused(Kind::Degree));
    }
    stated(alloc, ring, line, names, head, polynomials)
}
