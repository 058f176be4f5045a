//! What a ring line states.

ghost use Rattle.std.specs.Prelude.{◌≡◌, false, List, Option, map, IfSome, IfNone, IfOk};
ghost use Rattle.std.specs.Str.{IsAscii};
ghost use Rattle.std.specs.Str.Lossy.{utf8_lossy};
ghost use Rattle.std.specs.List.{AllByRecursion};
ghost use Rattle.std.specs.Option.{option_map};
ghost use Rattle.poly_grammar.specs.Numerals.{numeral_value, text_of};
ghost use Rattle.zp_field.specs.Moduli.{is_modulus};
ghost use Rattle.term_lists.specs.declared.ring.Ring.{Ring as RingValue};
ghost use Rattle.script_forms.specs.RingForms.{ring_line_of};
ghost use Rattle.script_forms.specs.Written.{ring_line};
ghost use Rattle.script_parse.specs.declared.named.NameInfo.{NameInfo as NameValue};
ghost use Rattle.script_parse.specs.Refusals.{HasOtherElim, HasOtherWeights};
ghost use Rattle.script_parse.specs.Statements.{module_order_stated, order_stated, weights_stated};
ghost use Rattle.script_parse.specs.Tests.{AnswersForm, AreWeighedAll, IsGood, repeats, stands_among};

use crate::kind::{Kind, ParseStop};
use crate::numbers::number_within;
use crate::stated::Statement;
use module_vectors::{Names, NoMemory, Ring};
use monomial_orders::{ModOrder, Order, Weights};
use poly_grammar::{number, text};
use script_forms::{OrderName, RingForm};
use script_tokens::Token;
use std::alloc::{AllocError, Global};
use zp_field::Modulus;

/// The greatest number of variables.
const VARIABLES: usize = 15;

/// The modulus that a number of the line names; none exactly where it is not in the table.
fn modulus_of(line: &[u8], token: Token) -> Option<Modulus>
    ensures found { IfSome result (λ m. m.value ≡ numeral_value line.now token) }
    ensures none { IfNone result (is_modulus (numeral_value line.now token) ≡ false) }
{
    let value = number(text(line, token))?;
    if value > 2147483647 {
        return None;
    }
    Modulus::of(value as u64)
}

/// Whether one of the tokens has this text.
fn stands_in(line: &[u8], word: &[u8], tokens: &[Token]) -> bool
    ensures { result ≡ stands_among line.now word.now tokens.now }
{
    for token in tokens {
        if text(line, *token) == word {
            return true;
        }
    }
    false
}

/// Whether a text stands twice. There are few names, so each is compared with those behind it.
fn has_repeat(line: &[u8], tokens: &[Token]) -> bool
    ensures { result ≡ repeats line.now tokens.now }
{
    let mut rest = tokens;
    while let Some((first, behind)) = rest.split_first() {
        if stands_in(line, text(line, *first), behind) {
            return true;
        }
        rest = behind;
    }
    false
}

/// The texts of names, which are ASCII.
fn names_of(alloc: Global, line: &[u8], tokens: &[Token]) -> Result<Names, AllocError>
    ensures { IfOk result (λ names. names ≡ map (λ t. utf8_lossy (text_of line.now t)) tokens.now) }
{
    let mut names = Vec::with_capacity(alloc, tokens.len())?;
    for token in tokens {
        names.push(String::from_utf8_lossy(alloc, text(line, *token))?)?;
    }
    Ok(Names::from_vec(names))
}

/// The order that is stated for n variables; none exactly where it is `elim K` with K outside 1..n.
fn order_stated(line: &[u8], order: OrderName, n: u32) -> Option<Order>
    ensures { IsGood (order_stated line.now order) (HasOtherElim line.now n order) result }
{
    match order {
        OrderName::Lex => Some(Order::Lex),
        OrderName::Grevlex => Some(Order::Grevlex),
        OrderName::Elim(token) => match number_within(line, token, n) {
            Some(k) => Some(Order::Elim(k)),
            None => None,
        },
    }
}

/// The order of module monomials.
fn module_order_stated(top: bool) -> ModOrder
    ensures { result ≡ module_order_stated top }
{
    if top { ModOrder::Top } else { ModOrder::Pot }
}

/// The weights that these numbers are; none exactly where one is outside 1..255.
fn weights_listed(
    alloc: Global,
    line: &[u8],
    tokens: &[Token],
) -> Result<Option<Vec<u8>>, AllocError>
    ensures { IfOk result (λ found. AreWeighedAll line.now tokens.now (option_map (λ v. v.items) found)) }
{
    let mut weights = Vec::with_capacity(alloc, tokens.len())?;
    for token in tokens {
        let Some(weight) = number_within(line, *token, 255) else {
            return Ok(None);
        };
        weights.push(weight as u8)?;
    }
    Ok(Some(weights))
}

/// The weights that are stated for n variables; none exactly where they are not n, or one is outside 1..255.
fn weights_stated(
    alloc: Global,
    line: &[u8],
    tokens: &[Token],
    n: usize,
) -> Result<Option<Weights>, NoMemory>
    ensures { IfOk result (λ found. IsGood (weights_stated line.now n tokens.now) (HasOtherWeights line.now n tokens.now) found) }
{
    if tokens.is_empty() {
        return Ok(Some(Weights::ones(alloc, n)?));
    }
    if tokens.len() != n {
        return Ok(None);
    }
    match weights_listed(alloc, line, tokens)? {
        Some(weights) => Ok(Some(Weights::from_vec(weights))),
        None => Ok(None),
    }
}

/// The ring that a ring line makes: `Ring` where the line is faulty, else `Modulus` where its modulus is not in the table.
pub fn ring_statement(alloc: Global, line: &[u8], form: &RingForm) -> Result<Statement, ParseStop>
    requires { AllByRecursion (λ t. IsAscii (text_of line.now t)) form.now.names.items }
    ensures { (ring : Option RingValue) (infos : List NameValue) → AnswersForm ring infos line.now (ring_line (ring_line_of form.now)) result }
{
    let n = form.names.len();
    if n > VARIABLES {
        return Err(ParseStop::Refused(Kind::Ring));
    }
    if has_repeat(line, &form.names) {
        return Err(ParseStop::Refused(Kind::Ring));
    }
    let Some(order) = order_stated(line, form.order, n as u32) else {
        return Err(ParseStop::Refused(Kind::Ring));
    };
    let Some(weights) = weights_stated(alloc, line, &form.weights, n)? else {
        return Err(ParseStop::Refused(Kind::Ring));
    };
    let Some(modulus) = modulus_of(line, form.modulus) else {
        return Err(ParseStop::Refused(Kind::Modulus));
    };
    Ok(Statement::Ring(Ring {
        modulus,
        vars: names_of(alloc, line, &form.names)?,
        order,
        module_order: module_order_stated(form.top),
        weights,
    }))
}
