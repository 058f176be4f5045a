//! An operation as it is written.

ghost use Rattle.std.specs.Prelude.{◌≡◌, map, IfNone, IfSome};
ghost use Rattle.script_tokens.specs.declared.token.TokenKind.TheVariants.{Name};
ghost use Rattle.poly_grammar.specs.Lexemes.{lexeme};
ghost use Rattle.poly_grammar.specs.Numerals.{text_of};
ghost use Rattle.script_forms.specs.Forms.{AreOperandsRead, IsOperationRead};
ghost use Rattle.script_forms.specs.Written.{elimination_word, operation_text, polynomial_word, preimage_word, syzygies_word, two_word};
ghost use Rattle.script_forms.specs.declared.operands.Binary.{Binary as BinaryValue};
ghost use Rattle.script_forms.specs.declared.operands.ByPolynomial.{ByPolynomial as ByPolynomialValue};

use crate::polynomials::{one_polynomial, polynomials};
use crate::words::{is_word, name_first, number_first};
use poly_grammar::{PolyStep, ReadStop};
use script_tokens::Token;
use std::alloc::Global;

/// The word of an operation on two values.
#[derive(Clone, Copy)]
pub enum Binary {
    /// `sum`
    Sum,
    /// `product`
    Product,
    /// `intersect`
    Intersect,
    /// `colon`
    Colon,
}

/// The word of an operation on a value by a polynomial.
#[derive(Clone, Copy)]
pub enum ByPolynomial {
    /// `quotient`
    Quotient,
    /// `saturate`
    Saturate,
}

/// An operation, by the names of its values and without its polynomials.
#[derive(Clone, Copy)]
pub enum Operands {
    /// Two values.
    Two(Binary, Token, Token),
    /// A value, and a polynomial.
    Polynomial(ByPolynomial, Token),
    /// `eliminate`: a value, and the number of how many variables are eliminated.
    Eliminate(Token, Token),
    /// `syz`: a value.
    Syzygies(Token),
    /// `preimage`: a value, and polynomials.
    Preimage(Token),
}

/// What stands behind the word of an operation on two values.
fn two_operands(
    alloc: Global,
    word: Binary,
    tokens: &[Token],
) -> Result<(Operands, Vec<Vec<PolyStep>>), ReadStop>
    ensures { AreOperandsRead (two_word word) (map lexeme tokens.now) result }
{
    let Some((left, behind)) = name_first(tokens) else {
        return Err(ReadStop::Syntax);
    };
    let Some((right, rest)) = name_first(behind) else {
        return Err(ReadStop::Syntax);
    };
    if !rest.is_empty() {
        return Err(ReadStop::Syntax);
    }
    Ok((Operands::Two(word, left, right), Vec::new(alloc)))
}

/// What stands behind the word of an operation by a polynomial.
fn polynomial_operands(
    alloc: Global,
    word: ByPolynomial,
    tokens: &[Token],
) -> Result<(Operands, Vec<Vec<PolyStep>>), ReadStop>
    ensures { AreOperandsRead (polynomial_word word) (map lexeme tokens.now) result }
{
    let Some((value, behind)) = name_first(tokens) else {
        return Err(ReadStop::Syntax);
    };
    match one_polynomial(alloc, behind) {
        Ok(found) => Ok((Operands::Polynomial(word, value), found)),
        Err(stop) => Err(stop),
    }
}

/// What stands behind `eliminate`.
fn elimination_operands(
    alloc: Global,
    tokens: &[Token],
) -> Result<(Operands, Vec<Vec<PolyStep>>), ReadStop>
    ensures { AreOperandsRead elimination_word (map lexeme tokens.now) result }
{
    let Some((value, behind)) = name_first(tokens) else {
        return Err(ReadStop::Syntax);
    };
    let Some((count, rest)) = number_first(behind) else {
        return Err(ReadStop::Syntax);
    };
    if !rest.is_empty() {
        return Err(ReadStop::Syntax);
    }
    Ok((Operands::Eliminate(value, count), Vec::new(alloc)))
}

/// What stands behind `syz`.
fn syzygies_operands(
    alloc: Global,
    tokens: &[Token],
) -> Result<(Operands, Vec<Vec<PolyStep>>), ReadStop>
    ensures { AreOperandsRead syzygies_word (map lexeme tokens.now) result }
{
    let Some((value, rest)) = name_first(tokens) else {
        return Err(ReadStop::Syntax);
    };
    if !rest.is_empty() {
        return Err(ReadStop::Syntax);
    }
    Ok((Operands::Syzygies(value), Vec::new(alloc)))
}

/// What stands behind `preimage`.
fn preimage_operands(
    alloc: Global,
    tokens: &[Token],
) -> Result<(Operands, Vec<Vec<PolyStep>>), ReadStop>
    ensures { AreOperandsRead preimage_word (map lexeme tokens.now) result }
{
    let Some((value, behind)) = name_first(tokens) else {
        return Err(ReadStop::Syntax);
    };
    match polynomials(alloc, behind) {
        Ok(found) => Ok((Operands::Preimage(value), found)),
        Err(stop) => Err(stop),
    }
}

/// Which operation on two values a word is for.
fn binary_of(line: &[u8], token: Token) -> Option<Binary>
    ensures found { IfSome result (λ word. (token.kind ≡ Name) × (text_of line.now token ≡ operation_text (two_word word))) }
    ensures none { IfNone result ((word : BinaryValue) → token.kind ≡ Name → text_of line.now token ≡ operation_text (two_word word) → ⊥) }
{
    if is_word(line, token, b"sum") {
        Some(Binary::Sum)
    } else if is_word(line, token, b"product") {
        Some(Binary::Product)
    } else if is_word(line, token, b"intersect") {
        Some(Binary::Intersect)
    } else if is_word(line, token, b"colon") {
        Some(Binary::Colon)
    } else {
        None
    }
}

/// Which operation by a polynomial a word is for.
fn by_polynomial_of(line: &[u8], token: Token) -> Option<ByPolynomial>
    ensures found { IfSome result (λ word. (token.kind ≡ Name) × (text_of line.now token ≡ operation_text (polynomial_word word))) }
    ensures none { IfNone result ((word : ByPolynomialValue) → token.kind ≡ Name → text_of line.now token ≡ operation_text (polynomial_word word) → ⊥) }
{
    if is_word(line, token, b"quotient") {
        Some(ByPolynomial::Quotient)
    } else if is_word(line, token, b"saturate") {
        Some(ByPolynomial::Saturate)
    } else {
        None
    }
}

/// The operation that the tokens are, all of them, and its polynomials.
pub fn read_operation(
    alloc: Global,
    line: &[u8],
    tokens: &[Token],
) -> Result<(Operands, Vec<Vec<PolyStep>>), ReadStop>
    ensures { IsOperationRead line.now (map lexeme tokens.now) result }
{
    let Some((word, behind)) = tokens.split_first() else {
        return Err(ReadStop::Syntax);
    };
    if let Some(two) = binary_of(line, *word) {
        return two_operands(alloc, two, behind);
    }
    if let Some(by) = by_polynomial_of(line, *word) {
        return polynomial_operands(alloc, by, behind);
    }
    if is_word(line, *word, b"eliminate") {
        return elimination_operands(alloc, behind);
    }
    if is_word(line, *word, b"syz") {
        return syzygies_operands(alloc, behind);
    }
    if is_word(line, *word, b"preimage") {
        return preimage_operands(alloc, behind);
    }
    Err(ReadStop::Syntax)
}
