//! Lists of polynomials. Commas and brackets stand in no polynomial, so the tokens are cut at these.

ghost use Rattle.std.specs.Prelude.{◌<◌, length, map, IfSome, IfNone};
ghost use Rattle.poly_grammar.specs.Lexemes.{lexeme};
ghost use Rattle.script_forms.specs.Forms.{AreReadAs, HasNoComma, IsAtComma, IsPolynomialPut};
ghost use Rattle.script_forms.specs.Written.{AreVectorEntries, ArePolys, IsOnePoly};

use poly_grammar::{PolyStep, ReadStop, read_polynomial};
use script_tokens::{Token, TokenKind};
use std::alloc::Global;

/// Puts the polynomial that the tokens are behind those found before.
fn push_polynomial(
    alloc: Global,
    tokens: &[Token],
    found: &mut Vec<Vec<PolyStep>>,
) -> Result<(), ReadStop>
    ensures { IsPolynomialPut (map lexeme tokens.now) found.old.items found.new.items result }
{
    match read_polynomial(alloc, tokens) {
        Ok(steps) => {
            found.push(steps)?;
            Ok(())
        }
        Err(stop) => Err(stop),
    }
}

/// POLY, as a list of one.
pub fn one_polynomial(alloc: Global, tokens: &[Token]) -> Result<Vec<Vec<PolyStep>>, ReadStop>
    ensures { AreReadAs (IsOnePoly (map lexeme tokens.now)) result }
{
    let mut found = Vec::new(alloc);
    match push_polynomial(alloc, tokens, &mut found) {
        Ok(()) => Ok(found),
        Err(stop) => Err(stop),
    }
}

/// The place of the first comma.
fn comma_place(tokens: &[Token]) -> Option<usize>
    ensures found { IfSome result (λ at. (at < length tokens.now) × IsAtComma tokens.now at) }
    ensures none { IfNone result (HasNoComma (map lexeme tokens.now)) }
{
    for at in 0..tokens.len() {
        if tokens[at].kind == TokenKind::Comma {
            return Some(at);
        }
    }
    None
}

/// POLY {, POLY}, all of the tokens.
pub fn polynomials(alloc: Global, tokens: &[Token]) -> Result<Vec<Vec<PolyStep>>, ReadStop>
    ensures { AreReadAs (ArePolys (map lexeme tokens.now)) result }
{
    let mut found = Vec::new(alloc);
    let mut rest = tokens;
    while let Some(at) = comma_place(rest) {
        let (piece, behind) = rest.split_at(at);
        let Some((_, after)) = behind.split_first() else {
            return Err(ReadStop::Syntax);
        };
        match push_polynomial(alloc, piece, &mut found) {
            Ok(()) => {}
            Err(stop) => return Err(stop),
        }
        rest = after;
    }
    match push_polynomial(alloc, rest, &mut found) {
        Ok(()) => Ok(found),
        Err(stop) => Err(stop),
    }
}

/// POLY, or [ POLY {, POLY} ], all of the tokens.
pub fn entries(alloc: Global, tokens: &[Token]) -> Result<Vec<Vec<PolyStep>>, ReadStop>
    ensures { AreReadAs (AreVectorEntries (map lexeme tokens.now)) result }
{
    let Some((first, behind)) = tokens.split_first() else {
        return Err(ReadStop::Syntax);
    };
    let TokenKind::OpenBracket = first.kind else {
        return one_polynomial(alloc, tokens);
    };
    let Some((last, inside)) = behind.split_last() else {
        return Err(ReadStop::Syntax);
    };
    let TokenKind::CloseBracket = last.kind else {
        return Err(ReadStop::Syntax);
    };
    polynomials(alloc, inside)
}
