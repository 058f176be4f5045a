//! Lists of vectors. The tokens are cut at the commas outside square brackets.

ghost use Rattle.std.specs.Prelude.{◌≡◌, ◌<◌, Bool, length, map, false, IfNone, IfSome, Some};
ghost use Rattle.poly_grammar.specs.Lexemes.{lexeme};
ghost use Rattle.script_forms.specs.Forms.{AreVectorsRead, IsAtOuterComma, IsVectorPushed, bracketed, bracketed_behind, further};

use crate::polynomials::entries;
use poly_grammar::{PolyStep, ReadStop};
use script_tokens::{Token, TokenKind};
use std::alloc::Global;

/// How many entries the vectors of a list have.
#[derive(Clone, Copy)]
pub enum Shape {
    /// There is no vector.
    Empty,
    /// Each has so many.
    Each(usize),
    /// Two of them have not the same number.
    Mixed,
}

/// The shape of a list with one vector more, which has so many entries.
fn further(shape: Shape, count: usize) -> Shape
    ensures { result ≡ further shape count }
{
    match shape {
        Shape::Empty => Shape::Each(count),
        Shape::Each(other) => { if other == count { shape } else { Shape::Mixed } }
        Shape::Mixed => Shape::Mixed,
    }
}

/// Whether square brackets are open behind the token, by whether they are before it; none at a comma outside them.
fn bracketed(inside: bool, token: Token) -> Option<bool>
    ensures { result ≡ bracketed inside (lexeme token) }
{
    match token.kind {
        TokenKind::OpenBracket => Some(true),
        TokenKind::CloseBracket => Some(false),
        TokenKind::Comma if !inside => None,
        _ => Some(inside),
    }
}

/// The place of the first comma outside square brackets.
fn outer_comma(tokens: &[Token]) -> Option<usize>
    ensures found { IfSome result (λ at. (at < length tokens.now) × IsAtOuterComma tokens.now at) }
    ensures none { IfNone result ((inside : Bool) × (bracketed_behind false (map lexeme tokens.now) ≡ Some inside)) }
{
    let mut inside = false;
    for at in 0..tokens.len() {
        match bracketed(inside, tokens[at]) {
            Some(next) => inside = next,
            None => return Some(at),
        }
    }
    None
}

/// Puts the entries of the vector that the tokens are behind those found before, and tells how many they are.
fn push_vector(
    alloc: Global,
    tokens: &[Token],
    found: &mut Vec<Vec<PolyStep>>,
) -> Result<usize, ReadStop>
    ensures { IsVectorPushed (map lexeme tokens.now) found.old.items found.new.items result }
{
    match entries(alloc, tokens) {
        Ok(polynomials) => {
            let mut more = polynomials;
            let count = more.len();
            found.append(&mut more)?;
            Ok(count)
        }
        Err(stop) => Err(stop),
    }
}

/// VEC {, VEC}, all of the tokens: the entries of each, one behind the other, and how many each has.
pub fn vectors(alloc: Global, tokens: &[Token]) -> Result<(Vec<Vec<PolyStep>>, Shape), ReadStop>
    ensures { AreVectorsRead (map lexeme tokens.now) result }
{
    let mut found = Vec::new(alloc);
    let mut shape = Shape::Empty;
    let mut rest = tokens;
    while let Some(at) = outer_comma(rest) {
        let (piece, behind) = rest.split_at(at);
        let Some((_, after)) = behind.split_first() else {
            return Err(ReadStop::Syntax);
        };
        match push_vector(alloc, piece, &mut found) {
            Ok(count) => shape = further(shape, count),
            Err(stop) => return Err(stop),
        }
        rest = after;
    }
    match push_vector(alloc, rest, &mut found) {
        Ok(count) => Ok((found, further(shape, count))),
        Err(stop) => Err(stop),
    }
}
