//! A polynomial that is expressed by others. No NAME stands directly behind an atom in a polynomial, so the tokens are cut at the
//! first one that does.

ghost use Rattle.std.specs.Prelude.{◌≡◌, ◌<◌, Bool, length, map, false, IfNone, IfSome, Some};
ghost use Rattle.poly_grammar.specs.Lexemes.{lexeme};
ghost use Rattle.script_forms.specs.Forms.{AreExpressed, AreReadAs, IsBehindAtom, ended_behind, ends_atom};

use crate::polynomials::{one_polynomial, polynomials};
use crate::words::is_word;
use poly_grammar::{PolyStep, ReadStop};
use script_tokens::{Token, TokenKind};
use std::alloc::Global;

/// Whether an atom ends with the token, by whether one ends before it; none at a NAME directly behind an atom.
fn ended(atom: bool, token: Token) -> Option<bool>
    ensures { result ≡ ends_atom atom (lexeme token) }
{
    match token.kind {
        TokenKind::Name if atom => None,
        TokenKind::Name | TokenKind::Number | TokenKind::Close => Some(true),
        _ => Some(false),
    }
}

/// The place of the first NAME directly behind an atom.
fn word_place(tokens: &[Token]) -> Option<usize>
    ensures found { IfSome result (λ at. (at < length tokens.now) × IsBehindAtom tokens.now at) }
    ensures none { IfNone result ((atom : Bool) × (ended_behind false (map lexeme tokens.now) ≡ Some atom)) }
{
    let mut atom = false;
    for at in 0..tokens.len() {
        match ended(atom, tokens[at]) {
            Some(next) => atom = next,
            None => return Some(at),
        }
    }
    None
}

/// POLY by POLY {, POLY}, all of the tokens: the polynomials in their order.
pub fn expression(
    alloc: Global,
    line: &[u8],
    tokens: &[Token],
) -> Result<Vec<Vec<PolyStep>>, ReadStop>
    ensures { AreReadAs (AreExpressed line.now (map lexeme tokens.now)) result }
{
    let Some(at) = word_place(tokens) else {
        return Err(ReadStop::Syntax);
    };
    let (front, behind) = tokens.split_at(at);
    let Some((word, rest)) = behind.split_first() else {
        return Err(ReadStop::Syntax);
    };
    if !is_word(line, *word, b"by") {
        return Err(ReadStop::Syntax);
    }
    let mut found = match one_polynomial(alloc, front) {
        Ok(found) => found,
        Err(stop) => return Err(stop),
    };
    match polynomials(alloc, rest) {
        Ok(mut images) => {
            found.append(&mut images)?;
            Ok(found)
        }
        Err(stop) => Err(stop),
    }
}
