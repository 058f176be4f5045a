//! The tokens of a line of a script: names, numbers and signs, each with its place.
//!
//! A line is cut into the longest tokens from left to right; blanks stand between them, and a `#` begins a comment.
#![tactic(auto)]

ghost use Rattle.std.specs.Prelude.{◌≡◌, ◌≤◌, ◌⊎◌, ℕ, List, length, IfSome, IfOk};
ghost use Rattle.std.specs.List.{prefix_len};
ghost use Rattle.std.specs.Char.{is_ascii_digit};
ghost use Rattle.script_tokens.specs.Cuts.{HasTokens, HasStrayByte, HaveTexts, IsCutInto};
ghost use Rattle.script_tokens.specs.Scans.{token_at, tokens_of, GivesOrStops};
ghost use Rattle.script_tokens.specs.Tokens.{is_blank, is_name_byte, sign_of, IsInOrder};
ghost use Rattle.script_tokens.specs.declared.token.Token.{Token};

mod token;

use std::alloc::Global;
pub use token::{Token, TokenKind, TokenStop};

/// Whether a byte may stand between tokens.
fn is_blank(byte: u8) -> bool
    ensures { result ≡ is_blank byte }
{
    byte == b' ' || byte == b'\t' || byte == b'\r'
}

/// Whether a byte may stand in a name behind its first.
fn is_name_byte(byte: u8) -> bool
    ensures { result ≡ is_name_byte byte }
{
    byte.is_ascii_alphanumeric() || byte == b'_'
}

/// The sign that a byte is.
fn sign_of(byte: u8) -> Option<TokenKind>
    ensures { result ≡ sign_of byte }
{
    match byte {
        b'+' => Some(TokenKind::Plus),
        b'-' => Some(TokenKind::Minus),
        b'*' => Some(TokenKind::Star),
        b'^' => Some(TokenKind::Caret),
        b'(' => Some(TokenKind::Open),
        b')' => Some(TokenKind::Close),
        b'[' => Some(TokenKind::OpenBracket),
        b']' => Some(TokenKind::CloseBracket),
        b',' => Some(TokenKind::Comma),
        b'=' => Some(TokenKind::Equals),
        _ => None,
    }
}

/// How many bytes at the front belong to a name.
fn name_run(bytes: &[u8]) -> usize
    ensures count { result ≡ prefix_len is_name_byte bytes.now }
    ensures within { result ≤ length bytes.now }
{
    bytes.iter().take_while(|byte| is_name_byte(**byte)).count()
}

/// How many bytes at the front are digits.
fn digit_run(bytes: &[u8]) -> usize
    ensures count { result ≡ prefix_len is_ascii_digit bytes.now }
    ensures within { result ≤ length bytes.now }
{
    bytes
        .iter()
        .take_while(|byte| byte.is_ascii_digit())
        .count()
}

/// The token that begins with a byte, and how many of the bytes after it belong to it.
#[tactic(auto, unfolding(crate::specs::Scans::token_at))]
fn token_at(byte: u8, after: &[u8]) -> Option<(TokenKind, usize)>
    ensures token { result ≡ token_at byte after.now }
    ensures within { IfSome result (λ found. found.1 ≤ length after.now) }
{
    if byte.is_ascii_alphabetic() {
        Some((TokenKind::Name, name_run(after)))
    } else if byte.is_ascii_digit() {
        Some((TokenKind::Number, digit_run(after)))
    } else {
        let kind = sign_of(byte)?;
        Some((kind, 0))
    }
}

/// Cuts a line from left to right.
fn cut(alloc: Global, line: &[u8]) -> Result<Vec<Token>, TokenStop>
    ensures { GivesOrStops (λ found. found.items) result (tokens_of line.now) }
{
    let mut found = Vec::new(alloc);
    let mut at = 0;
    let mut rest = line;
    while let Some((byte, after)) = rest.split_first() {
        if *byte == b'#' {
            break;
        }
        if is_blank(*byte) {
            at += 1;
            rest = after;
        } else {
            let Some((kind, more)) = token_at(*byte, after) else {
                return Err(TokenStop::At(at));
            };
            let end = at + 1 + more;
            found.push(Token {
                kind,
                start: at,
                end,
            })?;
            rest = after.split_at(more).1;
            at = end;
        }
    }
    Ok(found)
}

/// The tokens of a line, in order, each with its place in the line.
///
/// A name is a letter and then letters, digits and `_`; a number is digits; a sign is one of `+ - * ^ ( ) [ ] , =`;
/// each is as long as it can be. Space, tab and byte 13 stand between tokens. From the first `#` on the line is a
/// comment, which may hold any bytes.
///
/// Answers `At(i)` exactly where byte i, before the comment, is the first that begins no token, and `Memory` where a
/// growth was refused. Both leave the line as it was.
pub fn tokens(alloc: Global, line: &[u8]) -> Result<Vec<Token>, TokenStop>
    ensures exact { IsCutInto line.now result }
    ensures in_order { IfOk result (λ found. IsInOrder 0 (length line.now) found.items) }
{
    cut(alloc, line)
}

/// A line is cut in one way into longest tokens with blanks alone between them, or there is one place up to which it
/// can be cut and where a byte stands that begins nothing, and not both. The bytes of each token are a token of its kind.
pub fn one_cut()
    ensures some { (line : List ℕ) → ((ts : List Token) × HasTokens line ts) ⊎ ((i : ℕ) × HasStrayByte line i) }
    ensures tokens { (line : List ℕ) (ts us : List Token) → HasTokens line ts → HasTokens line us → ts ≡ us }
    ensures stray { (line : List ℕ) (i j : ℕ) → HasStrayByte line i → HasStrayByte line j → i ≡ j }
    ensures apart { (line : List ℕ) (ts : List Token) (i : ℕ) → HasTokens line ts → HasStrayByte line i → ⊥ }
    ensures texts { (line : List ℕ) (ts : List Token) → HasTokens line ts → HaveTexts line ts }
{}
