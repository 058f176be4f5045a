//! The numbers that tokens say.

ghost use Rattle.std.specs.Prelude.{◌^◌, ◌≡◌, ◌≤◌, MatchOption, nat_le};
ghost use Rattle.poly_grammar.specs.Numerals.{numeral_value};
ghost use Rattle.script_parse.specs.Refusals.{IsOutside};
ghost use Rattle.script_parse.specs.Tests.{IsGood, within};

use poly_grammar::{number, text};
use script_tokens::Token;

/// The number that a token says, where it is from 1 to the last one.
pub fn number_within(line: &[u8], token: Token, last: u32) -> Option<u32>
    ensures { IsGood (numeral_value line.now token) (IsOutside last (numeral_value line.now token)) result }
{
    let value = number(text(line, token))?;
    if value == 0 {
        return None;
    }
    if value > u128::from(last) {
        return None;
    }
    Some(value as u32)
}

/// Whether the number that a token says is from 1 to the last one.
pub fn is_within(line: &[u8], token: Token, last: usize) -> bool
    ensures { result ≡ within last (numeral_value line.now token) }
{
    match number(text(line, token)) {
        Some(value) => value >= 1 && value <= last as u128,
        None => false,
    }
}

/// Whether the number that a token says is at most the last one.
pub fn is_at_most(line: &[u8], token: Token, last: usize) -> bool
    ensures { result ≡ nat_le (numeral_value line.now token) last }
{
    match number(text(line, token)) {
        Some(value) => value <= last as u128,
        None => false,
    }
}

/// The number that a token says; none where it is 2^32 or more.
pub fn small_number(line: &[u8], token: Token) -> Option<u32>
    ensures { MatchOption result (2 ^ 32 ≤ numeral_value line.now token) (λ k. k ≡ numeral_value line.now token) }
{
    let value = number(text(line, token))?;
    if value > u128::from(u32::MAX) {
        return None;
    }
    Some(value as u32)
}
