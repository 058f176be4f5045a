//! The texts and numbers of tokens.

ghost use Rattle.std.specs.Prelude.{◌≡◌, ◌^◌, ◌≤◌, ◌↔◌, IsTrue, MatchOption};
ghost use Rattle.std.specs.List.{AllByRecursion};
ghost use Rattle.poly_grammar.specs.Numerals.{number_of, text_of, NumeralFits};

use script_tokens::{Token, TokenKind};

/// The bytes of a token of the line.
pub fn text(line: &[u8], token: Token) -> &[u8]
    ensures { result.now ≡ text_of line.now token }
{
    let rest = &line[token.start.min(line.len())..];
    &rest[..token.end.saturating_sub(token.start).min(rest.len())]
}

/// The number that digits say; none exactly where it is 2^128 or more. Leading zeros are free.
pub fn number(digits: &[u8]) -> Option<u128>
    ensures { MatchOption result (2 ^ 128 ≤ number_of digits.now) (λ n. n ≡ number_of digits.now) }
{
    let mut value: u128 = 0;
    for digit in digits {
        let low = u128::from(digit.saturating_sub(b'0'));
        let Some(tens) = value.checked_mul(10) else {
            return None;
        };
        let Some(sum) = tens.checked_add(low) else {
            return None;
        };
        value = sum;
    }
    Some(value)
}

/// Whether each number among the tokens of the line is below 2^128.
pub fn numerals_fit(line: &[u8], tokens: &[Token]) -> bool
    ensures { IsTrue result ↔ AllByRecursion (NumeralFits line.now) tokens.now }
{
    for token in tokens {
        if token.kind == TokenKind::Number && number(text(line, *token)).is_none() {
            return false;
        }
    }
    true
}
