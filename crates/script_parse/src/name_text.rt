//! The text of a name.

ghost use Rattle.std.specs.Prelude.{◌≡◌, string_bytes, IfOk};
ghost use Rattle.std.specs.Str.{IsAscii};
ghost use Rattle.poly_grammar.specs.Numerals.{text_of};

use poly_grammar::text;
use script_tokens::Token;
use std::alloc::{AllocError, Global};

/// The name that a token is.
pub fn name_of(alloc: Global, line: &[u8], token: Token) -> Result<String, AllocError>
    requires { IsAscii (text_of line.now token) }
    ensures { IfOk result (λ name. string_bytes name ≡ text_of line.now token) }
{
    String::from_utf8_lossy(alloc, text(line, token))
}
