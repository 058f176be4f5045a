//! The words of a line, and what stands first among its tokens.

ghost use Rattle.std.specs.Prelude.{◌≡◌, ◌∷◌, ◌↔◌, List, map, IfNone, IfSome, IsTrue};
ghost use Rattle.script_tokens.specs.declared.token.Token.{Token as TokenValue};
ghost use Rattle.script_tokens.specs.declared.token.TokenKind.TheVariants.{Name};
ghost use Rattle.poly_grammar.specs.Lexemes.{Lexeme, equals, lexeme, name, number};
ghost use Rattle.poly_grammar.specs.Numerals.{text_of};
ghost use Rattle.script_forms.specs.RingForms.{says};

use poly_grammar::text;
use script_tokens::{Token, TokenKind};

/// Whether the token is this name.
pub fn is_word(line: &[u8], token: Token, word: &[u8]) -> bool
    ensures name { IsTrue result ↔ ((token.kind ≡ Name) × (text_of line.now token ≡ word.now)) }
    ensures says { result ≡ says line.now word.now (lexeme token) }
{
    token.kind == TokenKind::Name && text(line, token) == word
}

/// The name that stands first, and what stands behind it.
pub fn name_first(tokens: &[Token]) -> Option<(Token, &[Token])>
    ensures found { IfSome result (λ f. map lexeme tokens.now ≡ name f.0 ∷ map lexeme f.1.now) }
    ensures none { IfNone result ((t : TokenValue) (rest : List Lexeme) → map lexeme tokens.now ≡ name t ∷ rest → ⊥) }
{
    let Some((first, behind)) = tokens.split_first() else {
        return None;
    };
    let TokenKind::Name = first.kind else {
        return None;
    };
    Some((*first, behind))
}

/// The number that stands first, and what stands behind it.
pub fn number_first(tokens: &[Token]) -> Option<(Token, &[Token])>
    ensures found { IfSome result (λ f. map lexeme tokens.now ≡ number f.0 ∷ map lexeme f.1.now) }
    ensures none { IfNone result ((t : TokenValue) (rest : List Lexeme) → map lexeme tokens.now ≡ number t ∷ rest → ⊥) }
{
    let Some((first, behind)) = tokens.split_first() else {
        return None;
    };
    let TokenKind::Number = first.kind else {
        return None;
    };
    Some((*first, behind))
}

/// What stands behind `=`, where it stands first.
pub fn behind_equals(tokens: &[Token]) -> Option<&[Token]>
    ensures found { IfSome result (λ rest. map lexeme tokens.now ≡ equals ∷ map lexeme rest.now) }
    ensures none { IfNone result ((rest : List Lexeme) → map lexeme tokens.now ≡ equals ∷ rest → ⊥) }
{
    let Some((sign, behind)) = tokens.split_first() else {
        return None;
    };
    let TokenKind::Equals = sign.kind else {
        return None;
    };
    Some(behind)
}
