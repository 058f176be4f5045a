//! What stands behind `ring`, before a name or a number is looked at.

ghost use Rattle.std.specs.Prelude.{◌≡◌, ◌∷◌, ◌⊎◌, Some, None, false, map, IfSome, IfNone};
ghost use Rattle.script_tokens.specs.declared.token.TokenKind.TheVariants.{Name, Number};
ghost use Rattle.poly_grammar.specs.Lexemes.{comma, lexeme};
ghost use Rattle.poly_grammar.specs.Machine.{Gives};
ghost use Rattle.script_forms.specs.Written.{IsOrder};
ghost use Rattle.script_forms.specs.declared.ring_words.OrderName.{OrderName as OrderValue};
ghost use Rattle.script_forms.specs.RingForms.{begins_with_comma, elim_first, item_first, list_first, list_view, order_first, ring_line_of};
ghost use Rattle.script_forms.specs.RingForms.{ring_of, token_of, top_first, weights_of};

use crate::words::is_word;
use poly_grammar::ReadStop;
use script_tokens::{Token, TokenKind};
use std::alloc::Global;

/// The order of a ring line, by its word.
#[derive(Clone, Copy)]
pub enum OrderName {
    /// `lex`
    Lex,
    /// `grevlex`
    Grevlex,
    /// `elim`, by its number.
    Elim(Token),
}

/// A ring line as it is written.
pub struct RingForm {
    /// The number of its modulus.
    pub modulus: Token,
    /// The names of its variables, of which there is one at least.
    pub names: Vec<Token>,
    /// Its order, by its word.
    pub order: OrderName,
    /// Whether it has `top`.
    pub top: bool,
    /// The numbers of its weights, none where it has no `weights`.
    pub weights: Vec<Token>,
}

// By hand, so that each drop of one is a call.
impl Drop for RingForm {
    fn drop(self) {
        let RingForm {
            modulus: _,
            names: _,
            order: _,
            top: _,
            weights: _,
        } = self;
    }
}

/// The token of the kind that stands first, and what stands behind it.
fn item_first(kind: TokenKind, tokens: &[Token]) -> Option<(Token, &[Token])>
    requires { (kind ≡ Name) ⊎ (kind ≡ Number) }
    ensures found { IfSome result (λ f. item_first (token_of kind) (map lexeme tokens.now) ≡ Some (f.0, map lexeme f.1.now)) }
    ensures none { IfNone result (item_first (token_of kind) (map lexeme tokens.now) ≡ None) }
{
    let Some((first, behind)) = tokens.split_first() else {
        return None;
    };
    if first.kind != kind {
        return None;
    }
    Some((*first, behind))
}

/// What stands behind a comma, where it stands first.
fn behind_comma(tokens: &[Token]) -> Option<&[Token]>
    ensures found { IfSome result (λ rest. map lexeme tokens.now ≡ comma ∷ map lexeme rest.now) }
    ensures none { IfNone result (begins_with_comma (map lexeme tokens.now) ≡ false) }
{
    let Some((sign, behind)) = tokens.split_first() else {
        return None;
    };
    let TokenKind::Comma = sign.kind else {
        return None;
    };
    Some(behind)
}

/// Names or numbers with commas between them, as far as they go, and what stands behind them.
fn listed(
    alloc: Global,
    kind: TokenKind,
    tokens: &[Token],
) -> Result<(Vec<Token>, &[Token]), ReadStop>
    requires { (kind ≡ Name) ⊎ (kind ≡ Number) }
    ensures { Gives (λ found. list_view found.0 found.1.now) result (list_first (token_of kind) (map lexeme tokens.now)) }
{
    let Some((first, behind)) = item_first(kind, tokens) else {
        return Err(ReadStop::Syntax);
    };
    let mut found = Vec::new(alloc);
    found.push(first)?;
    let mut rest = behind;
    while let Some(after) = behind_comma(rest) {
        let Some((item, more)) = item_first(kind, after) else {
            return Err(ReadStop::Syntax);
        };
        found.push(item)?;
        rest = more;
    }
    Ok((found, rest))
}

/// Behind `elim`: its number, and what stands behind it.
fn elim_first(tokens: &[Token]) -> Option<(OrderName, &[Token])>
    ensures found { IfSome result (λ f. elim_first (map lexeme tokens.now) ≡ Some (f.0, map lexeme f.1.now)) }
    ensures none { IfNone result (elim_first (map lexeme tokens.now) ≡ None) }
{
    let Some((first, behind)) = tokens.split_first() else {
        return None;
    };
    let TokenKind::Number = first.kind else {
        return None;
    };
    Some((OrderName::Elim(*first), behind))
}

/// The order that stands first, and what stands behind it.
fn order_first<'a>(line: &[u8], tokens: &'a [Token]) -> Option<(OrderName, &'a [Token])>
    ensures found { IfSome result (λ f. order_first line.now (map lexeme tokens.now) ≡ Some (f.0, map lexeme f.1.now)) }
    ensures none { IfNone result (order_first line.now (map lexeme tokens.now) ≡ None) }
{
    let Some((first, behind)) = tokens.split_first() else {
        return None;
    };
    if is_word(line, *first, b"lex") {
        return Some((OrderName::Lex, behind));
    }
    if is_word(line, *first, b"grevlex") {
        return Some((OrderName::Grevlex, behind));
    }
    if is_word(line, *first, b"elim") {
        return elim_first(behind);
    }
    None
}

/// The order that the tokens are, all of them.
pub fn read_order(line: &[u8], tokens: &[Token]) -> Option<OrderName>
    ensures found { IfSome result (IsOrder line.now (map lexeme tokens.now)) }
    ensures none { IfNone result ((order : OrderValue) → IsOrder line.now (map lexeme tokens.now) order → ⊥) }
{
    let (order, rest) = order_first(line, tokens)?;
    if !rest.is_empty() {
        return None;
    }
    Some(order)
}

/// Whether `top` stands first, and what stands behind it.
fn top_first<'a>(line: &[u8], tokens: &'a [Token]) -> (bool, &'a [Token])
    ensures { top_first line.now (map lexeme tokens.now) ≡ (result.0, map lexeme result.1.now) }
{
    let Some((first, behind)) = tokens.split_first() else {
        return (false, tokens);
    };
    if is_word(line, *first, b"top") {
        return (true, behind);
    }
    (false, tokens)
}

/// The numbers of [weights NUM {, NUM}], all of the tokens.
fn weights(alloc: Global, line: &[u8], tokens: &[Token]) -> Result<Vec<Token>, ReadStop>
    ensures { Gives (λ found. found.items) result (weights_of line.now (map lexeme tokens.now)) }
{
    let Some((first, behind)) = tokens.split_first() else {
        return Ok(Vec::new(alloc));
    };
    if !is_word(line, *first, b"weights") {
        return Err(ReadStop::Syntax);
    }
    match listed(alloc, TokenKind::Number, behind) {
        Ok((found, rest)) => {
            if !rest.is_empty() {
                return Err(ReadStop::Syntax);
            }
            Ok(found)
        }
        Err(stop) => Err(stop),
    }
}

/// NUM NAME {, NAME} order [top] [weights NUM {, NUM}], all of the tokens.
pub fn read_ring(alloc: Global, line: &[u8], tokens: &[Token]) -> Result<RingForm, ReadStop>
    ensures { Gives ring_line_of result (ring_of line.now (map lexeme tokens.now)) }
{
    let Some((modulus, behind)) = tokens.split_first() else {
        return Err(ReadStop::Syntax);
    };
    let TokenKind::Number = modulus.kind else {
        return Err(ReadStop::Syntax);
    };
    let (names, after) = match listed(alloc, TokenKind::Name, behind) {
        Ok(found) => found,
        Err(stop) => return Err(stop),
    };
    let Some((order, rest)) = order_first(line, after) else {
        return Err(ReadStop::Syntax);
    };
    let (top, last) = top_first(line, rest);
    match weights(alloc, line, last) {
        Ok(weights) => Ok(RingForm {
            modulus: *modulus,
            names,
            order,
            top,
            weights,
        }),
        Err(stop) => Err(stop),
    }
}
