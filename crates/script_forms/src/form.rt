//! The form of a line: its word and what stands behind it, before a name or a number is looked at.

ghost use Rattle.std.specs.Prelude.{◌≡◌, ℕ, List, map, IfSome, IfNone};
ghost use Rattle.script_tokens.specs.declared.token.TokenKind.TheVariants.{Name};
ghost use Rattle.poly_grammar.specs.Lexemes.{lexeme};
ghost use Rattle.poly_grammar.specs.Numerals.{text_of};
ghost use Rattle.script_forms.specs.Forms.{IsRead, IsReadBehind};
ghost use Rattle.script_forms.specs.declared.form.DivisionWord.{DivisionWord as DivisionValue};
ghost use Rattle.script_forms.specs.declared.form.QuestionWord.{QuestionWord as QuestionValue};
ghost use Rattle.script_forms.specs.Written.{change_word, division_word, equal_word, express_word, ext_word, ideal_word, let_word, module_word, question_word, ring_word, show_word, word_text};

use crate::expressions::expression;
use crate::operands::{Operands, read_operation};
use crate::polynomials::{entries, one_polynomial, polynomials};
use crate::ring_words::{OrderName, RingForm, read_order, read_ring};
use crate::vectors::{Shape, vectors};
use crate::words::{behind_equals, is_word, name_first, number_first};
use poly_grammar::{PolyStep, ReadStop};
use script_tokens::{Token, TokenKind};
use std::alloc::Global;

/// The word of a question on a value.
#[derive(Clone, Copy)]
pub enum QuestionWord {
    /// `gens`
    Gens,
    /// `gb`
    Gb,
    /// `size`
    Size,
    /// `hilb`
    Hilbert,
    /// `res`
    Resolution,
    /// `minres`
    Minimal,
    /// `betti`
    Betti,
    /// `reg`
    Regularity,
}

/// The word of a division of a vector by a value.
#[derive(Clone, Copy)]
pub enum DivisionWord {
    /// `nf`
    NormalForm,
    /// `member`
    Member,
    /// `lift`
    Lift,
}

/// The word and the names of a line that needs a ring, without its polynomials.
#[derive(Clone, Copy)]
pub enum Head {
    /// `show`
    Show,
    /// `ideal`, by the name that it gives.
    Ideal(Token),
    /// `module`, by the name that it gives, the number of its rank, and how many entries its vectors have.
    Module(Token, Token, Shape),
    /// `let`, by the name that it gives and its operation.
    Let(Token, Operands),
    /// A question, by the name of its value.
    Ask(QuestionWord, Token),
    /// A division, by the name of its value.
    Divide(DivisionWord, Token),
    /// `equal`, by the names of both values.
    Equal(Token, Token),
    /// `fglm`, by the name of its value and its order.
    Change(Token, OrderName),
    /// `express`
    Express,
    /// `ext`, by the name of its value and its number.
    Ext(Token, Token),
}

/// A line as it is written.
#[derive(Drop)]
pub enum Form {
    /// A blank line.
    Nothing,
    /// `ring`
    Ring(RingForm),
    /// Any other line, by the steps of each of its polynomials.
    Line(Head, Vec<Vec<PolyStep>>),
}

/// What stands behind `ring`.
fn ring_form(alloc: Global, line: &[u8], tokens: &[Token]) -> Result<Form, ReadStop>
    ensures { IsReadBehind ring_word line.now (map lexeme tokens.now) result }
{
    match read_ring(alloc, line, tokens) {
        Ok(form) => Ok(Form::Ring(form)),
        Err(stop) => Err(stop),
    }
}

/// What stands behind `show`.
fn show_form(alloc: Global, tokens: &[Token]) -> Result<Form, ReadStop>
    ensures { (line : List ℕ) → IsReadBehind show_word line (map lexeme tokens.now) result }
{
    match one_polynomial(alloc, tokens) {
        Ok(found) => Ok(Form::Line(Head::Show, found)),
        Err(stop) => Err(stop),
    }
}

/// What stands behind `ideal`.
fn ideal_form(alloc: Global, tokens: &[Token]) -> Result<Form, ReadStop>
    ensures { (line : List ℕ) → IsReadBehind ideal_word line (map lexeme tokens.now) result }
{
    let Some((given, behind)) = name_first(tokens) else {
        return Err(ReadStop::Syntax);
    };
    let Some((sign, rest)) = behind.split_first() else {
        return Err(ReadStop::Syntax);
    };
    let TokenKind::Equals = sign.kind else {
        return Err(ReadStop::Syntax);
    };
    match polynomials(alloc, rest) {
        Ok(found) => Ok(Form::Line(Head::Ideal(given), found)),
        Err(stop) => Err(stop),
    }
}

/// What stands behind `module`.
fn module_form(alloc: Global, tokens: &[Token]) -> Result<Form, ReadStop>
    ensures { (line : List ℕ) → IsReadBehind module_word line (map lexeme tokens.now) result }
{
    let Some((given, behind)) = name_first(tokens) else {
        return Err(ReadStop::Syntax);
    };
    let Some((rank, after)) = number_first(behind) else {
        return Err(ReadStop::Syntax);
    };
    let Some(rest) = behind_equals(after) else {
        return Err(ReadStop::Syntax);
    };
    match vectors(alloc, rest) {
        Ok(found) => Ok(Form::Line(Head::Module(given, rank, found.1), found.0)),
        Err(stop) => Err(stop),
    }
}

/// What stands behind `let`.
fn let_form(alloc: Global, line: &[u8], tokens: &[Token]) -> Result<Form, ReadStop>
    ensures { IsReadBehind let_word line.now (map lexeme tokens.now) result }
{
    let Some((given, behind)) = name_first(tokens) else {
        return Err(ReadStop::Syntax);
    };
    let Some(rest) = behind_equals(behind) else {
        return Err(ReadStop::Syntax);
    };
    match read_operation(alloc, line, rest) {
        Ok(found) => Ok(Form::Line(Head::Let(given, found.0), found.1)),
        Err(stop) => Err(stop),
    }
}

/// What stands behind the word of a question.
fn ask_form(alloc: Global, question: QuestionWord, tokens: &[Token]) -> Result<Form, ReadStop>
    ensures { (line : List ℕ) → IsReadBehind (question_word question) line (map lexeme tokens.now) result }
{
    let Some((value, behind)) = name_first(tokens) else {
        return Err(ReadStop::Syntax);
    };
    if !behind.is_empty() {
        return Err(ReadStop::Syntax);
    }
    Ok(Form::Line(Head::Ask(question, value), Vec::new(alloc)))
}

/// What stands behind the word of a division.
fn divide_form(alloc: Global, division: DivisionWord, tokens: &[Token]) -> Result<Form, ReadStop>
    ensures { (line : List ℕ) → IsReadBehind (division_word division) line (map lexeme tokens.now) result }
{
    let Some((value, behind)) = name_first(tokens) else {
        return Err(ReadStop::Syntax);
    };
    match entries(alloc, behind) {
        Ok(found) => Ok(Form::Line(Head::Divide(division, value), found)),
        Err(stop) => Err(stop),
    }
}

/// What stands behind `equal`.
fn equal_form(alloc: Global, tokens: &[Token]) -> Result<Form, ReadStop>
    ensures { (line : List ℕ) → IsReadBehind equal_word line (map lexeme tokens.now) result }
{
    let Some((left, behind)) = name_first(tokens) else {
        return Err(ReadStop::Syntax);
    };
    let Some((right, rest)) = name_first(behind) else {
        return Err(ReadStop::Syntax);
    };
    if !rest.is_empty() {
        return Err(ReadStop::Syntax);
    }
    Ok(Form::Line(Head::Equal(left, right), Vec::new(alloc)))
}

/// What stands behind `fglm`.
fn change_form(alloc: Global, line: &[u8], tokens: &[Token]) -> Result<Form, ReadStop>
    ensures { IsReadBehind change_word line.now (map lexeme tokens.now) result }
{
    let Some((value, behind)) = name_first(tokens) else {
        return Err(ReadStop::Syntax);
    };
    let Some(order) = read_order(line, behind) else {
        return Err(ReadStop::Syntax);
    };
    Ok(Form::Line(Head::Change(value, order), Vec::new(alloc)))
}

/// What stands behind `express`.
fn express_form(alloc: Global, line: &[u8], tokens: &[Token]) -> Result<Form, ReadStop>
    ensures { IsReadBehind express_word line.now (map lexeme tokens.now) result }
{
    match expression(alloc, line, tokens) {
        Ok(found) => Ok(Form::Line(Head::Express, found)),
        Err(stop) => Err(stop),
    }
}

/// What stands behind `ext`.
fn ext_form(alloc: Global, tokens: &[Token]) -> Result<Form, ReadStop>
    ensures { (line : List ℕ) → IsReadBehind ext_word line (map lexeme tokens.now) result }
{
    let Some((value, behind)) = name_first(tokens) else {
        return Err(ReadStop::Syntax);
    };
    let Some((count, rest)) = number_first(behind) else {
        return Err(ReadStop::Syntax);
    };
    if !rest.is_empty() {
        return Err(ReadStop::Syntax);
    }
    Ok(Form::Line(Head::Ext(value, count), Vec::new(alloc)))
}

/// Which question a word asks.
fn question_of(line: &[u8], token: Token) -> Option<QuestionWord>
    ensures found { IfSome result (λ question. (token.kind ≡ Name) × (text_of line.now token ≡ word_text (question_word question))) }
    ensures none { IfNone result ((question : QuestionValue) → token.kind ≡ Name → text_of line.now token ≡ word_text (question_word question) → ⊥) }
{
    if is_word(line, token, b"gens") {
        Some(QuestionWord::Gens)
    } else if is_word(line, token, b"gb") {
        Some(QuestionWord::Gb)
    } else if is_word(line, token, b"size") {
        Some(QuestionWord::Size)
    } else if is_word(line, token, b"hilb") {
        Some(QuestionWord::Hilbert)
    } else if is_word(line, token, b"res") {
        Some(QuestionWord::Resolution)
    } else if is_word(line, token, b"minres") {
        Some(QuestionWord::Minimal)
    } else if is_word(line, token, b"betti") {
        Some(QuestionWord::Betti)
    } else if is_word(line, token, b"reg") {
        Some(QuestionWord::Regularity)
    } else {
        None
    }
}

/// Which division a word is for.
fn division_of(line: &[u8], token: Token) -> Option<DivisionWord>
    ensures found { IfSome result (λ division. (token.kind ≡ Name) × (text_of line.now token ≡ word_text (division_word division))) }
    ensures none { IfNone result ((division : DivisionValue) → token.kind ≡ Name → text_of line.now token ≡ word_text (division_word division) → ⊥) }
{
    if is_word(line, token, b"nf") {
        Some(DivisionWord::NormalForm)
    } else if is_word(line, token, b"member") {
        Some(DivisionWord::Member)
    } else if is_word(line, token, b"lift") {
        Some(DivisionWord::Lift)
    } else {
        None
    }
}

/// The form of the line that has these tokens; `Syntax` exactly where it has none.
pub fn read_form(alloc: Global, line: &[u8], tokens: &[Token]) -> Result<Form, ReadStop>
    ensures { IsRead line.now (map lexeme tokens.now) result }
{
    let Some((word, behind)) = tokens.split_first() else {
        return Ok(Form::Nothing);
    };
    if is_word(line, *word, b"ring") {
        return ring_form(alloc, line, behind);
    }
    if is_word(line, *word, b"show") {
        return show_form(alloc, behind);
    }
    if is_word(line, *word, b"ideal") {
        return ideal_form(alloc, behind);
    }
    if is_word(line, *word, b"equal") {
        return equal_form(alloc, behind);
    }
    if is_word(line, *word, b"module") {
        return module_form(alloc, behind);
    }
    if is_word(line, *word, b"let") {
        return let_form(alloc, line, behind);
    }
    if is_word(line, *word, b"fglm") {
        return change_form(alloc, line, behind);
    }
    if is_word(line, *word, b"express") {
        return express_form(alloc, line, behind);
    }
    if is_word(line, *word, b"ext") {
        return ext_form(alloc, behind);
    }
    if let Some(question) = question_of(line, *word) {
        return ask_form(alloc, question, behind);
    }
    if let Some(division) = division_of(line, *word) {
        return divide_form(alloc, division, behind);
    }
    Err(ReadStop::Syntax)
}
