//! Reading a polynomial from left to right, with a stack for what waits outside parentheses.

ghost use Rattle.std.specs.Prelude.{◌≡◌, ◌++◌, ℕ, List, map, OnOk, IfOk, Some};
ghost use Rattle.poly_grammar.specs.Lexemes.{lexeme};
ghost use Rattle.poly_grammar.specs.Reading.{nests, after_sum, after_product, next, ended, start_state, at_operand, at_start, closing, after_factor, outcome};
ghost use Rattle.poly_grammar.specs.Answers.{IsPolyOf};
ghost use Rattle.poly_grammar.specs.Machine.{reader_state, Gives};

use crate::step::PolyStep;
use crate::stop::ReadStop;
use script_tokens::{Token, TokenKind};
use std::alloc::{AllocError, Global};

/// Where in a polynomial the next token stands.
#[derive(Clone, Copy, Debug, PartialEq, Eq)]
pub enum Phase {
    /// At the start of a polynomial, where a sign may stand.
    Start,
    /// Where a factor has to begin.
    Operand,
    /// Behind an atom, which may be raised to a power.
    Base,
    /// Behind `^`.
    Exponent,
    /// Behind a power.
    Factor,
}

/// What becomes of a term when it ends.
#[derive(Clone, Copy, Debug, PartialEq, Eq)]
pub enum Sum {
    /// It stands alone so far.
    Nothing,
    /// Its sign is turned.
    Negation,
    /// It is added to what stands before it.
    Addition,
    /// It is taken from what stands before it.
    Subtraction,
}

/// What waits for its second operand.
#[derive(Clone, Copy, Debug, PartialEq, Eq)]
pub struct Pending {
    /// What becomes of the term.
    pub sum: Sum,
    /// Whether the factor that is read is multiplied to those before it in its term.
    pub product: bool,
}

/// A polynomial that has been read so far.
#[derive(Debug, Drop)]
pub struct Reader {
    /// Where the next token stands.
    pub phase: Phase,
    /// What waits inside the innermost parenthesis that is open.
    pub pending: Pending,
    /// What waits outside each parenthesis that is open, the innermost last.
    pub outer: Vec<Pending>,
    /// The steps of what has been read.
    pub steps: Vec<PolyStep>,
}

/// Writes what waited for the end of a factor.
fn end_factor(steps: &mut Vec<PolyStep>, pending: Pending) -> Result<(), AllocError>
    ensures { OnOk result (steps.new.items ≡ steps.old.items ++ after_product pending.product) }
{
    if pending.product {
        steps.push(PolyStep::Multiply)?;
    }
    Ok(())
}

/// Writes what waited for the end of a term.
fn end_term(steps: &mut Vec<PolyStep>, pending: Pending) -> Result<(), AllocError>
    ensures { OnOk result (steps.new.items ≡ (steps.old.items ++ after_product pending.product) ++ after_sum pending.sum) }
{
    end_factor(steps, pending)?;
    match pending.sum {
        Sum::Nothing => {}
        Sum::Negation => steps.push(PolyStep::Negate)?,
        Sum::Addition => steps.push(PolyStep::Add)?,
        Sum::Subtraction => steps.push(PolyStep::Subtract)?,
    }
    Ok(())
}

impl Reader {
    /// A reader that has read nothing.
    fn new(alloc: Global) -> Reader
        ensures { reader_state result ≡ start_state }
    {
        Reader {
            phase: Phase::Start,
            pending: Pending {
                sum: Sum::Nothing,
                product: false,
            },
            outer: Vec::new(alloc),
            steps: Vec::new(alloc),
        }
    }

    /// A number, a name or an opening parenthesis.
    fn operand(&mut self, token: Token) -> Result<(), ReadStop>
        ensures { Gives (λ _. reader_state self.new) result (at_operand (reader_state self.old) (lexeme token)) }
    {
        match token.kind {
            TokenKind::Number => {
                self.steps.push(PolyStep::Number(token))?;
                self.phase = Phase::Base;
            }
            TokenKind::Name => {
                self.steps.push(PolyStep::Name(token))?;
                self.phase = Phase::Base;
            }
            TokenKind::Open => {
                self.outer.push(self.pending)?;
                self.pending = Pending {
                    sum: Sum::Nothing,
                    product: false,
                };
                self.phase = Phase::Start;
            }
            _ => return Err(ReadStop::Syntax),
        }
        Ok(())
    }

    /// What stands at the start of a polynomial.
    fn start(&mut self, token: Token) -> Result<(), ReadStop>
        ensures { Gives (λ _. reader_state self.new) result (at_start (reader_state self.old) (lexeme token)) }
    {
        match token.kind {
            TokenKind::Plus => {
                self.phase = Phase::Operand;
                Ok(())
            }
            TokenKind::Minus => {
                self.pending = Pending {
                    sum: Sum::Negation,
                    product: false,
                };
                self.phase = Phase::Operand;
                Ok(())
            }
            _ => self.operand(token),
        }
    }

    /// Closes the innermost parenthesis.
    fn close(&mut self) -> Result<(), ReadStop>
        ensures { Gives (λ _. reader_state self.new) result (closing (reader_state self.old) (reader_state self.old).outer) }
    {
        let Some(pending) = self.outer.pop() else {
            return Err(ReadStop::Syntax);
        };
        end_term(&mut self.steps, self.pending)?;
        self.pending = pending;
        self.phase = Phase::Base;
        Ok(())
    }

    /// What stands behind a factor that takes no more exponent.
    fn after_factor(&mut self, token: Token) -> Result<(), ReadStop>
        ensures { Gives (λ _. reader_state self.new) result (after_factor (reader_state self.old) (lexeme token)) }
    {
        match token.kind {
            TokenKind::Star => {
                end_factor(&mut self.steps, self.pending)?;
                self.pending = Pending {
                    sum: self.pending.sum,
                    product: true,
                };
            }
            TokenKind::Plus => {
                end_term(&mut self.steps, self.pending)?;
                self.pending = Pending {
                    sum: Sum::Addition,
                    product: false,
                };
            }
            TokenKind::Minus => {
                end_term(&mut self.steps, self.pending)?;
                self.pending = Pending {
                    sum: Sum::Subtraction,
                    product: false,
                };
            }
            TokenKind::Close => return self.close(),
            _ => return Err(ReadStop::Syntax),
        }
        self.phase = Phase::Operand;
        Ok(())
    }

    /// The next token.
    fn take(&mut self, token: Token) -> Result<(), ReadStop>
        ensures { Gives (λ _. reader_state self.new) result (next (reader_state self.old) (lexeme token)) }
    {
        match (self.phase, token.kind) {
            (Phase::Start, _) => self.start(token),
            (Phase::Operand, _) => self.operand(token),
            (Phase::Base, TokenKind::Caret) => {
                self.phase = Phase::Exponent;
                Ok(())
            }
            (Phase::Exponent, TokenKind::Number) => {
                self.steps.push(PolyStep::Power(token))?;
                self.phase = Phase::Factor;
                Ok(())
            }
            (Phase::Exponent, _) => Err(ReadStop::Syntax),
            (Phase::Base | Phase::Factor, _) => self.after_factor(token),
        }
    }

    /// The steps, if a polynomial may end here.
    fn finish(self) -> Result<Vec<PolyStep>, ReadStop>
        ensures { Gives (λ steps. steps.items) result (ended (reader_state self)) }
    {
        let mut steps = self.steps;
        if !self.outer.is_empty() {
            return Err(ReadStop::Syntax);
        }
        match self.phase {
            Phase::Base | Phase::Factor => {
                end_term(&mut steps, self.pending)?;
                Ok(steps)
            }
            _ => Err(ReadStop::Syntax),
        }
    }
}

/// The steps of a polynomial, however deep it nests.
fn any_depth(alloc: Global, tokens: &[Token]) -> Result<Vec<PolyStep>, ReadStop>
    ensures { Gives (λ steps. steps.items) result (outcome (map lexeme tokens.now) start_state) }
{
    let mut reader = Reader::new(alloc);
    for token in tokens {
        reader.take(*token)?;
    }
    reader.finish()
}

/// Whether parentheses nest at most 64 deep.
fn nests(tokens: &[Token]) -> bool
    ensures { result ≡ nests 0 (map lexeme tokens.now) }
{
    let mut depth: u32 = 0;
    for token in tokens {
        match token.kind {
            TokenKind::Open if depth < 64 => depth += 1,
            TokenKind::Open => return false,
            TokenKind::Close => depth = depth.saturating_sub(1),
            _ => {}
        }
    }
    true
}

/// The steps of the polynomial that the tokens are, all of them.
///
/// The grammar is `POLY := [+|-] TERM {(+|-) TERM}`, `TERM := FACTOR {* FACTOR}`, `FACTOR := ATOM [^ NUM]`,
/// `ATOM := NUM | NAME | ( POLY )`. A sign before a term belongs to the whole term.
///
/// Answers `Syntax` exactly where the tokens are not in the grammar or parentheses nest more than 64 deep, and `Memory`
/// where a growth was refused. No tree is made, and no call goes deeper where the text nests deeper or is longer.
pub fn read_polynomial(alloc: Global, tokens: &[Token]) -> Result<Vec<PolyStep>, ReadStop>
    ensures { IsPolyOf (map lexeme tokens.now) result }
{
    if !nests(tokens) {
        return Err(ReadStop::Syntax);
    }
    any_depth(alloc, tokens)
}
