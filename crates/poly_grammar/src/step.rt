//! The steps of working out a polynomial.

use script_tokens::Token;

/// One step of working out a polynomial on a stack.
#[derive(Clone, Copy, Debug)]
pub enum PolyStep {
    /// Puts the number of the token.
    Number(Token),
    /// Puts what the name of the token stands for.
    Name(Token),
    /// Raises the top to the power of the token's number.
    Power(Token),
    /// Puts the product of the two on top in their place.
    Multiply,
    /// Puts their sum.
    Add,
    /// Puts their difference, the top being taken away.
    Subtract,
    /// Turns the sign of the top.
    Negate,
}
