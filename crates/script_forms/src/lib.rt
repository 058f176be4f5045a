//! The lines of a script as they are written: which words, names, numbers and polynomials a line has, before any of them
//! is looked up.
//!
//! A line is read without a tree in memory and without recursion; each polynomial is held by its steps.
#![tactic(auto)]

mod expressions;
mod form;
mod operands;
mod polynomials;
mod ring_words;
mod vectors;
mod words;

pub use form::{DivisionWord, Form, Head, QuestionWord, read_form};
pub use operands::{Binary, ByPolynomial, Operands};
pub use ring_words::{OrderName, RingForm};
pub use vectors::Shape;
