//! What a script prints of one value, or of two that are compared, over any engine for reduced Gröbner bases.
//!
//! The reduced basis of a value answers questions and stands behind its reports: it is kept from then on, or all is as before where
//! the answer is refused or an error comes. Lifts and polynomials by others need one run and keep nothing. Each call appends its
//! text, or says for which kind the line is refused, or why there is none; then nothing is appended.
#![tactic(auto)]

mod answers;
mod counting;
mod expressing;
mod extending;
mod lifts;
mod minimising;
mod reordering;
mod reports;
mod resolving;
mod step;

pub use answers::{Question, answer_value, compare_values};
pub use expressing::push_expression;
pub use extending::extend_value;
pub use lifts::push_lift;
pub use reports::{Report, report_value};
pub use step::Step;
