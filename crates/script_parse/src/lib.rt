//! The lines of a script: what a line states, or for which kind it is refused, exactly.
//!
//! A line is read without a tree in memory and without recursion; a polynomial is brought to its normal form.
#![tactic(auto)]

mod checks;
mod kind;
mod line_laws;
mod name_table;
mod name_text;
mod named;
mod numbers;
mod operation;
mod operation_line;
mod reading;
mod ring_line;
mod ring_needed;
mod stated;
mod values;

pub use kind::{Kind, ParseStop};
pub use line_laws::one_answer;
pub use name_table::NameTable;
pub use named::NameInfo;
pub use operation::Operation;
pub use reading::statement;
pub use stated::Statement;
