//! A pass over the columns of a map by their constants alone.
//!
//! It tells which rows and columns leave a map when its constants leave, each time the first one: they are those that leave when all but
//! the constants is left out. The constants of a column are listed with the places of their rows, cleared by the steps so far in a sum for
//! each row, and the least row with a constant that is left makes the next step. No column is copied.
#![tactic(auto)]

mod choosing;
mod clearing;
mod leaving;
mod listing;

pub use choosing::chosen;
pub use leaving::Chosen;
