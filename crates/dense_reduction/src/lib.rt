//! The reduction of rows that lost their columns by rows that have claimed them, in dense rows of numbers: of one row, or of eight
//! together (Faugère 1999, section 2).
//!
//! What is proved: of the rows of a helper each has its column, or another row has it, and `claim_rows` tells which. What `reduce_row`
//! and `reduce_together` leave of such a row is monic and has a lower lead; with the rows that words name and the helper's own ones it
//! spans the row, and it is the combination of the input rows that its sources say. A row of which nothing is left is in their span.
#![tactic(auto)]

mod accumulating;
mod claiming;
mod eights;
mod lefts;
mod reduction;
mod together;

pub use claiming::claim_rows;
pub use eights::EIGHT;
pub use lefts::{Left, Lost};
pub use reduction::{Own, PassShared, Work, own_pivot, reduce_row, room_for_one};
pub use together::{Together, reduce_together, room_for_eight};
