//! Which row of a pass has each column: helpers claim columns for their rows, each by one compare-exchange on one word, and look
//! which row has a column, each by one load. Nobody waits, and no step takes memory.
//!
//! What is proved: a word that names a row never changes; a claim of a row acts on the word of the row's lead column alone, and
//! answers what the word held at that step; each answer is told to the seat that asked; and `close` gives words that are what was
//! told to each seat that is the closing one or was joined into it. Where all seats were joined, each column that has a row had it
//! before the pass, or one of them was told that the row's claim won it. So of all rows with one lead exactly one has the column,
//! and each other one knows which.
//!
//! What is not claimed: which of several rows wins.
#![tactic(auto)]

mod claims;
mod law;
mod plays;
mod words;

pub use claims::{Claim, Claims};
pub use law::{ClaimSeat, Entry, Law, Rows, View};
pub use no_memory::NoMemory;
