//! The text of a line, whole in memory until it is written. The columns of a great map are entries 0 for the most part, and a long
//! run of them is kept by its length.
#![tactic(auto)]

mod pieces;
mod text;
mod undo;
mod zeros;

pub use no_memory::NoMemory;
pub use pieces::Pieces;
pub use text::LineText;
pub use undo::whole_or_none;
