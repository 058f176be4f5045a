//! What the programs that answer tables read and write: rings, products, vectors and lists from short texts, and a sheet
//! for their values.
//!
//! A text that is not of the form gives `NoValue`, as does want of memory. Degrees go up to 65,535, and terms may stand in
//! any order and share keys, which a script does not allow.
#![tactic(auto)]

mod no_value;
mod products;
mod rings;
mod sheet;
mod vectors;

pub use no_value::NoValue;
pub use products::product_of;
pub use rings::{ring_of, setting_of};
pub use sheet::Sheet;
pub use vectors::{vector_of, vectors_of};
