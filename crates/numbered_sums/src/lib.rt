//! Sums of residues with a number for each key, and products of vectors over such numbers: what divisions by a forward
//! substitution have in common.
//!
//! Each product is made once, as numbers of keys and residues. A division then goes through one array of sums, from the product
//! with the greatest lead down, and takes each product away so often as its lead is there.
#![tactic(auto)]

mod hashes;
mod products;
mod sums;
mod work;

pub use hashes::column_hashes;
pub use products::numbered_product;
pub use sums::{add_multiple, clear_sums, residue_at};
pub use work::{Work, first_group, mark, no_work, take_bit};
