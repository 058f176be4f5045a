//! Vectors of constants alone, by the residues of their rows.
//!
//! A column of constants is kept as rows with residues. A vector that is eliminated by such columns is a sum for each row, to which
//! multiples of the columns are added, and is read off at the end as such a column: no term is moved, none is compared, and a sum is
//! reduced where it would not fit 64 bits alone.
#![tactic(auto)]

mod constants;
mod sums;
mod taking;

pub use constants::Constants;
pub use sums::{RowSums, add_multiple, no_sums, residue_at};
pub use taking::take_constants;
