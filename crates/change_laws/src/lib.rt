//! Standard monomials of an ideal, monomials that are independent modulo it, and its reduced Gröbner basis in another order. Each
//! function's contract is a law, proved here.
#![tactic(auto)]

mod basis_laws;
mod independence_laws;
mod standard_laws;

pub use basis_laws::changed_basis;
pub use independence_laws::{echelon_rows, same_modulo, uncovered_monomials};
pub use standard_laws::{few_standard, listed_standard, variable_powers};
