//! What division by a Gröbner basis gives. Each function's contract is a law, proved here.
#![tactic(auto)]

mod division;
mod elimination;
mod remainder;
mod replacement;
mod sum_leads;

pub use division::{bounded_division, generation, representations};
pub use elimination::{kept_keys, kept_members};
pub use remainder::{membership_test, one_normal_form, one_remainder, zero_remainder};
pub use replacement::replaced_members;
pub use sum_leads::leads_of_sums;
