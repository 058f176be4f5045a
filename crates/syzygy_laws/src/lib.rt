//! Syzygies: of a Gröbner basis by its pairs, and of any list by marks; lifts. Each function's contract is a law, proved here.
#![tactic(auto)]

mod kernel_laws;
mod lift_laws;
mod mark_laws;
mod schreyer_laws;

pub use kernel_laws::{lifts_by_marks, marked_basis};
pub use lift_laws::lifts;
pub use mark_laws::marks;
pub use schreyer_laws::{induced_order, pair_leads, pairs, schreyer, syzygy_leads};
