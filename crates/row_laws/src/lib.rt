//! Rows, their spans and echelon forms, and what these say of a job of pairs. Each function's contract is a law, proved here.
#![tactic(auto)]

mod echelon_laws;
mod job_laws;
mod span_laws;

pub use echelon_laws::leads_of_span;
pub use job_laws::{job_pairs, new_leads, new_members};
pub use span_laws::{same_spans, spans, spans_of_members};
