//! Buchberger's algorithm on one thread, as an engine for reduced Gröbner bases: pairs are taken one at a time, each
//! S-vector is divided by the members so far, and what is left becomes a member.
#![tactic(auto)]

mod engine;
mod rounds;
mod runs;

pub use engine::PlainEngine;
