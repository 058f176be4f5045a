//! Buchberger's algorithm by any number of running workers, as an engine for reduced Gröbner bases: each takes jobs from
//! the one state under its lock, solves them, and hands in the rows.
#![tactic(auto)]

mod engine;
mod runs;
mod work;
mod workers;

pub use engine::F4Engine;
