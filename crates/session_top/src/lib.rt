//! Runs a script: from the words of a command and the bytes of a source to the bytes of a sink and
//! a status. What it promises is the meaning of the script: which text stands for which bytes, and
//! for each status when it comes.
#![tactic(auto)]

mod early;
mod engines;
mod generated;
mod lines;
mod stops;
mod top;

pub use top::{Ended, run, run_request};

/// The most bytes that a script has.
pub const SCRIPT_LIMIT: usize = 1_048_576;
