//! Tests of whole runs over ports in memory. They stand apart from `session_top`, so that its functions are not proved once more with
//! them.
#![tactic(auto)]

#[cfg(test)]
mod tests;
