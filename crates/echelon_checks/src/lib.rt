//! Tests of echelon forms of small matrices by helpers side by side. They stand apart from `row_reduce`, so that its functions are
//! not proved once more with them.
#![tactic(auto)]

#[cfg(test)]
mod tests;
