//! Buchberger's criterion, and the criteria that spare pairs. Each function's contract is a law, proved here.
#![tactic(auto)]

mod criterion_laws;

pub use criterion_laws::{
    basis_by_pairs, buchberger_criterion, chain_criterion, generators, more_members, ordered_pairs,
    product_criterion,
};
