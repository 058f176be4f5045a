//! Vectors of polynomials as formal sums. Each function's contract is a law, proved here.
#![tactic(auto)]

mod module_laws;
mod product_laws;
mod sum_laws;

pub use module_laws::{combinations, modules, ranks, same_members, same_modules, syzygies};
pub use product_laws::products;
pub use sum_laws::{coefficients, compared_keys, same_vectors};
