//! Leads, normal forms, S-vectors, representations and bases. Each function's contract is a law, proved here.
#![tactic(auto)]

mod basis_laws;
mod below_laws;
mod lead_laws;
mod normal_laws;
mod pair_laws;

pub use basis_laws::reduced_members;
pub use below_laws::{representations, sums_below};
pub use lead_laws::{
    covered_keys, covering_members, free_terms, leads_of_multiples, leads_of_normal_forms,
    leads_of_vectors, monic_lists,
};
pub use normal_laws::normal_forms;
pub use pair_laws::s_vectors;
