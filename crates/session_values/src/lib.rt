//! The values of a session: what is kept of each beside its name, the operations that make new ones, and how they are written.
//!
//! A value is a list of vectors with a name and a rank. With its list its reduced basis is kept, once a run of an engine has found
//! it; normal forms, membership and equality go by reduced bases. Lists, degrees of leads, Hilbert numbers, the maps of a
//! resolution and Ext modules are appended to a text as a script prints them; the error there is a growth that was refused.
#![tactic(auto)]

mod extending;
mod kept_bases;
mod maps;
mod names;
mod numbers;
mod operations;
mod sizes;
mod stored;
mod texts;

pub use extending::push_ext;
pub use kept_bases::{forget, is_one_module, keep_basis, normal_form};
pub use maps::append_resolution;
pub use names::give_name;
pub use numbers::{Numbers, append_numbers, numbers_of};
pub use operations::{Task, operate, rank_of_result};
pub use sizes::push_sizes;
pub use stored::Stored;
pub use texts::{
    append_number, append_word, push_cofactors, push_line, push_listing, push_verdict,
};
