//! Lists of terms over Z/p in the order of a frame: rings and their keys, sums by merges, multiples, and the laws of lists that
//! strictly descend.
//!
//! A list of terms is seen as a formal sum; `IsVectorOver` says that it is the one normal form in the frame's order. Sums and
//! products with a term are those of formal sums, modulo p.
#![tactic(auto)]

mod doubling;
mod frame;
mod front_ring;
mod gathering;
mod key;
mod laws;
mod merging;
mod names;
mod ring;
mod scaled;
mod stop;
mod terms;

pub use frame::Frame;
pub use gathering::gather;
pub use key::Key;
pub use laws::{lawful_setting, normal_vectors, one_list, positions_of_rank};
pub use merging::{merge, merge_into, merge_terms};
pub use names::Names;
pub use no_memory::NoMemory;
pub use ring::Ring;
pub use scaled::{scale_into, scaled_terms};
pub use stop::VectStop;
pub use terms::{are_below, copy_terms, equal_terms, rescale_terms};
