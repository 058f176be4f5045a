//! The pairs that new members bring to the queue of a basis run, in its order, and its update with new members by the rules of
//! Gebauer and Möller. It knows the members of the run by their leads alone.
#![tactic(auto)]

mod comparing;
mod criteria;
mod dropped;
mod dropping;
mod joining;
mod leads;
mod meeting;
mod merging;
mod rows;
mod seen;
mod sorting;
mod updating;
mod yielding;

pub use criteria::{divides_lcm, product_spares};
pub use dropped::Dropped;
pub use joining::new_pairs;
pub use leads::Leads;
pub use merging::merge;
pub use sorting::sort_pairs;
pub use updating::updated;
