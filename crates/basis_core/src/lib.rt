//! The state of a basis run that any number of workers share, one event at a time: pairs are taken, rows come back and
//! make members, workers end or stop. Every state replays its own history from its beginning, and so holds what
//! `basis_steps` says of each list of events.
#![tactic(auto)]

mod asking;
mod beginning;
mod copies;
mod ending;
mod ends;
mod event;
mod job;
mod laws;
mod leading;
mod members;
mod outcome;
mod products;
mod putting;
mod row_division;
mod state;
mod stop;
mod taken;
mod taking;
mod trails;

pub use ending::Ending;
pub use event::Event;
pub use job::Job;
pub use laws::pending_outcomes;
pub use members::Members;
pub use outcome::Outcome;
pub use pair_queue::{Dropped, Out};
pub use products::quotient_products;
pub use state::BasisState;
pub use stop::StopReason;
pub use taken::Taken;
