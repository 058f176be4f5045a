//! The lock round the state of a basis run, and the core's calls under it. A worker of a run has a seat, and each call is one
//! hold: it waits for its turn, asks the core, and gives the turn back. A hold is one event of the run's one history or,
//! after an error, none.
//!
//! What a worker may ask for is said in what its seat has seen: a beginning of that history, with all events of the worker
//! itself. What it is told is the core's answer at the point of the history where its hold stands, whatever the other
//! workers did before. `Lock::new`, `split`, `join` and `close` begin a run of workers and end it.
//!
//! What is not claimed: that a worker's turn comes, in any order or time. Workers that give the turn back do not wait for
//! ever in practice, but no clause says so.
#![tactic(auto)]

mod calls;
mod laws;
mod locked;
mod note;

pub use calls::{BasisLock, BasisSeat, finish, hand_in, report_stop, take_job};
pub use laws::free_states;
pub use note::{Note, RunBase};
