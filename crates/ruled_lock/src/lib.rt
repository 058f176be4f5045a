//! A lock round a core that keeps a log of events. Whoever has the turn holds the core, and hands it back with one event of
//! its own more, or as it was. So all events are those of one history, whatever the workers' order; and each worker has a
//! seat, which knows a beginning of that history and just the events of its worker.
//!
//! What is proved: a hold shows its holder the core with the whole history so far, which begins with all that its seat had
//! seen; nobody else changes it until it comes back; and once all seats are joined `close` gives the core with a history
//! that has of each worker just the events of its seat.
//!
//! What is not claimed: that a worker gets its turn, in any order or time, or that the lock is fair. A worker that keeps
//! the turn holds up all others.
#![tactic(auto)]

pub mod core_trait;
pub mod law;
pub mod lock;

pub use core_trait::Core;
pub use lock::{Lock, WorkerSeat};
