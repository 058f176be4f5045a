//! A gate that workers pass at named points of their work: the place where a test can hold one of
//! them until another has come by. A gate tells nothing, and no contract speaks of what it does.
#![tactic(auto)]

mod held;
mod shared;

pub use held::HeldGate;
pub use shared::SharedGate;

/// Where a worker passes the gate.
#[derive(Clone, Copy, Debug, PartialEq, Eq)]
pub enum Point {
    /// It has taken a job and not yet solved it.
    JobTaken,

    /// It has claimed the lead column of one row.
    RowClaimed,
}

/// What workers pass. It is shared by all of them, so callers bound it by `Gate + Sync`.
pub trait Gate {
    /// Lets the worker with this number through the gate at this point. It returns, sooner or later.
    fn pass(&self, worker: u32, point: Point);

    /// The gate that threads pass. What they pass is this gate.
    fn shared(&self) -> SharedGate;
}

/// A gate that lets everyone through at once.
#[derive(Clone, Copy, Debug, PartialEq, Eq)]
pub struct OpenGate;

impl Gate for OpenGate {
    fn pass(&self, _worker: u32, _point: Point) {}

    fn shared(&self) -> SharedGate {
        SharedGate::open()
    }
}
