// Attempts that may have no answer.
use groebner_iface::{Groebner, Stop};
use module_vectors::{NoMemory, WorkStop};
use monomial_orders::MonoStop;
use order_change::ChangeStop;
use std::alloc::{AllocError, AllocFailed};

/// What gives each attempt an engine of its own, whose state goes with it.
pub trait Attempts<E: Groebner> {
    /// A new engine.
    fn engine(&self) -> E;
}

/// Why an attempt has no answer.
#[derive(Clone, Copy, Debug, PartialEq, Eq)]
pub(crate) enum Unanswered {
    /// There was no memory.
    Memory,
    /// Its run stopped, a degree or a power is too great, or it does not serve this list.
    Other,
}

impl From<AllocError> for Unanswered {
    fn from(_error: AllocError) -> Unanswered {
        Unanswered::Memory
    }
}

impl<T: Drop> From<AllocFailed<T>> for Unanswered {
    fn from(_error: AllocFailed<T>) -> Unanswered {
        Unanswered::Memory
    }
}

impl From<NoMemory> for Unanswered {
    fn from(_error: NoMemory) -> Unanswered {
        Unanswered::Memory
    }
}

impl From<MonoStop> for Unanswered {
    fn from(stop: MonoStop) -> Unanswered {
        match stop {
            MonoStop::Memory => Unanswered::Memory,
            MonoStop::Degree => Unanswered::Other,
        }
    }
}

impl From<Stop> for Unanswered {
    fn from(stop: Stop) -> Unanswered {
        match stop {
            Stop::Memory => Unanswered::Memory,
            Stop::Pairs | Stop::Degree => Unanswered::Other,
        }
    }
}

impl From<WorkStop> for Unanswered {
    fn from(stop: WorkStop) -> Unanswered {
        match stop {
            WorkStop::Memory => Unanswered::Memory,
            WorkStop::Degree(_) => Unanswered::Other,
        }
    }
}

impl From<ChangeStop> for Unanswered {
    fn from(stop: ChangeStop) -> Unanswered {
        match stop {
            ChangeStop::Memory => Unanswered::Memory,
            ChangeStop::Infinite | ChangeStop::Many => Unanswered::Other,
        }
    }
}
