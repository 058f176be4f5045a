//! Want of memory, as the one error of calls that fail for nothing else. Each crate whose calls answer it re-exports it.
#![tactic(auto)]

use std::alloc::{AllocError, AllocFailed};

/// There was no memory, or no room for a number that the call keeps.
#[derive(Clone, Copy, Debug, PartialEq, Eq)]
pub struct NoMemory;

impl From<AllocError> for NoMemory {
    fn from(_error: AllocError) -> NoMemory {
        NoMemory
    }
}

impl<T: Drop> From<AllocFailed<T>> for NoMemory {
    fn from(_error: AllocFailed<T>) -> NoMemory {
        NoMemory
    }
}
