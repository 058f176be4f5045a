// Why a text gives no value.
use monomial_orders::MonoStop;
use std::alloc::{AllocError, AllocFailed};

/// The text is not of the form, or there was no memory for its value.
#[derive(Clone, Copy, Debug, PartialEq, Eq)]
pub struct NoValue;

impl From<AllocError> for NoValue {
    fn from(_error: AllocError) -> NoValue {
        NoValue
    }
}

impl<T: Drop> From<AllocFailed<T>> for NoValue {
    fn from(_error: AllocFailed<T>) -> NoValue {
        NoValue
    }
}

impl From<module_vectors::NoMemory> for NoValue {
    fn from(_error: module_vectors::NoMemory) -> NoValue {
        NoValue
    }
}

impl From<MonoStop> for NoValue {
    fn from(_error: MonoStop) -> NoValue {
        NoValue
    }
}
