//! Why a query is planned over all columns of its sources.
use hq_value::NoMemory as OutOfMemory;
use std::alloc::{AllocError, AllocFailed};

/// Why a query is not planned over the columns that it names alone.
#[derive(Clone, Copy, Debug, PartialEq, Eq)]
pub enum NotNarrowed {
    /// Nothing is saved by it, or what was made doesn't fit.
    Unfit,
    NoMemory,
}

impl From<AllocError> for NotNarrowed {
    fn from(_: AllocError) -> Self {
        NotNarrowed::NoMemory
    }
}

impl<T: Drop> From<AllocFailed<T>> for NotNarrowed {
    fn from(_: AllocFailed<T>) -> Self {
        NotNarrowed::NoMemory
    }
}

impl From<OutOfMemory> for NotNarrowed {
    fn from(_: OutOfMemory) -> Self {
        NotNarrowed::NoMemory
    }
}
