//! Want of memory.

use std::alloc::{AllocError, AllocFailed};

/// A call wanted memory and got none. It is the one answer that has no cause in what is handed in.
#[derive(Clone, Copy, Debug, PartialEq, Eq, Drop)]
pub struct OutOfMemory;

impl From<AllocError> for OutOfMemory {
    fn from(_error: AllocError) -> OutOfMemory {
        OutOfMemory
    }
}

impl<T: Drop> From<AllocFailed<T>> for OutOfMemory {
    fn from(_error: AllocFailed<T>) -> OutOfMemory {
        OutOfMemory
    }
}
