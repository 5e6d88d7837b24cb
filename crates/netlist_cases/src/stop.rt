//! Why a case ends early.

use std::alloc::{AllocError, AllocFailed, Global};
use tmr_base::OutOfMemory;

/// What ends a case early.
#[derive(Drop)]
pub enum Stop {
    /// This is what the case answers.
    Answered(String),
    /// There was no memory.
    Memory,
}

impl From<AllocError> for Stop {
    fn from(_error: AllocError) -> Stop {
        Stop::Memory
    }
}

impl<T: Drop> From<AllocFailed<T>> for Stop {
    fn from(_error: AllocFailed<T>) -> Stop {
        Stop::Memory
    }
}

impl From<OutOfMemory> for Stop {
    fn from(_error: OutOfMemory) -> Stop {
        Stop::Memory
    }
}

/// The case ends with these words.
pub fn stopped(alloc: Global, words: &str) -> Stop {
    match String::from_str(alloc, words) {
        Ok(text) => Stop::Answered(text),
        Err(_) => Stop::Memory,
    }
}

/// The case is not written as it must be.
pub fn bad_case(alloc: Global) -> Stop {
    stopped(alloc, "bad case")
}
