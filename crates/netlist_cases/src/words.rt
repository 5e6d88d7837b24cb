//! The words of a case.

use crate::stop::{Stop, bad_case};
use std::alloc::Global;
use tmr_base::{read_u32, read_u64};

/// The first word, and what stands behind the blank after it.
pub fn first_word(text: &str) -> (&str, &str) {
    match text.split_once(' ') {
        Some((word, rest)) => (word, rest),
        None => (text, ""),
    }
}

/// The number that a word spells.
pub fn number(alloc: Global, word: &str) -> Result<u32, Stop> {
    match read_u32(word.as_bytes()) {
        Some(number) => Ok(number),
        None => Err(bad_case(alloc)),
    }
}

/// The number that a word spells.
pub fn long_number(alloc: Global, word: &str) -> Result<u64, Stop> {
    match read_u64(word.as_bytes()) {
        Some(number) => Ok(number),
        None => Err(bad_case(alloc)),
    }
}
