//! Numbers given anew, without gaps.

use crate::numbers::{at, put};
use std::alloc::Global;
use tmr_base::OutOfMemory;

/// The new number of each, and how many new numbers there are.
#[derive(Drop)]
pub struct Numbering {
    pub of: Vec<u32>,
    pub count: u32,
}

/// New numbers for numbers, each below how many are given: 0 for the first, and so on. Equal ones stay equal.
pub fn numbering_of(alloc: Global, numbers: &[u32]) -> Result<Numbering, OutOfMemory> {
    let mut anew = vec![in alloc; u32::MAX; numbers.len()]?;
    let mut of = Vec::with_capacity(alloc, numbers.len())?;
    let mut count: u32 = 0;
    for number in numbers {
        if at(anew.as_slice(), *number) == u32::MAX {
            put(&mut anew, *number, count);
            count = count.saturating_add(1);
        }
        of.push(at(anew.as_slice(), *number))?;
    }
    Ok(Numbering { of, count })
}
