//! The variables of gates that are a loop.
ghost use Rattle.std.specs.Prelude.{◌≡◌, Some, ◌<◌, map, length, slice_index, IfOk};
ghost use Rattle.graph.specs.Turned.{IsTurned};
ghost use Rattle.aag_design.specs.Private.Drafting.{number_behind, IsTurnedFrom};

use graph::keep_first;
use std::alloc::Global;
use tmr_base::{Name, OutOfMemory, read_u32};

/// The number behind a letter.
fn number_behind(name: &[u8]) -> Option<u32>
    ensures { result ≡ number_behind name.now }
{
    match name.split_first() {
        Some((_, digits)) => read_u32(digits),
        None => None,
    }
}

/// The numbers behind the letters of these names, each of which has one.
fn numbers_of(alloc: Global, names: &[Name]) -> Result<Vec<u32>, OutOfMemory>
    ensures { IfOk result (λ numbers. map Some numbers.items ≡ map number_behind names.now) }
{
    let mut numbers = Vec::new(alloc);
    for name in names {
        match number_behind(name.bytes()) {
            Some(number) => numbers.push(number)?,
            None => return Err(OutOfMemory),
        }
    }
    Ok(numbers)
}

/// The numbers, turned so that the least stands first.
fn turned(alloc: Global, numbers: &[u32]) -> Result<Vec<u32>, OutOfMemory>
    requires { 0 < length numbers.now }
    ensures { IfOk result (λ found. IsTurned numbers.now (slice_index numbers.now 0) found.items) }
{
    let mut found = Vec::new(alloc);
    keep_first(&mut found, numbers, numbers[0])?;
    Ok(found)
}

/// The variables of the gates with these names, turned so that the least stands first.
pub fn loop_of(alloc: Global, names: &[Name]) -> Result<Vec<u32>, OutOfMemory>
    requires { 0 < length names.now }
    ensures { IfOk result (λ found. IsTurnedFrom (map number_behind names.now) found.items) }
{
    let numbers = numbers_of(alloc, names)?;
    let found = turned(alloc, &numbers)?;
    Ok(found)
}
