//! Places of the few numbers, among many, that have a row of their own.
//!
//! For each number its place is kept, in 32 bits. Place 0 is that of all numbers without a row of their own.
ghost use Rattle.std.specs.Prelude.{◌≡◌, ◌<◌, ℕ, length, slice_index, IfOk};

use std::alloc::Global;
use tmr_base::OutOfMemory;

/// Place 0 for each of so many numbers.
pub fn no_places(alloc: Global, count: u32) -> Result<Vec<u32>, OutOfMemory>
    ensures long { IfOk result (λ places. length places.items ≡ count) }
    ensures none { IfOk result (λ places. (x : ℕ) → slice_index places.items x ≡ 0) }
{
    let places = vec![in alloc; 0u32; count as usize]?;
    Ok(places)
}

/// The place of number x.
pub fn place_of(places: &[u32], x: u32) -> usize
    requires { x < length places.now }
    ensures { result ≡ slice_index places.now x }
{
    places[x as usize] as usize
}

/// The place of a row that is put behind so many. A place that does not fit 32 bits is told as want of memory; where each number gets a row
/// once, none comes to that.
pub fn next_place(rows: usize) -> Result<u32, OutOfMemory>
    ensures { IfOk result (λ place. place ≡ rows) }
{
    match u32::try_from(rows) {
        Ok(place) => Ok(place),
        Err(_) => Err(OutOfMemory),
    }
}
