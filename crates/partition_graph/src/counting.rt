//! How many entries have each value, and the greatest of some numbers.
ghost use Rattle.std.specs.Prelude.{◌≡◌, ◌==◌, ◌&&◌, ◌<◌, ◌≤◌, ◌+◌, ℕ, All, length, slice_index, replicate, true, max, IfOk};
ghost use Rattle.partitioner.specs.Below.{count_below, one_if};
ghost use Rattle.partition_graph.specs.Private.Counting.{is_marked};
ghost use Rattle.partition_graph.specs.Places.{max_below};

use std::alloc::Global;
use tmr_base::OutOfMemory;

/// 1 for true and 0 for false.
fn one_if(bit: bool) -> usize
    ensures count { result ≡ one_if bit }
    ensures few { result < 2 }
{
    if bit { 1 } else { 0 }
}

/// So many bits, all of them set.
pub fn all_set(alloc: Global, count: usize) -> Result<Vec<bool>, OutOfMemory>
    ensures { IfOk result (λ bits. bits.items ≡ replicate count true) }
{
    Ok(Vec::from_elem(alloc, true, count)?)
}

/// So many zeros.
pub fn zeros(alloc: Global, count: usize) -> Result<Vec<usize>, OutOfMemory>
    ensures { IfOk result (λ v. v.items ≡ replicate count 0) }
{
    Ok(Vec::from_elem(alloc, 0, count)?)
}

/// For each value below `count`, how many entries with a set bit have it. One pass over the entries.
pub fn tally(
    alloc: Global,
    values: &[usize],
    bits: &[bool],
    count: usize,
) -> Result<Vec<usize>, OutOfMemory>
    requires bits { length bits.now ≡ length values.now }
    requires below { All (λ v. v < count) values.now }
    requires few { length values.now < 4294967296 }
    ensures long { IfOk result (λ counts. length counts.items ≡ count) }
    ensures few { IfOk result (λ counts. All (λ m. m < 4294967296) counts.items) }
    ensures counts { IfOk result (λ counts. (v : ℕ) → v < count →
        slice_index counts.items v ≡ count_below (length values.now) (λ x. slice_index values.now x == v && is_marked bits.now x)) }
{
    let mut counts = zeros(alloc, count)?;
    for x in 0..values.len() {
        let value = values[x];
        let one = one_if(bits[x]);
        counts[value] += one;
    }
    Ok(counts)
}

/// The greater of two numbers.
pub fn greater(a: usize, b: usize) -> usize
    ensures { result ≡ max a b }
{
    if a < b { b } else { a }
}

/// The greatest number, or 0 where there is none.
pub fn greatest(numbers: &[usize]) -> usize
    ensures greatest { result ≡ max_below (length numbers.now) (slice_index numbers.now) }
    ensures above { All (λ m. m < result + 1) numbers.now }
{
    let mut most = 0;
    for i in 0..numbers.len() {
        most = greater(most, numbers[i]);
    }
    most
}
