//! How many nodes of each partition pass a test.
ghost use Rattle.std.specs.Prelude.{◌≡◌, ◌==◌, ◌&&◌, ◌<◌, ◌+◌, ℕ, length, slice_index, replicate, true, IfOk};
ghost use Rattle.partitioner.specs.Below.{count_below, one_if};
ghost use Rattle.recovery_depth.specs.Walks.{is_marked};

use std::alloc::Global;
use tmr_base::{OutOfMemory, Parts};

/// 1 for true and 0 for false.
pub fn one_if(bit: bool) -> u32
    ensures count { result ≡ one_if bit }
    ensures few { result < 2 }
{
    if bit { 1 } else { 0 }
}

/// A bit that is set for each of so many nodes.
pub fn every_node(alloc: Global, count: u32) -> Result<Vec<bool>, OutOfMemory>
    ensures items { IfOk result (λ v. v.items ≡ replicate count true) }
    ensures len { IfOk result (λ v. length v.items ≡ count) }
{
    Ok(Vec::from_elem(alloc, true, count as usize)?)
}

/// So many zeros.
fn zeros(alloc: Global, count: u32) -> Result<Vec<u32>, OutOfMemory>
    ensures { IfOk result (λ v. v.items ≡ replicate count 0) }
{
    Ok(Vec::from_elem(alloc, 0, count as usize)?)
}

/// For each partition how many of its nodes have their bit set. One pass over the nodes.
pub fn counts(alloc: Global, parts: &Parts, bits: &[bool]) -> Result<Vec<u32>, OutOfMemory>
    requires { length bits.now ≡ length parts.now.of }
    ensures long { IfOk result (λ counts. length counts.items ≡ parts.now.count) }
    ensures counts { IfOk result (λ counts. (p : ℕ) → p < parts.now.count →
        slice_index counts.items p ≡ count_below (length parts.now.of) (λ x. slice_index parts.now.of x == p && is_marked bits.now x)) }
{
    let mut counts = zeros(alloc, parts.count())?;
    for x in 0..parts.len() {
        let one = one_if(bits[x as usize]);
        counts[parts.of(x) as usize] += one;
    }
    Ok(counts)
}
