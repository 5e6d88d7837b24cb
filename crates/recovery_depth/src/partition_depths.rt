//! The depth of each partition.
ghost use Rattle.std.specs.Prelude.{◌≡◌, ◌<◌, ◌≤◌, ◌⊎◌, ℕ, length, slice_index, IfOk};
ghost use Rattle.recovery_depth.specs.Depths.{IsDepth};

use std::alloc::Global;
use tmr_base::{OutOfMemory, Parts};

/// The greater of two numbers.
pub fn greater(a: u32, b: u32) -> u32
    ensures first { a ≤ result }
    ensures second { b ≤ result }
    ensures one { (result ≡ a) ⊎ (result ≡ b) }
{
    if a < b { b } else { a }
}

/// For each partition the greatest label of its nodes, or 0.
pub fn greatest_labels(
    alloc: Global,
    parts: &Parts,
    labels: &[u32],
) -> Result<Vec<u32>, OutOfMemory>
    requires { length labels.now ≡ length parts.now.of }
    ensures long { IfOk result (λ depths. length depths.items ≡ parts.now.count) }
    ensures each { IfOk result (λ depths. (p : ℕ) → p < parts.now.count → IsDepth parts.now labels.now (length parts.now.of) p (slice_index depths.items p)) }
{
    let mut depths = vec![in alloc; 0; parts.count() as usize]?;
    for x in 0..parts.len() {
        let p = parts.of(x) as usize;
        depths[p] = greater(depths[p], labels[x as usize]);
    }
    Ok(depths)
}
