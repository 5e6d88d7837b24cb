//! How many readers each node has in each partition.
ghost use Rattle.std.specs.Prelude.{◌≡◌, ◌<◌, ◌==◌, ◌&&◌, ◌+◌, ◌-◌, ℕ, Bool, IfOk, OnOk, if◌then◌else◌};
ghost use Rattle.partitioner.specs.Private.Counting.{count_at};

use std::collections::HashMap;
use tmr_base::OutOfMemory;

/// The count for node x and partition p.
pub fn count_at(counts: &HashMap<(u32, u32), u32>, x: u32, p: u32) -> u32
    ensures { result ≡ count_at counts.now x p }
{
    match counts.get(&(x, p)) {
        Some(count) => *count,
        None => 0,
    }
}

/// Keeps this count for node x and partition p.
pub fn set_count(
    counts: &mut HashMap<(u32, u32), u32>,
    x: u32,
    p: u32,
    count: u32,
) -> Result<(), OutOfMemory>
    ensures { OnOk result ((y q : ℕ) → count_at counts.new y q ≡ (if x == y && p == q then count else count_at counts.old y q)) }
{
    counts.insert((x, p), count)?;
    Ok(())
}
