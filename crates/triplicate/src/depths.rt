//! The depths of a plan.
ghost use Rattle.std.specs.Prelude.{◌≡◌, ◌<◌, ◌^◌, All, length, IfOk, OnOk};

use recovery_depth::Extra;
use std::alloc::Global;
use tmr_base::{OutOfMemory, PartId};

/// The depth of each partition.
pub fn depths_of(alloc: Global, extra: &Extra, count: u32) -> Result<Vec<u32>, OutOfMemory>
    requires { count ≡ length extra.now.table.depths }
    ensures depths { IfOk result (λ depths. depths.items ≡ extra.now.table.depths) }
    ensures small { OnOk result (All (λ d. d < 2 ^ 32) extra.now.table.depths) }
{
    let mut depths = Vec::with_capacity(alloc, count as usize)?;
    for p in 0..count {
        depths.push(extra.depth(PartId(p)))?;
    }
    Ok(depths)
}
