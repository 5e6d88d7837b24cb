//! An order in which each vertex stands after all that it reads.
ghost use Rattle.std.specs.Prelude.{◌≡◌, length, IfOk};
ghost use Rattle.recovery_depth.specs.Private.Vertices.{HasNoLoop, IsOrdered};

use graph::{Graph, search};
use std::alloc::Global;
use tmr_base::OutOfMemory;

/// All vertices in an order in which each stands after all that it reads. No reads make a loop.
pub fn ordered(alloc: Global, graph: &Graph, count: u32) -> Result<Vec<u32>, OutOfMemory>
    requires count { count ≡ length graph.now }
    requires open_ended { HasNoLoop graph.now }
    ensures { IfOk result (λ order. IsOrdered graph.now order.items) }
{
    let searched = search(alloc, graph, count)?;
    Ok(searched.order)
}
