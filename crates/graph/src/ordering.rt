//! An order of the vertices that the roots lead to, or a cycle.
ghost use Rattle.std.specs.Prelude.{◌≤◌, length, IfOk};
ghost use Rattle.graph.specs.Sorted.{IsSorted};

use crate::Graph;
use crate::searching::search_from;
use std::alloc::Global;
use tmr_base::OutOfMemory;

/// What a search for an order ends with.
#[derive(Drop)]
pub enum Sorted {
    /// All vertices that the roots lead to, each after all that it reads.
    Order(Vec<u32>),
    /// Of these each reads the next, and the last reads the first, which has the least number.
    Cycle(Vec<u32>),
}

/// An order in which each vertex that one of the first `roots` vertices leads to stands after all that it
/// reads, or a cycle among these.
pub fn order_or_cycle(alloc: Global, graph: &Graph, roots: u32) -> Result<Sorted, OutOfMemory>
    requires { roots ≤ length graph.now }
    ensures { IfOk result (λ sorted. IsSorted graph.now roots sorted) }
{
    let walked = search_from(alloc, graph, roots)?;
    if walked.cycle.is_empty() {
        Ok(Sorted::Order(walked.order))
    } else {
        Ok(Sorted::Cycle(walked.cycle))
    }
}
