//! The most registers of a walk that ends in each vertex.
ghost use Rattle.std.specs.Prelude.{◌≡◌, ◌<◌, ◌+◌, ℕ, length, slice_index_or, IfOk};
ghost use Rattle.graph.specs.Rows.{row};
ghost use Rattle.recovery_depth.specs.Walks.{is_marked};
ghost use Rattle.recovery_depth.specs.Private.Vertices.{HasNoLoop, IsOrdered, IsReachIn, one_if};
ghost use Rattle.recovery_depth.specs.Private.Reaching.{IsGreatestOf};

use crate::ordering::ordered;
use crate::partition_depths::greater;
use graph::Graph;
use std::alloc::Global;
use tmr_base::OutOfMemory;

/// The number at place x, or 0.
pub fn reach_at(reaches: &[u32], x: u32) -> u32
    ensures { result ≡ slice_index_or reaches.now x 0 }
{
    match reaches.get(x as usize) {
        Some(reach) => *reach,
        None => 0,
    }
}

/// The greatest reach of the vertices of a row, or 0.
pub fn greatest_of(row: &[u32], reaches: &[u32]) -> u32
    ensures { IsGreatestOf row.now reaches.now result }
{
    let mut greatest = 0;
    for x in row {
        greatest = greater(greatest, reach_at(reaches, *x));
    }
    greatest
}

/// 1 for a register, else 0.
pub fn own_count(is_register: &[bool], x: u32) -> u32
    ensures { result ≡ one_if (is_marked is_register.now x) }
{
    match is_register.get(x as usize) {
        Some(true) => 1,
        _ => 0,
    }
}

/// For each vertex the most registers of a walk that ends in it, where each vertex stands in the order
/// after all that it reads.
pub fn reaches_in(
    alloc: Global,
    graph: &Graph,
    is_register: &[bool],
    order: &[u32],
    count: u32,
) -> Result<Vec<u32>, OutOfMemory>
    requires count { count ≡ length graph.now }
    requires ordered { IsOrdered graph.now order.now }
    ensures long { IfOk result (λ reaches. length reaches.items ≡ count) }
    ensures each { IfOk result (λ reaches. (x : ℕ) → x < count → IsReachIn graph.now is_register.now x (slice_index_or reaches.items x 0)) }
{
    let mut reaches = vec![in alloc; 0; count as usize]?;
    for x in order {
        let most = greatest_of(graph.row(*x), reaches.as_slice());
        reaches[*x as usize] = most + own_count(is_register, *x);
    }
    Ok(reaches)
}

/// For each vertex the most registers of a walk that ends in it. No reads make a loop.
pub fn reaches(
    alloc: Global,
    graph: &Graph,
    is_register: &[bool],
    count: u32,
) -> Result<Vec<u32>, OutOfMemory>
    requires count { count ≡ length graph.now }
    requires open_ended { HasNoLoop graph.now }
    ensures long { IfOk result (λ reaches. length reaches.items ≡ count) }
    ensures each { IfOk result (λ reaches. (x : ℕ) → x < count → IsReachIn graph.now is_register.now x (slice_index_or reaches.items x 0)) }
{
    let order = ordered(alloc, graph, count)?;
    reaches_in(alloc, graph, is_register, order.as_slice(), count)
}
