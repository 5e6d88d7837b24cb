//! Which groups of vertices have a loop.
ghost use Rattle.std.specs.Prelude.{◌≡◌, ◌↔◌, ◌<◌, ℕ, Bool, true, length, IfOk, IsTrue, slice_index, slice_index_or};
ghost use Rattle.feedback_cut.specs.Private.Loops.{ReadsOwn, AreLooped};

use graph::Graph;
use std::alloc::Global;
use tmr_base::OutOfMemory;

/// Vertex y reads one of its own number.
fn reads_own(graph: &Graph, numbers: &[u32], y: u32) -> bool
    requires long { length numbers.now ≡ length graph.now }
    requires vertex { y < length graph.now }
    ensures { IsTrue result ↔ ReadsOwn graph.now numbers.now y }
{
    for x in graph.row(y) {
        if (*x as usize) < numbers.len() && numbers[*x as usize] == numbers[y as usize] {
            return true;
        }
    }
    false
}

/// For each number whether a vertex of it reads one of it.
pub(crate) fn looped(
    alloc: Global,
    graph: &Graph,
    numbers: &[u32],
    groups: u32,
    count: u32,
) -> Result<Vec<bool>, OutOfMemory>
    requires count { count ≡ length graph.now }
    requires long { length numbers.now ≡ length graph.now }
    requires below { (x : ℕ) → x < length graph.now → slice_index numbers.now x < groups }
    ensures { IfOk result (λ loops. AreLooped graph.now numbers.now groups count loops.items) }
{
    let mut loops = vec![in alloc; false; groups as usize]?;
    for y in 0..count {
        if reads_own(graph, numbers, y) {
            loops[numbers[y as usize] as usize] = true;
        }
    }
    Ok(loops)
}
