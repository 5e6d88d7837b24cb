//! One number for the vertices that lead to each other.
ghost use Rattle.std.specs.Prelude.{◌≡◌, ◌<◌, ◌-◌, ℕ, length, map, slice_index, IfOk};
ghost use Rattle.feedback_cut.specs.Private.Numbering.{IsNumbered};

use crate::gathering::{gather, number_of};
use graph::{Graph, readers_of, search};
use std::alloc::Global;
use tmr_base::OutOfMemory;

/// A number for each vertex, and how many numbers there are.
#[derive(Drop)]
pub(crate) struct Numbered {
    pub(crate) numbers: Vec<u32>,
    pub(crate) groups: u32,
}

/// The numbers counted from the other end.
fn turned(alloc: Global, numbers: &[u32], groups: u32) -> Result<Vec<u32>, OutOfMemory>
    requires { (x : ℕ) → x < length numbers.now → slice_index numbers.now x < groups }
    ensures { IfOk result (λ turned. turned.items ≡ map (λ k. groups - 1 - k) numbers.now) }
{
    let mut turned = Vec::new(alloc);
    for number in numbers {
        turned.push(groups - 1 - *number)?;
    }
    Ok(turned)
}

/// Numbers the vertices: two have one number where they lead to each other, and what reads another
/// vertex has no lower number.
///
/// The vertices are taken as roots from the end of the search's order, and each root that has no number
/// yet gathers the vertices without a number that lead to it. It leads to them too: what is behind a
/// vertex in the order and before the root is led to by the root.
pub(crate) fn number_vertices(
    alloc: Global,
    graph: &Graph,
    count: u32,
) -> Result<Numbered, OutOfMemory>
    requires { count ≡ length graph.now }
    ensures { IfOk result (λ n. IsNumbered graph.now n.numbers.items n.groups) }
{
    let searched = search(alloc, graph, count)?;
    let readers = readers_of(alloc, graph, count)?;
    let mut numbers = vec![in alloc; count; count as usize]?;
    let mut groups = 0;
    let mut left = searched.order.len();
    'roots: while 0 < left {
        left -= 1;
        let root = searched.order[left];
        if number_of(numbers.as_slice(), count, root) != count {
            continue;
        }
        gather(alloc, &readers, &mut numbers, count, root, groups)?;
        groups += 1;
    }
    let numbers = turned(alloc, numbers.as_slice(), groups)?;
    Ok(Numbered { numbers, groups })
}
