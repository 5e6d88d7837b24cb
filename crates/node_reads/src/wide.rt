//! Nodes that many nodes read, whose readers are counted in a table.
ghost use Rattle.std.specs.Prelude.{◌≡◌, ◌<◌, ℕ, Bool, [], nat_lt, length, All, filter, slice_index_or, IfOk};
ghost use Rattle.flat_net.specs.Net.{Net};
ghost use Rattle.node_reads.specs.Sources.{is_wide, wide_sources, AreOtherReaders, AreSources};

use flat_net::{FlatNet, nodes_of};
use graph::Graph;
use std::alloc::Global;
use tmr_base::OutOfMemory;

/// A row lists more than 16 nodes.
pub fn is_long(row: &[u32]) -> bool
    ensures { result ≡ nat_lt 16 (length row.now) }
{
    row.len() > 16
}

/// More than 16 other nodes read node x.
pub fn is_wide(n: &FlatNet, readers: &Graph, x: u32) -> bool
    requires readers { AreOtherReaders n.now.net readers.now }
    requires node { x < length n.now.net.nodes }
    ensures { result ≡ is_wide n.now.net x }
{
    let _nodes = nodes_of(n);
    is_long(readers.row(x))
}

/// The wide nodes of a row.
fn wide_among(
    alloc: Global,
    n: &FlatNet,
    readers: &Graph,
    row: &[u32],
) -> Result<Vec<u32>, OutOfMemory>
    requires readers { AreOtherReaders n.now.net readers.now }
    requires row { All (λ x. x < length n.now.net.nodes) row.now }
    ensures { IfOk result (λ wide. wide.items ≡ filter (is_wide n.now.net) row.now) }
{
    let mut wide = Vec::new(alloc);
    for x in row {
        if is_wide(n, readers, *x) {
            wide.push(*x)?;
        }
    }
    Ok(wide)
}

/// For each node the wide nodes among the other nodes that it reads.
pub fn wide_sources_of(
    alloc: Global,
    n: &FlatNet,
    readers: &Graph,
    sources: &Graph,
) -> Result<Graph, OutOfMemory>
    requires readers { AreOtherReaders n.now.net readers.now }
    requires sources { AreSources n.now.net sources.now }
    ensures long { IfOk result (λ wide. length wide ≡ length n.now.net.nodes) }
    ensures each { IfOk result (λ wide. (i : ℕ) → i < length n.now.net.nodes → slice_index_or wide i [] ≡ wide_sources n.now.net i) }
{
    let count = nodes_of(n);
    let mut rows = Graph::with_room(alloc, count as usize, 0)?;
    for i in 0..count {
        let wide = wide_among(alloc, n, readers, sources.row(i))?;
        rows.push(wide.as_slice())?;
    }
    Ok(rows)
}
