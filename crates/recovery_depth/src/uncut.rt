//! What each node reads inside its partition through pins that are not cut.
ghost use Rattle.std.specs.Prelude.{◌≡◌, ◌<◌, ℕ, length, map, IfOk, OnOk, slice_index};
ghost use Rattle.std.specs.List.{range_with_len};
ghost use Rattle.graph.specs.Rows.{row};
ghost use Rattle.feedback_cut.specs.Inner.{inner_rows};
ghost use Rattle.feedback_cut.specs.Cut.{CutsLoops};
ghost use Rattle.recovery_depth.specs.Private.Vertices.{HasNoLoop};
ghost use Rattle.recovery_depth.specs.Private.Uncut.{uncut_entry, uncut_row, uncut_rows};

use feedback_cut::{CutPins, inner_reads};
use flat_net::{FlatNet, nodes_of};
use graph::Graph;
use std::alloc::Global;
use tmr_base::{OutOfMemory, Parts};

/// What y reads at a place, or `count`, past all vertices, where that is cut.
pub fn uncut_read(graph: &Graph, cut: &CutPins, y: u32, place: u32, count: u32) -> u32
    requires vertex { y < length graph.now }
    requires vertices { length cut.now ≡ length graph.now }
    requires places { length (row cut.now y) ≡ length (row graph.now y) }
    requires within { place < length (row graph.now y) }
    requires count { count ≡ length graph.now }
    ensures { result ≡ uncut_entry graph.now cut.now y place }
{
    if cut.is_cut(y, place) {
        return count;
    }
    graph.row(y)[place as usize]
}

/// Puts into `reads` what y reads, where a place that is cut stands for a number past all vertices.
fn uncut_reads(
    graph: &Graph,
    cut: &CutPins,
    y: u32,
    count: u32,
    reads: &mut Vec<u32>,
) -> Result<(), OutOfMemory>
    requires vertex { y < length graph.now }
    requires vertices { length cut.now ≡ length graph.now }
    requires places { length (row cut.now y) ≡ length (row graph.now y) }
    requires few { length (row graph.now y) < 4294967296 }
    requires count { count ≡ length graph.now }
    ensures { OnOk result (reads.new.items ≡ uncut_row graph.now cut.now y) }
{
    reads.clear();
    for place in 0..graph.row(y).len() as u32 {
        reads.push(uncut_read(graph, cut, y, place, count))?;
    }
    Ok(())
}

/// What each vertex reads, where a place that is cut stands for a number past all vertices.
fn uncut(alloc: Global, graph: &Graph, cut: &CutPins, count: u32) -> Result<Graph, OutOfMemory>
    requires vertices { length cut.now ≡ length graph.now }
    requires places { (y : ℕ) → y < length graph.now → length (row cut.now y) ≡ length (row graph.now y) }
    requires few { (y : ℕ) → y < length graph.now → length (row graph.now y) < 4294967296 }
    requires count { count ≡ length graph.now }
    ensures { IfOk result (λ rest. rest ≡ uncut_rows graph.now cut.now) }
{
    let mut rest = Graph::new(alloc);
    let mut reads = Vec::new(alloc);
    for y in 0..count {
        uncut_reads(graph, cut, y, count, &mut reads)?;
        rest.push(&reads)?;
    }
    Ok(rest)
}

/// What each node reads inside its partition through pins that are not cut, from what it reads there.
/// Nothing of it makes a loop.
pub fn uncut_in(
    alloc: Global,
    n: &FlatNet,
    parts: &Parts,
    cut: &CutPins,
    graph: &Graph,
) -> Result<Graph, OutOfMemory>
    requires parts { length parts.now.of ≡ length n.now.net.nodes }
    requires cut { CutsLoops n.now.net parts.now cut.now }
    requires graph { graph.now ≡ inner_rows n.now.net parts.now }
    ensures rows { IfOk result (λ rest. rest ≡ uncut_rows (inner_rows n.now.net parts.now) cut.now) }
    ensures nodes { IfOk result (λ rest. length rest ≡ length n.now.net.nodes) }
    ensures open_ended { IfOk result (λ rest. HasNoLoop rest) }
{
    let rest = uncut(alloc, graph, cut, nodes_of(n))?;
    Ok(rest)
}

/// What each node reads inside its partition through pins that are not cut. Nothing of it makes a loop.
pub fn uncut_inner(
    alloc: Global,
    n: &FlatNet,
    parts: &Parts,
    cut: &CutPins,
) -> Result<Graph, OutOfMemory>
    requires parts { length parts.now.of ≡ length n.now.net.nodes }
    requires cut { CutsLoops n.now.net parts.now cut.now }
    ensures rows { IfOk result (λ rest. rest ≡ uncut_rows (inner_rows n.now.net parts.now) cut.now) }
    ensures nodes { IfOk result (λ rest. length rest ≡ length n.now.net.nodes) }
    ensures open_ended { IfOk result (λ rest. HasNoLoop rest) }
{
    let graph = inner_reads(alloc, n, parts)?;
    let rest = uncut_in(alloc, n, parts, cut, &graph)?;
    Ok(rest)
}
