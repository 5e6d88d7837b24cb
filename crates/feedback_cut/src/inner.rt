//! What each node reads inside its partition.
ghost use Rattle.std.specs.Prelude.{◌≡◌, ◌<◌, ◌+◌, ◌-◌, ◌==◌, ℕ, length, map, take, IfOk, OnOk, slice_index, if◌then◌else◌};
ghost use Rattle.std.specs.List.{range_with_len};
ghost use Rattle.feedback_cut.specs.Inner.{node_pins, inner, inner_row, inner_rows};

use flat_net::{FlatNet, nodes_of};
use graph::Graph;
use std::alloc::Global;
use tmr_base::{NetId, OutOfMemory, Parts};

/// The node that pin j of node y reads, where it stands in y's partition; else a number past all nodes.
#[tactic(auto, unfolding(crate::specs::Inner::inner))]
fn inner_pin(n: &FlatNet, parts: &Parts, y: u32, j: u32) -> u32
    requires node { y < length n.now.net.nodes }
    requires parts { length parts.now.of ≡ length n.now.net.nodes }
    requires pin { j < length (node_pins n.now.net y) }
    ensures { result ≡ inner n.now.net parts.now y (slice_index (node_pins n.now.net y) j) }
{
    let past = nodes_of(n);
    let inputs = n.input_count();
    let pin = n.pin(NetId(inputs + y), j);
    if pin.0 < inputs {
        return past;
    }
    let x = pin.0 - inputs;
    if parts.of(x) == parts.of(y) { x } else { past }
}

/// Puts into `row` what the pins of node y read inside its partition.
fn inner_pins(n: &FlatNet, parts: &Parts, y: u32, row: &mut Vec<u32>) -> Result<(), OutOfMemory>
    requires node { y < length n.now.net.nodes }
    requires parts { length parts.now.of ≡ length n.now.net.nodes }
    ensures { OnOk result (row.new.items ≡ inner_row n.now.net parts.now y) }
{
    let _nodes = nodes_of(n);
    let node = NetId(n.input_count() + y);
    row.clear();
    for j in 0..n.pin_count(node) {
        row.push(inner_pin(n, parts, y, j))?;
    }
    Ok(())
}

/// What each node reads inside its partition.
pub fn inner_reads(alloc: Global, n: &FlatNet, parts: &Parts) -> Result<Graph, OutOfMemory>
    requires { length parts.now.of ≡ length n.now.net.nodes }
    ensures { IfOk result (λ graph. graph ≡ inner_rows n.now.net parts.now) }
{
    let nodes = nodes_of(n);
    let mut graph = Graph::with_room(alloc, nodes as usize, n.pin_total() as usize)?;
    let mut row = Vec::new(alloc);
    for y in 0..nodes {
        inner_pins(n, parts, y, &mut row)?;
        graph.push(&row)?;
    }
    Ok(graph)
}
