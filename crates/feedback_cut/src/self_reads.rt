//! What nodes read, where each register that reads its own component reads itself in its place.
ghost use Rattle.std.specs.Prelude.{◌≡◌, ◌<◌, length, map, IfOk, OnOk};
ghost use Rattle.feedback_cut.specs.Private.SelfReads.{self_read, self_rows};

use crate::loop_groups::LoopGroups;
use crate::register_nodes::is_register;
use flat_net::{FlatNet, nodes_of};
use graph::Graph;
use std::alloc::Global;
use tmr_base::OutOfMemory;

/// What node y reads, or y itself where it is a register and x a node of its own component.
#[tactic(auto, unfolding(crate::specs::Private::SelfReads::self_read))]
fn self_read(n: &FlatNet, groups: &LoopGroups, y: u32, x: u32) -> u32
    requires groups { length groups.now.of ≡ length n.now.net.nodes }
    requires node { y < length n.now.net.nodes }
    ensures { result ≡ self_read n.now.net groups.now.of y x }
{
    if x < nodes_of(n) && is_register(n, y) && groups.of(x) == groups.of(y) {
        y
    } else {
        x
    }
}

/// Puts into `row` what node y reads so.
fn self_reads(
    n: &FlatNet,
    groups: &LoopGroups,
    y: u32,
    reads: &[u32],
    row: &mut Vec<u32>,
) -> Result<(), OutOfMemory>
    requires groups { length groups.now.of ≡ length n.now.net.nodes }
    requires node { y < length n.now.net.nodes }
    ensures { OnOk result (row.new.items ≡ map (self_read n.now.net groups.now.of y) reads.now) }
{
    row.clear();
    for x in reads {
        row.push(self_read(n, groups, y, *x))?;
    }
    Ok(())
}

/// What each node reads so.
pub(crate) fn with_self_reads(
    alloc: Global,
    n: &FlatNet,
    groups: &LoopGroups,
    graph: &Graph,
) -> Result<Graph, OutOfMemory>
    requires groups { length groups.now.of ≡ length n.now.net.nodes }
    requires graph { length graph.now ≡ length n.now.net.nodes }
    ensures { IfOk result (λ selves. selves ≡ self_rows n.now.net groups.now.of graph.now) }
{
    let nodes = nodes_of(n);
    let mut selves = Graph::with_room(alloc, nodes as usize, n.pin_total() as usize)?;
    let mut row = Vec::new(alloc);
    for y in 0..nodes {
        self_reads(n, groups, y, graph.row(y), &mut row)?;
        selves.push(&row)?;
    }
    Ok(selves)
}
