//! Nodes that stand on loops together.
ghost use Rattle.std.specs.Prelude.{◌≡◌, ◌<◌, false, length, slice_index, slice_index_or, IfOk};
ghost use Rattle.feedback_cut.specs.Components.{AreComponents};
ghost use Rattle.feedback_cut.specs.Inner.{inner_rows};

use crate::inner::inner_reads;
use crate::loops::looped;
use crate::numbering::number_vertices;
use flat_net::{FlatNet, nodes_of};
use graph::Graph;
use std::alloc::Global;
use std::marker::Model;
use tmr_base::{OutOfMemory, Parts};

/// The component of each node, and for each component whether it has a loop.
#[derive(Drop)]
pub struct LoopGroups {
    of: Vec<u32>,
    loops: Vec<bool>,
}

impl Model for LoopGroups {
    ghost use Rattle.std.specs.Prelude.{◌<◌, length};
    ghost use Rattle.feedback_cut.specs.Components.{PlainGroups};

    ghost Value = { PlainGroups };

    ghost view = { λ g. record { of = g.of.items; loops = g.loops.items } };

    ghost invariant = { λ g. length g.loops.items < 4294967296 };
}

impl LoopGroups {
    /// How many components there are.
    pub fn count(&self) -> u32
        ensures { result ≡ length self.now.loops }
    {
        self.loops.len() as u32
    }

    /// The component of node i.
    pub fn of(&self, i: u32) -> u32
        requires { i < length self.now.of }
        ensures { result ≡ slice_index self.now.of i }
    {
        self.of[i as usize]
    }

    /// A pin of component k reads within it.
    pub fn has_loop(&self, k: u32) -> bool
        requires { k < length self.now.loops }
        ensures { result ≡ slice_index_or self.now.loops k false }
    {
        self.loops[k as usize]
    }
}

/// The components, from what each node reads inside its partition. `parts` is read by the clauses alone.
pub(crate) fn components_over(
    alloc: Global,
    n: &FlatNet,
    parts: &Parts,
    graph: &Graph,
) -> Result<LoopGroups, OutOfMemory>
    requires { graph.now ≡ inner_rows n.now.net parts.now }
    ensures { IfOk result (λ groups. AreComponents n.now.net parts.now groups) }
{
    let count = nodes_of(n);
    let found = number_vertices(alloc, graph, count)?;
    let loops = looped(alloc, graph, found.numbers.as_slice(), found.groups, count)?;
    Ok(LoopGroups {
        of: found.numbers,
        loops,
    })
}

/// The components of the nodes inside their partitions. Two nodes share a component exactly where lists of
/// reads inside one partition, perhaps empty, lead each way.
pub fn components(alloc: Global, n: &FlatNet, parts: &Parts) -> Result<LoopGroups, OutOfMemory>
    requires { length parts.now.of ≡ length n.now.net.nodes }
    ensures { IfOk result (λ groups. AreComponents n.now.net parts.now groups) }
{
    let graph = inner_reads(alloc, n, parts)?;
    let groups = components_over(alloc, n, parts, &graph)?;
    Ok(groups)
}
