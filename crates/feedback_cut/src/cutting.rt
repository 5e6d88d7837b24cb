//! Cut pins.
ghost use Rattle.std.specs.Prelude.{◌≡◌, ◌<◌, length, IfOk};
ghost use Rattle.graph.specs.Rows.{row};
ghost use Rattle.feedback_cut.specs.Cut.{is_cut, CutMeets, CutsRegisters, OrdersUncut};
ghost use Rattle.feedback_cut.specs.Inner.{inner_rows};

use crate::inner::inner_reads;
use crate::loop_groups::components_over;
use crate::self_reads::with_self_reads;
use flat_net::{FlatNet, nodes_of};
use graph::{CutReads, Graph, search};
use std::alloc::Global;
use std::marker::Model;
use tmr_base::{OutOfMemory, Parts};

/// For each node and each of its pins, whether the pin is cut.
#[derive(Drop)]
pub struct CutPins {
    reads: CutReads,
}

impl Model for CutPins {
    ghost use Rattle.std.specs.Prelude.{Bool, List};

    ghost Value = { List (List Bool) };

    ghost view = { λ c. c.reads };
}

impl CutPins {
    /// Pin j of node i is cut.
    pub fn is_cut(&self, i: u32, j: u32) -> bool
        requires node { i < length self.now }
        requires pin { j < length (row self.now i) }
        ensures { result ≡ is_cut self.now i j }
    {
        self.reads.is_cut(i, j)
    }
}

/// A cut, beside what each node reads inside its partition, and all nodes in an order in which each stands
/// behind all that it reads there through uncut pins.
#[derive(Drop)]
pub struct OrderedCut {
    pub graph: Graph,
    pub order: Vec<u32>,
    pub cut: CutPins,
}

/// A cut of each loop of reads inside a partition, what each node reads there, and an order of all nodes.
///
/// Each cut pin is needed: uncut pins lead from its node to the node that it reads. Which of several such cuts a
/// depth-first search ends with is no clause.
pub fn cut_in_order(alloc: Global, n: &FlatNet, parts: &Parts) -> Result<OrderedCut, OutOfMemory>
    requires { length parts.now.of ≡ length n.now.net.nodes }
    ensures cut { IfOk result (λ found. CutMeets n.now.net parts.now found.cut) }
    ensures graph { IfOk result (λ found. found.graph ≡ inner_rows n.now.net parts.now) }
    ensures order { IfOk result (λ found. OrdersUncut n.now.net parts.now found.cut found.order.items) }
{
    let count = nodes_of(n);
    let graph = inner_reads(alloc, n, parts)?;
    let searched = search(alloc, &graph, count)?;
    Ok(OrderedCut {
        graph,
        order: searched.order,
        cut: CutPins {
            reads: searched.cut,
        },
    })
}

/// A cut of each loop of reads inside a partition.
pub fn cut(alloc: Global, n: &FlatNet, parts: &Parts) -> Result<CutPins, OutOfMemory>
    requires { length parts.now.of ≡ length n.now.net.nodes }
    ensures { IfOk result (λ cut. CutMeets n.now.net parts.now cut) }
{
    let found = cut_in_order(alloc, n, parts)?;
    Ok(found.cut)
}

/// The cut at registers: a pin is cut exactly where it is that of a register and stands on a loop inside its
/// partition.
///
/// The search is the same, over reads in which each such register reads itself in that place. These are all
/// that is left to be cut, since no loop goes through tables alone.
pub fn cut_registers(alloc: Global, n: &FlatNet, parts: &Parts) -> Result<OrderedCut, OutOfMemory>
    requires { length parts.now.of ≡ length n.now.net.nodes }
    ensures cut { IfOk result (λ found. CutsRegisters n.now.net parts.now found.cut) }
    ensures graph { IfOk result (λ found. found.graph ≡ inner_rows n.now.net parts.now) }
    ensures order { IfOk result (λ found. OrdersUncut n.now.net parts.now found.cut found.order.items) }
{
    let count = nodes_of(n);
    let graph = inner_reads(alloc, n, parts)?;
    let groups = components_over(alloc, n, parts, &graph)?;
    let selves = with_self_reads(alloc, n, &groups, &graph)?;
    let searched = search(alloc, &selves, count)?;
    Ok(OrderedCut {
        graph,
        order: searched.order,
        cut: CutPins {
            reads: searched.cut,
        },
    })
}
