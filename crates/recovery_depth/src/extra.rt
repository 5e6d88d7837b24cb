//! Pins that are voted beside those of a cut, so that no label is above a bound.
ghost use Rattle.std.specs.Prelude.{◌≡◌, ◌<◌, ℕ, false, length, slice_index, IfOk};
ghost use Rattle.feedback_cut.specs.Cut.{CutsLoops, OrdersUncut};
ghost use Rattle.feedback_cut.specs.Inner.{inner_rows};
ghost use Rattle.recovery_depth.specs.Private.Uncut.{uncut_rows};
ghost use Rattle.recovery_depth.specs.Private.Vertices.{IsOrdered};
ghost use Rattle.recovery_depth.specs.Extra.{is_extra, AreExtra};

use crate::bounding::bounded_labels;
use crate::depth_table::DepthTable;
use crate::ordering::ordered;
use crate::partition_depths::greatest_labels;
use crate::uncut::uncut_in;
use feedback_cut::{CutPins, OrderedCut, inner_reads, registers};
use flat_net::{FlatNet, nodes_of};
use graph::Graph;
use std::alloc::Global;
use std::marker::Model;
use tmr_base::{OutOfMemory, PartId, Parts};

/// The extra pins, the label of each node, and the depth of each partition.
#[derive(Drop)]
pub struct Extra {
    marks: Vec<bool>,
    table: DepthTable,
}

impl Model for Extra {
    ghost use Rattle.recovery_depth.specs.Extra.{PlainExtra};

    ghost Value = { PlainExtra };

    ghost view = { λ e. record { marks = e.marks.items; table = e.table } };
}

impl Extra {
    /// Pin j of node i is extra.
    pub fn is_extra(&self, i: u32, j: u32) -> bool
        requires { i < length self.now.marks }
        ensures { result ≡ is_extra self.now.marks i j }
    {
        j == 0 && self.marks[i as usize]
    }

    /// The label of node i: the most registers of a walk that ends in it and goes through no cut pin and
    /// no extra one.
    pub fn label(&self, i: u32) -> u32
        requires { i < length self.now.table.labels }
        ensures { result ≡ slice_index self.now.table.labels i }
    {
        self.table.label(i)
    }

    /// The depth of partition p: the greatest label of its nodes, or 0.
    pub fn depth(&self, p: PartId) -> u32
        requires { p.0 < length self.now.table.depths }
        ensures { result ≡ slice_index self.now.table.depths p.0 }
    {
        self.table.depth(p)
    }
}

/// The extra pins of a cut, from the reads inside partitions and an order in which each node stands after all
/// that it reads there through uncut pins.
fn bound_over(
    alloc: Global,
    n: &FlatNet,
    parts: &Parts,
    cut: &CutPins,
    graph: &Graph,
    order: &[u32],
    most: u32,
) -> Result<Extra, OutOfMemory>
    requires parts { length parts.now.of ≡ length n.now.net.nodes }
    requires cut { CutsLoops n.now.net parts.now cut.now }
    requires graph { graph.now ≡ inner_rows n.now.net parts.now }
    requires order { IsOrdered (uncut_rows (inner_rows n.now.net parts.now) cut.now) order.now }
    requires most { 0 < most }
    ensures marks { IfOk result (λ extra. length extra.marks ≡ length n.now.net.nodes) }
    ensures extra { IfOk result (λ extra. AreExtra n.now.net parts.now cut.now most extra) }
    ensures none { IfOk result (λ extra. length n.now.net.nodes < most → (y j : ℕ) → is_extra extra.marks y j ≡ false) }
{
    let count = nodes_of(n);
    let is_register = registers(alloc, n)?;
    let found = bounded_labels(alloc, graph, cut, &is_register, order, most, count)?;
    let depths = greatest_labels(alloc, parts, &found.labels)?;
    let table = DepthTable::new(found.labels, depths);
    Ok(Extra {
        marks: found.marks,
        table,
    })
}

/// The extra pins of a cut for the bound `most`: the uncut pins of registers that read a node of their own
/// partition whose label is `most`. Labels count the registers of walks that go through no cut pin and no
/// extra one, so no label is above `most`.
pub fn bound(
    alloc: Global,
    n: &FlatNet,
    parts: &Parts,
    cut: &CutPins,
    most: u32,
) -> Result<Extra, OutOfMemory>
    requires parts { length parts.now.of ≡ length n.now.net.nodes }
    requires cut { CutsLoops n.now.net parts.now cut.now }
    requires most { 0 < most }
    ensures marks { IfOk result (λ extra. length extra.marks ≡ length n.now.net.nodes) }
    ensures extra { IfOk result (λ extra. AreExtra n.now.net parts.now cut.now most extra) }
    // A bound above the number of nodes binds nothing.
    ensures none { IfOk result (λ extra. length n.now.net.nodes < most → (y j : ℕ) → is_extra extra.marks y j ≡ false) }
{
    let count = nodes_of(n);
    let graph = inner_reads(alloc, n, parts)?;
    let rest = uncut_in(alloc, n, parts, cut, &graph)?;
    let order = ordered(alloc, &rest, count)?;
    let extra = bound_over(alloc, n, parts, cut, &graph, &order, most)?;
    Ok(extra)
}

/// The same for a cut that was found with an order, which is not looked for again.
pub fn bound_in_order(
    alloc: Global,
    n: &FlatNet,
    parts: &Parts,
    found: &OrderedCut,
    most: u32,
) -> Result<Extra, OutOfMemory>
    requires parts { length parts.now.of ≡ length n.now.net.nodes }
    requires cut { CutsLoops n.now.net parts.now found.now.cut }
    requires graph { found.now.graph ≡ inner_rows n.now.net parts.now }
    requires order { OrdersUncut n.now.net parts.now found.now.cut found.now.order.items }
    requires most { 0 < most }
    ensures marks { IfOk result (λ extra. length extra.marks ≡ length n.now.net.nodes) }
    ensures extra { IfOk result (λ extra. AreExtra n.now.net parts.now found.now.cut most extra) }
    ensures none { IfOk result (λ extra. length n.now.net.nodes < most → (y j : ℕ) → is_extra extra.marks y j ≡ false) }
{
    let _nodes = nodes_of(n);
    let extra = bound_over(
        alloc,
        n,
        parts,
        &found.cut,
        &found.graph,
        &found.order,
        most,
    )?;
    Ok(extra)
}
