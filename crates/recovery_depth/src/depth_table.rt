//! Labels of nodes and depths of partitions.
ghost use Rattle.std.specs.Prelude.{◌≡◌, ◌<◌, length, slice_index, IfOk};
ghost use Rattle.feedback_cut.specs.Cut.{is_cut, CutsLoops};
ghost use Rattle.recovery_depth.specs.Depths.{AreDepths};

use crate::partition_depths::greatest_labels;
use crate::reaching::reaches;
use crate::uncut::uncut_inner;
use feedback_cut::{CutPins, registers};
use flat_net::{FlatNet, nodes_of};
use std::alloc::Global;
use std::marker::Model;
use tmr_base::{OutOfMemory, PartId, Parts};

/// The label of each node, and the depth of each partition.
#[derive(Drop)]
pub struct DepthTable {
    labels: Vec<u32>,
    depths: Vec<u32>,
}

impl Model for DepthTable {
    ghost use Rattle.recovery_depth.specs.Depths.{PlainDepths};

    ghost Value = { PlainDepths };

    ghost view = { λ t. record { labels = t.labels.items; depths = t.depths.items } };
}

impl DepthTable {
    /// These labels and depths.
    pub(crate) fn new(labels: Vec<u32>, depths: Vec<u32>) -> DepthTable
        ensures { result ≡ record { labels = labels.items; depths = depths.items } }
    {
        DepthTable { labels, depths }
    }

    /// The label of node i: the most registers of a walk that ends in it.
    pub fn label(&self, i: u32) -> u32
        requires { i < length self.now.labels }
        ensures { result ≡ slice_index self.now.labels i }
    {
        self.labels[i as usize]
    }

    /// The depth of partition p: the greatest label of its nodes, or 0.
    pub fn depth(&self, p: PartId) -> u32
        requires { p.0 < length self.now.depths }
        ensures { result ≡ slice_index self.now.depths p.0 }
    {
        self.depths[p.0 as usize]
    }
}

/// For each node the most registers on a walk through uncut pins inside its partition that ends in the
/// node, itself included, and for each partition the greatest of these.
pub fn depths(
    alloc: Global,
    n: &FlatNet,
    parts: &Parts,
    cut: &CutPins,
) -> Result<DepthTable, OutOfMemory>
    requires parts { length parts.now.of ≡ length n.now.net.nodes }
    requires cut { CutsLoops n.now.net parts.now cut.now }
    ensures { IfOk result (λ table. AreDepths n.now.net parts.now (is_cut cut.now) table) }
{
    let count = nodes_of(n);
    let rest = uncut_inner(alloc, n, parts, cut)?;
    let is_register = registers(alloc, n)?;
    let labels = reaches(alloc, &rest, is_register.as_slice(), count)?;
    let depths = greatest_labels(alloc, parts, labels.as_slice())?;
    Ok(DepthTable { labels, depths })
}
