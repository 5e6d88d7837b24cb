//! Labels that stay within a bound, since walks go around marked registers.
ghost use Rattle.std.specs.Prelude.{◌≡◌, ◌<◌, ◌≤◌, ◌==◌, ◌&&◌, ℕ, length, if◌then◌else◌, IfOk};
ghost use Rattle.graph.specs.Rows.{row};
ghost use Rattle.recovery_depth.specs.Walks.{is_marked};
ghost use Rattle.recovery_depth.specs.Private.Vertices.{IsOrdered};
ghost use Rattle.recovery_depth.specs.Private.Reaching.{IsGreatestOf};
ghost use Rattle.recovery_depth.specs.Private.Settled.{AreSettled};
ghost use Rattle.recovery_depth.specs.Private.Uncut.{uncut_row, uncut_rows};

use crate::partition_depths::greater;
use crate::reaching::{own_count, reach_at};
use crate::uncut::uncut_read;
use feedback_cut::CutPins;
use graph::Graph;
use std::alloc::Global;
use tmr_base::OutOfMemory;

/// Which vertices are marked, and the label of each.
#[derive(Drop)]
pub struct Bounded {
    pub marks: Vec<bool>,
    pub labels: Vec<u32>,
}

/// Vertex x is a register, and the greatest label that it reads is the bound.
fn reads_most(is_register: &[bool], x: u32, greatest: u32, most: u32) -> bool
    ensures { result ≡ (is_marked is_register.now x && greatest == most) }
{
    match is_register.get(x as usize) {
        Some(true) => greatest == most,
        _ => false,
    }
}

/// The greatest label that walks bring to a vertex: none where it is marked.
fn brought(mark: bool, greatest: u32) -> u32
    ensures { result ≡ (if mark then 0 else greatest) }
{
    if mark { 0 } else { greatest }
}

/// The greatest label that vertex y reads at a place that is not cut, or 0.
fn greatest_uncut(graph: &Graph, cut: &CutPins, y: u32, labels: &[u32], count: u32) -> u32
    requires vertex { y < length graph.now }
    requires vertices { length cut.now ≡ length graph.now }
    requires places { length (row cut.now y) ≡ length (row graph.now y) }
    requires few { length (row graph.now y) < 4294967296 }
    requires count { count ≡ length graph.now }
    ensures { IsGreatestOf (uncut_row graph.now cut.now y) labels.now result }
{
    let mut greatest = 0;
    for place in 0..graph.row(y).len() as u32 {
        let x = uncut_read(graph, cut, y, place, count);
        greatest = greater(greatest, reach_at(labels, x));
    }
    greatest
}

/// The label of each vertex over its reads that are not cut, where a register that reads the label `most` is
/// marked and begins anew. Each vertex stands in the order after all that it reads so.
pub fn bounded_labels(
    alloc: Global,
    graph: &Graph,
    cut: &CutPins,
    is_register: &[bool],
    order: &[u32],
    most: u32,
    count: u32,
) -> Result<Bounded, OutOfMemory>
    requires count { count ≡ length graph.now }
    requires vertices { length cut.now ≡ length graph.now }
    requires places { (y : ℕ) → y < length graph.now → length (row cut.now y) ≡ length (row graph.now y) }
    requires few { (y : ℕ) → y < length graph.now → length (row graph.now y) < 4294967296 }
    requires ordered { IsOrdered (uncut_rows graph.now cut.now) order.now }
    requires most { 0 < most }
    ensures { IfOk result (λ b. AreSettled (uncut_rows graph.now cut.now) is_register.now b.marks.items b.labels.items most) }
{
    let mut marks = vec![in alloc; false; count as usize]?;
    let mut labels = vec![in alloc; 0; count as usize]?;
    for x in order {
        let greatest = greatest_uncut(graph, cut, *x, labels.as_slice(), count);
        let mark = reads_most(is_register, *x, greatest, most);
        marks[*x as usize] = mark;
        labels[*x as usize] = brought(mark, greatest) + own_count(is_register, *x);
    }
    Ok(Bounded { marks, labels })
}
