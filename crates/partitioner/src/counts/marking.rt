//! Marks where wide nodes stand and are read.
ghost use Rattle.std.specs.Prelude.{◌≡◌, ◌<◌, ℕ, true, [], All, length, slice_index, slice_index_or, IfOk, OnOk};
ghost use Rattle.node_reads.specs.Sources.{AreOtherReaders, is_wide};
ghost use Rattle.partitioner.specs.Private.Marks.{is_marked};
ghost use Rattle.partitioner.specs.Private.Tracking.{AreMarks, Tracks, held_parts};

use crate::counts::counting::count_at;
use crate::counts::marks::Marks;
use crate::counts::partitioning::Partitioning;
use crate::refinement::placing::part_of;
use flat_net::{FlatNet, nodes_of};
use graph::Graph;
use node_reads::is_wide;
use std::alloc::Global;
use tmr_base::OutOfMemory;

/// Marks each node of the row in partition q.
pub fn mark_row(marks: &mut Marks, row: &[u32], q: u32)
    requires { All (λ x. x < length marks.old) row.now }
    ensures long { length marks.new ≡ length marks.old }
    ensures rows { (z : ℕ) → length (slice_index_or marks.new z []) ≡ length (slice_index_or marks.old z []) }
    ensures kept { (z r : ℕ) → is_marked marks.old z r ≡ true → is_marked marks.new z r ≡ true }
    ensures row { All (λ x. is_marked marks.new x q ≡ true) row.now }
{
    for x in row {
        marks.mark(*x, q);
    }
}

/// Gives node x a row, where that takes no more words than it has readers, and marks it where it stands and where the nodes of its row of
/// readers stand.
fn mark_wide(
    alloc: Global,
    marks: &mut Marks,
    of: &[u32],
    x: u32,
    row: &[u32],
    words: usize,
) -> Result<(), OutOfMemory>
    requires node { x < length marks.old }
    requires within { x < length of.now }
    requires row { All (λ y. y < length of.now) row.now }
    ensures long { OnOk result (length marks.new ≡ length marks.old) }
    ensures rows { OnOk result ((z : ℕ) → (z ≡ x → ⊥) → length (slice_index_or marks.new z []) ≡ length (slice_index_or marks.old z [])) }
    ensures kept { OnOk result ((z r : ℕ) → (z ≡ x → ⊥) → is_marked marks.old z r ≡ true → is_marked marks.new z r ≡ true) }
    ensures own { OnOk result (is_marked marks.new x (slice_index of.now x) ≡ true) }
    ensures row { OnOk result (All (λ y. is_marked marks.new x (slice_index of.now y) ≡ true) row.now) }
{
    if words <= row.len() {
        marks.open(alloc, x, words)?;
    }
    marks.mark(x, of[x as usize]);
    for y in row {
        marks.mark(x, of[*y as usize]);
    }
    Ok(())
}

/// The marks of all wide nodes.
pub fn marks_of(
    alloc: Global,
    n: &FlatNet,
    readers: &Graph,
    of: &[u32],
    count: u32,
) -> Result<Marks, OutOfMemory>
    requires readers { AreOtherReaders n.now.net readers.now }
    requires long { length of.now ≡ length n.now.net.nodes }
    ensures { IfOk result (λ marks. AreMarks n.now.net of.now count marks) }
{
    let nodes = nodes_of(n);
    let words = count.div_ceil(64) as usize;
    let mut marks = Marks::empty(alloc, nodes)?;
    for x in 0..nodes {
        if is_wide(n, readers, x) {
            mark_wide(alloc, &mut marks, of, x, readers.row(x), words)?;
        }
    }
    Ok(marks)
}

/// Takes the mark in partition a from node x, if it neither stands there nor is read there.
fn unmark_one(n: &FlatNet, p: &mut Partitioning, x: u32, a: u32)
    requires tracks { Tracks n.now.net p.old }
    requires node { x < length n.now.net.nodes }
    requires wide { is_wide n.now.net x ≡ true }
    requires partition { a < p.old.count }
    ensures tracks { Tracks n.now.net p.new }
    ensures parts { held_parts p.new ≡ held_parts p.old }
{
    if part_of(n, p, x) != a && count_at(&p.counts, x, a) == 0 {
        p.marks.unmark(x, a);
    }
}

/// Takes the marks in partition a that node i left there.
pub fn unmark_left(n: &FlatNet, p: &mut Partitioning, i: u32, a: u32)
    requires tracks { Tracks n.now.net p.old }
    requires node { i < length n.now.net.nodes }
    requires partition { a < p.old.count }
    ensures tracks { Tracks n.now.net p.new }
    ensures parts { held_parts p.new ≡ held_parts p.old }
{
    let _nodes = nodes_of(n);
    if is_wide(n, &p.readers, i) {
        unmark_one(n, p, i, a);
    }
    for j in 0..p.wide.row(i).len() {
        let x = p.wide.row(i)[j];
        unmark_one(n, p, x, a);
    }
}
