//! What is read before it is needed, for speed alone.
//!
//! To count what a node gains takes three look-ups, one after the other: where the readers of a node stand in their list, which they are, and
//! in which partitions these stand. In a large design most of them wait for the memory. So what a node needs is read before its turn, each
//! look-up one node after the one before: then these waits run side by side, and beside the work on other nodes.
ghost use Rattle.std.specs.Prelude.{◌≡◌, ◌<◌, All, length, OnOk};
ghost use Rattle.node_reads.specs.Sources.{AreOtherReaders};
ghost use Rattle.partitioner.specs.Private.Tracking.{Tracks};

use crate::counts::partitioning::Partitioning;
use crate::refinement::placing::part_of;
use flat_net::{FlatNet, nodes_of};
use graph::Graph;
use node_reads::{is_long, is_wide};
use tmr_base::OutOfMemory;

/// Where the readers of nodes are all that is needed of them, those of so many nodes are read at once.
const AT_ONCE: u32 = 16;

/// Whether the next nodes are read ahead, and all that was read, mixed. That means nothing: it is kept so that no reading can be left out.
#[derive(Clone, Copy, Drop)]
pub struct Ahead {
    pub wanted: bool,
    pub mixed: usize,
}

/// How many nodes of a row are far from node i: over 65,536 nodes lie between them. What is kept of nearer ones takes a megabyte or two, and
/// so lies in a processor's cache.
fn far_count(row: &[u32], i: u32) -> usize {
    let mut far: usize = 0;
    for x in row {
        if x.abs_diff(i) > 65_536 {
            far = far.saturating_add(1);
        }
    }
    far
}

/// Over an eighth of all that the nodes read is far from them.
pub fn reads_far(n: &FlatNet, p: &Partitioning) -> bool
    requires { Tracks n.now.net p.now }
{
    let mut all: usize = 0;
    let mut far: usize = 0;
    for i in 0..nodes_of(n) {
        let row = p.sources.row(i);
        all = all.saturating_add(row.len());
        far = far.saturating_add(far_count(row, i));
    }
    far > all / 8
}

/// Reads where the other readers of node x stand.
fn parts_ahead(n: &FlatNet, p: &Partitioning, x: u32) -> usize
    requires tracks { Tracks n.now.net p.now }
    requires node { x < length n.now.net.nodes }
{
    let _nodes = nodes_of(n);
    let mut mixed: usize = 0;
    for y in p.readers.row(x) {
        mixed ^= part_of(n, p, *y) as usize;
    }
    mixed
}

/// Reads how many nodes read each node that node i reads, and where it stands.
fn rows_ahead(n: &FlatNet, p: &Partitioning, i: u32) -> usize
    requires tracks { Tracks n.now.net p.now }
    requires node { i < length n.now.net.nodes }
{
    let _nodes = nodes_of(n);
    let mut mixed: usize = 0;
    for x in p.sources.row(i) {
        mixed ^= p.readers.row(*x).len() ^ part_of(n, p, *x) as usize;
    }
    mixed
}

/// Reads the first of the nodes that read each node that node i reads.
fn firsts_ahead(n: &FlatNet, p: &Partitioning, i: u32) -> usize
    requires tracks { Tracks n.now.net p.now }
    requires node { i < length n.now.net.nodes }
{
    let _nodes = nodes_of(n);
    let mut mixed: usize = 0;
    for x in p.sources.row(i) {
        mixed ^= p.readers.row(*x).first().copied().unwrap_or(0) as usize;
    }
    mixed
}

/// Reads where the other readers of node i stand, and those of each node that it reads, unless that is wide.
fn readers_ahead(n: &FlatNet, p: &Partitioning, i: u32) -> usize
    requires tracks { Tracks n.now.net p.now }
    requires node { i < length n.now.net.nodes }
{
    let _nodes = nodes_of(n);
    let mut mixed = parts_ahead(n, p, i);
    for x in p.sources.row(i) {
        if !is_wide(n, &p.readers, *x) {
            mixed ^= parts_ahead(n, p, *x);
        }
    }
    mixed
}

/// Reads what the three nodes after node i will need, where that is wanted.
pub fn read_ahead(n: &FlatNet, p: &Partitioning, ahead: &mut Ahead, i: u32)
    requires tracks { Tracks n.now.net p.now }
    requires node { i < length n.now.net.nodes }
{
    if !ahead.wanted || nodes_of(n) - i <= 3 {
        return;
    }
    let mixed = rows_ahead(n, p, i + 3) ^ firsts_ahead(n, p, i + 2) ^ readers_ahead(n, p, i + 1);
    ahead.mixed = mixed;
}

/// Reads where the nodes of a row stand, unless it is long. The waits for those of a long row run side by side without that.
fn row_ahead(of: &[u32], row: &[u32]) -> u32
    requires { All (λ y. y < length of.now) row.now }
{
    let mut mixed = 0;
    if is_long(row) {
        return mixed;
    }
    for y in row {
        mixed ^= of[*y as usize];
    }
    mixed
}

/// Reads where the readers of node x stand, and those of the fifteen nodes behind it, where x is a multiple of sixteen. `kept` gets room for
/// one number more where what was read, mixed, is odd, so that no reading can be left out. Nothing is put there.
pub fn read_block(
    n: &FlatNet,
    readers: &Graph,
    of: &[u32],
    x: u32,
    kept: &mut Vec<u32>,
) -> Result<(), OutOfMemory>
    requires readers { AreOtherReaders n.now.net readers.now }
    requires long { length of.now ≡ length n.now.net.nodes }
    ensures { OnOk result (kept.new.items ≡ kept.old.items) }
{
    if x % AT_ONCE != 0 {
        return Ok(());
    }
    let end = nodes_of(n).min(x.saturating_add(AT_ONCE));
    let mut mixed = 0;
    for y in x..end {
        mixed ^= row_ahead(of, readers.row(y));
    }
    kept.reserve((mixed % 2) as usize)?;
    Ok(())
}
