//! The counts beside a partitioning, made from it.
ghost use Rattle.std.specs.Prelude.{◌≡◌, ◌<◌, ◌==◌, ◌&&◌, ◌+◌, ℕ, true, List, All, length, slice_index, count_by, IfOk, OnOk, if◌then◌else◌};
ghost use Rattle.flat_net.specs.Net.{Net};
ghost use Rattle.node_reads.specs.Sources.{is_wide, AreOtherReaders};
ghost use Rattle.partitioner.specs.Private.Counting.{count_at};
ghost use Rattle.partitioner.specs.Sizes.{held};
ghost use Rattle.partitioner.specs.Reads.{AreReads};
ghost use Rattle.partitioner.specs.Private.Tracking.{IsPlaced, Tracks, held_parts, placed_parts, reader_count};

use crate::counts::counting::{count_at, set_count};
use crate::counts::marking::marks_of;
use crate::counts::partitioning::{Partitioning, Placed};
use crate::counts::runs::run_end;
use crate::reading::{Reads, Sources, reads_of, sorted_sources};
use flat_net::{FlatNet, nodes_of};
use graph::Graph;
use node_reads::is_wide;
use std::alloc::Global;
use std::collections::HashMap;
use tmr_base::{OutOfMemory, Parts};

/// The partition of each node.
pub fn parts_list(alloc: Global, parts: &Parts) -> Result<Vec<u32>, OutOfMemory>
    ensures same { IfOk result (λ of. of.items ≡ parts.now.of) }
    ensures in_range { IfOk result (λ of. All (λ q. q < parts.now.count) of.items) }
{
    let nodes = parts.len();
    let mut of = Vec::with_capacity(alloc, nodes as usize)?;
    for i in 0..nodes {
        of.push(parts.of(i))?;
    }
    Ok(of)
}

/// How many nodes each partition holds.
fn held_of(alloc: Global, count: u32, of: &[u32]) -> Result<Vec<u32>, OutOfMemory>
    requires in_range { All (λ q. q < count) of.now }
    requires few { length of.now < 4294967295 }
    ensures long { IfOk result (λ holds. length holds.items ≡ count) }
    ensures held { IfOk result (λ holds. (q : ℕ) → q < count → slice_index holds.items q ≡ held of.now q) }
{
    let mut holds = vec![in alloc; 0u32; count as usize]?;
    for q in of {
        holds[*q as usize] += 1;
    }
    Ok(holds)
}

/// Counts so many more readers of node x in partition p.
fn add_count(
    counts: &mut HashMap<(u32, u32), u32>,
    x: u32,
    p: u32,
    more: u32,
) -> Result<(), OutOfMemory>
    requires few { count_at counts.old x p + more < 4294967296 }
    ensures { OnOk result ((z q : ℕ) → count_at counts.new z q ≡ (if x == z && p == q then count_at counts.old x p + more else count_at counts.old z q)) }
{
    let count = count_at(counts, x, p);
    set_count(counts, x, p, count + more)?;
    Ok(())
}

/// Counts the readers of node x, of which none is counted yet. Those that stand next to one another in one partition are counted together.
fn count_row(
    counts: &mut HashMap<(u32, u32), u32>,
    of: &[u32],
    x: u32,
    row: &[u32],
) -> Result<(), OutOfMemory>
    requires in_range { All (λ y. y < length of.now) row.now }
    requires few { length row.now < 4294967295 }
    requires absent { (q : ℕ) → count_at counts.old x q ≡ 0 }
    ensures { OnOk result ((z q : ℕ) → count_at counts.new z q ≡ (if x == z then count_by (λ y. slice_index of.now y == q) row.now else count_at counts.old z q)) }
{
    let mut first = 0;
    while first < row.len() {
        let p = of[row[first] as usize];
        let end = run_end(of, row, first + 1, p);
        add_count(counts, x, p, (end - first) as u32)?;
        first = end;
    }
    Ok(())
}

/// How many readers each wide node has in each partition.
fn counts_of(
    alloc: Global,
    n: &FlatNet,
    readers: &Graph,
    of: &[u32],
) -> Result<HashMap<(u32, u32), u32>, OutOfMemory>
    requires readers { AreOtherReaders n.now.net readers.now }
    requires long { length of.now ≡ length n.now.net.nodes }
    ensures { IfOk result (λ counts. (x q : ℕ) → x < length n.now.net.nodes → is_wide n.now.net x ≡ true → count_at counts x q ≡ reader_count n.now.net of.now x q) }
{
    let mut counts = HashMap::new(alloc);
    for x in 0..nodes_of(n) {
        if is_wide(n, readers, x) {
            count_row(&mut counts, of, x, readers.row(x))?;
        }
    }
    Ok(counts)
}

/// The partition of each node, with what is looked up of the design and the numbers of nodes held.
pub fn placed(
    alloc: Global,
    n: &FlatNet,
    reads: Reads,
    parts: &Parts,
) -> Result<Placed, OutOfMemory>
    requires reads { AreReads n.now.net reads }
    requires parts { length parts.now.of ≡ length n.now.net.nodes }
    ensures placed { IfOk result (λ p. IsPlaced n.now.net p) }
    ensures parts { IfOk result (λ p. placed_parts p ≡ parts.now) }
{
    let _nodes = nodes_of(n);
    let count = parts.count();
    let of = parts_list(alloc, parts)?;
    let held = held_of(alloc, count, of.as_slice())?;
    Ok(Placed {
        count,
        of,
        reads,
        held,
    })
}

/// The same with all that is kept beside it. The nodes that a node reads stand in ascending order of how
/// many nodes read them, so that a node's place is found among few partitions.
pub fn tracked(alloc: Global, n: &FlatNet, placed: Placed) -> Result<Partitioning, OutOfMemory>
    requires { IsPlaced n.now.net placed }
    ensures tracks { IfOk result (λ p. Tracks n.now.net p) }
    ensures parts { IfOk result (λ p. held_parts p ≡ placed_parts placed) }
{
    let Placed {
        count,
        of,
        reads,
        held,
    } = placed;
    let Reads { readers, sources } = reads;
    let Sources { rows, wide } = sorted_sources(alloc, n, &readers, sources)?;
    let counts = counts_of(alloc, n, &readers, of.as_slice())?;
    let marks = marks_of(alloc, n, &readers, of.as_slice(), count)?;
    Ok(Partitioning {
        count,
        of,
        readers,
        sources: rows,
        wide,
        held,
        counts,
        marks,
    })
}

/// The partitioning with what is kept beside it.
pub fn track(alloc: Global, n: &FlatNet, parts: &Parts) -> Result<Partitioning, OutOfMemory>
    requires { length parts.now.of ≡ length n.now.net.nodes }
    ensures tracks { IfOk result (λ p. Tracks n.now.net p) }
    ensures parts { IfOk result (λ p. held_parts p ≡ parts.now) }
{
    let reads = reads_of(alloc, n)?;
    let placed = placed(alloc, n, reads, parts)?;
    let p = tracked(alloc, n, placed)?;
    Ok(p)
}
