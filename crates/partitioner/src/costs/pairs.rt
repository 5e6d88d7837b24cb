//! What a partitioning costs.
ghost use Rattle.std.specs.Prelude.{◌≡◌, ◌<◌, ◌≤◌, ◌==◌, ◌&&◌, ◌||◌, ℕ, Bool, not, length, All, IfOk, slice_index};
ghost use Rattle.partitioner.specs.Below.{count_below};
ghost use Rattle.partitioner.specs.Private.Meeting.{is_met};
ghost use Rattle.node_reads.specs.Sources.{AreOtherReaders};
ghost use Rattle.partitioner.specs.Cost.{cost};

use crate::costs::ahead::read_block;
use crate::counts::tracking::parts_list;
use flat_net::{FlatNet, nodes_of};
use graph::Graph;
use node_reads::packed_readers_of;
use std::alloc::Global;
use tmr_base::{OutOfMemory, Parts};

/// Meets partition p, unless it is `own`. Says whether it is met for the first time in this turn: `last` has for
/// each partition the turn in which it was met last.
fn meet(last: &mut Vec<u32>, own: u32, p: u32, turn: u32) -> bool
    requires { p < length last.old.items }
    ensures new { result ≡ (not (own == p) && not (slice_index last.old.items p == turn)) }
    ensures after { (q : ℕ) → (slice_index last.new.items q == turn) ≡ (slice_index last.old.items q == turn || (not (own == p) && p == q)) }
    ensures past { (q : ℕ) → slice_index last.old.items q ≤ turn → slice_index last.new.items q ≤ turn }
    ensures long { length last.new.items ≡ length last.old.items }
{
    if own == p || last[p as usize] == turn {
        return false;
    }
    last[p as usize] = turn;
    true
}

/// How many partitions other than that of node x the nodes of a row stand in. None was met in this turn.
fn met_count(of: &[u32], x: u32, row: &[u32], last: &mut Vec<u32>, turn: u32) -> u64
    requires node { x < length of.now }
    requires in_range { All (λ q. q < length last.old.items) of.now }
    requires row { All (λ y. y < length of.now) row.now }
    requires fresh { (q : ℕ) → slice_index last.old.items q < turn }
    ensures count { result ≡ count_below (length last.old.items) (is_met (slice_index of.now x) of.now row.now (length row.now)) }
    ensures few { result ≤ length last.old.items }
    ensures past { (q : ℕ) → slice_index last.new.items q ≤ turn }
    ensures long { length last.new.items ≡ length last.old.items }
{
    let own = of[x as usize];
    let mut count = 0;
    for y in row {
        let p = of[*y as usize];
        count += u64::from(meet(last, own, p, turn));
    }
    count
}

/// What the partitions of these nodes cost, from the nodes that read each.
pub fn pairs_in(
    alloc: Global,
    n: &FlatNet,
    readers: &Graph,
    count: u32,
    of: &[u32],
) -> Result<u64, OutOfMemory>
    requires readers { AreOtherReaders n.now.net readers.now }
    requires long { length of.now ≡ length n.now.net.nodes }
    requires in_range { All (λ q. q < count) of.now }
    ensures { IfOk result (λ pairs. pairs ≡ cost n.now.net (record { count = count; of = of.now })) }
{
    let mut last = vec![in alloc; 0u32; count as usize]?;
    let mut total = 0;
    for x in 0..nodes_of(n) {
        read_block(n, readers, of, x, &mut last)?;
        total += met_count(of, x, readers.row(x), &mut last, x + 1);
    }
    Ok(total)
}

/// The same as `cost`, from the other nodes that read each node.
pub fn cost_by(
    alloc: Global,
    n: &FlatNet,
    readers: &Graph,
    parts: &Parts,
) -> Result<u64, OutOfMemory>
    requires readers { AreOtherReaders n.now.net readers.now }
    requires parts { length parts.now.of ≡ length n.now.net.nodes }
    ensures { IfOk result (λ pairs. pairs ≡ cost n.now.net parts.now) }
{
    let of = parts_list(alloc, parts)?;
    let pairs = pairs_in(alloc, n, readers, parts.count(), of.as_slice())?;
    Ok(pairs)
}

/// The number of pairs of a node and a partition other than its own in which some node reads it.
/// `parts` has one number per node.
pub fn cost(alloc: Global, n: &FlatNet, parts: &Parts) -> Result<u64, OutOfMemory>
    requires { length parts.now.of ≡ length n.now.net.nodes }
    ensures { IfOk result (λ pairs. pairs ≡ cost n.now.net parts.now) }
{
    let readers = packed_readers_of(alloc, n)?;
    let pairs = cost_by(alloc, n, &readers, parts)?;
    Ok(pairs)
}
