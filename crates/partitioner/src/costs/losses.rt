//! What a node costs in each partition.
ghost use Rattle.std.specs.Prelude.{◌≡◌, ◌<◌, ◌≤◌, ◌==◌, ℕ, Bool, true, length, slice_index, All, count_by};
ghost use Rattle.flat_net.specs.Net.{Net};
ghost use Rattle.partitioner.specs.Below.{one_if};
ghost use Rattle.partitioner.specs.Private.Gaining.{IsCounted};
ghost use Rattle.node_reads.specs.Sources.{reads_other, is_wide};
ghost use Rattle.partitioner.specs.Private.Loss.{is_fresh, loss};
ghost use Rattle.partitioner.specs.Private.Tracking.{Tracks, reader_count};

use crate::costs::gains::{Gains, missed_in};
use crate::counts::counting::count_at;
use crate::counts::partitioning::Partitioning;
use flat_net::FlatNet;
use node_reads::is_long;

/// How many nodes of a row stand in partition q.
fn count_in(of: &[u32], row: &[u32], q: u32) -> u32
    requires row { All (λ y. y < length of.now) row.now }
    requires few { length row.now < 4294967295 }
    ensures { result ≡ count_by (λ y. slice_index of.now y == q) row.now }
{
    let mut count = 0;
    for y in row {
        count += u32::from(of[*y as usize] == q);
    }
    count
}

/// How many other nodes read wide node x from partition q. Where x has very many readers its row of marks tells first whether any does,
/// since a look-up among all counts takes longer.
#[tactic(auto, using(crate::proofs::CountLaws::unread_where_unmarked))]
fn wide_readers_in(n: &FlatNet, p: &Partitioning, x: u32, q: u32) -> u32
    requires tracks { Tracks n.now.net p.now }
    requires node { x < length n.now.net.nodes }
    requires wide { is_wide n.now.net x ≡ true }
    requires partition { q < p.now.count }
    ensures { result ≡ reader_count n.now.net p.now.of.items x q }
{
    if p.marks.is_marked(x, q) {
        count_at(&p.counts, x, q)
    } else {
        0
    }
}

/// How many other nodes read node x from partition q.
fn readers_in(n: &FlatNet, p: &Partitioning, x: u32, q: u32) -> u32
    requires tracks { Tracks n.now.net p.now }
    requires node { x < length n.now.net.nodes }
    requires partition { q < p.now.count }
    ensures { result ≡ reader_count n.now.net p.now.of.items x q }
{
    let row = p.readers.row(x);
    if is_long(row) {
        wide_readers_in(n, p, x, q)
    } else {
        count_in(p.of.as_slice(), row, q)
    }
}

/// Partition q holds neither node x nor, beside i, a node that reads it. `mine` is 1 where i stands in q.
#[tactic(auto, using(crate::proofs::CountLaws::fresh_by_count))]
fn is_fresh(n: &FlatNet, p: &Partitioning, i: u32, x: u32, q: u32, mine: u32) -> bool
    requires tracks { Tracks n.now.net p.now }
    requires node { i < length n.now.net.nodes }
    requires source { x < length n.now.net.nodes }
    requires reads { reads_other n.now.net i x ≡ true }
    requires partition { q < p.now.count }
    requires mine { mine ≡ one_if (slice_index p.now.of.items i == q) }
    ensures { result ≡ is_fresh n.now.net p.now.of.items i x q }
{
    p.of[x as usize] != q && readers_in(n, p, x, q) == mine
}

/// The loss of node i in partition q, or where it is above `most`, some number above `most`.
pub fn loss_up_to(n: &FlatNet, p: &Partitioning, gains: &Gains, i: u32, q: u32, most: u64) -> u64
    requires counted { IsCounted n.now.net p.now i gains.now }
    requires partition { q < p.now.count }
    ensures exact { result ≤ most → result ≡ loss n.now.net p.now.of.items i q }
    ensures above { most < result → most < loss n.now.net p.now.of.items i q }
{
    let mine = u32::from(p.of[i as usize] == q);
    let row = p.sources.row(i);
    let mut loss = u64::from(missed_in(n, p, gains, i, q));
    for j in gains.counted as usize..row.len() {
        if most < loss {
            return loss;
        }
        loss += u64::from(is_fresh(n, p, i, row[j], q, mine));
    }
    loss
}
