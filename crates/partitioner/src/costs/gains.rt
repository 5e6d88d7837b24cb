//! What a node gains in each partition: how many of the nodes that it reads are near there, and whether it is read there.
ghost use Rattle.std.specs.Prelude.{◌≡◌, ◌<◌, ◌≤◌, ◌+◌, ◌-◌, ◌==◌, ◌&&◌, not, nat_lt, ℕ, Bool, [], length, take, slice_index_or, count_by, if◌then◌else◌, IfOk};
ghost use Rattle.flat_net.specs.Net.{Net};
ghost use Rattle.partitioner.specs.Below.{one_if};
ghost use Rattle.partitioner.specs.Private.Gaining.{AreBegun, AreGains, AreKept, IsCounted, IsMost, LoseAtLeast, is_near, last_in, near_in, spot_at};
ghost use Rattle.partitioner.specs.Private.Loss.{is_fresh, is_wanted};
ghost use Rattle.partitioner.specs.Private.Tracking.{Tracks};

use crate::counts::partitioning::Partitioning;
use crate::refinement::placing::part_of;
use flat_net::{FlatNet, nodes_of};
use std::alloc::Global;
use tmr_base::OutOfMemory;

/// In a partition, how many are near, and the turn in which something was counted last.
#[derive(Clone, Copy, Drop)]
pub struct Spot {
    pub near: u32,
    pub last: u32,
}

/// For one node and each partition, how many of the first `counted` nodes that the one reads are near:
/// they stand there, or others read them there. Where others read the one itself, it counts as one more.
/// `most` is the highest of these counts.
///
/// Each of the nodes has a turn of its own, after one for the readers. A partition in which nothing was
/// counted since turn `from` has no count, whatever its spot says is near: so nothing need be cleared before
/// the next node.
#[derive(Drop)]
pub struct Gains {
    pub counted: u32,
    pub most: u32,
    pub from: u32,
    pub turn: u32,
    pub spots: Vec<Spot>,
}

/// No counts, of so many partitions.
pub fn no_gains(alloc: Global, count: u32) -> Result<Gains, OutOfMemory>
    ensures { IfOk result (λ gains. AreKept count gains) }
{
    let spots = vec![in alloc; Spot { near: 0, last: 0 }; count as usize]?;
    Ok(Gains {
        counted: 0,
        most: 0,
        from: 0,
        turn: 0,
        spots,
    })
}

/// Forgets in which turns something was counted.
fn forget(gains: &mut Gains)
    ensures near { (q : ℕ) → (spot_at gains.new.spots.items q).near ≡ (spot_at gains.old.spots.items q).near }
    ensures long { length gains.new.spots.items ≡ length gains.old.spots.items }
    ensures last { (q : ℕ) → last_in gains.new q ≡ 0 }
    ensures turn { gains.new.turn ≡ 0 }
{
    for q in 0..gains.spots.len() {
        gains.spots[q].last = 0;
    }
    gains.turn = 0;
}

/// Nothing is counted from now on.
pub fn begin(gains: &mut Gains, count: u32)
    requires { AreKept count gains.old }
    ensures begun { AreBegun count gains.new }
    ensures near { (q : ℕ) → near_in gains.new q ≡ 0 }
{
    if gains.turn > 2_147_483_648 {
        forget(gains);
    }
    gains.from = gains.turn;
    gains.counted = 0;
    gains.most = 0;
}

/// How many are near in a partition, where what was counted up to turn `from` is forgotten.
fn near_since(spot: Spot, from: u32) -> u32
    ensures { result ≡ (if nat_lt from spot.last then spot.near else 0) }
{
    if from < spot.last { spot.near } else { 0 }
}

/// How many are counted in partition q.
pub fn near_in(gains: &Gains, q: u32) -> u32
    requires { q < length gains.now.spots.items }
    ensures { result ≡ near_in gains.now q }
{
    near_since(gains.spots[q as usize], gains.from)
}

/// Counts one more in partition q, unless it was counted there in this turn.
pub fn count_once(gains: &mut Gains, q: u32)
    requires long { q < length gains.old.spots.items }
    requires turn { gains.old.from < gains.old.turn }
    requires few { near_in gains.old q < 4294967295 }
    requires most { IsMost (near_in gains.old) gains.old.most }
    ensures counted { gains.new.counted ≡ gains.old.counted }
    ensures from { gains.new.from ≡ gains.old.from }
    ensures turn { gains.new.turn ≡ gains.old.turn }
    ensures long { length gains.new.spots.items ≡ length gains.old.spots.items }
    ensures near { (r : ℕ) → near_in gains.new r ≡ near_in gains.old r + one_if (q == r && not (last_in gains.old r == gains.old.turn)) }
    ensures last { (r : ℕ) → last_in gains.new r ≡ (if q == r then gains.old.turn else last_in gains.old r) }
    ensures most { IsMost (near_in gains.new) gains.new.most }
{
    let spot = gains.spots[q as usize];
    if spot.last == gains.turn {
        return;
    }
    let near = near_since(spot, gains.from) + 1;
    gains.spots[q as usize] = Spot {
        near,
        last: gains.turn,
    };
    gains.most = gains.most.max(near);
}

/// Counts one more in each partition in which node x, which node i reads, is near. `readers` is its row.
fn count_source(n: &FlatNet, p: &Partitioning, gains: &mut Gains, i: u32, x: u32, readers: &[u32])
    requires tracks { Tracks n.now.net p.now }
    requires node { i < length n.now.net.nodes }
    requires source { x < length n.now.net.nodes }
    requires readers { readers.now ≡ slice_index_or p.now.readers x [] }
    requires long { length gains.old.spots.items ≡ p.now.count }
    requires begun { gains.old.from < gains.old.turn }
    requires turn { (q : ℕ) → last_in gains.old q < gains.old.turn }
    requires few { (q : ℕ) → near_in gains.old q < 4294967294 }
    requires most { IsMost (near_in gains.old) gains.old.most }
    ensures counted { gains.new.counted ≡ gains.old.counted }
    ensures from { gains.new.from ≡ gains.old.from }
    ensures turn { gains.new.turn ≡ gains.old.turn }
    ensures near { (q : ℕ) → near_in gains.new q ≡ near_in gains.old q + one_if (is_near n.now.net p.now.of.items i q x) }
    ensures most { IsMost (near_in gains.new) gains.new.most }
    ensures kept { AreKept p.now.count gains.new }
{
    count_once(gains, part_of(n, p, x));
    for y in readers {
        if *y != i {
            count_once(gains, part_of(n, p, *y));
        }
    }
}

/// Counts one more in each partition in which another node reads node i.
fn count_readers(n: &FlatNet, p: &Partitioning, gains: &mut Gains, i: u32)
    requires tracks { Tracks n.now.net p.now }
    requires node { i < length n.now.net.nodes }
    requires begun { AreBegun p.now.count gains.old }
    ensures counted { gains.new.counted ≡ gains.old.counted }
    ensures from { gains.new.from ≡ gains.old.from }
    ensures turn { gains.new.turn ≡ gains.old.turn + 1 }
    ensures near { (q : ℕ) → near_in gains.new q ≡ one_if (is_wanted n.now.net p.now.of.items i q) }
    ensures most { IsMost (near_in gains.new) gains.new.most }
    ensures kept { AreKept p.now.count gains.new }
{
    gains.turn += 1;
    for y in p.readers.row(i) {
        count_once(gains, part_of(n, p, *y));
    }
}

/// Counts where node i is read, and then the nodes that it reads, from the first to one that has over 64 readers, or over 16 and more than
/// one for eight partitions, or until turns run out. Such a node is read in many partitions: to look it up in those that are tried takes
/// less time than to go through its readers.
pub fn count_gains(n: &FlatNet, p: &Partitioning, gains: &mut Gains, i: u32)
    requires tracks { Tracks n.now.net p.now }
    requires node { i < length n.now.net.nodes }
    requires begun { AreBegun p.now.count gains.old }
    ensures gains { AreGains n.now.net p.now i gains.new }
    ensures kept { AreKept p.now.count gains.new }
{
    let _nodes = nodes_of(n);
    count_readers(n, p, gains, i);
    let row = p.sources.row(i);
    let most = (p.count / 8).max(16).min(64) as usize;
    for x in row {
        let readers = p.readers.row(*x);
        if readers.len() > most || gains.turn == u32::MAX {
            return;
        }
        gains.turn += 1;
        count_source(n, p, gains, i, *x, readers);
        gains.counted += 1;
    }
}

/// How many of the counted nodes are not near in partition q, and one more unless another node reads node i there.
pub fn missed_in(n: &FlatNet, p: &Partitioning, gains: &Gains, i: u32, q: u32) -> u32
    requires counted { IsCounted n.now.net p.now i gains.now }
    requires partition { q < p.now.count }
    ensures { result ≡ one_if (not (is_wanted n.now.net p.now.of.items i q)) + count_by (λ x. is_fresh n.now.net p.now.of.items i x q) (take gains.now.counted (slice_index_or p.now.sources i [])) }
{
    gains.counted + 1 - near_in(gains, q)
}

/// The least that the node may lose, by what is counted: it loses no less in any partition.
pub fn least_loss(gains: &Gains) -> u64
    requires { gains.now.most ≤ gains.now.counted + 1 }
    ensures exact { result + gains.now.most ≡ gains.now.counted + 1 }
    ensures least { LoseAtLeast gains.now result }
{
    u64::from(gains.counted) + 1 - u64::from(gains.most)
}
