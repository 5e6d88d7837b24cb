//! What a node loses at least in partitions with room, counted where the wide nodes that it reads are read.
ghost use Rattle.std.specs.Prelude.{◌≡◌, ◌<◌, ◌≤◌, ◌+◌, ◌-◌, ℕ, true, length, IfOk};
ghost use Rattle.flat_net.specs.Net.{Net};
ghost use Rattle.node_reads.specs.Sources.{is_wide};
ghost use Rattle.partitioner.specs.Below.{one_if};
ghost use Rattle.partitioner.specs.Refining.{has_room};
ghost use Rattle.partitioner.specs.Private.Gaining.{AreBegun, AreKept, IsCounted, IsMost, is_near, last_in, near_in};
ghost use Rattle.partitioner.specs.Private.Hinting.{AreHints};
ghost use Rattle.partitioner.specs.Private.Loss.{loss};
ghost use Rattle.partitioner.specs.Private.Spotting.{AreSpots};
ghost use Rattle.partitioner.specs.Private.Tracking.{Tracks, held_parts};

use crate::costs::ahead::Ahead;
use crate::costs::gains::{Gains, begin, count_once, missed_in, near_in, no_gains};
use crate::counts::partitioning::Partitioning;
use crate::counts::spots::Spots;
use crate::refinement::placing::{Mover, part_of};
use flat_net::{FlatNet, nodes_of};
use node_reads::is_wide;
use std::alloc::Global;
use tmr_base::OutOfMemory;

/// What is counted for one node: in `gains` exactly, for the nodes that it reads and few others read; in `hints` no fewer than are near in
/// partitions with room, for those that come next. `ahead` is what was read before its turn.
#[derive(Drop)]
pub struct Tallies {
    pub gains: Gains,
    pub hints: Gains,
    pub ahead: Ahead,
}

/// No counts, of so many partitions. `far` says whether to read ahead.
pub fn no_tallies(alloc: Global, count: u32, far: bool) -> Result<Tallies, OutOfMemory>
    ensures gains { IfOk result (λ tallies. AreKept count tallies.gains) }
    ensures hints { IfOk result (λ tallies. AreKept count tallies.hints) }
{
    let gains = no_gains(alloc, count)?;
    let hints = no_gains(alloc, count)?;
    Ok(Tallies {
        gains,
        hints,
        ahead: Ahead {
            wanted: far,
            mixed: 0,
        },
    })
}

/// Counts one more in the partition of wide node x and in each with room in which it is read.
fn hint_source(n: &FlatNet, p: &Partitioning, spots: &Spots, hints: &mut Gains, size: u32, x: u32)
    requires tracks { Tracks n.now.net p.now }
    requires spots { AreSpots n.now.net size (held_parts p.now) spots.now }
    requires source { x < length n.now.net.nodes }
    requires wide { is_wide n.now.net x ≡ true }
    requires long { length hints.old.spots.items ≡ p.now.count }
    requires begun { hints.old.from < hints.old.turn }
    requires turn { (q : ℕ) → last_in hints.old q < hints.old.turn }
    requires few { (q : ℕ) → near_in hints.old q < 4294967294 }
    requires most { IsMost (near_in hints.old) hints.old.most }
    ensures counted { hints.new.counted ≡ hints.old.counted }
    ensures from { hints.new.from ≡ hints.old.from }
    ensures turn { hints.new.turn ≡ hints.old.turn }
    ensures near { (i q : ℕ) → q < p.now.count → has_room size (held_parts p.now) q ≡ true → near_in hints.old q + one_if (is_near n.now.net p.now.of.items i q x) ≤ near_in hints.new q }
    ensures once { (q : ℕ) → near_in hints.new q ≤ near_in hints.old q + 1 }
    ensures most { IsMost (near_in hints.new) hints.new.most }
    ensures kept { AreKept p.now.count hints.new }
{
    count_once(hints, part_of(n, p, x));
    for q in spots.free.set(x).iter() {
        if *q < p.count {
            count_once(hints, *q);
        }
    }
}

/// No hints for node i, whose gains are counted.
pub fn no_hints(n: &FlatNet, p: &Partitioning, gains: &Gains, hints: &mut Gains, size: u32, i: u32)
    requires counted { IsCounted n.now.net p.now i gains.now }
    requires kept { AreKept p.now.count hints.old }
    ensures begun { AreBegun p.now.count hints.new }
    ensures none { (q : ℕ) → near_in hints.new q ≡ 0 }
    ensures hints { AreHints n.now.net size p.now i gains.now hints.new }
{
    begin(hints, p.count);
}

/// Counts the nodes that the node reads from the first that is not counted yet to one that is not wide, or that is read in over `most`
/// partitions with room, or until turns run out.
pub fn count_hints(mover: &Mover, hints: &mut Gains, most: usize)
    requires counted { IsCounted mover.now.net.now.net mover.now.parts.now mover.now.node mover.now.gains.now }
    requires spots { AreSpots mover.now.net.now.net mover.now.size (held_parts mover.now.parts.now) mover.now.spots.now }
    requires kept { AreKept mover.now.parts.now.count hints.old }
    ensures { AreHints mover.now.net.now.net mover.now.size mover.now.parts.now mover.now.node mover.now.gains.now hints.new }
{
    let (n, p, i) = (mover.net, mover.parts, mover.node);
    let (spots, gains) = (mover.spots, mover.gains);
    let _nodes = nodes_of(n);
    no_hints(n, p, gains, hints, mover.size, i);
    let row = p.sources.row(i);
    for j in gains.counted as usize..row.len() {
        let x = row[j];
        if hints.turn == u32::MAX || !is_wide(n, &p.readers, x) || spots.free.set(x).len() > most {
            return;
        }
        hints.turn += 1;
        hint_source(n, p, spots, hints, mover.size, x);
        hints.counted += 1;
    }
}

/// No more than node i loses in partition q, if that has room.
pub fn least_in(
    n: &FlatNet,
    p: &Partitioning,
    gains: &Gains,
    hints: &Gains,
    size: u32,
    i: u32,
    q: u32,
) -> u64
    requires counted { IsCounted n.now.net p.now i gains.now }
    requires hints { AreHints n.now.net size p.now i gains.now hints.now }
    requires partition { q < p.now.count }
    ensures { has_room size (held_parts p.now) q ≡ true → result ≤ loss n.now.net p.now.of.items i q }
{
    u64::from(missed_in(n, p, gains, i, q)) + u64::from(hints.counted - near_in(hints, q))
}

/// No more than node i loses in any partition with room, by the highest counts.
pub fn least_hinted(
    n: &FlatNet,
    p: &Partitioning,
    gains: &Gains,
    hints: &Gains,
    size: u32,
    i: u32,
) -> u64
    requires counted { IsCounted n.now.net p.now i gains.now }
    requires hints { AreHints n.now.net size p.now i gains.now hints.now }
    ensures { (q : ℕ) → q < p.now.count → has_room size (held_parts p.now) q ≡ true → result ≤ loss n.now.net p.now.of.items i q }
{
    let counted = u64::from(gains.counted).saturating_add(u64::from(hints.counted));
    let all = counted.saturating_add(1);
    let left = all.saturating_sub(u64::from(gains.most));
    left.saturating_sub(u64::from(hints.most))
}

/// How many steps it takes to count hints for all that is not counted yet, up to `most`.
fn steps_to_hint(mover: &Mover, most: usize) -> usize
    requires counted { IsCounted mover.now.net.now.net mover.now.parts.now mover.now.node mover.now.gains.now }
    requires spots { AreSpots mover.now.net.now.net mover.now.size (held_parts mover.now.parts.now) mover.now.spots.now }
{
    let (p, spots) = (mover.parts, mover.spots);
    let _nodes = nodes_of(mover.net);
    let row = p.sources.row(mover.node);
    let mut steps: usize = 0;
    for j in mover.gains.counted as usize..row.len() {
        if steps > most {
            return steps;
        }
        steps = steps.saturating_add(spots.free.set(row[j]).len());
    }
    steps
}

/// How many words of marks have a bit set, of all that is not counted yet.
fn words_to_scan(mover: &Mover) -> usize
    requires counted { IsCounted mover.now.net.now.net mover.now.parts.now mover.now.node mover.now.gains.now }
{
    let p = mover.parts;
    let _nodes = nodes_of(mover.net);
    let row = p.sources.row(mover.node);
    let all = p.count.div_ceil(64) as usize;
    let mut words: usize = 0;
    for j in mover.gains.counted as usize..row.len() {
        words = words.saturating_add(p.marks.word_count(row[j], all));
    }
    words
}

/// Counts hints for all that is not counted yet, where that takes less time than to count all partitions, 64 at once: where two nodes or
/// more are not counted, and few partitions with room read them.
pub fn hint_early(mover: &Mover, hints: &mut Gains)
    requires counted { IsCounted mover.now.net.now.net mover.now.parts.now mover.now.node mover.now.gains.now }
    requires spots { AreSpots mover.now.net.now.net mover.now.size (held_parts mover.now.parts.now) mover.now.spots.now }
    requires hints { AreHints mover.now.net.now.net mover.now.size mover.now.parts.now mover.now.node mover.now.gains.now hints.old }
    ensures { AreHints mover.now.net.now.net mover.now.size mover.now.parts.now mover.now.node mover.now.gains.now hints.new }
{
    let _nodes = nodes_of(mover.net);
    let left = mover.parts.sources.row(mover.node).len() - mover.gains.counted as usize;
    if left < 2 {
        return;
    }
    let most = words_to_scan(mover) / 2;
    if steps_to_hint(mover, most) <= most {
        count_hints(mover, hints, usize::MAX);
    }
}
