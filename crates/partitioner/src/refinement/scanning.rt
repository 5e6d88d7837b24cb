//! Where a node goes that reads several nodes of very many readers: all partitions are counted, 64 at once, and before them blocks of 64
//! partitions, 64 at once, so that only blocks are counted where enough of these nodes are near.
ghost use Rattle.std.specs.Prelude.{◌≡◌, ◌<◌, ◌≤◌, ◌+◌, ◌*◌, ℕ, [], length, slice_index_or};
ghost use Rattle.table_cover.specs.Words.{word_bit};
ghost use Rattle.partitioner.specs.Private.Gaining.{IsCounted};
ghost use Rattle.partitioner.specs.Private.Loss.{loss};
ghost use Rattle.partitioner.specs.Private.Leading.{IsLead, Leads, LeadsOpen, start_of};
ghost use Rattle.partitioner.specs.Private.Marks.{lane_of};
ghost use Rattle.partitioner.specs.Private.Scanning.{AreCounted, AreShut, AreTried, IsNeeded};

use crate::costs::gains::Gains;
use crate::costs::lanes::{Lanes, add, all_lanes};
use crate::counts::partitioning::Partitioning;
use crate::counts::rows::{Level, is_set};
use crate::refinement::placing::{Lead, Mover, consider, part_of};
use flat_net::{FlatNet, nodes_of};

/// To count all partitions, 64 at once, takes less time for node i than to try them one by one: what is not counted yet are two nodes or
/// more, at most 32, and all of them have rows of marks.
pub fn is_scanned(n: &FlatNet, p: &Partitioning, gains: &Gains, i: u32) -> bool
    requires { IsCounted n.now.net p.now i gains.now }
{
    let _nodes = nodes_of(n);
    let row = p.sources.row(i);
    let from = gains.counted as usize;
    if row.len() < from + 2 || row.len() > from + 32 {
        return false;
    }
    for j in from..row.len() {
        if !p.marks.has_row(row[j]) {
            return false;
        }
    }
    true
}

/// `bias`, and how many of the nodes that node i reads and that are not counted yet are near, in each lane of word w.
fn counted_lanes(
    n: &FlatNet,
    p: &Partitioning,
    gains: &Gains,
    i: u32,
    level: Level,
    w: usize,
    bias: u64,
) -> Lanes
    requires counted { IsCounted n.now.net p.now i gains.now }
    requires bias { bias < 16 }
    ensures { AreCounted n.now.net p.now i gains.now level w bias result (length (slice_index_or p.now.sources i [])) }
{
    let _nodes = nodes_of(n);
    let row = p.sources.row(i);
    let mut lanes = all_lanes(bias);
    for j in gains.counted as usize..row.len() {
        lanes = add(lanes, p.marks.word(row[j], level, w));
    }
    lanes
}

/// No partition of a lane of word w comes before this one.
fn first_in(level: Level, w: u32) -> u32
    ensures { (c q : ℕ) → lane_of level q ≡ w * 64 + c → result ≤ q }
{
    match level {
        Level::Partitions => w.saturating_mul(64),
        Level::Blocks => w.saturating_mul(4096),
    }
}

/// How many of the nodes that are not counted yet are near, at least, in a partition from `first` on that takes the lead. 0
/// tells nothing.
fn needed(n: &FlatNet, p: &Partitioning, gains: &Gains, i: u32, lead: Lead, first: u32) -> u64
    requires counted { IsCounted n.now.net p.now i gains.now }
    ensures { IsNeeded (length (slice_index_or p.now.sources i [])) (start_of p.now i) first gains.now.most lead result }
{
    let all = p.sources.row(i).len() as u64;
    let start = part_of(n, p, i);
    let found = lead.loss.saturating_add(u64::from(gains.most));
    if lead.place == start || lead.place <= first {
        (all.saturating_add(2)).saturating_sub(found)
    } else {
        (all.saturating_add(1)).saturating_sub(found)
    }
}

/// The lanes of word w with partitions that may take the lead, as bits of a word.
fn candidates(
    n: &FlatNet,
    p: &Partitioning,
    gains: &Gains,
    i: u32,
    lead: Lead,
    level: Level,
    w: u32,
) -> u64
    requires counted { IsCounted n.now.net p.now i gains.now }
    requires lead { lead.loss ≡ loss n.now.net p.now.of.items i lead.place }
    ensures { AreShut n.now.net p.now i level (w * 64) result lead.place }
{
    let need = needed(n, p, gains, i, lead, first_in(level, w));
    if need == 0 {
        return u64::MAX;
    }
    let bias = 16 - need.min(16);
    let lanes = counted_lanes(n, p, gains, i, level, w as usize, bias);
    lanes.over
}

/// The lead after the 64 partitions from `first` on whose bits are set in `chosen` are tried.
fn consider_lanes(mover: &Mover, lead: Lead, first: u32, chosen: u64) -> Lead
    requires counted { IsCounted mover.now.net.now.net mover.now.parts.now mover.now.node mover.now.gains.now }
    requires block { first < mover.now.parts.now.count }
    requires lead { IsLead mover.now.net.now.net mover.now.size mover.now.parts.now mover.now.node lead }
    requires shut { AreShut mover.now.net.now.net mover.now.parts.now mover.now.node Level.Partitions first chosen lead.place }
    ensures lead { IsLead mover.now.net.now.net mover.now.size mover.now.parts.now mover.now.node result }
    ensures kept { (c : ℕ) → Leads mover.now.net.now.net mover.now.parts.now mover.now.node lead.place c → Leads mover.now.net.now.net mover.now.parts.now mover.now.node result.place c }
    ensures tried { AreTried mover.now.net.now.net mover.now.size mover.now.parts.now mover.now.node Level.Partitions first 64 result.place }
{
    let mut lead = lead;
    let within = mover.parts.count - first;
    for c in 0..64u32 {
        if c < within && is_set(chosen, c) {
            lead = consider(mover, lead, first + c);
        }
    }
    lead
}

/// The lead after the partitions of block w are tried.
fn consider_block(mover: &Mover, lead: Lead, w: u32) -> Lead
    requires counted { IsCounted mover.now.net.now.net mover.now.parts.now mover.now.node mover.now.gains.now }
    requires block { w * 64 < mover.now.parts.now.count }
    requires lead { IsLead mover.now.net.now.net mover.now.size mover.now.parts.now mover.now.node lead }
    ensures lead { IsLead mover.now.net.now.net mover.now.size mover.now.parts.now mover.now.node result }
    ensures kept { (c : ℕ) → Leads mover.now.net.now.net mover.now.parts.now mover.now.node lead.place c → Leads mover.now.net.now.net mover.now.parts.now mover.now.node result.place c }
    ensures tried { AreTried mover.now.net.now.net mover.now.size mover.now.parts.now mover.now.node Level.Partitions (w * 64) 64 result.place }
{
    let _count = mover.parts.count;
    let (n, p) = (mover.net, mover.parts);
    let chosen = candidates(n, p, mover.gains, mover.node, lead, Level::Partitions, w);
    if chosen == 0 {
        return lead;
    }
    consider_lanes(mover, lead, w * 64, chosen)
}

/// The lead after the partitions of the 64 blocks from `first` on whose bits are set in `chosen` are tried.
fn consider_chosen(mover: &Mover, lead: Lead, first: u32, chosen: u64) -> Lead
    requires counted { IsCounted mover.now.net.now.net mover.now.parts.now mover.now.node mover.now.gains.now }
    requires block { first * 64 < mover.now.parts.now.count }
    requires lead { IsLead mover.now.net.now.net mover.now.size mover.now.parts.now mover.now.node lead }
    requires shut { AreShut mover.now.net.now.net mover.now.parts.now mover.now.node Level.Blocks first chosen lead.place }
    ensures lead { IsLead mover.now.net.now.net mover.now.size mover.now.parts.now mover.now.node result }
    ensures kept { (c : ℕ) → Leads mover.now.net.now.net mover.now.parts.now mover.now.node lead.place c → Leads mover.now.net.now.net mover.now.parts.now mover.now.node result.place c }
    ensures tried { AreTried mover.now.net.now.net mover.now.size mover.now.parts.now mover.now.node Level.Blocks first 64 result.place }
{
    let mut lead = lead;
    let within = mover.parts.count.div_ceil(64) - first;
    for c in 0..64u32 {
        if c < within && is_set(chosen, c) {
            lead = consider_block(mover, lead, first + c);
        }
    }
    lead
}

/// The lead after the partitions of group g, which has 64 blocks, are tried. Only those blocks are looked at in which enough nodes are near
/// somewhere.
fn consider_group(mover: &Mover, lead: Lead, g: u32) -> Lead
    requires counted { IsCounted mover.now.net.now.net mover.now.parts.now mover.now.node mover.now.gains.now }
    requires group { g * 4096 < mover.now.parts.now.count }
    requires lead { IsLead mover.now.net.now.net mover.now.size mover.now.parts.now mover.now.node lead }
    ensures lead { IsLead mover.now.net.now.net mover.now.size mover.now.parts.now mover.now.node result }
    ensures kept { (c : ℕ) → Leads mover.now.net.now.net mover.now.parts.now mover.now.node lead.place c → Leads mover.now.net.now.net mover.now.parts.now mover.now.node result.place c }
    ensures tried { AreTried mover.now.net.now.net mover.now.size mover.now.parts.now mover.now.node Level.Blocks (g * 64) 64 result.place }
{
    let _count = mover.parts.count;
    let (n, p) = (mover.net, mover.parts);
    let chosen = candidates(n, p, mover.gains, mover.node, lead, Level::Blocks, g);
    if chosen == 0 {
        return lead;
    }
    consider_chosen(mover, lead, g * 64, chosen)
}

/// The lead after all partitions are tried.
pub fn consider_blocks(mover: &Mover, lead: Lead) -> Lead
    requires counted { IsCounted mover.now.net.now.net mover.now.parts.now mover.now.node mover.now.gains.now }
    requires lead { IsLead mover.now.net.now.net mover.now.size mover.now.parts.now mover.now.node lead }
    ensures lead { IsLead mover.now.net.now.net mover.now.size mover.now.parts.now mover.now.node result }
    ensures tried { (q : ℕ) → q < mover.now.parts.now.count → LeadsOpen mover.now.net.now.net mover.now.size mover.now.parts.now mover.now.node result.place q }
{
    let mut lead = lead;
    for g in 0..mover.parts.count.div_ceil(4096) {
        lead = consider_group(mover, lead, g);
    }
    lead
}
