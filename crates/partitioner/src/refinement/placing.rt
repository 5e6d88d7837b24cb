//! Where a node goes.
ghost use Rattle.std.specs.Prelude.{◌≡◌, ◌<◌, ◌≤◌, ◌==◌, ℕ, Bool, true, false, nat_lt, length, slice_index};
ghost use Rattle.partitioner.specs.Sizes.{capacity};
ghost use Rattle.flat_net.specs.Net.{Net};
ghost use Rattle.node_reads.specs.Sources.{is_wide};
ghost use Rattle.partitioner.specs.Refining.{has_room, place};
ghost use Rattle.partitioner.specs.Private.Tracking.{IsPlaced, Tracks, held_parts, placed_parts};
ghost use Rattle.partitioner.specs.Private.Spotting.{AreSpots};
ghost use Rattle.partitioner.specs.Private.Ready.{IsReady};
ghost use Rattle.partitioner.specs.Private.Gaining.{IsCounted};
ghost use Rattle.partitioner.specs.Private.Hinting.{AreHints};
ghost use Rattle.partitioner.specs.Private.Loss.{IsContent};
ghost use Rattle.partitioner.specs.Private.Leading.{HasNoRoom, IsFixed, IsLead, Leads, LeadsOpen, LeadsOrLoses, LeadsReaders, is_better, is_settled, start_of};

use crate::costs::ahead::read_ahead;
use crate::costs::gains::{Gains, begin, count_gains, least_loss};
use crate::costs::hints::{Tallies, count_hints, hint_early, least_hinted, least_in, no_hints};
use crate::costs::losses::loss_up_to;
use crate::counts::partitioning::{Partitioning, Placed};
use crate::counts::spots::Spots;
use crate::refinement::scanning::{consider_blocks, is_scanned};
use flat_net::FlatNet;
use node_reads::is_wide;

/// A node that may move, and what tells where it goes: the design, where its nodes stand, in which partitions wide nodes are read, what the
/// node gains in each partition, and the size of partitions.
#[derive(Drop)]
pub struct Mover<'a> {
    pub net: &'a FlatNet,
    pub parts: &'a Partitioning,
    pub spots: &'a Spots,
    pub gains: &'a Gains,
    pub size: u32,
    pub node: u32,
}

/// The best partition so far for a node, and the node's loss there.
#[derive(Clone, Copy, Drop)]
pub struct Lead {
    pub place: u32,
    pub loss: u64,
}

/// Where a node goes, and whether it is known to be content there: no partition loses less than its own.
#[derive(Clone, Copy, Drop)]
pub struct Found {
    pub place: u32,
    pub content: bool,
}

/// Where node x stands.
pub fn part_of(n: &FlatNet, p: &Partitioning, x: u32) -> u32
    requires tracks { Tracks n.now.net p.now }
    requires node { x < length n.now.net.nodes }
    ensures value { result ≡ slice_index p.now.of.items x }
    ensures range { result < p.now.count }
{
    p.of[x as usize]
}

/// Partition q has room for a node that is not in it.
pub fn has_room(n: &FlatNet, p: &Partitioning, size: u32, q: u32) -> bool
    requires tracks { Tracks n.now.net p.now }
    requires partition { q < p.now.count }
    ensures { result ≡ has_room size (held_parts p.now) q }
{
    u64::from(p.held[q as usize]) < u64::from(size) + u64::from(size / 4)
}

/// A loss of `found` in partition q takes the lead.
fn is_better(lead: Lead, start: u32, found: u64, q: u32) -> bool
    ensures { result ≡ is_better lead start found q }
{
    found < lead.loss || (found == lead.loss && (lead.place != start && q < lead.place))
}

/// No partition that loses at least `tried` can take the lead.
fn is_settled(lead: Lead, start: u32, tried: u64) -> bool
    ensures { result ≡ is_settled lead start tried }
{
    lead.loss < tried || (lead.loss == tried && lead.place == start)
}

/// The lead after partition q is tried.
pub fn consider(mover: &Mover, lead: Lead, q: u32) -> Lead
    requires counted { IsCounted mover.now.net.now.net mover.now.parts.now mover.now.node mover.now.gains.now }
    requires partition { q < mover.now.parts.now.count }
    requires lead { IsLead mover.now.net.now.net mover.now.size mover.now.parts.now mover.now.node lead }
    ensures lead { IsLead mover.now.net.now.net mover.now.size mover.now.parts.now mover.now.node result }
    ensures kept { (c : ℕ) → Leads mover.now.net.now.net mover.now.parts.now mover.now.node lead.place c → Leads mover.now.net.now.net mover.now.parts.now mover.now.node result.place c }
    ensures tried { LeadsOpen mover.now.net.now.net mover.now.size mover.now.parts.now mover.now.node result.place q }
{
    let (n, p, i) = (mover.net, mover.parts, mover.node);
    let start = p.of[i as usize];
    if q == start || q == lead.place || !has_room(n, p, mover.size, q) {
        return lead;
    }
    let found = loss_up_to(n, p, mover.gains, i, q, lead.loss);
    if is_better(lead, start, found, q) {
        Lead {
            place: q,
            loss: found,
        }
    } else {
        lead
    }
}

/// The lead after the partitions of all other readers of node x are tried.
fn consider_readers(mover: &Mover, lead: Lead, x: u32) -> Lead
    requires counted { IsCounted mover.now.net.now.net mover.now.parts.now mover.now.node mover.now.gains.now }
    requires read { x < length mover.now.net.now.net.nodes }
    requires lead { IsLead mover.now.net.now.net mover.now.size mover.now.parts.now mover.now.node lead }
    ensures lead { IsLead mover.now.net.now.net mover.now.size mover.now.parts.now mover.now.node result }
    ensures kept { (c : ℕ) → Leads mover.now.net.now.net mover.now.parts.now mover.now.node lead.place c → Leads mover.now.net.now.net mover.now.parts.now mover.now.node result.place c }
    ensures tried { LeadsReaders mover.now.net.now.net mover.now.size mover.now.parts.now mover.now.node result.place x }
{
    let (n, p) = (mover.net, mover.parts);
    let mut lead = lead;
    for y in p.readers.row(x) {
        lead = consider(mover, lead, part_of(n, p, *y));
    }
    lead
}

/// Some of these partitions has room for a node that is not in it.
pub fn any_room(held: &[u32], size: u32) -> bool
    ensures { result ≡ false → (q : ℕ) → q < length held.now → nat_lt (slice_index held.now q) (capacity size) ≡ false }
{
    let most = u64::from(size) + u64::from(size / 4);
    for count in held {
        if u64::from(*count) < most {
            return true;
        }
    }
    false
}

/// Some partition has room for a node that is not in it.
pub fn some_room(n: &FlatNet, p: &Partitioning, size: u32) -> bool
    requires { Tracks n.now.net p.now }
    ensures { result ≡ false → HasNoRoom size (held_parts p.now) }
{
    any_room(p.held.as_slice(), size)
}

/// Some node may find a partition with room beside its own: there are two, and one has room.
pub fn may_move(n: &FlatNet, p: &Placed, size: u32) -> bool
    requires { IsPlaced n.now.net p.now }
    ensures { result ≡ false → IsFixed size (placed_parts p.now) }
{
    1 < p.count && any_room(p.held.as_slice(), size)
}

/// The lead after partition q is tried, unless it loses too many by what is counted.
fn consider_hinted(mover: &Mover, hints: &Gains, lead: Lead, q: u32) -> Lead
    requires counted { IsCounted mover.now.net.now.net mover.now.parts.now mover.now.node mover.now.gains.now }
    requires hints { AreHints mover.now.net.now.net mover.now.size mover.now.parts.now mover.now.node mover.now.gains.now hints.now }
    requires partition { q < mover.now.parts.now.count }
    requires lead { IsLead mover.now.net.now.net mover.now.size mover.now.parts.now mover.now.node lead }
    ensures lead { IsLead mover.now.net.now.net mover.now.size mover.now.parts.now mover.now.node result }
    ensures kept { (c : ℕ) → Leads mover.now.net.now.net mover.now.parts.now mover.now.node lead.place c → Leads mover.now.net.now.net mover.now.parts.now mover.now.node result.place c }
    ensures tried { LeadsOpen mover.now.net.now.net mover.now.size mover.now.parts.now mover.now.node result.place q }
{
    let (n, p, i) = (mover.net, mover.parts, mover.node);
    let least = least_in(n, p, mover.gains, hints, mover.size, i, q);
    if is_better(lead, part_of(n, p, i), least, q) {
        consider(mover, lead, q)
    } else {
        lead
    }
}

/// Counts hints where they are wanted and there are none.
fn hint_late(mover: &Mover, hints: &mut Gains, wanted: bool, most: usize)
    requires counted { IsCounted mover.now.net.now.net mover.now.parts.now mover.now.node mover.now.gains.now }
    requires spots { AreSpots mover.now.net.now.net mover.now.size (held_parts mover.now.parts.now) mover.now.spots.now }
    requires hints { AreHints mover.now.net.now.net mover.now.size mover.now.parts.now mover.now.node mover.now.gains.now hints.old }
    ensures { AreHints mover.now.net.now.net mover.now.size mover.now.parts.now mover.now.node mover.now.gains.now hints.new }
{
    if wanted && hints.counted == 0 {
        count_hints(mover, hints, most);
    }
}

/// The lead after the partitions with room in which wide node x is read are tried, in
/// ascending order, until none that is left can take the lead: those not met yet lose at least `tried`.
///
/// Once an eighth of them are tried, to count where all that the node reads is read takes less time than to look it up in each.
fn consider_spots(mover: &Mover, hints: &mut Gains, lead: Lead, x: u32, tried: u64) -> Lead
    requires counted { IsCounted mover.now.net.now.net mover.now.parts.now mover.now.node mover.now.gains.now }
    requires spots { AreSpots mover.now.net.now.net mover.now.size (held_parts mover.now.parts.now) mover.now.spots.now }
    requires hints { AreHints mover.now.net.now.net mover.now.size mover.now.parts.now mover.now.node mover.now.gains.now hints.old }
    requires read { x < length mover.now.net.now.net.nodes }
    requires wide { is_wide mover.now.net.now.net x ≡ true }
    requires lead { IsLead mover.now.net.now.net mover.now.size mover.now.parts.now mover.now.node lead }
    requires least { (c : ℕ) → c < mover.now.parts.now.count → has_room mover.now.size (held_parts mover.now.parts.now) c ≡ true → LeadsOrLoses mover.now.net.now.net mover.now.parts.now mover.now.node lead.place tried c }
    ensures lead { IsLead mover.now.net.now.net mover.now.size mover.now.parts.now mover.now.node result }
    ensures kept { (c : ℕ) → Leads mover.now.net.now.net mover.now.parts.now mover.now.node lead.place c → Leads mover.now.net.now.net mover.now.parts.now mover.now.node result.place c }
    ensures tried { LeadsReaders mover.now.net.now.net mover.now.size mover.now.parts.now mover.now.node result.place x }
    ensures hints { AreHints mover.now.net.now.net mover.now.size mover.now.parts.now mover.now.node mover.now.gains.now hints.new }
{
    let p = mover.parts;
    let mut lead = lead;
    let free = mover.spots.free.set(x);
    let most = free.len().saturating_mul(8);
    let enough = (free.len() / 8).max(8);
    let mut tries: usize = 0;
    for q in free.iter() {
        if *q < p.count {
            tries = tries.wrapping_add(1);
            hint_late(mover, hints, tries == enough, most);
            lead = consider_hinted(mover, hints, lead, *q);
            if lead.loss <= tried && lead.place <= *q {
                return lead;
            }
        }
    }
    lead
}

/// The lead after the partitions of node x and of its other readers are tried. Those not met
/// yet lose at least `tried`.
fn consider_source(mover: &Mover, hints: &mut Gains, lead: Lead, x: u32, tried: u64) -> Lead
    requires counted { IsCounted mover.now.net.now.net mover.now.parts.now mover.now.node mover.now.gains.now }
    requires spots { AreSpots mover.now.net.now.net mover.now.size (held_parts mover.now.parts.now) mover.now.spots.now }
    requires hints { AreHints mover.now.net.now.net mover.now.size mover.now.parts.now mover.now.node mover.now.gains.now hints.old }
    requires read { x < length mover.now.net.now.net.nodes }
    requires lead { IsLead mover.now.net.now.net mover.now.size mover.now.parts.now mover.now.node lead }
    requires least { (c : ℕ) → c < mover.now.parts.now.count → has_room mover.now.size (held_parts mover.now.parts.now) c ≡ true → LeadsOrLoses mover.now.net.now.net mover.now.parts.now mover.now.node lead.place tried c }
    ensures lead { IsLead mover.now.net.now.net mover.now.size mover.now.parts.now mover.now.node result }
    ensures kept { (c : ℕ) → Leads mover.now.net.now.net mover.now.parts.now mover.now.node lead.place c → Leads mover.now.net.now.net mover.now.parts.now mover.now.node result.place c }
    ensures own { LeadsOpen mover.now.net.now.net mover.now.size mover.now.parts.now mover.now.node result.place (start_of mover.now.parts.now x) }
    ensures tried { LeadsReaders mover.now.net.now.net mover.now.size mover.now.parts.now mover.now.node result.place x }
    ensures hints { AreHints mover.now.net.now.net mover.now.size mover.now.parts.now mover.now.node mover.now.gains.now hints.new }
{
    let (n, p) = (mover.net, mover.parts);
    let lead = consider(mover, lead, part_of(n, p, x));
    if is_wide(n, &p.readers, x) {
        consider_spots(mover, hints, lead, x, tried)
    } else {
        consider_readers(mover, lead, x)
    }
}

/// The partition that the node goes to, where this one leads at first.
///
/// A partition that was met by none of so many nodes that it reads loses at least as many pairs, so few
/// of them need be tried.
fn best_place(mover: &Mover, hints: &mut Gains, lead: Lead) -> u32
    requires counted { IsCounted mover.now.net.now.net mover.now.parts.now mover.now.node mover.now.gains.now }
    requires spots { AreSpots mover.now.net.now.net mover.now.size (held_parts mover.now.parts.now) mover.now.spots.now }
    requires hints { AreHints mover.now.net.now.net mover.now.size mover.now.parts.now mover.now.node mover.now.gains.now hints.old }
    requires lead { IsLead mover.now.net.now.net mover.now.size mover.now.parts.now mover.now.node lead }
    ensures place { result ≡ place mover.now.net.now.net mover.now.size (held_parts mover.now.parts.now) mover.now.node }
    ensures hints { AreHints mover.now.net.now.net mover.now.size mover.now.parts.now mover.now.node mover.now.gains.now hints.new }
{
    let (n, p, i) = (mover.net, mover.parts, mover.node);
    let start = part_of(n, p, i);
    let mut lead = consider_readers(mover, lead, i);
    let mut tried = 1;
    for x in p.sources.row(i) {
        if is_settled(lead, start, tried) {
            return lead.place;
        }
        if tried > u64::from(mover.gains.counted) && is_scanned(n, p, mover.gains, i) {
            return consider_blocks(mover, lead).place;
        }
        lead = consider_source(mover, hints, lead, *x, tried);
        tried += 1;
    }
    lead.place
}

/// The same. Where few partitions with room read what the node reads, it is counted first how much of that they read: so nearly all nodes
/// stay in a later pass, and no partition is tried for them.
fn hinted_place(mover: &Mover, hints: &mut Gains, lead: Lead) -> u32
    requires counted { IsCounted mover.now.net.now.net mover.now.parts.now mover.now.node mover.now.gains.now }
    requires spots { AreSpots mover.now.net.now.net mover.now.size (held_parts mover.now.parts.now) mover.now.spots.now }
    requires hints { AreHints mover.now.net.now.net mover.now.size mover.now.parts.now mover.now.node mover.now.gains.now hints.old }
    requires lead { IsLead mover.now.net.now.net mover.now.size mover.now.parts.now mover.now.node lead }
    ensures place { result ≡ place mover.now.net.now.net mover.now.size (held_parts mover.now.parts.now) mover.now.node }
    ensures hints { AreHints mover.now.net.now.net mover.now.size mover.now.parts.now mover.now.node mover.now.gains.now hints.new }
{
    let (n, p, i) = (mover.net, mover.parts, mover.node);
    let start = part_of(n, p, i);
    hint_early(mover, hints);
    let least = least_hinted(n, p, mover.gains, hints, mover.size, i);
    if is_settled(lead, start, least) {
        return lead.place;
    }
    best_place(mover, hints, lead)
}

/// The partition that node i goes to, which is its own where no move lowers the cost.
///
/// What it gains in each partition is counted once, rather than in each partition that is tried. Where it gains most
/// in its own, no other is tried, and the node is content.
pub fn place_of(
    n: &FlatNet,
    p: &Partitioning,
    spots: &Spots,
    tallies: &mut Tallies,
    size: u32,
    i: u32,
) -> Found
    requires ready { IsReady n.now.net size p.now spots.now tallies.old }
    requires node { i < length n.now.net.nodes }
    ensures place { result.place ≡ place n.now.net size (held_parts p.now) i }
    ensures content { result.content ≡ true → IsContent n.now.net p.now.of.items i }
    ensures ready { IsReady n.now.net size p.now spots.now tallies.new }
{
    read_ahead(n, p, &mut tallies.ahead, i);
    let start = part_of(n, p, i);
    begin(&mut tallies.gains, p.count);
    count_gains(n, p, &mut tallies.gains, i);
    let lead = Lead {
        place: start,
        loss: loss_up_to(n, p, &tallies.gains, i, start, u64::MAX),
    };
    if is_settled(lead, start, least_loss(&tallies.gains)) {
        return Found {
            place: start,
            content: true,
        };
    }
    no_hints(n, p, &tallies.gains, &mut tallies.hints, size, i);
    let mover = Mover {
        net: n,
        parts: p,
        spots,
        gains: &tallies.gains,
        size,
        node: i,
    };
    Found {
        place: hinted_place(&mover, &mut tallies.hints, lead),
        content: false,
    }
}
