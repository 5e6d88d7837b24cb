//! Room in partitions that are full.
ghost use Rattle.std.specs.Prelude.{◌≡◌, ◌+◌, [], min, true, false};

use crate::design::{Circuit, bit};
use crate::levels::{Levels, wait_for};
use crate::placing::{Pairs, Placing, has_room, move_node, moved_pairs};
use crate::worst_path::Path;
use clustering::numbers::{at, count, put, raise, row};
use std::alloc::Global;
use tmr_base::OutOfMemory;

/// At most so many nodes leave a partition in one trial.
pub const MOST_LEAVING: u32 = 6;

/// So many of a partition's nodes are looked at.
const MOST_MEMBERS: u32 = 512;

/// So many of the cheapest are kept, since some find no room.
const MOST_KEPT: usize = 12;

/// So many readers of a node are asked for their partitions.
const MOST_ASKED: usize = 8;

/// A node that may leave its partition, and how dear that is.
#[derive(Clone, Copy, Drop)]
pub struct Leaver {
    pub price: u32,
    pub node: u32,
}

/// A partition that a node may go to, and how dear that is.
#[derive(Clone, Copy, Drop)]
struct Place {
    price: u32,
    part: u32,
}

/// Nodes that may leave the partitions on a path. The first node of each partition and the next one behind each node are kept in
/// `first` and `next`. `leavers` has the cheapest of each partition that was asked for, `from` where they begin and `kept` how many
/// they are; `asked` tells the last round in which it was asked for, and `listed` whether the nodes were listed since some moved.
#[derive(Drop)]
pub struct Rooms {
    pub first: Vec<u32>,
    pub next: Vec<u32>,
    pub leavers: Vec<u32>,
    pub from: Vec<u32>,
    pub kept: Vec<u32>,
    pub asked: Vec<u32>,
    pub round: u32,
    pub listed: bool,
    pub ranked: Vec<Leaver>,
}

/// No node.
const NONE: u32 = u32::MAX;

/// No rooms are known yet.
pub fn no_rooms(alloc: Global, nodes: u32, parts: u32) -> Result<Rooms, OutOfMemory> {
    Ok(Rooms {
        first: vec![in alloc; NONE; parts as usize]?,
        next: vec![in alloc; NONE; nodes as usize]?,
        leavers: Vec::new(alloc),
        from: vec![in alloc; 0u32; parts as usize]?,
        kept: vec![in alloc; 0u32; parts as usize]?,
        asked: vec![in alloc; 0u32; parts as usize]?,
        round: 0,
        listed: false,
        ranked: Vec::new(alloc),
    })
}

/// Begins a round, in which nothing was asked for. The nodes are listed anew where some moved since the round before.
pub fn begin_round(rooms: &mut Rooms, moved: bool)
    ensures round { rooms.new.round ≡ min (rooms.old.round + 1) 4294967295 }
    ensures leavers { rooms.new.leavers.items ≡ [] }
    ensures moved { moved ≡ true → rooms.new.listed ≡ false }
    ensures still { moved ≡ false → rooms.new.listed ≡ rooms.old.listed }
{
    rooms.round = rooms.round.saturating_add(1);
    rooms.leavers.clear();
    if moved {
        rooms.listed = false;
    }
}

/// Lists the nodes of each partition, unless that was done since some moved.
fn list_members(rooms: &mut Rooms, parts: &[u32]) {
    if rooms.listed {
        return;
    }
    rooms.listed = true;
    for p in 0..count(rooms.first.as_slice()) {
        put(&mut rooms.first, p, NONE);
    }
    for x in 0..count(parts) {
        let p = at(parts, x);
        let behind = at(rooms.first.as_slice(), p);
        put(&mut rooms.next, x, behind);
        put(&mut rooms.first, p, x);
    }
}

/// A price that grows with the pairs that come and falls with those that go.
fn price_of(pairs: Pairs) -> u32 {
    pairs.more.saturating_add(65536).saturating_sub(pairs.fewer)
}

/// The better of a place and partition q for node v.
fn better_place(circuit: &Circuit, placing: &Placing, v: u32, best: Place, q: u32) -> Place {
    let p = at(placing.of.as_slice(), v);
    if q == p || q == best.part || !has_room(placing, q) {
        return best;
    }
    let price = price_of(moved_pairs(circuit, placing.of.as_slice(), v, q));
    if price < best.price {
        Place { price, part: q }
    } else {
        best
    }
}

/// The cheapest partition with room for node v among those of what it reads and of its readers; its own one at the highest price if
/// there is none.
fn best_place(circuit: &Circuit, placing: &Placing, v: u32) -> Place {
    let of = placing.of.as_slice();
    let mut best = Place {
        price: u32::MAX,
        part: at(of, v),
    };
    for x in row(&circuit.sources, v).iter().take(MOST_ASKED) {
        best = better_place(circuit, placing, v, best, at(of, *x));
    }
    for y in row(&circuit.readers, v).iter().take(MOST_ASKED) {
        best = better_place(circuit, placing, v, best, at(of, *y));
    }
    best
}

/// Makes `ranked` the nodes of partition q that are not on the path and may leave it, the cheapest first. Says how many nodes it looked
/// at.
fn rank_members(
    circuit: &Circuit,
    placing: &Placing,
    path: &Path,
    rooms: &mut Rooms,
    q: u32,
) -> Result<u32, OutOfMemory> {
    rooms.ranked.clear();
    let mut seen: u32 = 0;
    let mut x = at(rooms.first.as_slice(), q);
    for _turn in 0..MOST_MEMBERS {
        if x == NONE {
            break;
        }
        if !bit(path.on.as_slice(), x) {
            let place = best_place(circuit, placing, x);
            if place.price < u32::MAX {
                rooms.ranked.push(Leaver {
                    price: place.price,
                    node: x,
                })?;
            }
        }
        x = at(rooms.next.as_slice(), x);
        seen = seen.saturating_add(1);
    }
    rooms
        .ranked
        .sort_unstable_by_key(|leaver| (leaver.price, leaver.node));
    Ok(seen)
}

/// Finds the nodes that may leave partition q, unless that was done in this round. Says how many nodes it looked at.
pub fn find_leavers(
    circuit: &Circuit,
    placing: &Placing,
    path: &Path,
    rooms: &mut Rooms,
    q: u32,
) -> Result<u32, OutOfMemory> {
    if at(rooms.asked.as_slice(), q) == rooms.round {
        return Ok(0);
    }
    list_members(rooms, placing.of.as_slice());
    let seen = rank_members(circuit, placing, path, rooms, q)?;
    let round = rooms.round;
    put(&mut rooms.asked, q, round);
    put(&mut rooms.kept, q, 0);
    let from = u32::try_from(rooms.leavers.len()).unwrap_or(u32::MAX);
    put(&mut rooms.from, q, from);
    for leaver in rooms.ranked.iter().take(MOST_KEPT) {
        rooms.leavers.push(leaver.node)?;
        raise(&mut rooms.kept, q, 1);
    }
    Ok(seen)
}

/// So many nodes leave partition q, each to its best partition with room, as far as there are such.
pub fn make_room(
    circuit: &Circuit,
    placing: &mut Placing,
    levels: &mut Levels,
    rooms: &Rooms,
    q: u32,
    needed: u32,
) -> Result<(), OutOfMemory> {
    let from = at(rooms.from.as_slice(), q);
    let mut left = needed;
    for k in 0..at(rooms.kept.as_slice(), q) {
        if left == 0 {
            return Ok(());
        }
        let v = at(rooms.leavers.as_slice(), from.saturating_add(k));
        let place = best_place(circuit, placing, v);
        if place.price < u32::MAX {
            move_node(circuit, placing, v, place.part)?;
            wait_for(circuit, levels, v)?;
            left = left.saturating_sub(1);
        }
    }
    Ok(())
}
