//! Moves of whole groups that lower the cost.

use crate::levels::{Level, MOST_FOLLOWED};
use crate::numbers::{at, count, put, raise, row};
use std::alloc::Global;
use tmr_base::OutOfMemory;

/// How many nodes each partition may hold, and how many it holds. `ties` tells in how many nets of one group another group of each
/// partition stands, and `met` where that is more than none. Each net of a group has a turn of its own: `seen` tells the last one in
/// which a partition was counted.
#[derive(Drop)]
struct Moving {
    room: u32,
    held: Vec<u32>,
    ties: Vec<u32>,
    met: Vec<u32>,
    seen: Vec<u32>,
    turn: u32,
}

/// Counts one more tie to each partition in which a net of group v touches another group.
fn count_net(m: &mut Moving, of: &[u32], net: &[u32], v: u32) -> Result<(), OutOfMemory> {
    m.turn = m.turn.wrapping_add(1);
    for g in net {
        let p = at(of, *g);
        if *g != v && at(m.seen.as_slice(), p) != m.turn {
            put(&mut m.seen, p, m.turn);
            if at(m.ties.as_slice(), p) == 0 {
                m.met.push(p)?;
            }
            raise(&mut m.ties, p, 1);
        }
    }
    Ok(())
}

/// Counts the ties of group v.
fn count_ties(level: &Level, m: &mut Moving, of: &[u32], v: u32) -> Result<(), OutOfMemory> {
    m.met.clear();
    for e in row(&level.nets_of, v) {
        let net = row(&level.nets, *e);
        if net.len() <= MOST_FOLLOWED {
            count_net(m, of, net, v)?;
        }
    }
    Ok(())
}

/// No ties are counted from now on.
fn clear_ties(m: &mut Moving) {
    for q in &m.met {
        put(&mut m.ties, *q, 0);
    }
}

/// The partition of most ties that has room for so many nodes, the first of several, if it has more ties than partition p; else p.
fn best_part(m: &Moving, p: u32, size: u32) -> u32 {
    let mut best = p;
    let mut most = at(m.ties.as_slice(), p);
    for q in &m.met {
        let ties = at(m.ties.as_slice(), *q);
        let fits = at(m.held.as_slice(), *q).saturating_add(size) <= m.room;
        if fits && (ties > most || (ties == most && best != p && *q < best)) {
            best = *q;
            most = ties;
        }
    }
    best
}

/// Moves group v to the partition that it has most ties to. Says whether it moved.
fn move_group(
    level: &Level,
    m: &mut Moving,
    of: &mut Vec<u32>,
    v: u32,
) -> Result<bool, OutOfMemory> {
    let size = at(level.sizes.as_slice(), v);
    let p = at(of.as_slice(), v);
    count_ties(level, m, of.as_slice(), v)?;
    let best = best_part(m, p, size);
    clear_ties(m);
    if best == p {
        return Ok(false);
    }
    let left = at(m.held.as_slice(), p).saturating_sub(size);
    put(&mut m.held, p, left);
    raise(&mut m.held, best, size);
    put(of, v, best);
    Ok(true)
}

/// One pass over all groups. Says whether a group moved.
fn pass(level: &Level, m: &mut Moving, of: &mut Vec<u32>) -> Result<bool, OutOfMemory> {
    let mut moved = false;
    for v in 0..count(level.sizes.as_slice()) {
        if move_group(level, m, of, v)? {
            moved = true;
        }
    }
    Ok(moved)
}

/// How many nodes each of so many partitions holds.
fn held_in(alloc: Global, level: &Level, of: &[u32], parts: u32) -> Result<Vec<u32>, OutOfMemory> {
    let mut held = vec![in alloc; 0u32; parts as usize]?;
    for v in 0..count(of) {
        raise(&mut held, at(of, v), at(level.sizes.as_slice(), v));
    }
    Ok(held)
}

/// So many passes of moves over the groups of a level. A group moves only to one of so many partitions that has room for it.
pub fn move_groups(
    alloc: Global,
    level: &Level,
    of: &mut Vec<u32>,
    parts: u32,
    room: u32,
    passes: u32,
) -> Result<(), OutOfMemory> {
    let mut moving = Moving {
        room,
        held: held_in(alloc, level, of.as_slice(), parts)?,
        ties: vec![in alloc; 0u32; parts as usize]?,
        met: Vec::new(alloc),
        seen: vec![in alloc; 0u32; parts as usize]?,
        turn: 0,
    };
    for turn in 0..passes {
        let _turn = turn;
        if !pass(level, &mut moving, of)? {
            return Ok(());
        }
    }
    Ok(())
}
