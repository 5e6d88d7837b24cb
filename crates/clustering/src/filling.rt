//! Partitions filled with whole groups, one after the other.

use crate::levels::{Level, MOST_FOLLOWED};
use crate::numbers::{at, count, put, raise, row, row_count};
use std::alloc::Global;
use std::cmp::Reverse;
use std::collections::BinaryHeap;
use tmr_base::OutOfMemory;

/// No partition yet.
const NOWHERE: u32 = u32::MAX;

/// Partitions as they are filled. `of` has the partition of each group. `shared` tells how many followed nets of the partition that is
/// being filled touch a group, where `shared_in` has this partition, and `followed_in` in which partition a net was followed last.
/// `waiting` has the groups that such nets touch, those of most shared nets first.
#[derive(Drop)]
struct Filling {
    of: Vec<u32>,
    shared: Vec<u32>,
    shared_in: Vec<u32>,
    followed_in: Vec<u32>,
    waiting: BinaryHeap<(u32, Reverse<u32>)>,
    part: u32,
    held: u32,
    first: u32,
}

/// Counts one more shared net for group g.
fn share_net(f: &mut Filling, g: u32) -> Result<(), OutOfMemory> {
    if at(f.shared_in.as_slice(), g) != f.part {
        put(&mut f.shared_in, g, f.part);
        put(&mut f.shared, g, 0);
    }
    raise(&mut f.shared, g, 1);
    f.waiting.push((at(f.shared.as_slice(), g), Reverse(g)))?;
    Ok(())
}

/// Follows net e to the groups that it touches and that stand nowhere yet.
fn follow_net(level: &Level, f: &mut Filling, e: u32) -> Result<(), OutOfMemory> {
    let net = row(&level.nets, e);
    if net.len() > MOST_FOLLOWED || at(f.followed_in.as_slice(), e) == f.part {
        return Ok(());
    }
    put(&mut f.followed_in, e, f.part);
    for g in net {
        if at(f.of.as_slice(), *g) == NOWHERE {
            share_net(f, *g)?;
        }
    }
    Ok(())
}

/// The waiting group of most shared nets that stands nowhere yet.
fn waiting_group(f: &mut Filling) -> Option<u32> {
    'waiting: loop {
        let Some((_, Reverse(g))) = f.waiting.pop() else {
            return None;
        };
        if at(f.of.as_slice(), g) == NOWHERE {
            return Some(g);
        }
    }
}

/// The first group that stands nowhere yet.
fn first_group(f: &mut Filling) -> u32 {
    for g in f.first..count(f.of.as_slice()) {
        if at(f.of.as_slice(), g) == NOWHERE {
            f.first = g;
            return g;
        }
    }
    f.first
}

/// The group that comes next.
fn next_group(f: &mut Filling) -> u32 {
    match waiting_group(f) {
        Some(g) => g,
        None => first_group(f),
    }
}

/// Puts group v into the partition that is being filled, or into the next one where that holds `size` nodes.
fn fill_in(level: &Level, f: &mut Filling, v: u32, size: u32) -> Result<(), OutOfMemory> {
    if f.held >= size {
        f.part = f.part.saturating_add(1);
        f.held = 0;
        f.waiting.clear();
    }
    put(&mut f.of, v, f.part);
    f.held = f.held.saturating_add(at(level.sizes.as_slice(), v));
    for e in row(&level.nets_of, v) {
        follow_net(level, f, *e)?;
    }
    Ok(())
}

/// The partition of each group of a level. A partition takes groups until it holds `size` nodes. The group with most nets in common
/// with it comes next.
pub fn filled(alloc: Global, level: &Level, size: u32) -> Result<Vec<u32>, OutOfMemory> {
    let groups = count(level.sizes.as_slice());
    let mut filling = Filling {
        of: vec![in alloc; NOWHERE; groups as usize]?,
        shared: vec![in alloc; 0u32; groups as usize]?,
        shared_in: vec![in alloc; NOWHERE; groups as usize]?,
        followed_in: vec![in alloc; NOWHERE; row_count(&level.nets) as usize]?,
        waiting: BinaryHeap::new(alloc),
        part: 0,
        held: 0,
        first: 0,
    };
    for turn in 0..groups {
        let _turn = turn;
        let v = next_group(&mut filling);
        fill_in(level, &mut filling, v, size)?;
    }
    let Filling { of, .. } = filling;
    Ok(of)
}
