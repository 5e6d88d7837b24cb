//! Which nodes stand on loops together.

use crate::design::bit;
use clustering::numbers::{at, count, put, row, row_count};
use graph::Graph;
use std::alloc::Global;
use tmr_base::OutOfMemory;

/// No group yet.
const NONE: u32 = u32::MAX;

/// A node of the path, and which of its reads comes next.
#[derive(Clone, Copy, Drop)]
struct Step {
    node: u32,
    next: u32,
}

/// A depth-first search along reads. `times` has when each node was entered, 0 for never; `lowest` the earliest node that each leads to
/// and that stands in no group yet; `groups` the group of each node; `open` the nodes that were entered and stand in no group yet.
#[derive(Drop)]
struct Walk {
    times: Vec<u32>,
    lowest: Vec<u32>,
    groups: Vec<u32>,
    open: Vec<u32>,
    path: Vec<Step>,
    time: u32,
}

/// Enters node x.
fn enter(walk: &mut Walk, x: u32) -> Result<(), OutOfMemory> {
    walk.time = walk.time.saturating_add(1);
    let now = walk.time;
    put(&mut walk.times, x, now);
    put(&mut walk.lowest, x, now);
    walk.open.push(x)?;
    walk.path.push(Step { node: x, next: 0 })?;
    Ok(())
}

/// Node x leads to a node that was entered then.
fn lower(walk: &mut Walk, x: u32, time: u32) {
    if time < at(walk.lowest.as_slice(), x) {
        put(&mut walk.lowest, x, time);
    }
}

/// The nodes that were entered from node x on, and stand in no group, are a group. Its number is x.
fn close_group(walk: &mut Walk, x: u32) {
    for _turn in 0..walk.open.len() {
        let Some(y) = walk.open.pop() else {
            return;
        };
        put(&mut walk.groups, y, x);
        if y == x {
            return;
        }
    }
}

/// Leaves node x, all of whose reads were followed.
fn leave(walk: &mut Walk, x: u32) {
    let _step = walk.path.pop();
    let lowest = at(walk.lowest.as_slice(), x);
    if lowest == at(walk.times.as_slice(), x) {
        close_group(walk, x);
    } else if let Some(step) = walk.path.last() {
        let before = step.node;
        lower(walk, before, lowest);
    }
}

/// Follows the reads of node x from number `from` on, as far as they lead to nodes in its part and in its group of `whole` that were entered.
/// Gives the number of the first that leads to one that was not, or how many there are.
fn follow_reads(
    walk: &mut Walk,
    reads: &[u32],
    parts: &[u32],
    whole: &[u32],
    x: u32,
    from: u32,
) -> u32 {
    let part = at(parts, x);
    let group = at(whole, x);
    for k in from..count(reads) {
        let y = at(reads, k);
        if at(parts, y) == part && at(whole, y) == group {
            let time = at(walk.times.as_slice(), y);
            if time == 0 {
                return k;
            }
            if at(walk.groups.as_slice(), y) == NONE {
                lower(walk, x, time);
            }
        }
    }
    count(reads)
}

/// Goes on from the end of the path.
fn go_on(
    walk: &mut Walk,
    sources: &Graph,
    parts: &[u32],
    whole: &[u32],
    step: Step,
) -> Result<(), OutOfMemory> {
    let reads = row(sources, step.node);
    let next = follow_reads(walk, reads, parts, whole, step.node, step.next);
    if next >= count(reads) {
        leave(walk, step.node);
        return Ok(());
    }
    let _old = walk.path.pop();
    walk.path.push(Step {
        node: step.node,
        next: next.saturating_add(1),
    })?;
    enter(walk, at(reads, next))
}

/// Enters node x, and all that it leads to.
fn walk_from(
    walk: &mut Walk,
    sources: &Graph,
    parts: &[u32],
    whole: &[u32],
    x: u32,
) -> Result<(), OutOfMemory> {
    enter(walk, x)?;
    for _turn in 0..u64::MAX {
        let Some(step) = walk.path.last() else {
            return Ok(());
        };
        let step = *step;
        go_on(walk, sources, parts, whole, step)?;
    }
    Ok(())
}

/// No node was entered.
fn no_walk(alloc: Global, nodes: u32) -> Result<Walk, OutOfMemory> {
    Ok(Walk {
        times: vec![in alloc; 0u32; nodes as usize]?,
        lowest: vec![in alloc; 0u32; nodes as usize]?,
        groups: vec![in alloc; NONE; nodes as usize]?,
        open: Vec::new(alloc),
        path: Vec::new(alloc),
        time: 0,
    })
}

/// A group for each node: two have one where reads lead each way, inside one part and one group of `whole`. Where a node stands alone in its
/// group of `whole`, which `alone` says, it is not looked at: it stands on no loop.
pub fn loop_groups(
    alloc: Global,
    sources: &Graph,
    parts: &[u32],
    whole: &[u32],
    alone: &[bool],
) -> Result<Vec<u32>, OutOfMemory> {
    let nodes = row_count(sources);
    let mut walk = no_walk(alloc, nodes)?;
    for x in 0..nodes {
        if bit(alone, x) {
            put(&mut walk.groups, x, x);
        } else if at(walk.times.as_slice(), x) == 0 {
            walk_from(&mut walk, sources, parts, whole, x)?;
        }
    }
    let Walk { groups, .. } = walk;
    Ok(groups)
}
