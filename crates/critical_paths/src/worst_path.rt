//! One of the worst paths.

use crate::design::{Circuit, bit, put_bit};
use crate::levels::{Levels, seen_level};
use clustering::numbers::{at, count, row};
use tmr_base::OutOfMemory;

/// The nodes of a path, its end first, and for each node whether it stands on it. `random` chooses among equal ones: a fixed start, and
/// so the same choice in each run.
#[derive(Drop)]
pub struct Path {
    pub nodes: Vec<u32>,
    pub on: Vec<bool>,
    pub random: u32,
}

/// A number below `count`, or 0 if that is 0.
fn chosen(path: &mut Path, count: u32) -> u32 {
    path.random = path.random.wrapping_mul(1664525).wrapping_add(1013904223);
    if count == 0 {
        return 0;
    }
    (path.random / 65536) % count
}

/// A path of the worst level ends at this end.
fn is_worst(levels: &Levels, y: u32) -> bool {
    at(levels.of.as_slice(), y) == levels.worst
}

/// One of the ends of the worst level.
fn worst_end(circuit: &Circuit, levels: &Levels, path: &mut Path) -> Option<u32> {
    let mut left = chosen(path, levels.worst_ends);
    for y in &circuit.ends {
        if is_worst(levels, *y) {
            if left == 0 {
                return Some(*y);
            }
            left = left.saturating_sub(1);
        }
    }
    None
}

/// The level at which node y sees what its longest paths come through.
fn wanted_level(circuit: &Circuit, levels: &Levels, y: u32) -> u32 {
    let level = at(levels.of.as_slice(), y);
    if bit(circuit.registers.as_slice(), y) {
        level
    } else {
        level.saturating_sub(1)
    }
}

/// One of the nodes through which a longest path comes to node y.
fn node_before(
    circuit: &Circuit,
    levels: &Levels,
    parts: &[u32],
    path: &mut Path,
    y: u32,
) -> Option<u32> {
    let wanted = wanted_level(circuit, levels, y);
    let mut ways: u32 = 0;
    for x in row(&circuit.sources, y) {
        if seen_level(levels, parts, *x, y) == wanted {
            ways = ways.saturating_add(1);
        }
    }
    let mut left = chosen(path, ways);
    for x in row(&circuit.sources, y) {
        if seen_level(levels, parts, *x, y) == wanted {
            if left == 0 {
                return Some(*x);
            }
            left = left.saturating_sub(1);
        }
    }
    None
}

/// Node x is the next one of the path.
fn step_to(path: &mut Path, x: u32) -> Result<(), OutOfMemory> {
    path.nodes.push(x)?;
    put_bit(&mut path.on, x, true);
    Ok(())
}

/// No node stands on the path.
fn leave_path(path: &mut Path) {
    for x in &path.nodes {
        put_bit(&mut path.on, *x, false);
    }
    path.nodes.clear();
}

/// Makes `path` one of the worst paths, followed back from its end to a register or to an input.
pub fn follow_worst(
    circuit: &Circuit,
    levels: &Levels,
    parts: &[u32],
    path: &mut Path,
) -> Result<(), OutOfMemory> {
    leave_path(path);
    let Some(end) = worst_end(circuit, levels, path) else {
        return Ok(());
    };
    let mut y = end;
    step_to(path, y)?;
    for _turn in 0..count(circuit.order.as_slice()) {
        let Some(x) = node_before(circuit, levels, parts, path, y) else {
            return Ok(());
        };
        step_to(path, x)?;
        if bit(circuit.registers.as_slice(), x) {
            return Ok(());
        }
        y = x;
    }
    Ok(())
}
