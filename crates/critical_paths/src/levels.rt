//! Levels: how many tables and voters stand on the longest path to each node.
ghost use Rattle.std.specs.Prelude.{◌≡◌, ◌≢◌, ◌+◌, [], true, false, min, slice_index_or, if◌then◌else◌};

use crate::design::{Circuit, bit};
use clustering::numbers::{at, put, row};
use std::cmp::Reverse;
use std::collections::BinaryHeap;
use tmr_base::OutOfMemory;

/// A change of levels that computes more of them is refused: it would cost more time than it is worth.
const MOST_COMPUTED: u32 = 2000;

/// So many levels below the worst, a path counts no more.
const SEEN: u32 = 8;

/// The level of a node before a trial.
#[derive(Clone, Copy, Drop)]
pub struct Change {
    pub node: u32,
    pub level: u32,
}

/// For each node how many tables and voters stand on the longest path to it, the node itself counted if it is a table; what it gives to its
/// readers: the same, or 0 if it is a register; and whether it is a register that is fed back. `worst` is the worst level of a path's end when
/// the round began, `worst_ends` how many ends had it, and `weight` the weight of all ends. `changes` tells what a trial changed, `waiting` has
/// the ranks of nodes whose level is to be computed, and `computed` counts those that were, `spent` in all trials of a round.
#[derive(Drop)]
pub struct Levels {
    pub of: Vec<u32>,
    pub given: Vec<u32>,
    pub fed: Vec<bool>,
    pub worst: u32,
    pub worst_ends: u32,
    pub weight: u64,
    pub changes: Vec<Change>,
    pub waiting: BinaryHeap<Reverse<u32>>,
    pub computed: u32,
    pub spent: u32,
}

/// The level at which node y sees node x: what x gives, and one more for a voter between them.
pub fn seen_level(levels: &Levels, parts: &[u32], x: u32, y: u32) -> u32
    ensures apart { slice_index_or parts.now x 0 ≢ slice_index_or parts.now y 0 → result ≡ min (slice_index_or levels.now.given.items x 0 + 1) 4294967295 }
    ensures fed { slice_index_or levels.now.fed.items y false ≡ true → result ≡ min (slice_index_or levels.now.given.items x 0 + 1) 4294967295 }
    ensures inside { slice_index_or parts.now x 0 ≡ slice_index_or parts.now y 0 → slice_index_or levels.now.fed.items y false ≡ false → result ≡ slice_index_or levels.now.given.items x 0 }
{
    let given = at(levels.given.as_slice(), x);
    if at(parts, x) != at(parts, y) || bit(levels.fed.as_slice(), y) {
        given.saturating_add(1)
    } else {
        given
    }
}

/// The highest level at which node y sees a node of a row, where all that it reads comes through voters.
fn most_given(levels: &Levels, row: &[u32]) -> u32 {
    let mut most = 0;
    for x in row {
        most = at(levels.given.as_slice(), *x).saturating_add(1).max(most);
    }
    most
}

/// The same, where voters stand between it and those of other partitions than its own.
fn most_seen(levels: &Levels, parts: &[u32], row: &[u32], own: u32) -> u32 {
    let mut most = 0;
    for x in row {
        let voters = u32::from(at(parts, *x) != own);
        most = at(levels.given.as_slice(), *x)
            .saturating_add(voters)
            .max(most);
    }
    most
}

/// The level of node y, from those of what it reads.
fn computed_level(circuit: &Circuit, levels: &Levels, parts: &[u32], y: u32) -> u32 {
    let row = row(&circuit.sources, y);
    let most = if bit(levels.fed.as_slice(), y) {
        most_given(levels, row)
    } else {
        most_seen(levels, parts, row, at(parts, y))
    };
    if bit(circuit.registers.as_slice(), y) {
        most
    } else {
        most.saturating_add(1)
    }
}

/// How many paths end at node y: at the pin of a register, or at outputs.
pub fn ends_at(circuit: &Circuit, y: u32) -> u32
    ensures { result ≡ (if slice_index_or circuit.now.registers.items y false then 1 else slice_index_or circuit.now.outputs.items y 0) }
{
    if bit(circuit.registers.as_slice(), y) {
        1
    } else {
        at(circuit.outputs.as_slice(), y)
    }
}

/// The weight of so many ends at a level: four times as much for each level more.
fn end_weight(worst: u32, level: u32, ends: u32) -> u64 {
    let above = level.saturating_add(SEEN);
    if ends == 0 || above < worst {
        return 0;
    }
    let turns = (above - worst).min(20);
    let weight = 1u64 << (2 * turns);
    weight.saturating_mul(u64::from(ends))
}

/// Computes all levels, and what is told of their ends.
pub fn compute_all(circuit: &Circuit, levels: &mut Levels, parts: &[u32]) {
    for y in &circuit.order {
        if !bit(circuit.registers.as_slice(), *y) {
            let level = computed_level(circuit, levels, parts, *y);
            put(&mut levels.of, *y, level);
            put(&mut levels.given, *y, level);
        }
    }
    for y in &circuit.ends {
        if bit(circuit.registers.as_slice(), *y) {
            let level = computed_level(circuit, levels, parts, *y);
            put(&mut levels.of, *y, level);
        }
    }
}

/// The worst level of an end.
fn worst_level(circuit: &Circuit, levels: &Levels) -> u32 {
    let mut worst = 0;
    for y in &circuit.ends {
        worst = at(levels.of.as_slice(), *y).max(worst);
    }
    worst
}

/// Finds the worst level of an end, how many ends have it, and the weight of all ends.
pub fn weigh_ends(circuit: &Circuit, levels: &mut Levels) {
    let worst = worst_level(circuit, levels);
    let mut worst_ends: u32 = 0;
    let mut weight: u64 = 0;
    for y in &circuit.ends {
        let level = at(levels.of.as_slice(), *y);
        if level.saturating_add(SEEN) >= worst {
            weight = weight.saturating_add(end_weight(worst, level, ends_at(circuit, *y)));
            worst_ends = worst_ends.saturating_add(u32::from(level == worst));
        }
    }
    levels.worst = worst;
    levels.worst_ends = worst_ends;
    levels.weight = weight;
}

/// The level of node x, and of those that read it, is to be computed.
pub fn wait_for(circuit: &Circuit, levels: &mut Levels, x: u32) -> Result<(), OutOfMemory> {
    levels
        .waiting
        .push(Reverse(at(circuit.ranks.as_slice(), x)))?;
    wait_for_readers(circuit, levels, x)
}

/// The levels of those that read node x are to be computed. Where too many do, the trial ends by what it has computed.
fn wait_for_readers(circuit: &Circuit, levels: &mut Levels, x: u32) -> Result<(), OutOfMemory> {
    let readers = row(&circuit.readers, x);
    if readers.len() > MOST_COMPUTED as usize {
        levels.computed = levels.computed.saturating_add(MOST_COMPUTED);
        return Ok(());
    }
    for y in readers {
        levels
            .waiting
            .push(Reverse(at(circuit.ranks.as_slice(), *y)))?;
    }
    Ok(())
}

/// Node y has this level from now on.
fn set_level(
    circuit: &Circuit,
    levels: &mut Levels,
    y: u32,
    level: u32,
) -> Result<(), OutOfMemory> {
    let was = at(levels.of.as_slice(), y);
    let ends = ends_at(circuit, y);
    levels.changes.push(Change {
        node: y,
        level: was,
    })?;
    put(&mut levels.of, y, level);
    if !bit(circuit.registers.as_slice(), y) {
        put(&mut levels.given, y, level);
    }
    let less = levels
        .weight
        .saturating_sub(end_weight(levels.worst, was, ends));
    levels.weight = less.saturating_add(end_weight(levels.worst, level, ends));
    Ok(())
}

/// Computes the level of node y, and has those that read it wait if it changed.
fn compute_level(
    circuit: &Circuit,
    levels: &mut Levels,
    parts: &[u32],
    y: u32,
) -> Result<(), OutOfMemory> {
    let work = u32::try_from(row(&circuit.sources, y).len() / 8).unwrap_or(u32::MAX);
    levels.computed = levels.computed.saturating_add(work).saturating_add(1);
    let level = computed_level(circuit, levels, parts, y);
    if level == at(levels.of.as_slice(), y) {
        return Ok(());
    }
    set_level(circuit, levels, y, level)?;
    if bit(circuit.registers.as_slice(), y) {
        return Ok(());
    }
    wait_for_readers(circuit, levels, y)
}

/// Computes the levels that are to be computed, those of lower rank first. Says whether that is done; else it would take too long.
pub fn follow(circuit: &Circuit, levels: &mut Levels, parts: &[u32]) -> Result<bool, OutOfMemory> {
    let mut last = u32::MAX;
    for _turn in 0..32 * MOST_COMPUTED {
        let Some(Reverse(rank)) = levels.waiting.pop() else {
            return Ok(levels.computed <= MOST_COMPUTED);
        };
        if rank != last {
            compute_level(circuit, levels, parts, at(circuit.order.as_slice(), rank))?;
            last = rank;
        }
        if levels.computed > MOST_COMPUTED {
            return Ok(false);
        }
    }
    Ok(false)
}

/// The levels of before the trial, and the weight that they had.
pub fn take_back(circuit: &Circuit, levels: &mut Levels, weight: u64) {
    for change in levels.changes.iter().rev() {
        put(&mut levels.of, change.node, change.level);
        if !bit(circuit.registers.as_slice(), change.node) {
            put(&mut levels.given, change.node, change.level);
        }
    }
    levels.weight = weight;
    forget(levels);
}

/// What a trial changed stays.
pub fn forget(levels: &mut Levels)
    ensures of { levels.new.of.items ≡ levels.old.of.items }
    ensures given { levels.new.given.items ≡ levels.old.given.items }
    ensures weight { levels.new.weight ≡ levels.old.weight }
    ensures changes { levels.new.changes.items ≡ [] }
    ensures computed { levels.new.computed ≡ 0 }
    ensures spent { levels.new.spent ≡ min (levels.old.spent + levels.old.computed) 4294967295 }
{
    levels.spent = levels.spent.saturating_add(levels.computed);
    levels.changes.clear();
    levels.waiting.clear();
    levels.computed = 0;
}
