//! Partitions made of clusters.
ghost use Rattle.std.specs.Prelude.{◌≡◌, ◌<◌, ◌≤◌, ℕ, Some, length, slice_get, take, IfOk};
ghost use Rattle.clustering.specs.declared.levels.Level.{Level};
ghost use Rattle.partitioner.specs.Sizes.{KeepsSize};

use crate::effort::{most_on_level, passes_for};
use crate::filling::filled;
use crate::joining::join_groups;
use crate::levels::{Level, level_above, lowest_level};
use crate::moving::move_groups;
use crate::numbers::at;
use crate::settling::settled_parts;
use flat_net::{FlatNet, nodes_of};
use graph::Graph;
use node_reads::packed_readers_of;
use std::alloc::Global;
use tmr_base::{OutOfMemory, Parts};

/// At most so many levels stand on the lowest.
const MOST_LEVELS: u32 = 16;

/// The level above, if it has at least one in twenty groups fewer. Its groups hold at most `most` nodes, and at most `own`, which hangs on no
/// size: it is the same for each size that allows so many.
fn next_level(
    alloc: Global,
    level: &Level,
    most: u32,
    own: u32,
) -> Result<Option<Level>, OutOfMemory> {
    let joined = join_groups(alloc, level, most.min(own))?;
    let groups = level.sizes.len();
    if joined.of.count as usize >= groups - groups / 20 {
        return Ok(None);
    }
    let above = level_above(alloc, level, joined, own)?;
    Ok(Some(above))
}

/// Puts the level above the last one behind it, if there is one. Says whether there is.
fn push_level(
    alloc: Global,
    levels: &mut Vec<Level>,
    nodes: u32,
    most: u32,
) -> Result<bool, OutOfMemory> {
    let own = most_on_level(nodes, levels.len());
    let Some(last) = levels.last() else {
        return Ok(false);
    };
    let Some(above) = next_level(alloc, last, most, own)? else {
        return Ok(false);
    };
    levels.push(above)?;
    Ok(true)
}

/// How many levels, from the lowest up, would be the same where groups of at most `most` nodes are joined.
fn same_levels(levels: &[Level], most: u32) -> usize
    ensures within { result ≤ length levels.now }
    ensures same { (k : ℕ) (level : Level) → k < result → slice_get levels.now k ≡ Some level → level.weighed ≤ most }
    ensures end { (level : Level) → slice_get levels.now result ≡ Some level → most < level.weighed }
{
    for k in 0..levels.len() {
        if levels[k].weighed > most {
            return k;
        }
    }
    levels.len()
}

/// Leaves these levels alone.
#[tactic(auto, using(crate::proofs::RowLaws::taken_long))]
fn keep_levels(levels: &mut Vec<Level>, most: u32)
    ensures kept { levels.new.items ≡ take (length levels.new.items) levels.old.items }
    ensures end { (level : Level) → slice_get levels.old.items (length levels.new.items) ≡ Some level → most < level.weighed }
    ensures same { (k : ℕ) (level : Level) → slice_get levels.new.items k ≡ Some level → level.weighed ≤ most }
{
    let kept = same_levels(levels.as_slice(), most);
    levels.truncate(kept);
}

/// Puts all levels, of groups of at most `most` nodes, behind those that are there.
fn add_levels(
    alloc: Global,
    levels: &mut Vec<Level>,
    nodes: u32,
    most: u32,
) -> Result<(), OutOfMemory> {
    for made in 0..MOST_LEVELS {
        let _made = made;
        if levels.len() > MOST_LEVELS as usize || !push_level(alloc, levels, nodes, most)? {
            return Ok(());
        }
    }
    Ok(())
}

/// The lowest level, from which clusters are made. `readers` has for each node the others that read it.
pub fn levels_of(alloc: Global, n: &FlatNet, readers: &Graph) -> Result<Vec<Level>, OutOfMemory>
    ensures { IfOk result (λ levels. length levels.items ≡ 1) }
{
    let mut levels = Vec::new(alloc);
    levels.push(lowest_level(alloc, n, readers)?)?;
    Ok(levels)
}

/// The partitions of the groups of a level for those of the level below.
fn handed_down(alloc: Global, below: &[u32], of: &[u32]) -> Result<Vec<u32>, OutOfMemory> {
    let mut lower = Vec::with_capacity(alloc, below.len())?;
    for g in below {
        lower.push(at(of, *g))?;
    }
    Ok(lower)
}

/// The partitions of the nodes: the groups of the highest level fill them, and those of each level move in so many passes.
fn wanted(
    alloc: Global,
    levels: &[Level],
    size: u32,
    parts: u32,
    passes: u32,
) -> Result<Vec<u32>, OutOfMemory> {
    let room = size.saturating_add(size / 4);
    let mut of = Vec::new(alloc);
    if let Some(highest) = levels.last() {
        of = filled(alloc, highest, size)?;
    }
    for k in 1..levels.len() {
        let level = &levels[levels.len() - k];
        move_groups(alloc, level, &mut of, parts, room, passes)?;
        of = handed_down(alloc, level.below.as_slice(), of.as_slice())?;
    }
    Ok(of)
}

/// Partitions made of clusters: nodes that nets tie together stand in one partition, as far as the rule of sizes lets them. Which they
/// are is no clause: `refine` makes them better, and the cost tells how good they are.
pub fn clusters(alloc: Global, n: &FlatNet, size: u32) -> Result<Parts, OutOfMemory>
    requires { 0 < size }
    ensures { IfOk result (λ parts. KeepsSize n.now.net size parts) }
{
    let readers = packed_readers_of(alloc, n)?;
    let mut levels = levels_of(alloc, n, &readers)?;
    let parts = clusters_from(alloc, n, &mut levels, size)?;
    Ok(parts)
}

/// The same from levels that `levels_of` gave, or that an earlier call left. It leaves those levels that hang on no size: no group was too
/// large to be joined there, so they are the same for a size that is no smaller.
pub fn clusters_from(
    alloc: Global,
    n: &FlatNet,
    levels: &mut Vec<Level>,
    size: u32,
) -> Result<Parts, OutOfMemory>
    requires { 0 < size }
    ensures { IfOk result (λ parts. KeepsSize n.now.net size parts) }
{
    let nodes = nodes_of(n);
    let most = size / 4;
    keep_levels(levels, most);
    add_levels(alloc, levels, nodes, most)?;
    let wanted = wanted(
        alloc,
        levels.as_slice(),
        size,
        nodes.div_ceil(size),
        passes_for(nodes),
    )?;
    keep_levels(levels, most);
    let parts = settled_parts(alloc, n, wanted.as_slice(), size)?;
    Ok(parts)
}
