//! Levels of groups of nodes, each made of the groups of the level below.
ghost use Rattle.std.specs.Prelude.{◌≡◌, length, min, replicate, IfOk, OnOk};

use crate::joining::Joined;
use crate::numberings::Numbering;
use crate::numbers::{at, count, raise, row, row_count};
use flat_net::{FlatNet, nodes_of};
use graph::Graph;
use node_reads::Notes;
use std::alloc::Global;
use tmr_base::OutOfMemory;

/// Nets that touch more groups are not followed: they stand in most partitions whatever is done. This is wide enough for a net that
/// all bits of a word of 64 read.
pub const MOST_FOLLOWED: usize = 72;

/// The groups of one level. A net is one node's; it touches the group that holds the node and those that hold its readers. `below` has
/// the group of each group of the level below. On the lowest level each node is a group. `weighed` tells how many nodes the largest cluster
/// holds that was weighed as groups of the level below were joined, or how many it may hold on this level, if that is fewer: they are joined
/// so for each limit that is no smaller.
#[derive(Drop)]
pub struct Level {
    pub weighed: u32,
    pub below: Vec<u32>,
    pub sizes: Vec<u32>,
    pub nets: Graph,
    pub nets_of: Graph,
}

#[tactic(auto, using(crate::proofs::RowLaws::noted_length))]
/// Notes x in the rows of the groups that hold a row's numbers.
fn note_groups(
    notes: &mut Notes,
    of: &[u32],
    groups: u32,
    row: &[u32],
    x: u32,
) -> Result<(), OutOfMemory>
    requires { length notes.old ≡ groups }
    ensures { OnOk result (length notes.new ≡ groups) }
{
    for y in row {
        let group = at(of, *y);
        if group < groups {
            notes.note(group, x)?;
        }
    }
    Ok(())
}

/// For each of so many groups the rows that have a number of the group, in ascending order. `of` has the group of each number. Rows of
/// fewer than `least` numbers are left out.
fn rows_by_group(
    alloc: Global,
    rows: &Graph,
    least: usize,
    of: &[u32],
    groups: u32,
) -> Result<Graph, OutOfMemory> {
    let mut notes = Notes::empty(alloc, groups, 0)?;
    for x in 0..row_count(rows) {
        let row = row(rows, x);
        if row.len() >= least {
            note_groups(&mut notes, of, groups, row, x)?;
        }
    }
    notes.packed(alloc)
}

/// For each number below `count` the rows that have it, in ascending order.
fn turned(alloc: Global, rows: &Graph, count: u32) -> Result<Graph, OutOfMemory> {
    let own: Vec<u32> = (0..count).collect(alloc)?;
    rows_by_group(alloc, rows, 0, own.as_slice(), count)
}

/// For each node the node itself and the others that read it.
fn net_rows(alloc: Global, n: &FlatNet, readers: &Graph) -> Result<Graph, OutOfMemory> {
    let mut nets = Graph::with_room(alloc, readers.count(), 0)?;
    let mut net = Vec::new(alloc);
    for x in 0..nodes_of(n) {
        net.clear();
        net.push(x)?;
        net.extend_from_slice(row(readers, x))?;
        nets.push(&net)?;
    }
    Ok(nets)
}

/// The lowest level: each node is a group. `readers` has for each node the others that read it.
pub fn lowest_level(alloc: Global, n: &FlatNet, readers: &Graph) -> Result<Level, OutOfMemory>
    ensures weighed { IfOk result (λ level. level.weighed ≡ 0) }
    ensures sizes { IfOk result (λ level. level.sizes.items ≡ replicate (length n.now.net.nodes) 1) }
{
    let nodes = nodes_of(n);
    let sizes = vec![in alloc; 1u32; nodes as usize]?;
    let nets = net_rows(alloc, n, readers)?;
    let nets_of = turned(alloc, &nets, nodes)?;
    Ok(Level {
        weighed: 0,
        below: Vec::new(alloc),
        sizes,
        nets,
        nets_of,
    })
}

/// How many nodes joined groups hold.
fn joined_sizes(alloc: Global, sizes: &[u32], joined: &Numbering) -> Result<Vec<u32>, OutOfMemory> {
    let mut together = vec![in alloc; 0u32; joined.count as usize]?;
    for v in 0..count(sizes) {
        raise(&mut together, at(joined.of.as_slice(), v), at(sizes, v));
    }
    Ok(together)
}

/// The level above, whose groups are these joined so, where none was to hold more than `own` nodes for any limit. A net that touches one group
/// of this level alone is left out there.
pub fn level_above(
    alloc: Global,
    level: &Level,
    joined: Joined,
    own: u32,
) -> Result<Level, OutOfMemory>
    ensures weighed { IfOk result (λ above. above.weighed ≡ min joined.weighed own) }
    ensures below { IfOk result (λ above. above.below.items ≡ joined.of.of.items) }
{
    let Joined {
        of: joined,
        weighed,
    } = joined;
    let sizes = joined_sizes(alloc, level.sizes.as_slice(), &joined)?;
    let nets_of = rows_by_group(alloc, &level.nets, 2, joined.of.as_slice(), joined.count)?;
    let nets = turned(alloc, &nets_of, row_count(&level.nets))?;
    Ok(Level {
        weighed: weighed.min(own),
        below: joined.of,
        sizes,
        nets,
        nets_of,
    })
}
