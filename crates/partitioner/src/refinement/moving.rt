//! The move of one node.
ghost use Rattle.std.specs.Prelude.{◌≡◌, ◌≢◌, ◌<◌, ◌≤◌, ◌==◌, ◌+◌, ◌-◌, ℕ, All, length, slice_index, slice_set, count_by, OnOk};
ghost use Rattle.flat_net.specs.Net.{Net};
ghost use Rattle.node_reads.specs.Private.Marking.{marked_by_row};
ghost use Rattle.partitioner.specs.Private.Counting.{count_at};
ghost use Rattle.partitioner.specs.Refining.{put};
ghost use Rattle.partitioner.specs.Private.Tracking.{Tracks, held_parts};
ghost use Rattle.partitioner.specs.Private.Moving.{Shifts};
ghost use Rattle.partitioner.specs.Private.Spotting.{AreSpots};

use crate::counts::counting::{count_at, set_count};
use crate::counts::marking::{mark_row, unmark_left};
use crate::counts::partitioning::Partitioning;
use crate::counts::spots::{Spots, leave_spots, note_spots, open_spots, shut_spots};
use crate::refinement::placing::{has_room, part_of};
use flat_net::{FlatNet, nodes_of};
use std::collections::HashMap;
use tmr_base::OutOfMemory;

/// Counts one reader of each node of the row in partition b, and no longer in a.
fn shift_counts(
    counts: &mut HashMap<(u32, u32), u32>,
    row: &[u32],
    a: u32,
    b: u32,
) -> Result<(), OutOfMemory>
    requires apart { a ≢ b }
    requires once { All (λ x. count_by (λ y. y == x) row.now ≤ 1) row.now }
    requires counted { All (λ x. 0 < count_at counts.old x a) row.now }
    requires few { All (λ x. count_at counts.old x b < 4294967295) row.now }
    ensures { OnOk result (Shifts (count_at counts.old) (count_at counts.new) (marked_by_row row.now (length row.now)) a b) }
{
    for x in row {
        let here = count_at(counts, *x, a);
        let there = count_at(counts, *x, b);
        set_count(counts, *x, a, here - 1)?;
        set_count(counts, *x, b, there + 1)?;
    }
    Ok(())
}

/// Counts one node in partition b, and no longer in a.
fn shift_held(held: &mut Vec<u32>, a: u32, b: u32)
    requires a { a < length held.old.items }
    requires b { b < length held.old.items }
    requires apart { a ≢ b }
    requires some { 0 < slice_index held.old.items a }
    requires few { slice_index held.old.items b < 4294967295 }
    ensures { held.new.items ≡ slice_set (slice_set held.old.items a (slice_index held.old.items a - 1)) b (slice_index held.old.items b + 1) }
{
    held[a as usize] -= 1;
    held[b as usize] += 1;
}

/// Puts node i into partition b, which it is not in.
fn put_node(n: &FlatNet, p: &mut Partitioning, i: u32, b: u32) -> Result<(), OutOfMemory>
    requires tracks { Tracks n.now.net p.old }
    requires node { i < length n.now.net.nodes }
    requires partition { b < p.old.count }
    requires apart { slice_index p.old.of.items i ≢ b }
    ensures tracks { OnOk result (Tracks n.now.net p.new) }
    ensures parts { OnOk result (held_parts p.new ≡ put (held_parts p.old) i b) }
{
    let a = part_of(n, p, i);
    shift_counts(&mut p.counts, p.wide.row(i), a, b)?;
    shift_held(&mut p.held, a, b);
    p.of[i as usize] = b;
    p.marks.mark(i, b);
    mark_row(&mut p.marks, p.wide.row(i), b);
    Ok(())
}

/// Moves node i to partition b, which it is not in.
pub fn move_to(
    n: &FlatNet,
    p: &mut Partitioning,
    spots: &mut Spots,
    size: u32,
    i: u32,
    b: u32,
) -> Result<(), OutOfMemory>
    requires tracks { Tracks n.now.net p.old }
    requires spots { AreSpots n.now.net size (held_parts p.old) spots.old }
    requires node { i < length n.now.net.nodes }
    requires partition { b < p.old.count }
    requires apart { slice_index p.old.of.items i ≢ b }
    ensures tracks { OnOk result (Tracks n.now.net p.new) }
    ensures spots { OnOk result (AreSpots n.now.net size (held_parts p.new) spots.new) }
    ensures parts { OnOk result (held_parts p.new ≡ put (held_parts p.old) i b) }
{
    let nodes = nodes_of(n);
    let a = part_of(n, p, i);
    let was_full = !has_room(n, p, size, a);
    put_node(n, p, i, b)?;
    note_spots(spots, p.wide.row(i), b)?;
    open_spots(&mut spots.free, &spots.nets, a, nodes, was_full)?;
    let is_full = !has_room(n, p, size, b);
    shut_spots(&mut spots.free, &spots.nets, b, nodes, is_full);
    leave_spots(n, p, spots, size, p.wide.row(i), a);
    unmark_left(n, p, i, a);
    Ok(())
}
