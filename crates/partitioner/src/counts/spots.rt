//! In which partitions wide nodes are read.
ghost use Rattle.std.specs.Prelude.{◌≡◌, ◌<◌, ◌≤◌, ◌==◌, ℕ, Bool, true, [], All, List, length, slice_index, slice_index_or, IfOk, OnOk};
ghost use Rattle.flat_net.specs.Net.{Net};
ghost use Rattle.node_reads.specs.Sources.{reads_other, is_wide};
ghost use Rattle.node_reads.specs.Private.Marking.{marked_by_row};
ghost use Rattle.partitioner.specs.Private.Sets.{has};
ghost use Rattle.partitioner.specs.Private.Tracking.{Tracks, held_parts};
ghost use Rattle.partitioner.specs.Private.Spotting.{AreSpots, KeepsSpots};

use crate::counts::counting::count_at;
use crate::counts::partitioning::Partitioning;
use crate::counts::runs::run_end;
use crate::counts::sets::Sets;
use crate::refinement::placing::{has_room, part_of};
use flat_net::{FlatNet, nodes_of};
use node_reads::is_wide;
use std::alloc::Global;
use tmr_base::OutOfMemory;

/// For each wide node the partitions with room in which some node reads it, and for each partition the
/// wide nodes that are read in it. Both may hold more, which costs time alone.
#[derive(Drop)]
pub struct Spots {
    pub free: Sets,
    pub nets: Sets,
}

/// Notes that node x is read in partition q.
fn note_spot(spots: &mut Spots, x: u32, q: u32) -> Result<(), OutOfMemory>
    requires node { x < length spots.old.free }
    requires partition { q < length spots.old.nets }
    ensures kept { OnOk result (KeepsSpots spots.old spots.new) }
    ensures free { OnOk result (has spots.new.free x q ≡ true) }
    ensures nets { OnOk result (has spots.new.nets q x ≡ true) }
{
    spots.free.insert(x, q)?;
    spots.nets.insert(q, x)?;
    Ok(())
}

/// Notes that each node of the row is read in partition q.
pub fn note_spots(spots: &mut Spots, row: &[u32], q: u32) -> Result<(), OutOfMemory>
    requires row { All (λ x. x < length spots.old.free) row.now }
    requires partition { q < length spots.old.nets }
    ensures kept { OnOk result (KeepsSpots spots.old spots.new) }
    ensures free { OnOk result (All (λ x. has spots.new.free x q ≡ true) row.now) }
    ensures nets { OnOk result (All (λ x. has spots.new.nets q x ≡ true) row.now) }
{
    for x in row {
        note_spot(spots, *x, q)?;
    }
    Ok(())
}

/// Opens partition q, where it was full, to the nodes that are read in it.
pub fn open_spots(
    free: &mut Sets,
    nets: &Sets,
    q: u32,
    nodes: u32,
    was_full: bool,
) -> Result<(), OutOfMemory>
    requires nodes { nodes ≤ length free.old }
    requires partition { q < length nets.now }
    ensures long { OnOk result (length free.new ≡ length free.old) }
    ensures kept { OnOk result ((z r : ℕ) → has free.old z r ≡ true → has free.new z r ≡ true) }
    ensures opened { OnOk result (was_full ≡ true → (x : ℕ) → x < nodes → has nets.now q x ≡ true → has free.new x q ≡ true) }
{
    if !was_full {
        return Ok(());
    }
    for x in nets.set(q).iter() {
        if *x < nodes {
            free.insert(*x, q)?;
        }
    }
    Ok(())
}

/// Shuts partition q, where it is full, to the nodes that are read in it.
pub fn shut_spots(free: &mut Sets, nets: &Sets, q: u32, nodes: u32, is_full: bool)
    requires nodes { nodes ≤ length free.old }
    requires partition { q < length nets.now }
    ensures long { length free.new ≡ length free.old }
    ensures kept { (z r : ℕ) → (is_full ≡ true → q ≡ r → ⊥) → has free.old z r ≡ true → has free.new z r ≡ true }
{
    if !is_full {
        return;
    }
    for x in nets.set(q).iter() {
        if *x < nodes {
            free.remove(*x, q);
        }
    }
}

/// Takes partition q from the nodes of the row that are no longer read in it.
pub fn leave_spots(n: &FlatNet, p: &Partitioning, spots: &mut Spots, size: u32, row: &[u32], q: u32)
    requires tracks { Tracks n.now.net p.now }
    requires spots { AreSpots n.now.net size (held_parts p.now) spots.old }
    requires row { All (λ x. x < length n.now.net.nodes) row.now }
    requires wide { All (λ x. is_wide n.now.net x ≡ true) row.now }
    requires partition { q < p.now.count }
    ensures { AreSpots n.now.net size (held_parts p.now) spots.new }
{
    for x in row {
        if count_at(&p.counts, *x, q) == 0 {
            spots.free.remove(*x, q);
            spots.nets.remove(q, *x);
        }
    }
}

/// Shuts all full partitions.
pub fn shut_full(n: &FlatNet, p: &Partitioning, spots: &mut Spots, size: u32)
    requires tracks { Tracks n.now.net p.now }
    requires spots { AreSpots n.now.net size (held_parts p.now) spots.old }
    ensures { AreSpots n.now.net size (held_parts p.now) spots.new }
{
    let nodes = nodes_of(n);
    for q in 0..p.count {
        let is_full = !has_room(n, p, size, q);
        shut_spots(&mut spots.free, &spots.nets, q, nodes, is_full);
    }
}

/// Notes that node x is read where the nodes of the row stand, once for those that stand next to one another in one partition.
fn note_readers(
    n: &FlatNet,
    p: &Partitioning,
    spots: &mut Spots,
    x: u32,
    row: &[u32],
) -> Result<(), OutOfMemory>
    requires tracks { Tracks n.now.net p.now }
    requires node { x < length spots.old.free }
    requires partitions { p.now.count ≤ length spots.old.nets }
    requires row { All (λ y. y < length n.now.net.nodes) row.now }
    ensures kept { OnOk result (KeepsSpots spots.old spots.new) }
    ensures free { OnOk result (All (λ y. has spots.new.free x (slice_index p.now.of.items y) ≡ true) row.now) }
    ensures nets { OnOk result (All (λ y. has spots.new.nets (slice_index p.now.of.items y) x ≡ true) row.now) }
{
    let mut first = 0;
    while first < row.len() {
        let q = part_of(n, p, row[first]);
        note_spot(spots, x, q)?;
        first = run_end(p.of.as_slice(), row, first + 1, q);
    }
    Ok(())
}

/// Where the readers of all wide nodes stand, as if each partition had room.
pub fn spots_of(alloc: Global, n: &FlatNet, p: &Partitioning) -> Result<Spots, OutOfMemory>
    requires { Tracks n.now.net p.now }
    ensures { IfOk result (λ spots. (size : ℕ) → AreSpots n.now.net size (held_parts p.now) spots) }
{
    let nodes = nodes_of(n);
    let free = Sets::empty(alloc, nodes)?;
    let nets = Sets::empty(alloc, p.count)?;
    let mut spots = Spots { free, nets };
    for x in 0..nodes {
        if is_wide(n, &p.readers, x) {
            note_readers(n, p, &mut spots, x, p.readers.row(x))?;
        }
    }
    Ok(spots)
}
