//! Whether a single move lowers the cost.
ghost use Rattle.std.specs.Prelude.{◌≡◌, ◌<◌, ◌↔◌, ℕ, true, length, IsTrue, IfOk};
ghost use Rattle.partitioner.specs.Sizes.{KeepsSize};
ghost use Rattle.partitioner.specs.Refining.{IsMinimal};
ghost use Rattle.partitioner.specs.Private.Tracking.{held_parts};
ghost use Rattle.partitioner.specs.Private.Ready.{IsReady};

use crate::costs::ahead::reads_far;
use crate::costs::hints::{Tallies, no_tallies};
use crate::counts::partitioning::Partitioning;
use crate::counts::spots::{Spots, shut_full, spots_of};
use crate::counts::tracking::track;
use crate::refinement::placing::{part_of, place_of, some_room};
use flat_net::{FlatNet, nodes_of};
use std::alloc::Global;
use tmr_base::{OutOfMemory, Parts};

/// Each node goes to where it stands.
fn all_stay(n: &FlatNet, p: &Partitioning, spots: &Spots, tallies: &mut Tallies, size: u32) -> bool
    requires ready { IsReady n.now.net size p.now spots.now tallies.old }
    ensures { IsTrue result ↔ IsMinimal n.now.net size (held_parts p.now) }
{
    if !some_room(n, p, size) {
        return true;
    }
    for i in 0..nodes_of(n) {
        if place_of(n, p, spots, tallies, size, i).place != part_of(n, p, i) {
            return false;
        }
    }
    true
}

/// The same, where it may be known already: a pass that moved no node tried them all.
pub fn no_move_helps(
    n: &FlatNet,
    p: &Partitioning,
    spots: &Spots,
    tallies: &mut Tallies,
    size: u32,
    settled: bool,
) -> bool
    requires ready { IsReady n.now.net size p.now spots.now tallies.old }
    requires settled { settled ≡ true → IsMinimal n.now.net size (held_parts p.now) }
    ensures { IsTrue result ↔ IsMinimal n.now.net size (held_parts p.now) }
{
    if settled {
        return true;
    }
    all_stay(n, p, spots, tallies, size)
}

/// No single node moved to a partition with room lowers the cost. `parts` keeps the rule of sizes.
pub fn is_minimal(alloc: Global, n: &FlatNet, parts: &Parts, size: u32) -> Result<bool, OutOfMemory>
    requires size { 0 < size }
    requires parts { KeepsSize n.now.net size parts.now }
    ensures { IfOk result (λ minimal. IsTrue minimal ↔ IsMinimal n.now.net size parts.now) }
{
    let p = track(alloc, n, parts)?;
    let mut spots = spots_of(alloc, n, &p)?;
    shut_full(n, &p, &mut spots, size);
    let mut tallies = no_tallies(alloc, p.count, reads_far(n, &p))?;
    Ok(all_stay(n, &p, &spots, &mut tallies, size))
}
