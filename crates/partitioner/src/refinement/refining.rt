//! Passes of moves.
ghost use Rattle.std.specs.Prelude.{◌≡◌, ◌<◌, ◌≤◌, ◌↔◌, ℕ, Bool, true, false, All, length, slice_index, IsTrue, OnOk, IfOk};
ghost use Rattle.tmr_base.specs.Parts.{AreParts};
ghost use Rattle.flat_net.specs.Net.{Net};
ghost use Rattle.partitioner.specs.Cost.{cost};
ghost use Rattle.partitioner.specs.Sizes.{KeepsSize};
ghost use Rattle.partitioner.specs.Reads.{AreReads};
ghost use Rattle.partitioner.specs.Refining.{move, pass, place, refined, IsMinimal};
ghost use Rattle.partitioner.specs.Private.Tracking.{IsPlaced, Tracks, held_parts, placed_parts};
ghost use Rattle.partitioner.specs.Private.Ready.{IsReady};
ghost use Rattle.partitioner.specs.Private.Resting.{Rests};

use crate::costs::ahead::reads_far;
use crate::costs::hints::{Tallies, no_tallies};
use crate::costs::pairs::{cost_by, pairs_in};
use crate::counts::partitioning::{Partitioning, Placed};
use crate::counts::spots::{Spots, shut_full, spots_of};
use crate::counts::tracking::{placed, tracked};
use crate::reading::{Reads, Sources, reads_of};
use crate::refinement::minimal::no_move_helps;
use crate::refinement::moving::move_to;
use crate::refinement::placing::{may_move, part_of, place_of, some_room};
use crate::refinement::resting::{Rest, is_resting, no_rest, note_move, note_rest};
use flat_net::{FlatNet, nodes_of};
use std::alloc::Global;
use tmr_base::{OutOfMemory, Parts};

/// Moves node i to where it goes. Says whether it moved.
///
/// A node that is content is not counted again until something changes near it.
fn move_node(
    n: &FlatNet,
    p: &mut Partitioning,
    spots: &mut Spots,
    tallies: &mut Tallies,
    rest: &mut Rest,
    size: u32,
    i: u32,
) -> Result<bool, OutOfMemory>
    requires ready { IsReady n.now.net size p.old spots.old tallies.old }
    requires rests { Rests n.now.net p.old.of.items rest.old }
    requires node { i < length n.now.net.nodes }
    ensures ready { OnOk result (IsReady n.now.net size p.new spots.new tallies.new) }
    ensures rests { OnOk result (Rests n.now.net p.new.of.items rest.new) }
    ensures parts { OnOk result (held_parts p.new ≡ move n.now.net size (held_parts p.old) i) }
    ensures still { IfOk result (λ moved. moved ≡ false → held_parts p.new ≡ held_parts p.old) }
    ensures stays { IfOk result (λ moved. moved ≡ false → place n.now.net size (held_parts p.old) i ≡ slice_index p.old.of.items i) }
{
    if is_resting(n, p, rest, i) {
        return Ok(false);
    }
    let found = place_of(n, p, spots, tallies, size, i);
    if found.content {
        note_rest(rest, i);
        return Ok(false);
    }
    if found.place == part_of(n, p, i) {
        return Ok(false);
    }
    move_to(n, p, spots, size, i, found.place)?;
    note_move(n, p, rest, i);
    Ok(true)
}

/// One pass over all nodes. Says whether a node moved.
fn pass_once(
    n: &FlatNet,
    p: &mut Partitioning,
    spots: &mut Spots,
    tallies: &mut Tallies,
    rest: &mut Rest,
    size: u32,
) -> Result<bool, OutOfMemory>
    requires ready { IsReady n.now.net size p.old spots.old tallies.old }
    requires rests { Rests n.now.net p.old.of.items rest.old }
    ensures ready { OnOk result (IsReady n.now.net size p.new spots.new tallies.new) }
    ensures rests { OnOk result (Rests n.now.net p.new.of.items rest.new) }
    ensures parts { OnOk result (held_parts p.new ≡ pass n.now.net size (held_parts p.old)) }
    ensures still { IfOk result (λ moved. moved ≡ false → held_parts p.new ≡ held_parts p.old) }
    ensures minimal { IfOk result (λ moved. moved ≡ false → IsMinimal n.now.net size (held_parts p.new)) }
{
    if !some_room(n, p, size) {
        return Ok(false);
    }
    let mut moved = false;
    for i in 0..nodes_of(n) {
        if move_node(n, p, spots, tallies, rest, size, i)? {
            moved = true;
        }
    }
    Ok(moved)
}

/// So many passes, ended after a pass without moves. Says whether they ended so.
fn pass_often(
    n: &FlatNet,
    p: &mut Partitioning,
    spots: &mut Spots,
    tallies: &mut Tallies,
    rest: &mut Rest,
    size: u32,
    passes: u32,
) -> Result<bool, OutOfMemory>
    requires ready { IsReady n.now.net size p.old spots.old tallies.old }
    requires rests { Rests n.now.net p.old.of.items rest.old }
    ensures ready { OnOk result (IsReady n.now.net size p.new spots.new tallies.new) }
    ensures rests { OnOk result (Rests n.now.net p.new.of.items rest.new) }
    ensures parts { OnOk result (held_parts p.new ≡ refined n.now.net size (held_parts p.old) passes) }
    ensures minimal { IfOk result (λ settled. settled ≡ true → IsMinimal n.now.net size (held_parts p.new)) }
{
    let mut left = passes;
    while left > 0 {
        if !pass_once(n, p, spots, tallies, rest, size)? {
            return Ok(true);
        }
        left -= 1;
    }
    Ok(false)
}

/// What passes of moves leave beside the parts, and whether the last one moved no node.
#[derive(Drop)]
struct Passed {
    spots: Spots,
    tallies: Tallies,
    settled: bool,
}

/// So many passes of moves, with what is kept beside them.
fn pass_all(
    alloc: Global,
    n: &FlatNet,
    p: &mut Partitioning,
    size: u32,
    passes: u32,
) -> Result<Passed, OutOfMemory>
    requires { Tracks n.now.net p.old }
    ensures ready { IfOk result (λ passed. IsReady n.now.net size p.new passed.spots passed.tallies) }
    ensures parts { OnOk result (held_parts p.new ≡ refined n.now.net size (held_parts p.old) passes) }
    ensures minimal { IfOk result (λ passed. passed.settled ≡ true → IsMinimal n.now.net size (held_parts p.new)) }
{
    let mut spots = spots_of(alloc, n, p)?;
    shut_full(n, p, &mut spots, size);
    let mut tallies = no_tallies(alloc, p.count, reads_far(n, p))?;
    let mut rest = no_rest(alloc, n)?;
    let settled = pass_often(n, p, &mut spots, &mut tallies, &mut rest, size, passes)?;
    Ok(Passed {
        spots,
        tallies,
        settled,
    })
}

/// What refining gives: the parts, what they cost and what those did that were given, and whether no single
/// move of a node to a partition with room lowers the cost further.
#[derive(Drop)]
pub struct Refined {
    pub parts: Parts,
    pub cost: u64,
    pub before: u64,
    pub minimal: bool,
}

/// The same, with what was looked up of the design, for the next partitions of it.
#[derive(Drop)]
pub struct RefinedFrom {
    pub refined: Refined,
    pub reads: Reads,
}

/// What refining gives where no node can move.
fn unmoved(placed: Placed, before: u64) -> RefinedFrom
    requires few { length placed.of.items < 4294967295 }
    requires in_range { All (λ q. q < placed.count) placed.of.items }
    ensures parts { result.refined.parts ≡ placed_parts placed }
    ensures range { AreParts result.refined.parts }
    ensures cost { result.refined.cost ≡ before }
    ensures before { result.refined.before ≡ before }
    ensures minimal { result.refined.minimal ≡ true }
    ensures reads { result.reads ≡ placed.reads }
{
    let Placed {
        count,
        of,
        reads,
        ..
    } = placed;
    let refined = Refined {
        parts: Parts::make(count, of),
        cost: before,
        before,
        minimal: true,
    };
    RefinedFrom { refined, reads }
}

/// What the parts cost after so many passes: after none what they did before, which is not counted anew.
fn cost_after(
    alloc: Global,
    n: &FlatNet,
    p: &Partitioning,
    before: u64,
    passes: u32,
) -> Result<u64, OutOfMemory>
    requires tracks { Tracks n.now.net p.now }
    requires before { passes ≡ 0 → before ≡ cost n.now.net (held_parts p.now) }
    ensures { IfOk result (λ pairs. pairs ≡ cost n.now.net (held_parts p.now)) }
{
    if passes == 0 {
        return Ok(before);
    }
    pairs_in(alloc, n, &p.readers, p.count, p.of.as_slice())
}

/// What refining gives, from where the nodes stand and what that costs.
#[tactic(auto, using(crate::proofs::RefineLaws::refined_zero))]
fn refine_placed(
    alloc: Global,
    n: &FlatNet,
    placed: Placed,
    before: u64,
    size: u32,
    passes: u32,
) -> Result<RefinedFrom, OutOfMemory>
    requires placed { IsPlaced n.now.net placed }
    requires before { before ≡ cost n.now.net (placed_parts placed) }
    ensures exact { IfOk result (λ r. r.refined.parts ≡ refined n.now.net size (placed_parts placed) passes) }
    ensures range { IfOk result (λ r. AreParts r.refined.parts) }
    ensures cost { IfOk result (λ r. r.refined.cost ≡ cost n.now.net r.refined.parts) }
    ensures before { IfOk result (λ r. r.refined.before ≡ before) }
    ensures minimal { IfOk result (λ r. IsTrue r.refined.minimal ↔ IsMinimal n.now.net size r.refined.parts) }
    ensures reads { IfOk result (λ r. AreReads n.now.net r.reads) }
{
    let mut p = tracked(alloc, n, placed)?;
    let mut done = pass_all(alloc, n, &mut p, size, passes)?;
    let cost = cost_after(alloc, n, &p, before, passes)?;
    let minimal = no_move_helps(n, &p, &done.spots, &mut done.tallies, size, done.settled);
    let Partitioning {
        count,
        of,
        readers,
        sources: rows,
        wide,
        ..
    } = p;
    let refined = Refined {
        parts: Parts::make(count, of),
        cost,
        before,
        minimal,
    };
    let sources = Some(Sources { rows, wide });
    let reads = Reads { readers, sources };
    Ok(RefinedFrom { refined, reads })
}

/// The same as `refine_from`, where it is known what the parts cost.
pub fn refine_known(
    alloc: Global,
    n: &FlatNet,
    reads: Reads,
    parts: &Parts,
    size: u32,
    passes: u32,
    before: u64,
) -> Result<RefinedFrom, OutOfMemory>
    requires size { 0 < size }
    requires reads { AreReads n.now.net reads }
    requires parts { KeepsSize n.now.net size parts.now }
    requires before { before ≡ cost n.now.net parts.now }
    ensures exact { IfOk result (λ r. r.refined.parts ≡ refined n.now.net size parts.now passes) }
    ensures range { IfOk result (λ r. AreParts r.refined.parts) }
    ensures cost { IfOk result (λ r. r.refined.cost ≡ cost n.now.net r.refined.parts) }
    ensures before { IfOk result (λ r. r.refined.before ≡ before) }
    ensures minimal { IfOk result (λ r. IsTrue r.refined.minimal ↔ IsMinimal n.now.net size r.refined.parts) }
    ensures reads { IfOk result (λ r. AreReads n.now.net r.reads) }
{
    let start = placed(alloc, n, reads, parts)?;
    if !may_move(n, &start, size) {
        return Ok(unmoved(start, before));
    }
    let refined = refine_placed(alloc, n, start, before, size, passes)?;
    Ok(refined)
}

/// The parts of `refine`, and what `cost` and `is_minimal` tell of them, from what is looked up of the design. It comes back for the next
/// partitions of the same design.
pub fn refine_from(
    alloc: Global,
    n: &FlatNet,
    reads: Reads,
    parts: &Parts,
    size: u32,
    passes: u32,
) -> Result<RefinedFrom, OutOfMemory>
    requires size { 0 < size }
    requires reads { AreReads n.now.net reads }
    requires parts { KeepsSize n.now.net size parts.now }
    ensures exact { IfOk result (λ r. r.refined.parts ≡ refined n.now.net size parts.now passes) }
    ensures range { IfOk result (λ r. AreParts r.refined.parts) }
    ensures cost { IfOk result (λ r. r.refined.cost ≡ cost n.now.net r.refined.parts) }
    ensures before { IfOk result (λ r. r.refined.before ≡ cost n.now.net parts.now) }
    ensures minimal { IfOk result (λ r. IsTrue r.refined.minimal ↔ IsMinimal n.now.net size r.refined.parts) }
    ensures reads { IfOk result (λ r. AreReads n.now.net r.reads) }
{
    let before = cost_by(alloc, n, &reads.readers, parts)?;
    let refined = refine_known(alloc, n, reads, parts, size, passes, before)?;
    Ok(refined)
}

/// The parts of `refine`, and what `cost` and `is_minimal` tell of them, from one reading of the design.
pub fn refine_counted(
    alloc: Global,
    n: &FlatNet,
    parts: &Parts,
    size: u32,
    passes: u32,
) -> Result<Refined, OutOfMemory>
    requires size { 0 < size }
    requires parts { KeepsSize n.now.net size parts.now }
    ensures exact { IfOk result (λ r. r.parts ≡ refined n.now.net size parts.now passes) }
    ensures range { IfOk result (λ r. AreParts r.parts) }
    ensures cost { IfOk result (λ r. r.cost ≡ cost n.now.net r.parts) }
    ensures before { IfOk result (λ r. r.before ≡ cost n.now.net parts.now) }
    ensures minimal { IfOk result (λ r. IsTrue r.minimal ↔ IsMinimal n.now.net size r.parts) }
{
    let reads = reads_of(alloc, n)?;
    let found = refine_from(alloc, n, reads, parts, size, passes)?;
    Ok(found.refined)
}

/// The parts after so many passes of moves, in each of which every node in turn goes to the partition
/// with room where the cost is lowest, the first of several, if that is lower than now.
///
/// `parts` keeps the rule of sizes, and so does what comes out, which never costs more. After want of
/// memory the given parts are dropped.
pub fn refine(
    alloc: Global,
    n: &FlatNet,
    parts: Parts,
    size: u32,
    passes: u32,
) -> Result<Parts, OutOfMemory>
    requires size { 0 < size }
    requires parts { KeepsSize n.now.net size parts }
    ensures exact { IfOk result (λ after. after ≡ refined n.now.net size parts passes) }
    ensures size { IfOk result (λ after. KeepsSize n.now.net size after) }
    ensures cost { IfOk result (λ after. cost n.now.net after ≤ cost n.now.net parts) }
{
    let refined = refine_counted(alloc, n, &parts, size, passes)?;
    Ok(refined.parts)
}
