//! For each net the partitions that need a voter of it, and which of these voters each pin reads.
ghost use Rattle.std.specs.Prelude.{◌≡◌, ◌+◌, ◌<◌, ◌≤◌, ◌⊎◌, ℕ, [], length, All, IfOk, OnOk, slice_index, slice_index_or, slice_set};
ghost use Rattle.tmr_base.specs.Parts.{AreParts};
ghost use Rattle.flat_net.specs.Net.{net_count};
ghost use Rattle.feedback_cut.specs.Inner.{node_pins};
ghost use Rattle.node_reads.specs.Noting.{Lists};
ghost use Rattle.triplicate.specs.Pins.{pin_is_voted, AreVotesOf};
ghost use Rattle.triplicate.specs.Private.Noted.{is_in, pin_noted, pins_noted, nodes_noted, parts_noted, IsNoting};
ghost use Rattle.triplicate.specs.Starts.{needs};
ghost use Rattle.triplicate.specs.Taps.{tap_of, IsTapped, AreTaps};
ghost use Rattle.triplicate.specs.Private.Places.{HasPlaces};

use crate::ahead::{Ahead, keep_readings, read_ahead};
use crate::taps::{Taps, no_taps};
use crate::voting::{VotedPins, is_voted};
use flat_net::{FlatNet, nodes_of};
use graph::Graph;
use node_reads::Notes;
use std::alloc::Global;
use tmr_base::{NetId, OutOfMemory, Parts};

/// For each partition its nodes, in ascending order.
#[tactic(auto, using(crate::proofs::VoterRows::member_noted, crate::proofs::VoterRows::no_members))]
fn members(alloc: Global, n: &FlatNet, parts: &Parts) -> Result<Graph, OutOfMemory>
    requires { length parts.now.of ≡ length n.now.net.nodes }
    ensures { IfOk result (λ rows. Lists (is_in parts.now) (length n.now.net.nodes) parts.now.count rows) }
{
    let mut rows = Notes::empty(alloc, parts.count(), nodes_of(n) as usize)?;
    for y in 0..nodes_of(n) {
        let part = parts.of(y);
        rows.note(part, y)?;
    }
    let packed = rows.packed(alloc)?;
    Ok(packed)
}

/// For each net the partitions that need a voter of it, and which of these voters each pin reads.
#[derive(Drop)]
struct Noted {
    rows: Notes,
    taps: Taps,
}

/// The same, where the rows stand one behind the other.
#[derive(Drop)]
pub struct Voters {
    pub rows: Graph,
    pub taps: Taps,
}

/// One pin of a node: the node's number among the nodes, and which of its pins.
#[derive(Clone, Copy, Drop)]
struct NodePin {
    node: u32,
    pin: u32,
}

/// Notes the partition of a node for what it reads at a pin, where that is voted, and at which place of the net's row it stands.
/// That place is written at `at`.
fn note_pin(
    n: &FlatNet,
    parts: &Parts,
    votes: &VotedPins,
    rows: &mut Notes,
    places: &mut Vec<u32>,
    at: usize,
    reader: NodePin,
) -> Result<(), OutOfMemory>
    requires votes { AreVotesOf n.now.net parts.now votes.now }
    requires node { reader.node < length n.now.net.nodes }
    requires pin { reader.pin < length (node_pins n.now.net reader.node) }
    requires at { at < length places.old.items }
    requires noting { IsNoting n.now.net parts.now (pin_is_voted n.now.net parts.now votes.now) (slice_index parts.now.of reader.node) rows.old }
    ensures rows { OnOk result (rows.new ≡ pin_noted n.now.net parts.now (pin_is_voted n.now.net parts.now votes.now) reader.node reader.pin rows.old) }
    ensures places { OnOk result (places.new.items ≡ slice_set places.old.items at (tap_of n.now.net parts.now (pin_is_voted n.now.net parts.now votes.now) reader.node reader.pin)) }
    ensures noting { OnOk result (IsNoting n.now.net parts.now (pin_is_voted n.now.net parts.now votes.now) (slice_index parts.now.of reader.node) rows.new) }
{
    let _nodes = nodes_of(n);
    let _count = parts.count();
    if !is_voted(n, parts, votes, reader.node, reader.pin) {
        places[at] = 0;
        return Ok(());
    }
    let inputs = n.input_count();
    let pin = n.pin(NetId(inputs + reader.node), reader.pin);
    let part = parts.of(reader.node);
    rows.note(pin.0, part)?;
    places[at] = rows.count(pin.0) as u32;
    Ok(())
}

/// Notes the partition of node y for what it reads at voted pins. The places for its pins begin at `first`.
fn note_pins(
    n: &FlatNet,
    parts: &Parts,
    votes: &VotedPins,
    rows: &mut Notes,
    places: &mut Vec<u32>,
    first: u32,
    y: u32,
) -> Result<(), OutOfMemory>
    requires votes { AreVotesOf n.now.net parts.now votes.now }
    requires node { y < length n.now.net.nodes }
    requires room { first + length (node_pins n.now.net y) ≤ length places.old.items }
    requires noting { IsNoting n.now.net parts.now (pin_is_voted n.now.net parts.now votes.now) (slice_index parts.now.of y) rows.old }
    ensures rows { OnOk result (rows.new ≡ pins_noted n.now.net parts.now (pin_is_voted n.now.net parts.now votes.now) y (length (node_pins n.now.net y)) rows.old) }
    ensures long { OnOk result (length places.new.items ≡ length places.old.items) }
    ensures places { OnOk result ((j : ℕ) → j < length (node_pins n.now.net y) → slice_index places.new.items (first + j) ≡ tap_of n.now.net parts.now (pin_is_voted n.now.net parts.now votes.now) y j) }
    ensures others { OnOk result ((k : ℕ) → (k < first) ⊎ (first + length (node_pins n.now.net y) ≤ k) → slice_index places.new.items k ≡ slice_index places.old.items k) }
    ensures noting { OnOk result (IsNoting n.now.net parts.now (pin_is_voted n.now.net parts.now votes.now) (slice_index parts.now.of y) rows.new) }
{
    let _nodes = nodes_of(n);
    let node = NetId(n.input_count() + y);
    for j in 0..n.pin_count(node) {
        let reader = NodePin { node: y, pin: j };
        let at = first as usize + j as usize;
        note_pin(n, parts, votes, rows, places, at, reader)?;
    }
    Ok(())
}

/// Notes a partition for what its nodes read at voted pins. What they need is read ahead.
fn note_members(
    n: &FlatNet,
    parts: &Parts,
    votes: &VotedPins,
    rows: &mut Notes,
    taps: &mut Taps,
    ahead: &mut Ahead,
    p: u32,
    members: &[u32],
) -> Result<(), OutOfMemory>
    requires votes { AreVotesOf n.now.net parts.now votes.now }
    requires nodes { All (λ y. y < length n.now.net.nodes) members.now }
    requires own { All (λ y. slice_index parts.now.of y ≡ p) members.now }
    requires places { HasPlaces n.now.net taps.old }
    requires noting { IsNoting n.now.net parts.now (pin_is_voted n.now.net parts.now votes.now) p rows.old }
    ensures rows { OnOk result (rows.new ≡ nodes_noted n.now.net parts.now (pin_is_voted n.now.net parts.now votes.now) members.now rows.old) }
    ensures places { OnOk result (HasPlaces n.now.net taps.new) }
    ensures members { OnOk result (All (IsTapped n.now.net parts.now (pin_is_voted n.now.net parts.now votes.now) taps.new) members.now) }
    ensures kept { OnOk result ((y : ℕ) → y < length n.now.net.nodes → IsTapped n.now.net parts.now (pin_is_voted n.now.net parts.now votes.now) taps.old y → IsTapped n.now.net parts.now (pin_is_voted n.now.net parts.now votes.now) taps.new y) }
{
    let mut turn: usize = 0;
    for y in members {
        read_ahead(n, parts, rows, members, turn, ahead);
        turn = turn.saturating_add(1);
        let first = taps.firsts[*y as usize];
        note_pins(n, parts, votes, rows, &mut taps.places, first, *y)?;
    }
    Ok(())
}

/// For each net the partitions that need a voter of it, and which of these voters each pin reads. The partitions are gone
/// through in ascending order, so that no row needs sorting, and a pin's voter is that of the last partition in the row.
fn noted_parts(
    alloc: Global,
    n: &FlatNet,
    parts: &Parts,
    votes: &VotedPins,
) -> Result<Noted, OutOfMemory>
    requires votes { AreVotesOf n.now.net parts.now votes.now }
    requires in_range { AreParts parts.now }
    ensures rows { IfOk result (λ r. Lists (needs n.now.net parts.now (pin_is_voted n.now.net parts.now votes.now)) parts.now.count (net_count n.now.net) r.rows) }
    ensures taps { IfOk result (λ r. AreTaps n.now.net parts.now (pin_is_voted n.now.net parts.now votes.now) r.taps) }
{
    let members = members(alloc, n, parts)?;
    let nets = n.input_count() + nodes_of(n);
    let mut rows = Notes::empty(alloc, nets, n.pin_total() as usize)?;
    let mut taps = no_taps(alloc, n)?;
    let mut ahead = Ahead { sum: 0 };
    let count = parts.count();
    for p in 0..count {
        note_members(
            n,
            parts,
            votes,
            &mut rows,
            &mut taps,
            &mut ahead,
            p,
            members.row(p),
        )?;
    }
    let kept = keep_readings(taps, ahead)?;
    Ok(Noted { rows, taps: kept })
}

/// For each net the partitions that need a voter of it, in ascending order, and which of these voters each pin reads.
pub fn voting_parts(
    alloc: Global,
    n: &FlatNet,
    parts: &Parts,
    votes: &VotedPins,
) -> Result<Voters, OutOfMemory>
    requires votes { AreVotesOf n.now.net parts.now votes.now }
    requires in_range { AreParts parts.now }
    ensures rows { IfOk result (λ r. Lists (needs n.now.net parts.now (pin_is_voted n.now.net parts.now votes.now)) parts.now.count (net_count n.now.net) r.rows) }
    ensures taps { IfOk result (λ r. AreTaps n.now.net parts.now (pin_is_voted n.now.net parts.now votes.now) r.taps) }
{
    let Noted { rows, taps } = noted_parts(alloc, n, parts, votes)?;
    let packed = rows.packed(alloc)?;
    Ok(Voters { rows: packed, taps })
}
