//! Which nets of a design stand for which of another one, and which then have their values.
//!
//! Where the pins of a table have the values of the nets that they stand for, the table has the value of the net that it
//! stands for itself, if it has the rows and pins of that net, or is the majority of nets that stand for it too. This is
//! looked at once, when the two designs are known.
ghost use Rattle.std.specs.Prelude.{◌≡◌, ◌<◌, ◌≤◌, ◌+◌, ℕ, All, IfOk, IsTrue, OnOk, length, map, slice_index};
ghost use Rattle.std.specs.List.{range_with_len};
ghost use Rattle.flat_net.specs.Net.{Net, net_count, node_of, pins_at, IsTable};
ghost use Rattle.flat_net.specs.Nodes.{number_of};
ghost use Rattle.net_meaning.specs.Meaning.{bit};
ghost use Rattle.net_simulator.specs.Beside.{AreTwins, IsAlike, IsUnlikeOnly, AreReadersOf, IsCopy, IsVote, net_row, net_rows, StandFor, StandForOne};

use flat_net::{FlatNet, Kind};
use graph::{Graph, readers_of};
use std::alloc::Global;
use tmr_base::{NetId, OutOfMemory};

/// What is known of a design's nets beside those of another one.
#[derive(Drop)]
pub struct Twins {
    /// For each net the net of the other design that it stands for.
    pub origins: Vec<NetId>,
    /// For each net: it is a table that may have another value than the net that it stands for, even where its pins have
    /// the values of theirs.
    pub unlike: Vec<bool>,
    /// For each net the nodes that read it.
    pub readers: Graph,
}

/// The net that net i stands for.
pub fn origin_at(origins: &[NetId], i: usize) -> NetId
    requires { i < length origins.now }
    ensures { result.0 ≡ slice_index (map number_of origins.now) i }
{
    origins[i]
}

/// Pin j of y stands for x.
fn pin_stands_for(h: &FlatNet, origins: &[NetId], y: NetId, j: u32, x: NetId) -> bool
    requires y { y.0 < net_count h.now.net }
    requires pin { j < length (pins_at (node_of h.now.net y.0)) }
    requires long { length origins.now ≡ net_count h.now.net }
    ensures { IsTrue result → slice_index (map number_of origins.now) (slice_index (pins_at (node_of h.now.net y.0)) j) ≡ x.0 }
{
    origin_at(origins, h.pin(y, j).0 as usize) == x
}

/// The pins of y stand for those of x, place by place.
fn pins_stand_for(n: &FlatNet, h: &FlatNet, origins: &[NetId], y: NetId, x: NetId) -> bool
    requires x { x.0 < net_count n.now.net }
    requires y { y.0 < net_count h.now.net }
    requires long { length origins.now ≡ net_count h.now.net }
    requires pins { length (pins_at (node_of h.now.net y.0)) ≡ length (pins_at (node_of n.now.net x.0)) }
    ensures { IsTrue result → StandFor (map number_of origins.now) (pins_at (node_of h.now.net y.0)) (pins_at (node_of n.now.net x.0)) }
{
    for j in 0..h.pin_count(y) {
        if !pin_stands_for(h, origins, y, j, n.pin(x, j)) {
            return false;
        }
    }
    true
}

/// Table y has the rows of x, and its pins stand for those of x.
#[tactic(auto, using(crate::proofs::TwinLaws::copy_rules, crate::proofs::Lanes::kinds))]
fn copies(n: &FlatNet, h: &FlatNet, origins: &[NetId], y: NetId, x: NetId) -> bool
    requires x { x.0 < net_count n.now.net }
    requires y { y.0 < net_count h.now.net }
    requires table { IsTable (node_of h.now.net y.0) }
    requires long { length origins.now ≡ net_count h.now.net }
    ensures { IsTrue result → IsCopy (node_of n.now.net x.0) (node_of h.now.net y.0) (map number_of origins.now) }
{
    if n.kind(x) != Kind::Table {
        return false;
    }
    h.cover(y).same(n.cover(x)) && pins_stand_for(n, h, origins, y, x)
}

/// All pins of y stand for x.
fn pins_stand_for_one(h: &FlatNet, origins: &[NetId], y: NetId, x: NetId) -> bool
    requires y { y.0 < net_count h.now.net }
    requires long { length origins.now ≡ net_count h.now.net }
    ensures { IsTrue result → StandForOne (map number_of origins.now) (pins_at (node_of h.now.net y.0)) x.0 }
{
    for j in 0..h.pin_count(y) {
        if !pin_stands_for(h, origins, y, j, x) {
            return false;
        }
    }
    true
}

/// Table y is the majority of three nets that stand for x.
#[tactic(auto, using(crate::proofs::TwinLaws::vote_rules))]
fn votes(h: &FlatNet, origins: &[NetId], y: NetId, x: NetId) -> bool
    requires y { y.0 < net_count h.now.net }
    requires table { IsTable (node_of h.now.net y.0) }
    requires long { length origins.now ≡ net_count h.now.net }
    ensures { IsTrue result → IsVote (node_of h.now.net y.0) (map number_of origins.now) x.0 }
{
    h.cover(y).is_majority() && pins_stand_for_one(h, origins, y, x)
}

/// Table y has the value of x where its pins have the values of the nets that they stand for.
#[tactic(auto, using(crate::proofs::TwinLaws::alike_rules))]
fn is_alike(n: &FlatNet, h: &FlatNet, origins: &[NetId], y: NetId, x: NetId) -> bool
    requires x { x.0 < net_count n.now.net }
    requires y { y.0 < net_count h.now.net }
    requires table { IsTable (node_of h.now.net y.0) }
    requires long { length origins.now ≡ net_count h.now.net }
    ensures { IsTrue result → IsAlike n.now.net (node_of h.now.net y.0) (map number_of origins.now) x.0 }
{
    copies(n, h, origins, y, x) || votes(h, origins, y, x)
}

/// Net y is a table that may have another value than x, even where its pins have the values of the nets that they stand for.
#[tactic(auto, using(crate::proofs::Lanes::kinds))]
fn is_unlike(n: &FlatNet, h: &FlatNet, origins: &[NetId], y: NetId, x: NetId) -> bool
    requires x { x.0 < net_count n.now.net }
    requires y { y.0 < net_count h.now.net }
    requires long { length origins.now ≡ net_count h.now.net }
    ensures { IsUnlikeOnly n.now.net (node_of h.now.net y.0) (map number_of origins.now) x.0 result }
{
    match h.kind(y) {
        Kind::Table => !is_alike(n, h, origins, y, x),
        Kind::Input => false,
        Kind::Register => false,
    }
}

/// The same of each net and the one that it stands for.
fn unlike_nets(
    alloc: Global,
    n: &FlatNet,
    h: &FlatNet,
    origins: &[NetId],
) -> Result<Vec<bool>, OutOfMemory>
    requires long { length origins.now ≡ net_count h.now.net }
    requires range { All (λ o. o.0 < net_count n.now.net) origins.now }
    ensures long { IfOk result (λ unlike. length unlike.items ≡ net_count h.now.net) }
    ensures alike { IfOk result (λ unlike. (y : ℕ) → y < net_count h.now.net →
        IsUnlikeOnly n.now.net (node_of h.now.net y) (map number_of origins.now) (slice_index (map number_of origins.now) y) (bit unlike.items y)) }
{
    let _inputs = h.input_count();
    let mut unlike = Vec::with_capacity(alloc, origins.len())?;
    for y in 0..origins.len() {
        unlike.push(is_unlike(n, h, origins, NetId(y as u32), origin_at(origins, y)))?;
    }
    Ok(unlike)
}

/// Puts the pins of net y into the row.
fn put_pins(h: &FlatNet, y: u32, row: &mut Vec<u32>) -> Result<(), OutOfMemory>
    requires { y < net_count h.now.net }
    ensures { OnOk result (row.new.items ≡ net_row h.now.net y) }
{
    row.clear();
    for j in 0..h.pin_count(NetId(y)) {
        row.push(h.pin(NetId(y), j).0)?;
    }
    Ok(())
}

/// What each net reads.
fn reads_of(alloc: Global, h: &FlatNet, count: u32) -> Result<Graph, OutOfMemory>
    requires { count ≡ net_count h.now.net }
    ensures { IfOk result (λ reads. reads ≡ net_rows h.now.net) }
{
    let mut reads = Graph::with_room(alloc, count as usize, h.pin_total() as usize)?;
    let mut row = Vec::new(alloc);
    for y in 0..count {
        put_pins(h, y, &mut row)?;
        reads.push(&row)?;
    }
    Ok(reads)
}

/// For each net the nodes that read it.
fn net_readers(alloc: Global, h: &FlatNet) -> Result<Graph, OutOfMemory>
    ensures long { IfOk result (λ readers. length readers ≡ net_count h.now.net) }
    ensures readers { IfOk result (λ readers. AreReadersOf h.now.net readers) }
{
    let count = h.input_count() + h.node_count();
    let reads = reads_of(alloc, h, count)?;
    let readers = readers_of(alloc, &reads, count)?;
    let packed = readers.packed(alloc)?;
    Ok(packed)
}

/// What is known of the nets of h, where net y of it stands for net `origins[y]` of n.
pub fn twins_of(
    alloc: Global,
    n: &FlatNet,
    h: &FlatNet,
    origins: Vec<NetId>,
) -> Result<Twins, OutOfMemory>
    requires long { length origins.items ≡ net_count h.now.net }
    requires range { All (λ o. o.0 < net_count n.now.net) origins.items }
    ensures twins { IfOk result (λ t. AreTwins n.now.net h.now.net t) }
    ensures origins { IfOk result (λ t. t.origins.items ≡ origins.items) }
{
    let unlike = unlike_nets(alloc, n, h, &origins)?;
    let readers = net_readers(alloc, h)?;
    Ok(Twins {
        origins,
        unlike,
        readers,
    })
}
