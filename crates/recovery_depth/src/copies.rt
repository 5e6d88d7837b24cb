//! What the copies of a hardened design read.
ghost use Rattle.std.specs.Prelude.{◌≡◌, ◌≤◌, ◌<◌, ◌+◌, All, length, map, take, IfOk, OnOk, slice_index};
ghost use Rattle.std.specs.List.{range_with_len};
ghost use Rattle.flat_net.specs.Net.{net_count, node_of, pins_at};
ghost use Rattle.certificate.specs.Cert.{Fits};
ghost use Rattle.recovery_depth.specs.Hardened.{node_at};
ghost use Rattle.recovery_depth.specs.Private.Copied.{copied, copied_row, copied_rows, is_register_copy};
ghost use Rattle.recovery_depth.specs.Private.Ranks.{rank_at, ranks_of};
ghost use Rattle.recovery_depth.specs.Private.ChainEnds.{place_at, places_of, original_at, originals_of};

use crate::ranks::Ranks;
use certificate::{Certificate, Role};
use feedback_cut::is_register;
use flat_net::{FlatNet, nodes_of};
use graph::Graph;
use std::alloc::Global;
use tmr_base::{NetId, OutOfMemory, Parts};

/// The number of net f among the nodes, where it is a copy; else a number past all nodes.
fn copied(n: &FlatNet, h: &FlatNet, c: &Certificate, f: NetId) -> u32
    requires fits { Fits n.now.net h.now.net c.now }
    requires range { f.0 < net_count h.now.net }
    ensures { result ≡ copied h.now.net c.now f.0 }
{
    let past = nodes_of(h);
    let inputs = h.input_count();
    if f.0 < inputs {
        return past;
    }
    match c.role(f) {
        Role::Copy { .. } => f.0 - inputs,
        Role::Voter { .. } => past,
    }
}

/// Puts into `row` the copies that the pins of node g read.
fn copied_pins(
    n: &FlatNet,
    h: &FlatNet,
    c: &Certificate,
    g: u32,
    row: &mut Vec<u32>,
) -> Result<(), OutOfMemory>
    requires fits { Fits n.now.net h.now.net c.now }
    requires node { g < length h.now.net.nodes }
    ensures { OnOk result (row.new.items ≡ map (copied h.now.net c.now) (pins_at (node_at h.now.net g))) }
{
    let _nodes = nodes_of(h);
    let node = NetId(h.input_count() + g);
    row.clear();
    for j in 0..h.pin_count(node) {
        row.push(copied(n, h, c, h.pin(node, j)))?;
    }
    Ok(())
}

/// Puts into `row` the copies that node g reads, where it is a copy.
fn copied_reads(
    n: &FlatNet,
    h: &FlatNet,
    c: &Certificate,
    g: u32,
    row: &mut Vec<u32>,
) -> Result<(), OutOfMemory>
    requires fits { Fits n.now.net h.now.net c.now }
    requires node { g < length h.now.net.nodes }
    ensures { OnOk result (row.new.items ≡ copied_row h.now.net c.now g) }
{
    let _nodes = nodes_of(h);
    match c.role(NetId(h.input_count() + g)) {
        Role::Copy { .. } => copied_pins(n, h, c, g, row),
        Role::Voter { .. } => {
            row.clear();
            Ok(())
        }
    }
}

/// For each node the copies that it reads, where it is a copy.
pub fn copy_reads(
    alloc: Global,
    n: &FlatNet,
    h: &FlatNet,
    c: &Certificate,
) -> Result<Graph, OutOfMemory>
    requires { Fits n.now.net h.now.net c.now }
    ensures { IfOk result (λ graph. graph ≡ copied_rows h.now.net c.now) }
{
    let mut graph = Graph::new(alloc);
    let mut row = Vec::new(alloc);
    for g in 0..nodes_of(h) {
        copied_reads(n, h, c, g, &mut row)?;
        graph.push(&row)?;
    }
    Ok(graph)
}

/// Node g is a register, and a copy.
fn is_register_copy(n: &FlatNet, h: &FlatNet, c: &Certificate, g: u32) -> bool
    requires fits { Fits n.now.net h.now.net c.now }
    requires node { g < length h.now.net.nodes }
    ensures { result ≡ is_register_copy h.now.net c.now g }
{
    let _nodes = nodes_of(h);
    match c.role(NetId(h.input_count() + g)) {
        Role::Copy { .. } => is_register(h, g),
        Role::Voter { .. } => false,
    }
}

/// For each node whether it is a register, and a copy.
pub fn register_copies(
    alloc: Global,
    n: &FlatNet,
    h: &FlatNet,
    c: &Certificate,
) -> Result<Vec<bool>, OutOfMemory>
    requires { Fits n.now.net h.now.net c.now }
    ensures { IfOk result (λ bits. bits.items ≡ map (is_register_copy h.now.net c.now) (range_with_len 0 (length h.now.net.nodes))) }
{
    let mut bits = Vec::new(alloc);
    for g in 0..nodes_of(h) {
        bits.push(is_register_copy(n, h, c, g))?;
    }
    Ok(bits)
}

/// The partition of the original of node g, or for which it votes.
fn place(n: &FlatNet, h: &FlatNet, c: &Certificate, g: u32) -> u32
    requires fits { Fits n.now.net h.now.net c.now }
    requires node { g < length h.now.net.nodes }
    ensures place { result ≡ place_at h.now.net c.now g }
    ensures range { result < length c.now.depth }
{
    let _nodes = nodes_of(h);
    match c.role(NetId(h.input_count() + g)) {
        Role::Copy { node, .. } => c.part(node).0,
        Role::Voter { part, .. } => part.0,
    }
}

/// For each node the partition of its original, or for which it votes.
fn place_list(
    alloc: Global,
    n: &FlatNet,
    h: &FlatNet,
    c: &Certificate,
) -> Result<Vec<u32>, OutOfMemory>
    requires { Fits n.now.net h.now.net c.now }
    ensures places { IfOk result (λ places. places.items ≡ places_of h.now.net c.now) }
    ensures range { IfOk result (λ places. All (λ p. p < length c.now.depth) places.items) }
{
    let mut places = Vec::new(alloc);
    for g in 0..nodes_of(h) {
        places.push(place(n, h, c, g))?;
    }
    Ok(places)
}

/// The partition of each node.
pub fn places(
    alloc: Global,
    n: &FlatNet,
    h: &FlatNet,
    c: &Certificate,
) -> Result<Parts, OutOfMemory>
    requires fits { Fits n.now.net h.now.net c.now }
    requires few { length c.now.depth < 4294967296 }
    ensures { IfOk result (λ parts. parts ≡ record { count = length c.now.depth; of = places_of h.now.net c.now }) }
{
    let _nodes = nodes_of(h);
    let of = place_list(alloc, n, h, c)?;
    Ok(Parts::make(c.parts(), of))
}

/// The original of node g, where it is a copy.
fn original(n: &FlatNet, h: &FlatNet, c: &Certificate, g: u32) -> u32
    requires fits { Fits n.now.net h.now.net c.now }
    requires node { g < length h.now.net.nodes }
    ensures { result ≡ original_at h.now.net c.now g }
{
    let _nodes = nodes_of(h);
    match c.role(NetId(h.input_count() + g)) {
        Role::Copy { node, .. } => node.0,
        Role::Voter { .. } => 0,
    }
}

/// For each node its original, where it is a copy.
pub fn originals(
    alloc: Global,
    n: &FlatNet,
    h: &FlatNet,
    c: &Certificate,
) -> Result<Vec<u32>, OutOfMemory>
    requires { Fits n.now.net h.now.net c.now }
    ensures { IfOk result (λ originals. originals.items ≡ originals_of h.now.net c.now) }
{
    let mut originals = Vec::new(alloc);
    for g in 0..nodes_of(h) {
        originals.push(original(n, h, c, g))?;
    }
    Ok(originals)
}

/// Which copy node g is, and of which original; a voter is taken after each copy.
fn rank(n: &FlatNet, h: &FlatNet, c: &Certificate, g: u32) -> (u32, u32)
    requires fits { Fits n.now.net h.now.net c.now }
    requires node { g < length h.now.net.nodes }
    ensures { result ≡ rank_at h.now.net c.now g }
{
    let _nodes = nodes_of(h);
    match c.role(NetId(h.input_count() + g)) {
        Role::Copy { node, copy } => (copy.number(), node.0),
        Role::Voter { .. } => (3, 0),
    }
}

/// Which copy each node is, and of which original.
pub fn ranks(alloc: Global, n: &FlatNet, h: &FlatNet, c: &Certificate) -> Result<Ranks, OutOfMemory>
    requires { Fits n.now.net h.now.net c.now }
    ensures { IfOk result (λ ranks. ranks ≡ ranks_of h.now.net c.now) }
{
    let mut ranks = Ranks::new(alloc);
    for g in 0..nodes_of(h) {
        let (copy, original) = rank(n, h, c, g);
        ranks.push(copy, original)?;
    }
    Ok(ranks)
}
