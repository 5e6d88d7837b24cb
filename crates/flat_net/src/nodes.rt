//! Nodes side by side: all pins stand in one list, which is cut where a node's pins end.
ghost use Rattle.std.specs.Prelude.{◌≡◌, ◌+◌, ◌<◌, ◌≤◌, ◌++◌, [], ◌∷◌, List, ℕ, Some, length, map, slice_get, slice_index, slice_range, OnOk, IfOk};
ghost use Rattle.flat_net.specs.Nodes.{number_of};
ghost use Rattle.flat_net.specs.Net.{Node, Table, Register};
ghost use Rattle.flat_net.specs.Private.Bodies.{start_of};
ghost use Rattle.flat_net.specs.Packs.{Packs};

use std::alloc::Global;
use table_cover::Cover;
use tmr_base::{NetId, OutOfMemory};

/// What a node has beside its name and its pins.
#[derive(Drop)]
pub enum Body {
    TableBody(Cover),
    RegisterBody(bool),
}

/// Nodes but for their names. The pins of node i end at `ends[i]`, where those of the next one begin.
#[derive(Drop)]
pub struct PackedNodes {
    pub bodies: Vec<Body>,
    pub ends: Vec<u32>,
    pub pins: Vec<NetId>,
    pub registers: u32,
}

/// No nodes.
pub fn no_nodes(alloc: Global) -> PackedNodes
    ensures { Packs [] result [] }
{
    PackedNodes {
        bodies: Vec::new(alloc),
        ends: Vec::new(alloc),
        pins: Vec::new(alloc),
        registers: 0,
    }
}

/// One table more. After want of memory the nodes are to be dropped.
pub fn push_table(nodes: &mut PackedNodes, cover: Cover, pins: &[NetId]) -> Result<(), OutOfMemory>
    requires { length nodes.old.pins.items + length pins.now < 4294967296 }
    ensures table { OnOk result ((names : List (List ℕ)) (name : List ℕ) (done : List Node) → Packs names nodes.old done → Packs (names ++ name ∷ []) nodes.new (done ++ Table name cover (map number_of pins.now) ∷ [])) }
    ensures pins { OnOk result (length nodes.new.pins.items ≡ length nodes.old.pins.items + length pins.now) }
    ensures registers { OnOk result (nodes.new.registers ≡ nodes.old.registers) }
{
    nodes.pins.extend_from_slice(pins)?;
    nodes.ends.push(nodes.pins.len() as u32)?;
    nodes.bodies.push(Body::TableBody(cover))?;
    Ok(())
}

/// One register more. After want of memory the nodes are to be dropped.
pub fn push_register(nodes: &mut PackedNodes, init: bool, pin: NetId) -> Result<(), OutOfMemory>
    requires pins { length nodes.old.pins.items + 1 < 4294967296 }
    requires registers { nodes.old.registers + 1 < 4294967296 }
    ensures register { OnOk result ((names : List (List ℕ)) (name : List ℕ) (done : List Node) → Packs names nodes.old done → Packs (names ++ name ∷ []) nodes.new (done ++ Register name init pin.0 ∷ [])) }
    ensures pins { OnOk result (length nodes.new.pins.items ≡ length nodes.old.pins.items + 1) }
    ensures registers { OnOk result (nodes.new.registers ≡ nodes.old.registers + 1) }
{
    nodes.pins.push(pin)?;
    nodes.ends.push(nodes.pins.len() as u32)?;
    nodes.bodies.push(Body::RegisterBody(init))?;
    nodes.registers += 1;
    Ok(())
}

/// Element k, by its number.
pub fn id_at(ids: &[NetId], k: usize) -> NetId
    requires { k < length ids.now }
    ensures { slice_get (map number_of ids.now) k ≡ Some result.0 }
{
    ids[k]
}

/// What node i has beside its name and its pins.
pub fn body_at(bodies: &[Body], i: usize) -> &Body
    requires { i < length bodies.now }
    ensures { slice_get bodies.now i ≡ Some result.now }
{
    &bodies[i]
}

/// Where the pins of node i begin.
fn start_at(ends: &[u32], i: usize) -> usize
    requires { i < length ends.now }
    ensures { result ≡ start_of 0 ends.now i }
{
    if i == 0 { 0 } else { ends[i - 1] as usize }
}

/// The pins of node i.
pub fn part_at<'a>(ends: &[u32], pins: &'a [NetId], i: usize) -> &'a [NetId]
    requires within { i < length ends.now }
    requires order { start_of 0 ends.now i ≤ slice_index ends.now i }
    requires end { slice_index ends.now i ≤ length pins.now }
    ensures { map number_of result.now ≡ slice_range (map number_of pins.now) (start_of 0 ends.now i) (slice_index ends.now i) }
{
    &pins[start_at(ends, i)..ends[i] as usize]
}
