//! The two copies of each node.
ghost use Rattle.std.specs.Prelude.{◌≡◌, ◌+◌, ◌*◌, ◌<◌, ◌≤◌, Some, length, map, IfOk, OnOk};
ghost use Rattle.limits.specs.Most.{widest_nets};
ghost use Rattle.flat_net.specs.Net.{Node, IsTable, IsRegister, IsValid, net_count, node_of, pins_at};
ghost use Rattle.flat_net.specs.Nodes.{number_of};
ghost use Rattle.dwc.specs.Guard.{twin, node_twin, guard_net};
ghost use Rattle.dwc.specs.Making.{PacksMore, IsMade};

use crate::made::Made;
use crate::names::twin_name;
use flat_net::{FlatNet, Kind, PackedNodes, push_register, push_table};
use std::alloc::Global;
use tmr_base::{NetId, OutOfMemory};

/// Copy c of net x, for c 0 and 1.
pub fn twin(x: NetId, c: u32) -> NetId
    requires { 2 * x.0 + c < 4294967296 }
    ensures { result.0 ≡ twin c x.0 }
{
    NetId(2 * x.0 + c)
}

/// Copies c of what node x reads.
fn twin_pins(alloc: Global, n: &FlatNet, x: NetId, c: u32) -> Result<Vec<NetId>, OutOfMemory>
    requires range { x.0 < net_count n.now.net }
    requires node { length n.now.net.inputs ≤ x.0 }
    requires few { net_count n.now.net ≤ widest_nets }
    requires copy { c < 2 }
    ensures { IfOk result (λ pins. map number_of pins.items ≡ map (twin c) (pins_at (node_of n.now.net x.0))) }
{
    let mut pins = Vec::with_capacity(alloc, n.pin_count(x) as usize)?;
    for j in 0..n.pin_count(x) {
        pins.push(twin(n.pin(x, j), c))?;
    }
    Ok(pins)
}

/// Adds copy c of table x.
fn push_table_twin(
    alloc: Global,
    n: &FlatNet,
    x: NetId,
    c: u32,
    nodes: &mut PackedNodes,
) -> Result<(), OutOfMemory>
    requires range { x.0 < net_count n.now.net }
    requires node { length n.now.net.inputs ≤ x.0 }
    requires table { IsTable (node_of n.now.net x.0) }
    requires few { net_count n.now.net ≤ widest_nets }
    requires copy { c < 2 }
    requires room { length nodes.old.pins.items + length (pins_at (node_of n.now.net x.0)) < 4294967296 }
    ensures { OnOk result ((node : Node) → node_of n.now.net x.0 ≡ Some node → PacksMore nodes.old nodes.new (node_twin node c)) }
{
    let pins = twin_pins(alloc, n, x, c)?;
    let cover = n.cover(x).copy(alloc)?;
    push_table(nodes, cover, &pins)?;
    Ok(())
}

/// Adds copy c of register x.
fn push_register_twin(
    n: &FlatNet,
    x: NetId,
    c: u32,
    nodes: &mut PackedNodes,
) -> Result<(), OutOfMemory>
    requires range { x.0 < net_count n.now.net }
    requires node { length n.now.net.inputs ≤ x.0 }
    requires register { IsRegister (node_of n.now.net x.0) }
    requires few { net_count n.now.net ≤ widest_nets }
    requires copy { c < 2 }
    requires room { length nodes.old.pins.items + length (pins_at (node_of n.now.net x.0)) < 4294967296 }
    requires registers { nodes.old.registers + 1 < 4294967296 }
    ensures { OnOk result ((node : Node) → node_of n.now.net x.0 ≡ Some node → PacksMore nodes.old nodes.new (node_twin node c)) }
{
    let pin = twin(n.pin(x, 0), c);
    push_register(nodes, n.init(x), pin)?;
    Ok(())
}

/// Adds copy c of node x.
#[tactic(auto, using(flat_net::proofs::Bodies::from_kind))]
fn push_body(
    alloc: Global,
    n: &FlatNet,
    x: NetId,
    c: u32,
    nodes: &mut PackedNodes,
) -> Result<(), OutOfMemory>
    requires range { x.0 < net_count n.now.net }
    requires node { length n.now.net.inputs ≤ x.0 }
    requires few { net_count n.now.net ≤ widest_nets }
    requires copy { c < 2 }
    requires room { length nodes.old.pins.items + length (pins_at (node_of n.now.net x.0)) < 4294967296 }
    requires registers { nodes.old.registers + 1 < 4294967296 }
    ensures { OnOk result ((node : Node) → node_of n.now.net x.0 ≡ Some node → PacksMore nodes.old nodes.new (node_twin node c)) }
{
    match n.kind(x) {
        Kind::Input => Ok(()),
        Kind::Table => push_table_twin(alloc, n, x, c, nodes),
        Kind::Register => push_register_twin(n, x, c, nodes),
    }
}

/// Adds copy c of node i, and its name.
fn push_twin(alloc: Global, n: &FlatNet, i: u32, c: u32, made: &mut Made) -> Result<(), OutOfMemory>
    requires node { i < length n.now.net.nodes }
    requires copy { c < 2 }
    requires few { net_count n.now.net ≤ widest_nets }
    requires valid { IsValid (guard_net n.now.net) }
    requires made { IsMade (guard_net n.now.net) (2 * i + c) made.old }
    ensures { OnOk result (IsMade (guard_net n.now.net) (2 * i + c + 1) made.new) }
{
    let x = NetId(n.input_count() + i);
    let name = twin_name(alloc, n.name(x), c)?;
    made.names.insert(name)?;
    push_body(alloc, n, x, c, &mut made.nodes)?;
    Ok(())
}

/// Adds the copies of all nodes, and their names.
pub fn push_twins(alloc: Global, n: &FlatNet, made: &mut Made) -> Result<(), OutOfMemory>
    requires few { net_count n.now.net ≤ widest_nets }
    requires valid { IsValid (guard_net n.now.net) }
    requires made { IsMade (guard_net n.now.net) 0 made.old }
    ensures { OnOk result (IsMade (guard_net n.now.net) (2 * length n.now.net.nodes) made.new) }
{
    for i in 0..n.node_count() {
        push_twin(alloc, n, i, 0, made)?;
        push_twin(alloc, n, i, 1, made)?;
    }
    Ok(())
}
