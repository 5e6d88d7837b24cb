//! An order of the hardened nodes.
ghost use Rattle.std.specs.Prelude.{◌≡◌, ◌+◌, ◌*◌, ◌<◌, ◌-◌, ◌≤◌, ◌++◌, ℕ, [], length, map, filter, cond, IfOk, OnOk};
ghost use Rattle.std.specs.List.{range_with_len, flat_map};
ghost use Rattle.flat_net.specs.Net.{net_count};
ghost use Rattle.flat_net.specs.Nodes.{number_of};
ghost use Rattle.triplicate.specs.Construction.{is_register_net, hardened_order};
ghost use Rattle.hardened_pair.specs.Private.Layouts.{IsLayout, net_of, partitions, voted, numbers_of, is_of_kind};

use crate::layout::{Layout, room_of, start_of};
use flat_net::{FlatNet, Kind, nodes_of};
use std::alloc::Global;
use tmr_base::{NetId, OutOfMemory};

/// Adds the numbers from `start` up to `end`.
fn push_range(start: u32, end: u32, order: &mut Vec<NetId>) -> Result<(), OutOfMemory>
    requires { start ≤ end }
    ensures { OnOk result (map number_of order.new.items ≡ map number_of order.old.items ++ range_with_len start (end - start)) }
{
    for g in start..end {
        order.push(NetId(g))?;
    }
    Ok(())
}

/// Adds the numbers of what stands for net x.
fn push_block(layout: &Layout, x: u32, order: &mut Vec<NetId>) -> Result<(), OutOfMemory>
    requires layout { IsLayout layout.now }
    requires net { x < net_count (net_of layout.now) }
    ensures { OnOk result (map number_of order.new.items ≡ map number_of order.old.items ++ numbers_of layout.now x) }
{
    let _nodes = nodes_of(layout.net);
    let start = start_of(layout, x);
    let end = start_of(layout, x + 1);
    push_range(start, end, order)?;
    Ok(())
}

/// Net x is a register.
fn is_register(n: &FlatNet, x: NetId) -> bool
    requires { x.0 < net_count n.now.net }
    ensures { result ≡ is_register_net n.now.net x.0 }
{
    match n.kind(x) {
        Kind::Register => true,
        Kind::Input => false,
        Kind::Table => false,
    }
}

/// Adds what stands for the inputs.
fn push_inputs(layout: &Layout, order: &mut Vec<NetId>) -> Result<(), OutOfMemory>
    requires { IsLayout layout.now }
    ensures { OnOk result (map number_of order.new.items ≡ map number_of order.old.items ++ flat_map (numbers_of layout.now) (range_with_len 0 (length (net_of layout.now).inputs))) }
{
    let n = layout.net;
    let _nodes = nodes_of(n);
    for x in 0..n.input_count() {
        push_block(layout, x, order)?;
    }
    Ok(())
}

/// Net x is a register, or it is none.
fn is_of_kind(n: &FlatNet, x: NetId, registers: bool) -> bool
    requires { x.0 < net_count n.now.net }
    ensures { result ≡ is_of_kind n.now.net registers x.0 }
{
    if registers {
        return is_register(n, x);
    }
    !is_register(n, x)
}

/// Adds what stands for net x, if it is of this kind.
fn push_if(
    layout: &Layout,
    x: NetId,
    registers: bool,
    order: &mut Vec<NetId>,
) -> Result<(), OutOfMemory>
    requires layout { IsLayout layout.now }
    requires net { x.0 < net_count (net_of layout.now) }
    ensures { OnOk result (map number_of order.new.items ≡ map number_of order.old.items ++ cond (is_of_kind (net_of layout.now) registers x.0) (numbers_of layout.now x.0) []) }
{
    if !is_of_kind(layout.net, x, registers) {
        return Ok(());
    }
    push_block(layout, x.0, order)?;
    Ok(())
}

/// Adds what stands for the registers, or for the tables, in their order.
fn push_kind(layout: &Layout, registers: bool, order: &mut Vec<NetId>) -> Result<(), OutOfMemory>
    requires { IsLayout layout.now }
    ensures { OnOk result (map number_of order.new.items ≡ map number_of order.old.items ++ flat_map (numbers_of layout.now) (filter (is_of_kind (net_of layout.now) registers) layout.now.net.now.order)) }
{
    let n = layout.net;
    let count = nodes_of(n);
    for i in 0..count {
        let x = n.ordered(i);
        push_if(layout, x, registers, order)?;
    }
    Ok(())
}

/// What stands for inputs, then what stands for registers, and then what stands for tables in their order: a table
/// stands behind each table that it reads.
pub fn hardened_order(alloc: Global, layout: &Layout) -> Result<Vec<NetId>, OutOfMemory>
    requires { IsLayout layout.now }
    ensures { IfOk result (λ order. map number_of order.items ≡ hardened_order (net_of layout.now) (partitions layout.now) (voted layout.now) layout.now.net.now.order) }
{
    let mut order = Vec::with_capacity(alloc, room_of(layout) as usize)?;
    push_inputs(layout, &mut order)?;
    push_kind(layout, true, &mut order)?;
    push_kind(layout, false, &mut order)?;
    Ok(order)
}
