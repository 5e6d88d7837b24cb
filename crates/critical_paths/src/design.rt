//! What the search looks up of a design.
ghost use Rattle.std.specs.Prelude.{◌≡◌, ◌<◌, false, length, map, slice_index_or, slice_set, IfOk};
ghost use Rattle.std.specs.List.{range_with_len};
ghost use Rattle.feedback_cut.specs.Registers.{is_register_at};
ghost use Rattle.node_reads.specs.Sources.{AreOtherReaders, AreSources};

use crate::loops::loop_groups;
use clustering::numbers::{at, count, put, raise};
use feedback_cut::registers;
use flat_net::{FlatNet, nodes_of};
use graph::Graph;
use node_reads::{packed_readers_of, sources_of};
use std::alloc::Global;
use tmr_base::OutOfMemory;

/// For each node the others that read it and those that it reads, whether it is a register, and how many outputs it is. `ends` has the nodes
/// at which paths end: registers and outputs. `order` has the nodes in an order in which each table stands behind each table that it
/// reads, and `ranks` the place of each node in it. `whole` has for each node the group of those that stand on loops with it in the whole
/// design, and `alone` whether it stands alone there.
#[derive(Drop)]
pub struct Circuit {
    pub readers: Graph,
    pub sources: Graph,
    pub registers: Vec<bool>,
    pub outputs: Vec<u32>,
    pub ends: Vec<u32>,
    pub order: Vec<u32>,
    pub ranks: Vec<u32>,
    pub whole: Vec<u32>,
    pub alone: Vec<bool>,
}

/// Bit i of these, or false past their end.
pub fn bit(bits: &[bool], i: u32) -> bool
    ensures { result ≡ slice_index_or bits.now i false }
{
    match bits.get(i as usize) {
        Some(bit) => *bit,
        None => false,
    }
}

/// Bit i of these is b from now on. What would be put past their end is dropped.
pub fn put_bit(bits: &mut Vec<bool>, i: u32, b: bool)
    ensures { bits.new.items ≡ slice_set bits.old.items i b }
{
    if (i as usize) < bits.len() {
        bits[i as usize] = b;
    }
}

/// How many outputs each node is.
fn outputs_of(alloc: Global, n: &FlatNet) -> Result<Vec<u32>, OutOfMemory> {
    let inputs = n.input_count();
    let mut outputs = vec![in alloc; 0u32; nodes_of(n) as usize]?;
    for k in 0..n.output_count() {
        let net = n.output(k);
        if net.0 >= inputs {
            raise(&mut outputs, net.0 - inputs, 1);
        }
    }
    Ok(outputs)
}

/// The nodes, each table behind each table that it reads.
fn order_of(alloc: Global, n: &FlatNet) -> Result<Vec<u32>, OutOfMemory> {
    let nodes = nodes_of(n);
    let inputs = n.input_count();
    let mut order = Vec::with_capacity(alloc, nodes as usize)?;
    for i in 0..nodes {
        order.push(n.ordered(i).0 - inputs)?;
    }
    Ok(order)
}

/// The place of each node in an order.
fn ranks_of(alloc: Global, order: &[u32], nodes: u32) -> Result<Vec<u32>, OutOfMemory> {
    let mut ranks = vec![in alloc; 0u32; nodes as usize]?;
    for i in 0..nodes {
        put(&mut ranks, at(order, i), i);
    }
    Ok(ranks)
}

/// The nodes that are registers or outputs.
fn ends_of(alloc: Global, registers: &[bool], outputs: &[u32]) -> Result<Vec<u32>, OutOfMemory> {
    let mut ends = Vec::new(alloc);
    for x in 0..count(outputs) {
        if bit(registers, x) || at(outputs, x) > 0 {
            ends.push(x)?;
        }
    }
    Ok(ends)
}

/// The group of each node in the whole design.
fn whole_groups(alloc: Global, sources: &Graph, nodes: u32) -> Result<Vec<u32>, OutOfMemory> {
    let one = vec![in alloc; 0u32; nodes as usize]?;
    let none = Vec::new(alloc);
    loop_groups(
        alloc,
        sources,
        one.as_slice(),
        one.as_slice(),
        none.as_slice(),
    )
}

/// Whether each node stands alone in its group, whose number is that of one of its nodes.
fn alone_in(alloc: Global, groups: &[u32]) -> Result<Vec<bool>, OutOfMemory> {
    let mut sizes = vec![in alloc; 0u32; groups.len()]?;
    for group in groups {
        raise(&mut sizes, *group, 1);
    }
    let mut alone = Vec::with_capacity(alloc, groups.len())?;
    for group in groups {
        alone.push(at(sizes.as_slice(), *group) == 1)?;
    }
    Ok(alone)
}

/// What the search looks up of a design. It does not hang on the partitions: so it is made once for many sizes.
pub fn circuit_of(alloc: Global, n: &FlatNet) -> Result<Circuit, OutOfMemory>
    ensures readers { IfOk result (λ c. AreOtherReaders n.now.net c.readers) }
    ensures sources { IfOk result (λ c. AreSources n.now.net c.sources) }
    ensures registers { IfOk result (λ c. c.registers.items ≡ map (is_register_at n.now.net) (range_with_len 0 (length n.now.net.nodes))) }
{
    let nodes = nodes_of(n);
    let readers = packed_readers_of(alloc, n)?;
    let sources = sources_of(alloc, n, &readers)?;
    let registers = registers(alloc, n)?;
    let outputs = outputs_of(alloc, n)?;
    let ends = ends_of(alloc, registers.as_slice(), outputs.as_slice())?;
    let order = order_of(alloc, n)?;
    let ranks = ranks_of(alloc, order.as_slice(), nodes)?;
    let whole = whole_groups(alloc, &sources, nodes)?;
    let alone = alone_in(alloc, whole.as_slice())?;
    Ok(Circuit {
        readers,
        sources,
        registers,
        outputs,
        ends,
        order,
        ranks,
        whole,
        alone,
    })
}
