//! Partitions with shorter paths, from others.
ghost use Rattle.std.specs.Prelude.{◌≡◌, ◌<◌, ◌≤◌, ◌*◌, ◌+◌, List, ℕ, All, length, take, IfOk};
ghost use Rattle.node_reads.specs.Sources.{AreOtherReaders};
ghost use Rattle.partitioner.specs.Cost.{cost};
ghost use Rattle.partitioner.specs.Sizes.{KeepsSize};

use crate::design::{Circuit, circuit_of};
use crate::rounds::searched;
use clustering::settled_parts;
use flat_net::{FlatNet, nodes_of};
use graph::Graph;
use partitioner::cost_by;
use std::alloc::Global;
use tmr_base::{OutOfMemory, Parts};

/// The partition of each node.
fn parts_list(alloc: Global, parts: &Parts) -> Result<Vec<u32>, OutOfMemory>
    ensures same { IfOk result (λ of. of.items ≡ parts.now.of) }
    ensures in_range { IfOk result (λ of. All (λ q. q < parts.now.count) of.items) }
{
    let nodes = parts.len();
    let mut of = Vec::with_capacity(alloc, nodes as usize)?;
    for i in 0..nodes {
        of.push(parts.of(i))?;
    }
    Ok(of)
}

/// The same partitions.
fn copied(alloc: Global, parts: &Parts) -> Result<Parts, OutOfMemory>
    ensures { IfOk result (λ copy. copy ≡ parts.now) }
{
    let _nodes = parts.len();
    let of = parts_list(alloc, parts)?;
    Ok(Parts::make(parts.count(), of))
}

/// Partitions, and what they cost.
#[derive(Drop)]
pub struct CostedParts {
    pub parts: Parts,
    pub cost: u64,
}

/// The same as `shortened`, from what is looked up of this design, which is made once for many sizes. `before` is what the partitions cost
/// that are given.
pub fn shortened_from(
    alloc: Global,
    n: &FlatNet,
    readers: &Graph,
    circuit: &Circuit,
    parts: &Parts,
    size: u32,
    before: u64,
) -> Result<CostedParts, OutOfMemory>
    requires size { 0 < size }
    requires readers { AreOtherReaders n.now.net readers.now }
    requires parts { KeepsSize n.now.net size parts.now }
    requires before { before ≡ cost n.now.net parts.now }
    ensures size { IfOk result (λ found. KeepsSize n.now.net size found.parts) }
    ensures told { IfOk result (λ found. found.cost ≡ cost n.now.net found.parts) }
    ensures cost { IfOk result (λ found. 8 * found.cost ≤ 9 * before) }
{
    let start = parts_list(alloc, parts)?;
    let wanted = searched(alloc, circuit, start, parts.count(), size)?;
    let found = settled_parts(alloc, n, wanted.as_slice(), size)?;
    let now = cost_by(alloc, n, readers, &found)?;
    if now.saturating_sub(before) <= before / 8 {
        Ok(CostedParts {
            parts: found,
            cost: now,
        })
    } else {
        let parts = copied(alloc, parts)?;
        Ok(CostedParts {
            parts,
            cost: before,
        })
    }
}

/// Partitions that are sought so that fewer voters stand on the longest paths. They keep the rule of sizes, and cost at most nine eighths of those
/// given: where the search finds dearer ones, they are a copy of these.
pub fn shortened(alloc: Global, n: &FlatNet, parts: &Parts, size: u32) -> Result<Parts, OutOfMemory>
    requires size { 0 < size }
    requires parts { KeepsSize n.now.net size parts.now }
    ensures size { IfOk result (λ found. KeepsSize n.now.net size found) }
    ensures cost { IfOk result (λ found. 8 * cost n.now.net found ≤ 9 * cost n.now.net parts.now) }
{
    let circuit = circuit_of(alloc, n)?;
    let before = cost_by(alloc, n, &circuit.readers, parts)?;
    let found = shortened_from(alloc, n, &circuit.readers, &circuit, parts, size, before)?;
    Ok(found.parts)
}
