//! The last pass: partitions that keep the rule of sizes, whatever was wanted.
ghost use Rattle.std.specs.Prelude.{◌≡◌, ◌<◌, ◌≤◌, ◌+◌, ◌*◌, ◌⊎◌, ◌++◌, ◌∷◌, [], ℕ, All, length, sum, take, slice_index, slice_index_or, IfOk, OnOk};
ghost use Rattle.std.specs.Int.{div_ceil};
ghost use Rattle.partitioner.specs.Sizes.{capacity, held, KeepsSize};
ghost use Rattle.clustering.specs.Private.Settling.{AreSettled, IsPut, KeepsRoom, StandsBy};

use crate::numberings::numbering_of;
use crate::numbers::at;
use flat_net::{FlatNet, nodes_of};
use std::alloc::Global;
use tmr_base::{OutOfMemory, Parts};

/// The most nodes that a partition may hold.
pub fn room_of(size: u32) -> u64
    ensures { result ≡ capacity size }
{
    u64::from(size) + u64::from(size / 4)
}

#[tactic(auto, using(crate::proofs::SettleLaws::enough_parts))]
/// How many partitions there are: as many as are wanted, if they have room for all nodes and the size asks for no fewer; else as many
/// as the size asks for.
pub fn part_count(nodes: u32, size: u32, wanted: u32) -> u32
    requires { 0 < size }
    ensures few { result ≤ div_ceil nodes size }
    ensures enough { nodes ≤ capacity size * result }
    ensures wanted { wanted < div_ceil nodes size → nodes ≤ capacity size * wanted → result ≡ wanted }
    ensures one { (result ≡ wanted) ⊎ (result ≡ div_ceil nodes size) }
{
    let most = nodes.div_ceil(size);
    if wanted < most && u64::from(nodes) <= room_of(size).saturating_mul(u64::from(wanted)) {
        wanted
    } else {
        most
    }
}

#[tactic(auto, using(crate::proofs::SettleLaws::full_sum))]
/// The first partition from `from` on that holds fewer than `room` nodes.
fn first_free(holds: &[u32], room: u64, from: usize) -> usize
    requires keeps { KeepsRoom room from holds.now }
    requires some { sum holds.now < room * length holds.now }
    ensures within { result < length holds.now }
    ensures free { slice_index holds.now result < room }
    ensures keeps { KeepsRoom room result holds.now }
{
    let mut p = from;
    while p < holds.len() && u64::from(holds[p]) >= room {
        p += 1;
    }
    p
}

/// The wanted partition, if there is such a one and it holds fewer than `room` nodes; else the free one.
fn part_for(holds: &[u32], room: u64, wanted: u32, free: usize) -> usize
    requires within { free < length holds.now }
    requires free { slice_index holds.now free < room }
    ensures within { result < length holds.now }
    ensures free { slice_index holds.now result < room }
    ensures wanted { wanted < length holds.now → slice_index holds.now wanted < room → result ≡ wanted }
    ensures other { (wanted < length holds.now → room ≤ slice_index holds.now wanted) → result ≡ free }
{
    let wanted = wanted as usize;
    if wanted < holds.len() && u64::from(holds[wanted]) < room {
        wanted
    } else {
        free
    }
}

#[tactic(auto, using(crate::proofs::SettleLaws::one_settled, crate::proofs::SettleLaws::one_kept))]
/// Puts the next node into partition p, which holds fewer than `room`.
fn put_node(
    of: &mut Vec<u32>,
    holds: &mut Vec<u32>,
    room: u64,
    first: usize,
    p: usize,
) -> Result<(), OutOfMemory>
    requires settled { AreSettled of.old.items holds.old.items }
    requires keeps { KeepsRoom room first holds.old.items }
    requires within { p < length holds.old.items }
    requires free { slice_index holds.old.items p < room }
    requires few { length of.old.items < 4294967295 }
    requires parts { length holds.old.items < 4294967296 }
    ensures settled { OnOk result (AreSettled of.new.items holds.new.items) }
    ensures keeps { OnOk result (KeepsRoom room first holds.new.items) }
    ensures put { OnOk result (of.new.items ≡ of.old.items ++ p ∷ []) }
    ensures more { OnOk result (length of.new.items ≡ length of.old.items + 1) }
    ensures parts { length holds.new.items ≡ length holds.old.items }
{
    of.push(p as u32)?;
    holds[p] += 1;
    Ok(())
}

/// Puts the next node into the wanted partition, or where there is room. Gives the first partition that was not full.
fn settle_node(
    of: &mut Vec<u32>,
    holds: &mut Vec<u32>,
    room: u64,
    from: usize,
    wanted: u32,
) -> Result<usize, OutOfMemory>
    requires settled { AreSettled of.old.items holds.old.items }
    requires keeps { KeepsRoom room from holds.old.items }
    requires some { length of.old.items < room * length holds.old.items }
    requires few { length of.old.items < 4294967295 }
    requires parts { length holds.old.items < 4294967296 }
    ensures settled { OnOk result (AreSettled of.new.items holds.new.items) }
    ensures keeps { IfOk result (λ first. KeepsRoom room first holds.new.items) }
    ensures put { OnOk result (IsPut room (length holds.old.items) wanted of.old.items of.new.items) }
    ensures more { OnOk result (length of.new.items ≡ length of.old.items + 1) }
    ensures parts { length holds.new.items ≡ length holds.old.items }
{
    let first = first_free(holds.as_slice(), room, from);
    let p = part_for(holds.as_slice(), room, wanted, first);
    put_node(of, holds, room, first, p)?;
    Ok(first)
}

/// The partition of each node: the wanted one while there is room, else the first that has room.
pub fn settled(
    alloc: Global,
    wanted: &[u32],
    nodes: u32,
    size: u32,
    parts: u32,
) -> Result<Vec<u32>, OutOfMemory>
    requires enough { nodes ≤ capacity size * parts }
    requires few { nodes < 4294967295 }
    ensures each { IfOk result (λ of. length of.items ≡ nodes) }
    ensures in_range { IfOk result (λ of. All (λ p. p < parts) of.items) }
    ensures held_few { IfOk result (λ of. (p : ℕ) → p < parts → held of.items p ≤ capacity size) }
    ensures stands { IfOk result (λ of. (i : ℕ) → i < nodes → StandsBy (capacity size) parts (slice_index_or wanted.now i 0) (take i of.items) (slice_index of.items i)) }
{
    let room = room_of(size);
    let mut holds = vec![in alloc; 0u32; parts as usize]?;
    let mut of = Vec::with_capacity(alloc, nodes as usize)?;
    let mut first = 0;
    for i in 0..nodes {
        first = settle_node(&mut of, &mut holds, room, first, at(wanted, i))?;
    }
    Ok(of)
}

/// Partitions that keep the rule of sizes. Each node stands in the wanted partition while there is room, else in the first that has room.
/// The partitions are numbered anew in the order of their first nodes, so none is empty where the wanted ones keep the rule.
pub fn settled_parts(
    alloc: Global,
    n: &FlatNet,
    wanted: &[u32],
    size: u32,
) -> Result<Parts, OutOfMemory>
    requires { 0 < size }
    ensures { IfOk result (λ parts. KeepsSize n.now.net size parts) }
{
    let nodes = nodes_of(n);
    let used = numbering_of(alloc, wanted)?;
    let parts = part_count(nodes, size, used.count);
    let of = settled(alloc, used.of.as_slice(), nodes, size, parts)?;
    Ok(Parts::make(parts, of))
}
