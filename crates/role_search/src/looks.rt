//! What nodes look like without their pins.
ghost use Rattle.std.specs.Prelude.{◌<◌};
ghost use Rattle.flat_net.specs.Net.{net_count};

use crate::pins::place;
use flat_net::{FlatNet, FreeNet, Kind, nodes_of};
use std::alloc::Global;
use table_cover::Cover;
use tmr_base::{NetId, OutOfMemory};

/// A number for each node of both designs, that two nodes share that have the same kind, rows or initial value, and
/// mark, if the version counts it; others seldom share one. And whether a hardened node has the value of a majority.
#[derive(Drop)]
pub struct Looks {
    original: Vec<u64>,
    hardened: Vec<u64>,
    majority: Vec<bool>,
    inputs_are_voted: bool,
}

/// One more number in a hash.
pub fn mixed(hash: u64, more: u64) -> u64 {
    let turned = (hash ^ more).wrapping_mul(0x9e37_79b9_7f4a_7c15);
    turned ^ (turned >> 29)
}

/// A hash of some marks.
fn hash_of_row(hash: u64, row: &[u8]) -> u64 {
    let mut hash = hash;
    for mark in row {
        hash = mixed(hash, u64::from(*mark));
    }
    hash
}

/// A hash of a cover.
fn hash_of_cover(cover: &Cover) -> u64 {
    let mut hash = mixed(u64::from(cover.width()), if cover.is_on() { 3 } else { 2 });
    for i in 0..cover.row_count() {
        hash = hash_of_row(mixed(hash, 5), cover.row(i));
    }
    hash
}

/// A hash of what node x is, without its pins.
fn hash_of_node(n: &FreeNet, x: NetId, marks_count: bool) -> u64
    requires { x.0 < net_count n.now.design.net }
{
    let net = n.net();
    match net.kind(x) {
        Kind::Input => 0,
        Kind::Table => hash_of_cover(net.cover(x)),
        Kind::Register => {
            let init = if net.init(x) { 11 } else { 7 };
            mixed(init, if marks_count && n.is_free(x) { 17 } else { 13 })
        }
    }
}

/// A hash for each node.
fn hashes(alloc: Global, n: &FreeNet, marks_count: bool) -> Result<Vec<u64>, OutOfMemory> {
    let count = nodes_of(n.net());
    let inputs = n.net().input_count();
    let mut hashes = Vec::with_capacity(alloc, count as usize)?;
    for i in 0..count {
        hashes.push(hash_of_node(n, NetId(inputs + i), marks_count))?;
    }
    Ok(hashes)
}

/// Whether node x has the value of a majority.
fn is_majority(h: &FlatNet, x: NetId) -> bool
    requires { x.0 < net_count h.now.net }
{
    if h.kind(x) != Kind::Table {
        return false;
    }
    h.cover(x).is_majority()
}

/// Whether each node has the value of a majority.
fn majorities(alloc: Global, h: &FlatNet) -> Result<Vec<bool>, OutOfMemory> {
    let count = nodes_of(h);
    let inputs = h.input_count();
    let mut bits = Vec::with_capacity(alloc, count as usize)?;
    for i in 0..count {
        bits.push(is_majority(h, NetId(inputs + i)))?;
    }
    Ok(bits)
}

/// The entry at a place, where both are there.
fn entry(hashes: &[u64], at: Option<usize>) -> Option<u64> {
    match at {
        Some(i) => hashes.get(i).copied(),
        None => None,
    }
}

impl Looks {
    /// What the nodes of both designs look like. In version 2 marks count, and inputs are voted.
    pub fn of(alloc: Global, n: &FreeNet, h: &FreeNet, version: u8) -> Result<Looks, OutOfMemory> {
        let inputs_are_voted = version == 2;
        let original = hashes(alloc, n, inputs_are_voted)?;
        let hardened = hashes(alloc, h, inputs_are_voted)?;
        let majority = majorities(alloc, h.net())?;
        Ok(Looks {
            original,
            hardened,
            majority,
            inputs_are_voted,
        })
    }

    /// Original node x and hardened node g look alike.
    pub fn is_alike(&self, n: &FlatNet, h: &FlatNet, x: NetId, g: NetId) -> bool {
        match (
            entry(self.original.as_slice(), place(n, x)),
            entry(self.hardened.as_slice(), place(h, g)),
        ) {
            (Some(a), Some(b)) => a == b,
            _ => false,
        }
    }

    /// Hardened node g has the value of a majority.
    pub fn is_majority(&self, h: &FlatNet, g: NetId) -> bool {
        match place(h, g) {
            Some(i) => matches!(self.majority.get(i), Some(true)),
            None => false,
        }
    }

    /// What original node i looks like, counted from 0.
    pub fn original(&self, i: usize) -> u64 {
        self.original.get(i).copied().unwrap_or(0)
    }

    /// What hardened node i looks like, counted from 0.
    pub fn hardened(&self, i: usize) -> u64 {
        self.hardened.get(i).copied().unwrap_or(0)
    }

    /// Pins that read inputs are voted, as version 2 has it.
    pub fn inputs_are_voted(&self) -> bool {
        self.inputs_are_voted
    }
}
