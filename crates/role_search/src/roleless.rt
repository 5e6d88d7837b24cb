//! The hardened nodes that have no role yet, by what they read.
ghost use Rattle.std.specs.Prelude.{◌≡◌, length, IfOk};

use crate::found::FoundRoles;
use crate::pins::{node, pin, pin_count};
use flat_net::{FlatNet, nodes_of};
use graph::{Graph, readers_of};
use std::alloc::Global;
use tmr_base::{NetId, OutOfMemory};

/// The hardened nodes that had no role, by what they read.
#[derive(Drop)]
pub struct Roleless {
    /// For each hardened node, those that read it and had no role.
    readers: Graph,
    /// For each hardened node how many of its pins read nodes that still have no role.
    missing: Vec<u32>,
    /// Those of which no pin reads such a node any more.
    ready: Vec<u32>,
}

/// Puts into `row` the places of the nodes without a role that hardened node g reads.
fn unknown_reads(
    h: &FlatNet,
    found: &FoundRoles,
    g: NetId,
    row: &mut Vec<u32>,
) -> Result<(), OutOfMemory> {
    row.clear();
    if found.role(h, g).is_some() {
        return Ok(());
    }
    for j in 0..pin_count(h, g) {
        if let Some(p) = pin(h, g, j) {
            put_unknown(h, found, p, row)?;
        }
    }
    Ok(())
}

/// Puts the place of node p, if it has no role.
fn put_unknown(
    h: &FlatNet,
    found: &FoundRoles,
    p: NetId,
    row: &mut Vec<u32>,
) -> Result<(), OutOfMemory> {
    let inputs = h.input_count();
    if inputs <= p.0 && found.role(h, p).is_none() {
        row.push(p.0 - inputs)?;
    }
    Ok(())
}

/// For each hardened node without a role the nodes without a role that it reads.
fn unknown_rows(alloc: Global, h: &FlatNet, found: &FoundRoles) -> Result<Graph, OutOfMemory>
    ensures { IfOk result (λ graph. length graph ≡ length h.now.net.nodes) }
{
    let mut graph = Graph::new(alloc);
    let mut row = Vec::new(alloc);
    for i in 0..nodes_of(h) {
        unknown_reads(h, found, node(h, i), &mut row)?;
        graph.push(&row)?;
    }
    Ok(graph)
}

/// Row x, or an empty one.
fn row_of(graph: &Graph, x: u32) -> &[u32] {
    if (x as usize) < graph.count() {
        graph.row(x)
    } else {
        &[]
    }
}

/// How many pins of hardened node i read nodes without a role. One that has none and has no role itself is ready.
fn count_missing(
    rows: &Graph,
    found: &FoundRoles,
    i: u32,
    missing: &mut Vec<u32>,
    ready: &mut Vec<u32>,
) -> Result<(), OutOfMemory> {
    let count = row_of(rows, i).len();
    if count == 0 && found.role_at(i as usize).is_none() {
        ready.push(i)?;
    }
    missing.push(if count < 4294967296 { count as u32 } else { 0 })?;
    Ok(())
}

impl Roleless {
    /// The hardened nodes that have no role yet.
    pub fn of(alloc: Global, h: &FlatNet, found: &FoundRoles) -> Result<Roleless, OutOfMemory> {
        let rows = unknown_rows(alloc, h, found)?;
        let mut missing = Vec::new(alloc);
        let mut ready = Vec::new(alloc);
        for i in 0..nodes_of(h) {
            count_missing(&rows, found, i, &mut missing, &mut ready)?;
        }
        let readers = readers_of(alloc, &rows, nodes_of(h))?;
        let readers = readers.packed(alloc)?;
        Ok(Roleless {
            readers,
            missing,
            ready,
        })
    }

    /// One pin of hardened node i reads a node that has got a role.
    fn settle_pin(&mut self, i: u32) -> Result<(), OutOfMemory> {
        let at = i as usize;
        if at >= self.missing.len() || self.missing[at] == 0 {
            return Ok(());
        }
        let left = self.missing[at] - 1;
        self.missing[at] = left;
        if left == 0 {
            self.ready.push(i)?;
        }
        Ok(())
    }

    /// Hardened node g has got a role.
    pub fn settle(&mut self, h: &FlatNet, g: NetId) -> Result<(), OutOfMemory> {
        let inputs = h.input_count();
        if g.0 < inputs {
            return Ok(());
        }
        let x = g.0 - inputs;
        for j in 0..row_of(&self.readers, x).len() {
            let reader = row_of(&self.readers, x).get(j).copied();
            if let Some(i) = reader {
                self.settle_pin(i)?;
            }
        }
        Ok(())
    }

    /// The next hardened node, counted from 0, of which each pin reads something that has a role.
    pub fn next(&mut self) -> Option<u32> {
        self.ready.pop()
    }
}
