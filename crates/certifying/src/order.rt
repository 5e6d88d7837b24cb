//! An order of copies in which each stands behind those that it reads, or a loop.
ghost use Rattle.std.specs.Prelude.{◌≡◌, ◌<◌, ◌≤◌, ◌+◌, length, All, IfOk, IfErr, OnOk, Some};
ghost use Rattle.flat_net.specs.Net.{Net, net_count};
ghost use Rattle.certificate.specs.Cert.{Fits};
ghost use Rattle.certifying.specs.Causes.{IsPlaced};

use crate::NoCertificate;
use certificate::{Certificate, Role};
use flat_net::{FlatNet, nodes_of};
use graph::{Graph, Sorted, order_or_cycle};
use std::alloc::Global;
use tmr_base::{NetId, OutOfMemory};

/// Puts the place of hardened net p among the nodes, if it is a copy.
fn put_copy(
    n: &FlatNet,
    h: &FlatNet,
    k: &Certificate,
    p: NetId,
    row: &mut Vec<u32>,
) -> Result<(), OutOfMemory>
    requires fits { Fits n.now.net h.now.net k.now }
    requires range { p.0 < net_count h.now.net }
{
    let inputs = h.input_count();
    if p.0 < inputs {
        return Ok(());
    }
    if let Role::Copy { .. } = k.role(p) {
        row.push(p.0 - inputs)?;
    }
    Ok(())
}

/// Puts into `row` the copies that hardened node g reads, if it is a copy.
fn copies_read(
    n: &FlatNet,
    h: &FlatNet,
    k: &Certificate,
    g: NetId,
    row: &mut Vec<u32>,
) -> Result<(), OutOfMemory>
    requires fits { Fits n.now.net h.now.net k.now }
    requires low { length h.now.net.inputs ≤ g.0 }
    requires high { g.0 < net_count h.now.net }
{
    row.clear();
    if let Role::Copy { .. } = k.role(g) {
        for j in 0..h.pin_count(g) {
            put_copy(n, h, k, h.pin(g, j), row)?;
        }
    }
    Ok(())
}

/// For each hardened node the copies that it reads, if it is a copy.
fn copy_rows(alloc: Global, n: &FlatNet, h: &FlatNet, k: &Certificate) -> Result<Graph, OutOfMemory>
    requires { Fits n.now.net h.now.net k.now }
    ensures { IfOk result (λ graph. length graph ≡ length h.now.net.nodes) }
{
    let inputs = h.input_count();
    let mut graph = Graph::new(alloc);
    let mut row = Vec::new(alloc);
    for i in 0..nodes_of(h) {
        copies_read(n, h, k, NetId(inputs + i), &mut row)?;
        graph.push(&row)?;
    }
    Ok(graph)
}

/// The hardened nodes, counted from 0, in an order in which each copy stands behind those that it reads; or copies
/// of which each reads the next, and the last the first.
pub fn order_of(
    alloc: Global,
    n: &FlatNet,
    h: &FlatNet,
    k: &Certificate,
) -> Result<Vec<u32>, NoCertificate>
    requires { Fits n.now.net h.now.net k.now }
    ensures { IfErr result (IsPlaced n.now.net h.now.net) }
{
    let graph = copy_rows(alloc, n, h, k)?;
    match order_or_cycle(alloc, &graph, nodes_of(h))? {
        Sorted::Order(order) => Ok(order),
        Sorted::Cycle(cycle) => Err(NoCertificate::Loop(cycle)),
    }
}
