//! What a hardened net stands for, and what it counts.
ghost use Rattle.std.specs.Prelude.{◌≡◌, ◌↔◌, ◌+◌, ◌<◌, ◌≤◌, length, IsTrue};
ghost use Rattle.tmr_base.specs.Copies.{copy_number};
ghost use Rattle.flat_net.specs.Net.{net_count, node_of, pins_at};
ghost use Rattle.certificate.specs.Cert.{Fits, copy_of, count_of};
ghost use Rattle.certificate.specs.Reads.{Reads};
ghost use Rattle.certificate.specs.Rules.{PinsRead};

use certificate::{Certificate, Role};
use flat_net::FlatNet;
use tmr_base::{CopyNo, NetId, PartId};

/// The copy with this number.
pub fn copy_at(number: u32) -> CopyNo
    requires { number < 3 }
    ensures { copy_number result ≡ number }
{
    match number {
        0 => CopyNo::First,
        1 => CopyNo::Second,
        _ => CopyNo::Third,
    }
}

/// Hardened net g is copy d of original net x.
#[tactic(auto, using(flat_net::proofs::Slots::slot_below))]
pub fn is_copy(n: &FlatNet, c: &Certificate, g: NetId, x: NetId, d: CopyNo) -> bool
    requires inputs { c.now.original_inputs ≡ length n.now.net.inputs }
    requires nodes { length c.now.part ≡ length n.now.net.nodes }
    requires x { x.0 < net_count n.now.net }
    ensures { IsTrue result ↔ (g.0 ≡ copy_of c.now x.0 d) }
{
    if x.0 < n.input_count() {
        u64::from(g.0) == 3 * u64::from(x.0) + u64::from(d.number())
    } else {
        g == c.copy(x, d)
    }
}

/// Hardened net g reads x for partition p and copy d.
#[tactic(auto, using(flat_net::proofs::Slots::slot_below))]
pub fn reads(
    n: &FlatNet,
    h: &FlatNet,
    c: &Certificate,
    g: NetId,
    x: NetId,
    p: PartId,
    d: CopyNo,
) -> bool
    requires fits { Fits n.now.net h.now.net c.now }
    requires g { g.0 < net_count h.now.net }
    requires x { x.0 < net_count n.now.net }
    ensures { IsTrue result ↔ Reads c.now g.0 x.0 p.0 d }
{
    if g.0 < c.hardened_inputs() {
        return c.version() == 1
            && x.0 < n.input_count()
            && u64::from(g.0) == 3 * u64::from(x.0) + u64::from(d.number());
    }
    match c.role(g) {
        Role::Copy { node, copy } => node == x && copy == d && c.part(node) == p,
        Role::Voter { node, part, copy } => node == x && part == p && copy == d,
    }
}

/// A copy's label, and 0 for an input or a voter.
#[tactic(auto, using(flat_net::proofs::Slots::slot_below))]
pub fn count(h: &FlatNet, c: &Certificate, g: NetId) -> u32
    requires inputs { c.now.hardened_inputs ≡ length h.now.net.inputs }
    requires nodes { length c.now.roles ≡ length h.now.net.nodes }
    requires g { g.0 < net_count h.now.net }
    ensures { result ≡ count_of c.now g.0 }
{
    if g.0 < c.hardened_inputs() {
        return 0;
    }
    match c.role(g) {
        Role::Copy { node, copy } => c.label(node, copy),
        Role::Voter { .. } => 0,
    }
}

/// Each pin of g reads the pin of x at its place.
pub fn pins_read(
    n: &FlatNet,
    h: &FlatNet,
    c: &Certificate,
    g: NetId,
    x: NetId,
    p: PartId,
    d: CopyNo,
) -> bool
    requires fits { Fits n.now.net h.now.net c.now }
    requires g_low { length h.now.net.inputs ≤ g.0 }
    requires g_high { g.0 < net_count h.now.net }
    requires x_low { length n.now.net.inputs ≤ x.0 }
    requires x_high { x.0 < net_count n.now.net }
    requires long { length (pins_at (node_of h.now.net g.0)) ≡ length (pins_at (node_of n.now.net x.0)) }
    ensures { IsTrue result ↔ PinsRead c.now (pins_at (node_of h.now.net g.0)) (pins_at (node_of n.now.net x.0)) p.0 d }
{
    for j in 0..n.pin_count(x) {
        if !reads(n, h, c, h.pin(g, j), n.pin(x, j), p, d) {
            return false;
        }
    }
    true
}
