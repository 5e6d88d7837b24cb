//! What a hardened node must be for its role.
ghost use Rattle.std.specs.Prelude.{◌≡◌, ◌↔◌, ◌+◌, ◌<◌, ◌≤◌, length, IsTrue};
ghost use Rattle.flat_net.specs.Net.{net_count, node_of};
ghost use Rattle.flat_net.specs.Free.{node_bit};
ghost use Rattle.certificate.specs.Cert.{Fits};
ghost use Rattle.certificate.specs.Rules.{CopiesTable, CopiesRegister, Votes, LabelReaches};
ghost use Rattle.validator.specs.Sides.{net_in, marks_in};

use crate::reading::{count, is_copy, pins_read, reads};
use crate::side::Side;
use certificate::Certificate;
use flat_net::{FlatNet, Kind};
use tmr_base::{CopyNo, NetId, PartId};

/// A copy of a table x is a table that copies it.
pub fn copies_table(
    n: &FlatNet,
    h: &FlatNet,
    c: &Certificate,
    g: NetId,
    x: NetId,
    p: PartId,
    d: CopyNo,
) -> bool
    requires fits { Fits n.now.net h.now.net c.now }
    requires g_low { length h.now.net.inputs ≤ g.0 }
    requires g_high { g.0 < net_count h.now.net }
    requires x_low { length n.now.net.inputs ≤ x.0 }
    requires x_high { x.0 < net_count n.now.net }
    ensures { IsTrue result ↔ CopiesTable c.now (node_of n.now.net x.0) (node_of h.now.net g.0) p.0 d }
{
    if n.kind(x) != Kind::Table {
        return true;
    }
    if h.kind(g) != Kind::Table {
        return false;
    }
    h.cover(g).same(n.cover(x)) && pins_read(n, h, c, g, x, p, d)
}

/// A copy of a register x is a register that copies it, and marked as x is.
pub fn copies_register(
    original: Side<'_>,
    hardened: Side<'_>,
    c: &Certificate,
    g: NetId,
    x: NetId,
    p: PartId,
    d: CopyNo,
) -> bool
    requires fits { Fits (net_in original) (net_in hardened) c.now }
    requires g_low { length (net_in hardened).inputs ≤ g.0 }
    requires g_high { g.0 < net_count (net_in hardened) }
    requires x_low { length (net_in original).inputs ≤ x.0 }
    requires x_high { x.0 < net_count (net_in original) }
    ensures { IsTrue result ↔ CopiesRegister c.now (node_of (net_in original.entry) x.0) (node_bit (length (net_in original.entry).inputs) (marks_in original.entry) x.0)
        (node_of (net_in hardened.entry) g.0) (node_bit (length (net_in hardened.entry).inputs) (marks_in hardened.entry) g.0) p.0 d }
{
    let n = original.net();
    let h = hardened.net();
    if n.kind(x) != Kind::Register {
        return true;
    }
    if h.kind(g) != Kind::Register {
        return false;
    }
    h.init(g) == n.init(x)
        && hardened.is_free(g) == original.is_free(x)
        && reads(n, h, c, h.pin(g, 0), n.pin(x, 0), p, d)
}

/// g is a table that votes on the three copies of x.
pub fn votes(n: &FlatNet, h: &FlatNet, c: &Certificate, g: NetId, x: NetId) -> bool
    requires fits { Fits n.now.net h.now.net c.now }
    requires g_low { length h.now.net.inputs ≤ g.0 }
    requires g_high { g.0 < net_count h.now.net }
    requires x { x.0 < net_count n.now.net }
    ensures { IsTrue result ↔ Votes c.now (node_of h.now.net g.0) x.0 }
{
    h.kind(g) == Kind::Table
        && h.pin_count(g) == 3
        && is_copy(n, c, h.pin(g, 0), x, CopyNo::First)
        && is_copy(n, c, h.pin(g, 1), x, CopyNo::Second)
        && is_copy(n, c, h.pin(g, 2), x, CopyNo::Third)
        && h.cover(g).is_majority()
}

/// The label reaches what the pins of g want.
pub fn reaches(h: &FlatNet, c: &Certificate, g: NetId, label: u32) -> bool
    requires inputs { c.now.hardened_inputs ≡ length h.now.net.inputs }
    requires nodes { length c.now.roles ≡ length h.now.net.nodes }
    requires g_low { length h.now.net.inputs ≤ g.0 }
    requires g_high { g.0 < net_count h.now.net }
    ensures { IsTrue result ↔ LabelReaches c.now (node_of h.now.net g.0) label }
{
    if h.kind(g) == Kind::Register {
        return count(h, c, h.pin(g, 0)) < label;
    }
    for j in 0..h.pin_count(g) {
        if count(h, c, h.pin(g, j)) > label {
            return false;
        }
    }
    true
}
