//! Why a hardened node does not do what its role wants.
ghost use Rattle.std.specs.Prelude.{◌≡◌, ◌+◌, ◌<◌, ◌≤◌, length, IfSome, IfNone};
ghost use Rattle.flat_net.specs.Net.{Net, net_count, node_of, pins_at};
ghost use Rattle.certificate.specs.Cert.{Fits, label_of, depth_of};
ghost use Rattle.certificate.specs.Rules.{CopiesTable, CopiesRegister, LabelReaches};
ghost use Rattle.explaining.specs.Reasons.{TableFails, RegisterFails, LabelFails, DepthFails};
ghost use Rattle.explaining.specs.Private.Pieces.{HasNets, mark_in, AllReach, PinLabelFails};

use crate::covers::cover_reason;
use crate::marks::is_free;
use crate::pins::pin_reason;
use crate::reason::Reason;
use certificate::Certificate;
use flat_net::{FlatNet, FreeNet, Kind};
use tmr_base::{CopyNo, NetId, PartId};
use validator::reading::count;

/// Why g does not copy a table x.
#[tactic(auto, using(crate::proofs::Differs::tables))]
pub fn table_reason<'a>(
    n: &'a FlatNet,
    h: &'a FlatNet,
    c: &Certificate,
    g: NetId,
    x: NetId,
    p: PartId,
    d: CopyNo,
) -> Option<Reason<'a>>
    requires fits { Fits n.now.net h.now.net c.now }
    requires g_low { length h.now.net.inputs ≤ g.0 }
    requires g_high { g.0 < net_count h.now.net }
    requires x_low { length n.now.net.inputs ≤ x.0 }
    requires x_high { x.0 < net_count n.now.net }
    ensures none { IfNone result (CopiesTable c.now (node_of n.entry.now.net x.0) (node_of h.entry.now.net g.0) p.0 d) }
    ensures some { IfSome result (TableFails c.now (node_of n.entry.now.net x.0) (node_of h.entry.now.net g.0) p.0 d) }
    ensures nets { IfSome result (HasNets n.entry.now.net h.entry.now.net) }
{
    if n.kind(x) != Kind::Table {
        return None;
    }
    if h.kind(g) != Kind::Table {
        return Some(Reason::IsRegister);
    }
    match cover_reason(h.cover(g), n.cover(x)) {
        Some(reason) => Some(reason),
        None => pin_reason(n, h, c, g, x, p, d),
    }
}

/// Why g does not copy a register x.
#[tactic(auto, using(crate::proofs::Differs::registers))]
pub fn register_reason<'a>(
    original: &FreeNet,
    hardened: &FreeNet,
    c: &Certificate,
    g: NetId,
    x: NetId,
    p: PartId,
    d: CopyNo,
) -> Option<Reason<'a>>
    requires fits { Fits original.now.design.net hardened.now.design.net c.now }
    requires g_low { length hardened.now.design.net.inputs ≤ g.0 }
    requires g_high { g.0 < net_count hardened.now.design.net }
    requires x_low { length original.now.design.net.inputs ≤ x.0 }
    requires x_high { x.0 < net_count original.now.design.net }
    ensures none { IfNone result (CopiesRegister c.now (node_of original.now.design.net x.0) (mark_in original.now c.now x.0) (node_of hardened.now.design.net g.0) (mark_in hardened.now c.now g.0) p.0 d) }
    ensures some { IfSome result (RegisterFails c.now (node_of original.now.design.net x.0) (mark_in original.now c.now x.0) (node_of hardened.now.design.net g.0) (mark_in hardened.now c.now g.0) p.0 d) }
    ensures nets { IfSome result (HasNets original.now.design.net hardened.now.design.net) }
{
    let n = original.net();
    let h = hardened.net();
    if n.kind(x) != Kind::Register {
        return None;
    }
    if h.kind(g) != Kind::Register {
        return Some(Reason::IsTable);
    }
    let copy_free = is_free(hardened, c, g);
    let free = is_free(original, c, x);
    if h.init(g) != n.init(x) || copy_free != free {
        return Some(Reason::Initial {
            is: h.init(g),
            is_free: copy_free,
            wanted: n.init(x),
            wanted_free: free,
        });
    }
    pin_reason(n, h, c, g, x, p, d)
}

/// The first pin of g that wants a label above this one. Each wants what its net counts, and `more`.
fn first_low<'a>(
    h: &FlatNet,
    c: &Certificate,
    g: NetId,
    more: u32,
    label: u32,
) -> Option<Reason<'a>>
    requires inputs { c.now.hardened_inputs ≡ length h.now.net.inputs }
    requires nodes { length c.now.roles ≡ length h.now.net.nodes }
    requires g { g.0 < net_count h.now.net }
    ensures none { IfNone result (AllReach c.now (pins_at (node_of h.now.net g.0)) more label) }
    ensures some { IfSome result (PinLabelFails c.now (pins_at (node_of h.now.net g.0)) more label) }
    ensures nets { (n : Net) → IfSome result (HasNets n h.now.net) }
{
    for pin in 0..h.pin_count(g) {
        let net = h.pin(g, pin);
        let count = count(h, c, net);
        let wants = u64::from(count) + u64::from(more);
        if wants > u64::from(label) {
            return Some(Reason::LowLabel {
                label,
                wants,
                net,
                count,
            });
        }
    }
    None
}

/// Why the label does not reach what the pins of g want.
#[tactic(auto, using(crate::proofs::Differs::labels))]
pub fn label_reason<'a>(h: &FlatNet, c: &Certificate, g: NetId, label: u32) -> Option<Reason<'a>>
    requires inputs { c.now.hardened_inputs ≡ length h.now.net.inputs }
    requires nodes { length c.now.roles ≡ length h.now.net.nodes }
    requires g_low { length h.now.net.inputs ≤ g.0 }
    requires g_high { g.0 < net_count h.now.net }
    ensures none { IfNone result (LabelReaches c.now (node_of h.now.net g.0) label) }
    ensures some { IfSome result (LabelFails c.now (node_of h.now.net g.0) label) }
    ensures nets { (n : Net) → IfSome result (HasNets n h.now.net) }
{
    if h.kind(g) == Kind::Table {
        first_low(h, c, g, 0, label)
    } else {
        first_low(h, c, g, 1, label)
    }
}

/// Why the label of copy d of x is not within the depth of partition p.
pub fn depth_reason<'a>(c: &Certificate, x: NetId, d: CopyNo, p: PartId) -> Option<Reason<'a>>
    requires low { c.now.original_inputs ≤ x.0 }
    requires high { x.0 < c.now.original_inputs + length c.now.part }
    requires part { p.0 < length c.now.depth }
    ensures none { IfNone result (label_of c.now x.0 d ≤ depth_of c.now p.0) }
    ensures some { IfSome result (DepthFails c.now x.0 d p.0) }
    ensures nets { (n h : Net) → IfSome result (HasNets n h) }
{
    let label = c.label(x, d);
    let depth = c.depth(p);
    if label <= depth {
        return None;
    }
    Some(Reason::DeepLabel {
        label,
        depth,
        part: p,
    })
}
