//! The first pin that reads what it must not.
ghost use Rattle.std.specs.Prelude.{◌≡◌, ◌+◌, ◌<◌, ◌≤◌, length, IfSome, IfNone};
ghost use Rattle.flat_net.specs.Net.{net_count, node_of, pins_at};
ghost use Rattle.certificate.specs.Cert.{Fits};
ghost use Rattle.certificate.specs.Rules.{PinsRead};
ghost use Rattle.explaining.specs.Reasons.{PinFails};
ghost use Rattle.explaining.specs.Private.Pieces.{HasNets};

use crate::reason::Reason;
use certificate::Certificate;
use flat_net::FlatNet;
use tmr_base::{CopyNo, NetId, PartId};
use validator::reading::reads;

/// The first pin of g that does not read the pin of x at its place for partition p and copy d.
pub fn pin_reason<'a>(
    n: &FlatNet,
    h: &FlatNet,
    c: &Certificate,
    g: NetId,
    x: NetId,
    p: PartId,
    d: CopyNo,
) -> Option<Reason<'a>>
    requires fits { Fits n.now.net h.now.net c.now }
    requires g_high { g.0 < net_count h.now.net }
    requires x_high { x.0 < net_count n.now.net }
    requires long { length (pins_at (node_of h.now.net g.0)) ≡ length (pins_at (node_of n.now.net x.0)) }
    ensures none { IfNone result (PinsRead c.now (pins_at (node_of h.now.net g.0)) (pins_at (node_of n.now.net x.0)) p.0 d) }
    ensures some { IfSome result (PinFails c.now (pins_at (node_of h.now.net g.0)) (pins_at (node_of n.now.net x.0)) p.0 d) }
    ensures nets { IfSome result (HasNets n.now.net h.now.net) }
{
    for pin in 0..n.pin_count(x) {
        let net = h.pin(g, pin);
        let node = n.pin(x, pin);
        if !reads(n, h, c, net, node, p, d) {
            return Some(Reason::Pin {
                pin,
                net,
                node,
                part: p,
                copy: d,
            });
        }
    }
    None
}
