//! Why a voter does not vote.
ghost use Rattle.std.specs.Prelude.{◌≡◌, ◌+◌, ◌*◌, ◌<◌, ◌≤◌, length, [], ◌∷◌, IfSome, IfNone};
ghost use Rattle.tmr_base.specs.Copies.{copy_number};
ghost use Rattle.tmr_base.specs.declared.copies.CopyNo.TheVariants.{First, Second, Third};
ghost use Rattle.table_cover.specs.Cover.{IsMajority};
ghost use Rattle.flat_net.specs.Net.{Net, net_count, node_of, pins_at};
ghost use Rattle.certificate.specs.Cert.{Fits, copy_of};
ghost use Rattle.certificate.specs.Rules.{Votes};
ghost use Rattle.explaining.specs.Reasons.{VoterFails, bits_number};
ghost use Rattle.explaining.specs.Private.Pieces.{HasNets, VoterPinReason, MinorityReason};

use crate::reason::Reason;
use certificate::Certificate;
use flat_net::{FlatNet, Kind};
use table_cover::{Cover, majority};
use tmr_base::NetId;
use validator::reading::{copy_at, is_copy};

/// The first of three pins that reads another net than its copy of x.
#[tactic(auto, using(crate::proofs::Differs::copies_read, crate::proofs::Differs::next_copy))]
fn pin_reason<'a>(
    n: &FlatNet,
    h: &FlatNet,
    c: &Certificate,
    g: NetId,
    x: NetId,
) -> Option<Reason<'a>>
    requires fits { Fits n.now.net h.now.net c.now }
    requires g { g.0 < net_count h.now.net }
    requires x { x.0 < net_count n.now.net }
    requires three { length (pins_at (node_of h.now.net g.0)) ≡ 3 }
    ensures none { IfNone result (pins_at (node_of h.now.net g.0) ≡ copy_of c.now x.0 First ∷ copy_of c.now x.0 Second ∷ copy_of c.now x.0 Third ∷ []) }
    ensures some { IfSome result (VoterPinReason c.now x.0 (pins_at (node_of h.now.net g.0))) }
    ensures nets { IfSome result (HasNets n.now.net h.now.net) }
{
    for pin in 0..3u32 {
        let net = h.pin(g, pin);
        let copy = copy_at(pin);
        if !is_copy(n, c, net, x, copy) {
            return Some(Reason::VoterPin { net, node: x, copy });
        }
    }
    None
}

/// The three bits that write the number.
fn bits(number: u32) -> (bool, bool, bool)
    requires { number < 8 }
    ensures { bits_number result.0 result.1 result.2 ≡ number }
{
    match number {
        0 => (false, false, false),
        1 => (false, false, true),
        2 => (false, true, false),
        3 => (false, true, true),
        4 => (true, false, false),
        5 => (true, false, true),
        6 => (true, true, false),
        _ => (true, true, true),
    }
}

/// The first three bits of which the cover does not give the majority.
#[tactic(auto, using(crate::proofs::Differs::votes_on_all, crate::proofs::Differs::next_vote))]
fn minority<'a>(cover: &Cover) -> Option<Reason<'a>>
    requires { cover.now.width ≡ 3 }
    ensures none { IfNone result (IsMajority cover.now) }
    ensures some { IfSome result (MinorityReason cover.now) }
    ensures nets { (n h : Net) → IfSome result (HasNets n h) }
{
    for number in 0..8u32 {
        let (first, second, third) = bits(number);
        if cover.value(&[first, second, third]) != majority(first, second, third) {
            return Some(Reason::Minority {
                first,
                second,
                third,
            });
        }
    }
    None
}

/// Why g does not vote on the three copies of x.
#[tactic(auto, using(crate::proofs::Differs::votes))]
pub fn voter_reason<'a>(
    n: &FlatNet,
    h: &FlatNet,
    c: &Certificate,
    g: NetId,
    x: NetId,
) -> Option<Reason<'a>>
    requires fits { Fits n.now.net h.now.net c.now }
    requires g_low { length h.now.net.inputs ≤ g.0 }
    requires g_high { g.0 < net_count h.now.net }
    requires x { x.0 < net_count n.now.net }
    ensures none { IfNone result (Votes c.now (node_of h.now.net g.0) x.0) }
    ensures some { IfSome result (VoterFails c.now (node_of h.now.net g.0) x.0) }
    ensures nets { IfSome result (HasNets n.now.net h.now.net) }
{
    if h.kind(g) != Kind::Table {
        return Some(Reason::IsRegister);
    }
    if h.pin_count(g) != 3 {
        return Some(Reason::PinCount {
            is: h.pin_count(g),
            wanted: 3,
        });
    }
    match pin_reason(n, h, c, g, x) {
        Some(reason) => Some(reason),
        None => minority(h.cover(g)),
    }
}
