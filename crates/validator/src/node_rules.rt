//! The rules of single hardened nodes.
ghost use Rattle.std.specs.Prelude.{◌≡◌, ◌↔◌, ◌+◌, ◌<◌, ◌≤◌, length, IsTrue, IfSome};
ghost use Rattle.flat_net.specs.Net.{net_count};
ghost use Rattle.certificate.specs.Cert.{Fits};
ghost use Rattle.certificate.specs.Rules.{Rule3, Rule4, Rule5, Rule6, Rule7};
ghost use Rattle.validator.specs.FirstBad.{IsFirstBad};
ghost use Rattle.validator.specs.NodeRules.{NodeHolds};
ghost use Rattle.validator.specs.Sides.{net_in, marks_in};

use crate::copying::{copies_register, copies_table, reaches, votes};
use crate::side::Side;
use certificate::{Certificate, Role};
use flat_net::FlatNet;
use tmr_base::NetId;

/// Rule 3 at hardened net g.
fn rule_3(n: &FlatNet, h: &FlatNet, c: &Certificate, g: NetId) -> bool
    requires fits { Fits n.now.net h.now.net c.now }
    requires low { length h.now.net.inputs ≤ g.0 }
    requires high { g.0 < net_count h.now.net }
    ensures { IsTrue result ↔ Rule3 n.now.net h.now.net c.now g.0 }
{
    match c.role(g) {
        Role::Copy { node, copy } => copies_table(n, h, c, g, node, c.part(node), copy),
        Role::Voter { .. } => true,
    }
}

/// Rule 4 at hardened net g.
fn rule_4(n: Side<'_>, h: Side<'_>, c: &Certificate, g: NetId) -> bool
    requires fits { Fits (net_in n) (net_in h) c.now }
    requires low { length (net_in h).inputs ≤ g.0 }
    requires high { g.0 < net_count (net_in h) }
    ensures { IsTrue result ↔ Rule4 (net_in n.entry) (marks_in n.entry) (net_in h.entry) (marks_in h.entry) c.now g.0 }
{
    match c.role(g) {
        Role::Copy { node, copy } => copies_register(n, h, c, g, node, c.part(node), copy),
        Role::Voter { .. } => true,
    }
}

/// Rule 5 at hardened net g.
#[tactic(auto, using(crate::proofs::Voters::rule_5_at_voter))]
fn rule_5(n: &FlatNet, h: &FlatNet, c: &Certificate, g: NetId) -> bool
    requires fits { Fits n.now.net h.now.net c.now }
    requires low { length h.now.net.inputs ≤ g.0 }
    requires high { g.0 < net_count h.now.net }
    ensures { IsTrue result ↔ Rule5 h.now.net c.now g.0 }
{
    match c.role(g) {
        Role::Copy { .. } => true,
        Role::Voter { node, .. } => votes(n, h, c, g, node),
    }
}

/// Rule 6 at hardened net g.
fn rule_6(n: &FlatNet, h: &FlatNet, c: &Certificate, g: NetId) -> bool
    requires fits { Fits n.now.net h.now.net c.now }
    requires low { length h.now.net.inputs ≤ g.0 }
    requires high { g.0 < net_count h.now.net }
    ensures { IsTrue result ↔ Rule6 h.now.net c.now g.0 }
{
    match c.role(g) {
        Role::Copy { node, copy } => reaches(h, c, g, c.label(node, copy)),
        Role::Voter { .. } => true,
    }
}

/// Rule 7 at hardened net g.
fn rule_7(n: &FlatNet, h: &FlatNet, c: &Certificate, g: NetId) -> bool
    requires fits { Fits n.now.net h.now.net c.now }
    requires low { length h.now.net.inputs ≤ g.0 }
    requires high { g.0 < net_count h.now.net }
    ensures { IsTrue result ↔ Rule7 c.now g.0 }
{
    match c.role(g) {
        Role::Copy { node, copy } => c.label(node, copy) <= c.depth(c.part(node)),
        Role::Voter { .. } => true,
    }
}

/// A rule of single nodes.
#[derive(Clone, Copy, Drop)]
pub enum NodeRule {
    Tables,
    Registers,
    Voters,
    Labels,
    Depths,
}

fn holds(rule: NodeRule, n: Side<'_>, h: Side<'_>, c: &Certificate, g: NetId) -> bool
    requires fits { Fits (net_in n) (net_in h) c.now }
    requires low { length (net_in h).inputs ≤ g.0 }
    requires high { g.0 < net_count (net_in h) }
    ensures { IsTrue result ↔ NodeHolds (net_in n.entry) (marks_in n.entry) (net_in h.entry) (marks_in h.entry) c.now rule g.0 }
{
    match rule {
        NodeRule::Tables => rule_3(n.net(), h.net(), c, g),
        NodeRule::Registers => rule_4(n, h, c, g),
        NodeRule::Voters => rule_5(n.net(), h.net(), c, g),
        NodeRule::Labels => rule_6(n.net(), h.net(), c, g),
        NodeRule::Depths => rule_7(n.net(), h.net(), c, g),
    }
}

/// The first hardened node at which the rule fails.
pub fn first_bad_node(rule: NodeRule, n: Side<'_>, h: Side<'_>, c: &Certificate) -> Option<u32>
    requires { Fits (net_in n) (net_in h) c.now }
    ensures first { IsFirstBad (λ place. NodeHolds (net_in n.entry) (marks_in n.entry) (net_in h.entry) (marks_in h.entry) c.now rule (length (net_in h.entry).inputs + place)) result }
    ensures node { IfSome result (λ place. place < length (net_in h.entry).nodes) }
{
    let hardened = h.net();
    let inputs = hardened.input_count();
    for place in 0..hardened.node_count() {
        if !holds(rule, n, h, c, NetId(inputs + place)) {
            return Some(place);
        }
    }
    None
}
