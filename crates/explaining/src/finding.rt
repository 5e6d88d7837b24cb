//! Why a rule fails at a place, if it does.
ghost use Rattle.std.specs.Prelude.{◌≡◌, ◌+◌, ◌<◌, ◌≤◌, length, IfSome, IfNone};
ghost use Rattle.flat_net.specs.Net.{net_count};
ghost use Rattle.certificate.specs.Cert.{Fits};
ghost use Rattle.certificate.specs.Rules.{Rule3, Rule4, Rule5, Rule6, Rule7};
ghost use Rattle.certificate.specs.Starts.{counted};
ghost use Rattle.explaining.specs.Reasons.{Explains3, Explains4, Explains5, Explains6, Explains7, Explains};
ghost use Rattle.explaining.specs.Private.Pieces.{HasNets};
ghost use Rattle.explaining.specs.Private.Found.{RuleHolds, place_count};

use crate::nodes::{depth_reason, label_reason, register_reason, table_reason};
use crate::outputs::output_reason;
use crate::reason::Reason;
use crate::rule::Rule;
use crate::votes::voter_reason;
use crate::whole::{clock_reason, inputs_reason};
use certificate::{Certificate, Role};
use flat_net::{FlatNet, FreeNet, nodes_of};
use tmr_base::NetId;

/// Why rule 3 fails at hardened net g.
#[tactic(auto, using(crate::proofs::Copies::tables_at))]
fn rule_3<'a>(n: &'a FlatNet, h: &'a FlatNet, c: &Certificate, g: NetId) -> Option<Reason<'a>>
    requires fits { Fits n.now.net h.now.net c.now }
    requires low { length h.now.net.inputs ≤ g.0 }
    requires high { g.0 < net_count h.now.net }
    ensures none { IfNone result (Rule3 n.entry.now.net h.entry.now.net c.now g.0) }
    ensures some { IfSome result (Explains3 n.entry.now.net h.entry.now.net c.now g.0) }
    ensures nets { IfSome result (HasNets n.entry.now.net h.entry.now.net) }
{
    match c.role(g) {
        Role::Copy { node, copy } => table_reason(n, h, c, g, node, c.part(node), copy),
        Role::Voter { .. } => None,
    }
}

/// Why rule 4 fails at hardened net g.
#[tactic(auto, using(crate::proofs::Copies::registers_at))]
fn rule_4<'a>(n: &FreeNet, h: &FreeNet, c: &Certificate, g: NetId) -> Option<Reason<'a>>
    requires fits { Fits n.now.design.net h.now.design.net c.now }
    requires low { length h.now.design.net.inputs ≤ g.0 }
    requires high { g.0 < net_count h.now.design.net }
    ensures none { IfNone result (Rule4 n.now.design.net (counted c.now n.now.free) h.now.design.net (counted c.now h.now.free) c.now g.0) }
    ensures some { IfSome result (Explains4 n.now.design.net (counted c.now n.now.free) h.now.design.net (counted c.now h.now.free) c.now g.0) }
    ensures nets { IfSome result (HasNets n.now.design.net h.now.design.net) }
{
    match c.role(g) {
        Role::Copy { node, copy } => register_reason(n, h, c, g, node, c.part(node), copy),
        Role::Voter { .. } => None,
    }
}

/// Why rule 5 fails at hardened net g.
#[tactic(auto, using(crate::proofs::Copies::voters_at))]
fn rule_5<'a>(n: &FlatNet, h: &FlatNet, c: &Certificate, g: NetId) -> Option<Reason<'a>>
    requires fits { Fits n.now.net h.now.net c.now }
    requires low { length h.now.net.inputs ≤ g.0 }
    requires high { g.0 < net_count h.now.net }
    ensures none { IfNone result (Rule5 h.now.net c.now g.0) }
    ensures some { IfSome result (Explains5 h.now.net c.now g.0) }
    ensures nets { IfSome result (HasNets n.now.net h.now.net) }
{
    match c.role(g) {
        Role::Copy { .. } => None,
        Role::Voter { node, .. } => voter_reason(n, h, c, g, node),
    }
}

/// Why rule 6 fails at hardened net g.
#[tactic(auto, using(crate::proofs::Copies::labels_at))]
fn rule_6<'a>(n: &FlatNet, h: &FlatNet, c: &Certificate, g: NetId) -> Option<Reason<'a>>
    requires fits { Fits n.now.net h.now.net c.now }
    requires low { length h.now.net.inputs ≤ g.0 }
    requires high { g.0 < net_count h.now.net }
    ensures none { IfNone result (Rule6 h.now.net c.now g.0) }
    ensures some { IfSome result (Explains6 h.now.net c.now g.0) }
    ensures nets { IfSome result (HasNets n.now.net h.now.net) }
{
    match c.role(g) {
        Role::Copy { node, copy } => label_reason(h, c, g, c.label(node, copy)),
        Role::Voter { .. } => None,
    }
}

/// Why rule 7 fails at hardened net g.
#[tactic(auto, using(crate::proofs::Copies::depths_at))]
fn rule_7<'a>(n: &FlatNet, h: &FlatNet, c: &Certificate, g: NetId) -> Option<Reason<'a>>
    requires fits { Fits n.now.net h.now.net c.now }
    requires low { length h.now.net.inputs ≤ g.0 }
    requires high { g.0 < net_count h.now.net }
    ensures none { IfNone result (Rule7 c.now g.0) }
    ensures some { IfSome result (Explains7 c.now g.0) }
    ensures nets { IfSome result (HasNets n.now.net h.now.net) }
{
    match c.role(g) {
        Role::Copy { node, copy } => depth_reason(c, node, copy, c.part(node)),
        Role::Voter { .. } => None,
    }
}

/// How many places the rule has.
pub fn place_count(n: &FlatNet, h: &FlatNet, rule: Rule) -> u64
    ensures count { result ≡ place_count n.now.net h.now.net rule }
    ensures few { result ≤ 17179869184 }
{
    match rule {
        Rule::Inputs | Rule::Clocks => 1,
        Rule::Outputs => u64::from(h.output_count()).max(3 * u64::from(n.output_count())),
        _ => u64::from(h.node_count()),
    }
}

/// The hardened net at a place of a rule of nodes.
pub fn net_at(h: &FlatNet, place: u64) -> NetId
    requires { place < length h.now.net.nodes }
    ensures net { result.0 ≡ length h.now.net.inputs + place }
    ensures high { result.0 < net_count h.now.net }
{
    // No design has more nets than a u32 counts.
    nodes_of(h);
    NetId(h.input_count() + place as u32)
}

/// Why the rule fails at the place, if it does.
pub fn reason_at<'a>(
    n: &'a FreeNet,
    h: &'a FreeNet,
    c: &Certificate,
    rule: Rule,
    place: u64,
) -> Option<Reason<'a>>
    requires fits { Fits n.now.design.net h.now.design.net c.now }
    requires place { place < place_count n.now.design.net h.now.design.net rule }
    ensures none { IfNone result (RuleHolds n.entry.now.design.net (counted c.now n.entry.now.free) h.entry.now.design.net (counted c.now h.entry.now.free) c.now rule place) }
    ensures some { IfSome result (Explains n.entry.now.design.net (counted c.now n.entry.now.free) h.entry.now.design.net (counted c.now h.entry.now.free) c.now rule place) }
    ensures nets { IfSome result (HasNets n.entry.now.design.net h.entry.now.design.net) }
{
    let original = n.net();
    let hardened = h.net();
    match rule {
        Rule::Inputs => inputs_reason(original, hardened),
        Rule::Clocks => clock_reason(original, hardened),
        Rule::Tables => rule_3(original, hardened, c, net_at(hardened, place)),
        Rule::Registers => rule_4(n, h, c, net_at(hardened, place)),
        Rule::Voters => rule_5(original, hardened, c, net_at(hardened, place)),
        Rule::Labels => rule_6(original, hardened, c, net_at(hardened, place)),
        Rule::Depths => rule_7(original, hardened, c, net_at(hardened, place)),
        Rule::Outputs => output_reason(original, hardened, c, place),
    }
}
