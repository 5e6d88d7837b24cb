//! How many voters there are of each kind.
ghost use Rattle.std.specs.Prelude.{◌≡◌, ◌<◌, ◌+◌, length, count_by};
ghost use Rattle.std.specs.Option.{option_map};
ghost use Rattle.certificate.specs.Cert.{Fits, part_of, RoleIsInRange};
ghost use Rattle.reports.specs.Counts.{is_border_voter, is_feedback_voter, is_input_voter};
ghost use Rattle.reports.specs.Private.Left.{part_number};

use crate::counting::one_if;
use certificate::{Certificate, Role};
use flat_net::FlatNet;
use tmr_base::{NetId, PartId};

/// How many voters there are of each kind.
#[derive(Clone, Copy, Drop)]
pub struct Voters {
    /// Of nodes for another partition than their own.
    pub border: u32,
    /// Of nodes for their own partition.
    pub feedback: u32,
    /// Of inputs.
    pub inputs: u32,
}

/// The partition of original net x; an input has none.
#[tactic(auto, using(flat_net::proofs::Slots::slot_below))]
fn part_of_net(n: &FlatNet, c: &Certificate, x: NetId) -> Option<PartId>
    requires inputs { c.now.original_inputs ≡ length n.now.net.inputs }
    requires range { x.0 < c.now.original_inputs + length c.now.part }
    ensures { option_map part_number result ≡ part_of c.now x.0 }
{
    if x.0 < n.input_count() {
        return None;
    }
    Some(c.part(x))
}

/// The role is that of a voter of a node for another partition than its own.
fn is_border(n: &FlatNet, c: &Certificate, role: Role) -> bool
    requires inputs { c.now.original_inputs ≡ length n.now.net.inputs }
    requires range { RoleIsInRange c.now role }
    ensures { result ≡ is_border_voter c.now role }
{
    match role {
        Role::Copy { .. } => false,
        Role::Voter { node, part, .. } => match part_of_net(n, c, node) {
            None => false,
            Some(own) => own.0 != part.0,
        },
    }
}

/// The role is that of a voter of a node for its own partition.
fn is_feedback(n: &FlatNet, c: &Certificate, role: Role) -> bool
    requires inputs { c.now.original_inputs ≡ length n.now.net.inputs }
    requires range { RoleIsInRange c.now role }
    ensures { result ≡ is_feedback_voter c.now role }
{
    match role {
        Role::Copy { .. } => false,
        Role::Voter { node, part, .. } => match part_of_net(n, c, node) {
            None => false,
            Some(own) => own.0 == part.0,
        },
    }
}

/// The role is that of a voter of an input.
fn is_of_input(n: &FlatNet, c: &Certificate, role: Role) -> bool
    requires inputs { c.now.original_inputs ≡ length n.now.net.inputs }
    requires range { RoleIsInRange c.now role }
    ensures { result ≡ is_input_voter c.now role }
{
    match role {
        Role::Copy { .. } => false,
        Role::Voter { node, .. } => match part_of_net(n, c, node) {
            None => true,
            Some(_) => false,
        },
    }
}

/// How many voters of each kind the hardened design has. One pass over its nodes.
pub fn voter_counts(n: &FlatNet, h: &FlatNet, c: &Certificate) -> Voters
    requires { Fits n.now.net h.now.net c.now }
    ensures border { result.border ≡ count_by (is_border_voter c.now) c.now.roles }
    ensures feedback { result.feedback ≡ count_by (is_feedback_voter c.now) c.now.roles }
    ensures inputs { result.inputs ≡ count_by (is_input_voter c.now) c.now.roles }
{
    let first = c.hardened_inputs();
    let mut border = 0;
    let mut feedback = 0;
    let mut inputs = 0;
    for g in 0..h.node_count() {
        let role = c.role(NetId(first + g));
        border += one_if(is_border(n, c, role));
        feedback += one_if(is_feedback(n, c, role));
        inputs += one_if(is_of_input(n, c, role));
    }
    Voters {
        border,
        feedback,
        inputs,
    }
}
