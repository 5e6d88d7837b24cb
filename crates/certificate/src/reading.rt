//! Reading a certificate's lines of partitions, nodes and voters, each behind those before it.
ghost use Rattle.std.specs.Prelude.{◌≡◌, ℕ, ◌+◌, ◌-◌, ◌<◌, ◌≤◌, ◌^◌, None, length, IfOk, IfErr, OnOk, replicate, slice_index_or};
ghost use Rattle.flat_net.specs.Net.{Net};
ghost use Rattle.certificate.specs.Lines.{Rest};
ghost use Rattle.certificate.specs.Gives.{Gives};
ghost use Rattle.certificate.specs.Threes.{three_ids};
ghost use Rattle.certificate.specs.Tables.{nodes_read, roles_read};
ghost use Rattle.certificate.specs.Folding.{give, give_copies, voter_step, repeat};
ghost use Rattle.certificate.specs.Carrying.{part_taken, node_taken, voter_taken};
ghost use Rattle.certificate.specs.declared.fault.CertFault.TheVariants.{Memory};

use crate::line_kinds::{Scope, next_net, read_node, read_part, read_voter};
use crate::{CertFault, Role};
use flat_net::FlatNet;
use std::alloc::Global;
use tmr_base::{CopyNo, NetId};

/// What was read of the nodes' lines, and the roles that they give to hardened nodes.
#[derive(Drop)]
pub struct NodeTable {
    pub part: Vec<u32>,
    pub copies: Vec<[NetId; 3]>,
    pub labels: Vec<[u32; 3]>,
    pub roles: Vec<Option<Role>>,
}

/// Gives a hardened node its role, if it has none yet.
#[tactic(auto, unfolding(crate::specs::Folding::give))]
fn give(
    roles: &mut [Option<Role>],
    inputs: u32,
    g: NetId,
    role: Role,
    line: u64,
) -> Result<(), CertFault>
    requires low { inputs ≤ g.0 }
    requires high { g.0 < inputs + length roles.now }
    ensures given { Gives (λ _. roles.new) result (give inputs g.0 role line roles.old) }
    ensures length { length roles.new ≡ length roles.old }
{
    let place = (g.0 - inputs) as usize;
    if roles[place].is_some() {
        return Err(CertFault::Doubled(line));
    }
    roles[place] = Some(role);
    Ok(())
}

/// Gives the three copies of node x their roles.
#[tactic(auto, unfolding(crate::specs::Folding::give_copies))]
fn give_copies(
    roles: &mut [Option<Role>],
    inputs: u32,
    x: NetId,
    copies: [NetId; 3],
    line: u64,
) -> Result<(), CertFault>
    requires low { (inputs ≤ (three_ids copies).first) × (inputs ≤ (three_ids copies).second) × (inputs ≤ (three_ids copies).third) }
    requires high { ((three_ids copies).first < inputs + length roles.now) × ((three_ids copies).second < inputs + length roles.now) × ((three_ids copies).third < inputs + length roles.now) }
    ensures given { Gives (λ _. roles.new) result (give_copies inputs x.0 (three_ids copies) line roles.old) }
    ensures length { length roles.new ≡ length roles.old }
{
    let first = Role::Copy {
        node: x,
        copy: CopyNo::First,
    };
    let second = Role::Copy {
        node: x,
        copy: CopyNo::Second,
    };
    let third = Role::Copy {
        node: x,
        copy: CopyNo::Third,
    };
    match give(roles, inputs, copies[0], first, line) {
        Ok(()) => match give(roles, inputs, copies[1], second, line) {
            Ok(()) => give(roles, inputs, copies[2], third, line),
            Err(fault) => Err(fault),
        },
        Err(fault) => Err(fault),
    }
}

/// The line of the next partition, with its depth.
#[tactic(auto, unfolding(crate::specs::Carrying::part_taken))]
pub fn take_part(
    alloc: Global,
    depths: &mut Vec<u32>,
    text: &[u8],
    line: u64,
) -> Result<(), CertFault>
    requires { length depths.now.items < 2 ^ 32 }
    ensures taken { Gives (λ _. depths.new.items) result (part_taken depths.old.items text.now line) }
    ensures length { OnOk result (length depths.new.items ≡ length depths.old.items + 1) }
{
    let depth = read_part(alloc, depths.len() as u32, text, line)?;
    depths.push(depth)?;
    Ok(())
}

/// The net that is likely to be the first copy of the next node: that behind the copies so far.
fn likely_copy(h: &FlatNet, copies: &[[NetId; 3]]) -> NetId {
    match copies.last() {
        Some(last) => next_net(last[2]),
        None => NetId(h.input_count()),
    }
}

/// The next node's line.
#[tactic(auto, unfolding(crate::specs::Carrying::node_taken))]
pub fn take_node(
    alloc: Global,
    scope: &Scope<'_>,
    nodes: &mut NodeTable,
    text: &[u8],
    line: u64,
) -> Result<(), CertFault>
    requires room { length nodes.now.part.items < length scope.now.original.now.net.nodes }
    requires roles { length nodes.now.roles.items ≡ length scope.now.hardened.now.net.nodes }
    ensures taken { (after : Rest) → Gives (λ _. nodes_read nodes.new after) result (node_taken scope.now.original.now.net scope.now.hardened.now.net scope.now.parts (nodes_read nodes.old after) text.now line) }
    ensures length { OnOk result (length nodes.new.part.items ≡ length nodes.old.part.items + 1) }
    ensures roles { OnOk result (length nodes.new.roles.items ≡ length nodes.old.roles.items) }
{
    let h = scope.hardened;
    let x = NetId(scope.original.input_count() + nodes.part.len() as u32);
    let guess = likely_copy(h, &nodes.copies);
    let node = read_node(alloc, scope, x, guess, text, line)?;
    give_copies(&mut nodes.roles, h.input_count(), x, node.copies, line)?;
    nodes.part.push(node.part)?;
    nodes.copies.push(node.copies)?;
    nodes.labels.push(node.labels)?;
    Ok(())
}

/// As many hardened nodes that have no role yet.
pub fn no_roles(alloc: Global, count: u32) -> Result<Vec<Option<Role>>, CertFault>
    ensures value { IfOk result (λ roles. roles.items ≡ replicate count None) }
    ensures memory { IfErr result (λ e. e ≡ Memory) }
{
    let mut roles = Vec::new(alloc);
    for _ in 0..count {
        roles.push(None)?;
    }
    Ok(roles)
}

/// Passes over the hardened nodes whose roles are given: no line is due for them.
pub fn pass_given(given: &[Option<Role>], roles: &mut Vec<Role>) -> Result<(), CertFault>
    ensures passed { OnOk result ((version : ℕ) (n h : Net) (parts : ℕ) (r : Rest) → repeat (length given.now - length roles.old.items) (voter_step version n h parts given.now) (roles_read roles.old.items r) ≡ repeat (length given.now - length roles.new.items) (voter_step version n h parts given.now) (roles_read roles.new.items r)) }
    ensures due { OnOk result (length roles.new.items < length given.now → slice_index_or given.now (length roles.new.items) None ≡ None) }
    ensures memory { IfErr result (λ e. e ≡ Memory) }
{
    while roles.len() < given.len() {
        match given[roles.len()] {
            Some(role) => roles.push(role)?,
            None => return Ok(()),
        }
    }
    Ok(())
}

/// The net that the next voter is likely to vote on: that of the hardened node before it.
fn likely_voted(roles: &[Role]) -> NetId {
    match roles.last() {
        Some(Role::Copy { node, .. } | Role::Voter { node, .. }) => *node,
        None => NetId(0),
    }
}

/// The next voter's line.
#[tactic(auto, unfolding(crate::specs::Carrying::voter_taken))]
pub fn take_voter(
    alloc: Global,
    scope: &Scope<'_>,
    roles: &mut Vec<Role>,
    text: &[u8],
    line: u64,
) -> Result<(), CertFault>
    requires { length roles.now.items < length scope.now.hardened.now.net.nodes }
    ensures taken { Gives (λ _. roles.new.items) result (voter_taken scope.now.version scope.now.original.now.net scope.now.hardened.now.net scope.now.parts roles.old.items text.now line) }
    ensures length { OnOk result (length roles.new.items ≡ length roles.old.items + 1) }
{
    let g = NetId(scope.hardened.input_count() + roles.len() as u32);
    let guess = likely_voted(roles);
    let role = read_voter(alloc, scope, g, guess, text, line)?;
    roles.push(role)?;
    Ok(())
}
