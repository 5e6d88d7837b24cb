//! How many nets each copy of a partition has.
ghost use Rattle.std.specs.Prelude.{◌≡◌, ◌==◌, ◌<◌, ◌&&◌, Some, length, replicate, IfOk, if◌then◌else◌};
ghost use Rattle.std.specs.Option.{option_map};
ghost use Rattle.tmr_base.specs.Copies.{copy_number};
ghost use Rattle.certificate.specs.Cert.{Fits, RoleIsInRange};
ghost use Rattle.exposure.specs.Counts.{role_part, role_copy};
ghost use Rattle.exposure.specs.Private.Left.{AreCountsOf, AreCounted};

use certificate::{Certificate, Role};
use flat_net::FlatNet;
use std::alloc::Global;
use tmr_base::{CopyNo, NetId, OutOfMemory};

/// The partition that a hardened node belongs to.
fn part_of(c: &Certificate, role: Role) -> u32
    requires { RoleIsInRange c.now role }
    ensures part { role_part c.now role ≡ Some result }
    ensures range { result < length c.now.depth }
{
    match role {
        Role::Copy { node, .. } => c.part(node).0,
        Role::Voter { part, .. } => part.0,
    }
}

/// 1 where a hardened node is of this copy, and else 0.
fn one_if_of(role: Role, copy: CopyNo) -> u32
    ensures count { result ≡ (if copy_number (role_copy role) == copy_number copy then 1 else 0) }
    ensures few { result < 2 }
{
    let own = match role {
        Role::Copy { copy, .. } => copy,
        Role::Voter { copy, .. } => copy,
    };
    if own == copy { 1 } else { 0 }
}

/// For each partition how many hardened nodes belong to it and to each copy.
#[derive(Drop)]
pub struct CopyCounts {
    pub first: Vec<u32>,
    pub second: Vec<u32>,
    pub third: Vec<u32>,
}

/// For each partition how many hardened nodes belong to it and to this copy. One pass over the nodes.
fn counts_of(
    alloc: Global,
    n: &FlatNet,
    h: &FlatNet,
    c: &Certificate,
    copy: CopyNo,
) -> Result<Vec<u32>, OutOfMemory>
    requires { Fits n.now.net h.now.net c.now }
    ensures { IfOk result (λ counts. AreCountsOf c.now copy counts.items) }
{
    let first = c.hardened_inputs();
    let mut counts = Vec::from_elem(alloc, 0u32, c.parts() as usize)?;
    for g in 0..h.node_count() {
        let role = c.role(NetId(first + g));
        counts[part_of(c, role) as usize] += one_if_of(role, copy);
    }
    Ok(counts)
}

/// For each partition how many hardened nodes belong to it and to each copy. Three passes over the nodes.
pub fn counted(
    alloc: Global,
    n: &FlatNet,
    h: &FlatNet,
    c: &Certificate,
) -> Result<CopyCounts, OutOfMemory>
    requires { Fits n.now.net h.now.net c.now }
    ensures { IfOk result (λ counts. AreCounted c.now counts) }
{
    let first = counts_of(alloc, n, h, c, CopyNo::First)?;
    let second = counts_of(alloc, n, h, c, CopyNo::Second)?;
    let third = counts_of(alloc, n, h, c, CopyNo::Third)?;
    Ok(CopyCounts {
        first,
        second,
        third,
    })
}
