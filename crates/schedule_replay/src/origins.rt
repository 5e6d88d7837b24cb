//! Which net of the original each net of the hardened design stands for.
ghost use Rattle.std.specs.Prelude.{◌≡◌, ◌+◌, ◌*◌, ◌<◌, ◌≤◌, ℕ, All, IfOk, Some, length, map};
ghost use Rattle.tmr_base.specs.declared.copies.CopyNo.{CopyNo as ACopy};
ghost use Rattle.flat_net.specs.Net.{net_count};
ghost use Rattle.flat_net.specs.Nodes.{number_of};
ghost use Rattle.certificate.specs.Cert.{Fits, role_of};
ghost use Rattle.certificate.specs.declared.role.Role.TheVariants.{Copy};
ghost use Rattle.schedule_replay.specs.Origins.{CopiesStandFor, role_net};

use certificate::{Certificate, Role};
use flat_net::FlatNet;
use std::alloc::Global;
use tmr_base::{NetId, OutOfMemory};

/// The net of which a role is a copy, or the voter.
fn net_of_role(role: Role) -> NetId
    ensures { result.0 ≡ role_net role }
{
    match role {
        Role::Copy { node, .. } => node,
        Role::Voter { node, .. } => node,
    }
}

/// The net that hardened net y stands for.
fn origin_of(c: &Certificate, inputs: u32, y: NetId) -> NetId
    requires inputs { inputs ≡ c.now.hardened_inputs }
    requires three { c.now.hardened_inputs ≡ 3 * c.now.original_inputs }
    requires high { y.0 < c.now.hardened_inputs + length c.now.roles }
    ensures range { result.0 < c.now.original_inputs + length c.now.part }
    ensures copy { (x : ℕ) (d : ACopy) → role_of c.now y.0 ≡ Some (Copy (record { 0 = x }) d) → result.0 ≡ x }
{
    if y.0 < inputs {
        NetId(y.0 / 3)
    } else {
        net_of_role(c.role(y))
    }
}

/// The net that each hardened net stands for, by the certificate.
pub fn origins_of(
    alloc: Global,
    n: &FlatNet,
    h: &FlatNet,
    c: &Certificate,
) -> Result<Vec<NetId>, OutOfMemory>
    requires fits { Fits n.now.net h.now.net c.now }
    requires inputs { length h.now.net.inputs ≡ 3 * length n.now.net.inputs }
    ensures long { IfOk result (λ v. length v.items ≡ net_count h.now.net) }
    ensures range { IfOk result (λ v. All (λ o. o.0 < net_count n.now.net) v.items) }
    ensures copies { IfOk result (λ v. CopiesStandFor n.now.net c.now (map number_of v.items)) }
{
    let inputs = c.hardened_inputs();
    let count = h.input_count() + h.node_count();
    let mut origins = Vec::with_capacity(alloc, count as usize)?;
    for y in 0..count {
        origins.push(origin_of(c, inputs, NetId(y)))?;
    }
    Ok(origins)
}
