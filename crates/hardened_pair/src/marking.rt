//! The marks of a hardened design.
ghost use Rattle.std.specs.Prelude.{◌≡◌, ◌+◌, ◌<◌, ◌≤◌, Some, length, IfOk};
ghost use Rattle.flat_net.specs.Net.{net_count};
ghost use Rattle.certificate.specs.declared.role.Role.{Role};
ghost use Rattle.certificate.specs.Cert.{Fits, role_of};
ghost use Rattle.flat_net.specs.Free.{node_bit};
ghost use Rattle.certificate.specs.Starts.{counted, role_start, spread_start};

use certificate::{Certificate, Role};
use flat_net::{FlatNet, FreeNet, nodes_of};
use std::alloc::Global;
use tmr_base::{NetId, OutOfMemory};

/// Whether net x is marked, where marks count: in version 1 none does.
#[tactic(auto, using(triplicate::proofs::Marks::node_bit_none))]
fn is_counted(n: &FreeNet, c: &Certificate, x: NetId) -> bool
    requires { x.0 < net_count n.now.design.net }
    ensures { result ≡ node_bit (length n.now.design.net.inputs) (counted c.now n.now.free) x.0 }
{
    if c.version() == 1 {
        return false;
    }
    n.is_free(x)
}

/// The mark of hardened node h: a copy has its node's, and a voter none.
fn mark_of(n: &FreeNet, c: &Certificate, h: NetId) -> bool
    requires low { c.now.hardened_inputs ≤ h.0 }
    requires high { h.0 < c.now.hardened_inputs + length c.now.roles }
    requires inputs { c.now.original_inputs ≡ length n.now.design.net.inputs }
    requires nodes { length c.now.part ≡ length n.now.design.net.nodes }
    ensures { (r : Role) → role_of c.now h.0 ≡ Some r → result ≡ role_start c.now (counted c.now n.now.free) r }
{
    match c.role(h) {
        Role::Copy { node, .. } => is_counted(n, c, node),
        Role::Voter { .. } => false,
    }
}

/// The marks of hardened nodes: in version 1 none is set.
pub fn hardened_marks(
    alloc: Global,
    n: &FreeNet,
    h: &FlatNet,
    c: &Certificate,
) -> Result<Vec<bool>, OutOfMemory>
    requires fits { Fits n.now.design.net h.now.net c.now }
    ensures { IfOk result (λ marks. marks.items ≡ spread_start c.now (counted c.now n.now.free)) }
{
    let inputs = c.hardened_inputs();
    let count = nodes_of(h);
    let mut marks = Vec::with_capacity(alloc, count as usize)?;
    for i in 0..count {
        marks.push(mark_of(n, c, NetId(inputs + i)))?;
    }
    Ok(marks)
}
