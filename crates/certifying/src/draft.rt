//! The finest certificate with given roles.
ghost use Rattle.std.specs.Prelude.{◌≡◌, ◌<◌, ◌≤◌, ◌+◌, ◌⊎◌, Some, length, map, IfOk, IfErr, IfSome};
ghost use Rattle.certificate.specs.Threes.{three_ids};
ghost use Rattle.flat_net.specs.Net.{Net};
ghost use Rattle.certificate.specs.Cert.{Fits, role_of};
ghost use Rattle.certifying.specs.Causes.{IsPlaced};
ghost use Rattle.certifying.specs.Private.Bare.{IsBare};
ghost use Rattle.certifying.specs.Private.Renumbered.{IsRenumbered, AreRenumbered};
ghost use Rattle.certifying.specs.Private.Refined.{IsRefined};

use crate::NoCertificate;
use crate::bare::of_version;
use crate::depths::{depths_of, node_labels};
use crate::joining::join_all;
use crate::labels::labels_of;
use crate::numbering::number_sets;
use crate::order::order_of;
use certificate::{CertDraft, Certificate, Role};
use flat_net::{FlatNet, nodes_of};
use std::alloc::Global;
use tmr_base::{CopyNo, NetId, OutOfMemory, PartId};

/// The role of hardened node i with the number of its partition; none for a voter that is read by no copy.
fn renumbered(numbers: &[u32], readers: &[Option<u32>], i: usize, role: Role) -> Option<Role>
    ensures { IfSome result (IsRenumbered numbers.now readers.now i role) }
{
    match role {
        Role::Copy { .. } => Some(role),
        Role::Voter { node, copy, .. } => {
            if i >= readers.len() {
                return None;
            }
            match readers[i] {
                Some(y) => {
                    if (y as usize) >= numbers.len() {
                        return None;
                    }
                    let part = PartId(numbers[y as usize]);
                    Some(Role::Voter { node, part, copy })
                }
                None => None,
            }
        }
    }
}

/// The role of each hardened node with the number of its partition. The refusal of a voter that is read by no copy is that
/// it stands for nothing.
fn roles_of(
    alloc: Global,
    n: &FlatNet,
    h: &FlatNet,
    k: &Certificate,
    numbers: &[u32],
    readers: &[Option<u32>],
) -> Result<Vec<Role>, NoCertificate>
    requires { Fits n.now.net h.now.net k.now }
    ensures roles { IfOk result (λ roles. AreRenumbered h.now.net k.now numbers.now readers.now roles.items) }
    ensures place { IfErr result (IsPlaced n.now.net h.now.net) }
{
    let count = nodes_of(h);
    let inputs = h.input_count();
    let mut roles = Vec::new(alloc);
    for i in 0..count {
        let g = NetId(inputs + i);
        match renumbered(numbers, readers, i as usize, k.role(g)) {
            Some(role) => roles.push(role)?,
            None => return Err(NoCertificate::NoRole(g)),
        }
    }
    Ok(roles)
}

/// The copies of each original node, as the certificate has them.
fn copies_of(
    alloc: Global,
    n: &FlatNet,
    h: &FlatNet,
    k: &Certificate,
) -> Result<Vec<[NetId; 3]>, OutOfMemory>
    requires { Fits n.now.net h.now.net k.now }
    ensures { IfOk result (λ copies. map three_ids copies.items ≡ k.now.copies) }
{
    // What each certificate keeps.
    let _parts = k.parts();
    let inputs = n.input_count();
    let mut copies = Vec::new(alloc);
    for i in 0..nodes_of(n) {
        let x = NetId(inputs + i);
        copies.push([
            k.copy(x, CopyNo::First),
            k.copy(x, CopyNo::Second),
            k.copy(x, CopyNo::Third),
        ])?;
    }
    Ok(copies)
}

/// The certificate with the same roles whose partitions are the finest, and whose labels and depths are the least. Copies
/// that read one another without a voter have no labels: they are the refusal.
pub fn refined(
    alloc: Global,
    version: u8,
    n: &FlatNet,
    h: &FlatNet,
    k: &Certificate,
) -> Result<Certificate, NoCertificate>
    requires known { (version ≡ 1) ⊎ (version ≡ 2) }
    requires bare { IsBare n.now.net h.now.net version k.now }
    ensures refined { IfOk result (IsRefined n.now.net h.now.net k.now) }
    ensures cert { IfOk result (IsBare n.now.net h.now.net version) }
    ensures place { IfErr result (IsPlaced n.now.net h.now.net) }
{
    let _nodes = (nodes_of(n), nodes_of(h));
    let sets = join_all(alloc, n, h, k)?;
    let parts = number_sets(alloc, &sets.up)?;
    let roles = roles_of(alloc, n, h, k, &parts.numbers, &sets.readers)?;
    let order = order_of(alloc, n, h, k)?;
    let labels = labels_of(alloc, n, h, k, &order)?;
    let threes = node_labels(alloc, n, h, k, &labels)?;
    let depth = depths_of(alloc, &parts.numbers, parts.count, &threes)?;
    let copies = copies_of(alloc, n, h, k)?;
    let draft = CertDraft {
        original_inputs: n.input_count(),
        hardened_inputs: h.input_count(),
        depth,
        part: parts.numbers,
        copies,
        labels: threes,
        roles,
    };
    Ok(of_version(version, draft))
}
