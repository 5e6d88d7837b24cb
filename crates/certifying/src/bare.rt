//! The roles that the search found, as a certificate with one partition.
ghost use Rattle.std.specs.Prelude.{◌≡◌, ◌+◌, ◌<◌, ◌≤◌, ◌⊎◌, slice_get, All, ℕ, Some, [], length, map, replicate, IfOk, IfErr, IfNone, IfSome, IsTrue};
ghost use Rattle.tmr_base.specs.declared.copies.CopyNo.{CopyNo};
ghost use Rattle.flat_net.specs.Net.{Net, slot, net_count};
ghost use Rattle.certificate.specs.declared.role.Role.TheVariants.{Copy};
ghost use Rattle.certificate.specs.Cert.{IsCert};
ghost use Rattle.certificate.specs.Draft.{cert_of_draft};
ghost use Rattle.certificate.specs.Threes.{three_of};
ghost use Rattle.certifying.specs.Causes.{IsPlaced};
ghost use Rattle.certifying.specs.Private.Bare.{copy_in, IsSound, AreSound, HaveRoles, AreSmall, IsBare};

use crate::NoCertificate;
use crate::depths::zeros;
use certificate::{CertDraft, Certificate, Role};
use flat_net::{FlatNet, nodes_of};
use role_search::FoundRoles;
use std::alloc::Global;
use tmr_base::{CopyNo, NetId, OutOfMemory};

/// The role of each hardened node, or the first that has none.
fn all_roles(
    alloc: Global,
    n: &FlatNet,
    h: &FlatNet,
    found: &FoundRoles,
) -> Result<Vec<Role>, NoCertificate>
    ensures long { IfOk result (λ roles. length roles.items ≡ length h.now.net.nodes) }
    ensures place { IfErr result (IsPlaced n.now.net h.now.net) }
{
    let count = nodes_of(h);
    let inputs = h.input_count();
    let mut roles = Vec::new(alloc);
    for i in 0..count {
        match found.role_at(i as usize) {
            Some(role) => roles.push(role)?,
            None => return Err(NoCertificate::NoRole(NetId(inputs + i))),
        }
    }
    Ok(roles)
}

/// Copy c of original node i, counted from 0, or that it is nowhere.
fn some_copy(
    n: &FlatNet,
    h: &FlatNet,
    found: &FoundRoles,
    i: u32,
    c: CopyNo,
) -> Result<NetId, NoCertificate>
    requires { i < length n.now.net.nodes }
    ensures { IfErr result (IsPlaced n.now.net h.now.net) }
{
    match found.copy_at(i as usize, c) {
        Some(g) => Ok(g),
        None => {
            let _nodes = nodes_of(n);
            Err(NoCertificate::NoCopy {
                node: NetId(n.input_count() + i),
                copy: c,
            })
        }
    }
}

/// The three copies of original node i.
fn three_copies(
    n: &FlatNet,
    h: &FlatNet,
    found: &FoundRoles,
    i: u32,
) -> Result<[NetId; 3], NoCertificate>
    requires { i < length n.now.net.nodes }
    ensures { IfErr result (IsPlaced n.now.net h.now.net) }
{
    let first = some_copy(n, h, found, i, CopyNo::First)?;
    let second = some_copy(n, h, found, i, CopyNo::Second)?;
    let third = some_copy(n, h, found, i, CopyNo::Third)?;
    Ok([first, second, third])
}

/// The copies of each original node, or the first that is nowhere.
fn all_copies(
    alloc: Global,
    n: &FlatNet,
    h: &FlatNet,
    found: &FoundRoles,
) -> Result<Vec<[NetId; 3]>, NoCertificate>
    ensures long { IfOk result (λ copies. length copies.items ≡ length n.now.net.nodes) }
    ensures place { IfErr result (IsPlaced n.now.net h.now.net) }
{
    let mut copies = Vec::new(alloc);
    for i in 0..nodes_of(n) {
        copies.push(three_copies(n, h, found, i)?)?;
    }
    Ok(copies)
}

/// Copy c of node i.
fn copy_in(copies: &[[NetId; 3]], i: usize, c: CopyNo) -> NetId
    requires { i < length copies.now }
    ensures { result.0 ≡ copy_in copies.now i c }
{
    let three = &copies[i];
    match c {
        CopyNo::First => three[0],
        CopyNo::Second => three[1],
        CopyNo::Third => three[2],
    }
}

/// What the role of hardened net g names is there, and where it is a copy, that copy is g.
fn is_sound(version: u8, first: u32, copies: &[[NetId; 3]], g: u32, role: Role) -> bool
    requires { first + length copies.now < 4294967296 }
    ensures { IsTrue result → IsSound version first copies.now g role }
{
    match role {
        Role::Copy { node, copy } => {
            first <= node.0
                && ((node.0 - first) as usize) < copies.len()
                && copy_in(copies, (node.0 - first) as usize, copy) == NetId(g)
        }
        Role::Voter { node, part, .. } => {
            (version != 1 || first <= node.0)
                && (node.0 as usize) < first as usize + copies.len()
                && part.0 == 0
        }
    }
}

/// The first hardened node, counted from 0, whose role is not sound.
fn first_unsound(
    version: u8,
    first: u32,
    inputs: u32,
    copies: &[[NetId; 3]],
    roles: &[Role],
) -> Option<u32>
    requires original { first + length copies.now < 4294967296 }
    requires hardened { inputs + length roles.now < 4294967296 }
    ensures none { IfNone result (AreSound version first inputs copies.now roles.now) }
    ensures some { IfSome result (λ i. i < length roles.now) }
{
    for i in 0..roles.len() {
        if !is_sound(version, first, copies, inputs + i as u32, roles[i]) {
            return Some(i as u32);
        }
    }
    None
}

/// The role at a place.
fn role_at(roles: &[Role], i: usize) -> Role
    requires { i < length roles.now }
    ensures { slice_get roles.now i ≡ Some result }
{
    roles[i]
}

/// The role of hardened net g, which is a node.
#[tactic(auto, using(flat_net::proofs::Slots::slot_at))]
fn role_in(roles: &[Role], inputs: u32, g: NetId) -> Role
    requires low { inputs ≤ g.0 }
    requires high { g.0 < inputs + length roles.now }
    ensures { slot inputs roles.now g.0 ≡ Some result }
{
    role_at(roles, (g.0 - inputs) as usize)
}

/// Hardened net g has the role of copy c of x.
fn is_copy_role(roles: &[Role], inputs: u32, g: NetId, x: u32, c: CopyNo) -> bool
    ensures { IsTrue result → slot inputs roles.now g.0 ≡ Some (Copy (record { 0 = x }) c) }
{
    if g.0 < inputs || roles.len() <= (g.0 - inputs) as usize {
        return false;
    }
    match role_in(roles, inputs, g) {
        Role::Copy { node, copy } => node == NetId(x) && copy == c,
        Role::Voter { .. } => false,
    }
}

/// The first copy of node i that has not its role.
fn roleless_copy(
    roles: &[Role],
    inputs: u32,
    copies: &[[NetId; 3]],
    i: usize,
    x: u32,
) -> Option<CopyNo>
    requires { i < length copies.now }
    ensures { IfNone result ((c : CopyNo) → slot inputs roles.now (copy_in copies.now i c) ≡ Some (Copy (record { 0 = x }) c)) }
{
    if !is_copy_role(
        roles,
        inputs,
        copy_in(copies, i, CopyNo::First),
        x,
        CopyNo::First,
    ) {
        return Some(CopyNo::First);
    }
    if !is_copy_role(
        roles,
        inputs,
        copy_in(copies, i, CopyNo::Second),
        x,
        CopyNo::Second,
    ) {
        return Some(CopyNo::Second);
    }
    if !is_copy_role(
        roles,
        inputs,
        copy_in(copies, i, CopyNo::Third),
        x,
        CopyNo::Third,
    ) {
        return Some(CopyNo::Third);
    }
    None
}

/// The first copy that has not its role, with its original node, counted from 0.
fn first_roleless(
    first: u32,
    inputs: u32,
    roles: &[Role],
    copies: &[[NetId; 3]],
) -> Option<(u32, CopyNo)>
    requires { first + length copies.now < 4294967296 }
    ensures none { IfNone result (HaveRoles first inputs roles.now copies.now) }
    ensures some { IfSome result (λ found. found.0 < length copies.now) }
{
    for i in 0..copies.len() {
        if let Some(c) = roleless_copy(roles, inputs, copies, i, first + i as u32) {
            return Some((i as u32, c));
        }
    }
    None
}

/// Roles and copies are as a certificate has them, or the first place where they are not.
fn check_roles(
    version: u8,
    n: &FlatNet,
    h: &FlatNet,
    copies: &[[NetId; 3]],
    roles: &[Role],
) -> Result<(), NoCertificate>
    requires original { length copies.now ≡ length n.now.net.nodes }
    requires hardened { length roles.now ≡ length h.now.net.nodes }
    ensures sound { IfOk result (λ _. AreSound version (length n.now.net.inputs) (length h.now.net.inputs) copies.now roles.now) }
    ensures roles { IfOk result (λ _. HaveRoles (length n.now.net.inputs) (length h.now.net.inputs) roles.now copies.now) }
    ensures place { IfErr result (IsPlaced n.now.net h.now.net) }
{
    let _nodes = (nodes_of(n), nodes_of(h));
    let first = n.input_count();
    let inputs = h.input_count();
    if let Some((i, copy)) = first_roleless(first, inputs, roles, copies) {
        let node = NetId(first + i);
        return Err(NoCertificate::NoCopy { node, copy });
    }
    if let Some(i) = first_unsound(version, first, inputs, copies, roles) {
        return Err(NoCertificate::NoRole(NetId(inputs + i)));
    }
    Ok(())
}

/// Labels of 0 for so many nodes.
fn no_labels(alloc: Global, count: u32) -> Result<Vec<[u32; 3]>, OutOfMemory>
    ensures long { IfOk result (λ labels. length labels.items ≡ count) }
    ensures small { IfOk result (λ labels. All AreSmall (map three_of labels.items)) }
{
    let mut labels = Vec::with_capacity(alloc, count as usize)?;
    for made in 0..count {
        let _made = made;
        labels.push([0, 0, 0])?;
    }
    Ok(labels)
}

/// A certificate of this version, which is 1 or 2.
pub fn of_version(version: u8, draft: CertDraft) -> Certificate
    requires known { (version ≡ 1) ⊎ (version ≡ 2) }
    requires cert { IsCert (cert_of_draft version draft) }
    ensures { result ≡ cert_of_draft version draft }
{
    if version == 2 {
        Certificate::make2(draft)
    } else {
        Certificate::make(draft)
    }
}

/// The certificate with one partition that roles and copies make.
fn one_partition(
    alloc: Global,
    version: u8,
    n: &FlatNet,
    h: &FlatNet,
    copies: Vec<[NetId; 3]>,
    roles: Vec<Role>,
) -> Result<Certificate, NoCertificate>
    requires known { (version ≡ 1) ⊎ (version ≡ 2) }
    requires original { length copies.items ≡ length n.now.net.nodes }
    requires hardened { length roles.items ≡ length h.now.net.nodes }
    requires sound { AreSound version (length n.now.net.inputs) (length h.now.net.inputs) copies.items roles.items }
    requires roles { HaveRoles (length n.now.net.inputs) (length h.now.net.inputs) roles.items copies.items }
    ensures bare { IfOk result (IsBare n.now.net h.now.net version) }
    ensures place { IfErr result (IsPlaced n.now.net h.now.net) }
{
    let _nodes = nodes_of(h);
    let count = nodes_of(n);
    let labels = no_labels(alloc, count)?;
    let draft = CertDraft {
        original_inputs: n.input_count(),
        hardened_inputs: h.input_count(),
        depth: zeros(alloc, 1)?,
        part: zeros(alloc, count)?,
        copies,
        labels,
        roles,
    };
    Ok(of_version(version, draft))
}

/// The roles that were found as a certificate with one partition, whose labels and depth are 0; or the first hardened
/// node that has no role, or the first copy that is nowhere.
pub fn bare(
    alloc: Global,
    version: u8,
    n: &FlatNet,
    h: &FlatNet,
    found: &FoundRoles,
) -> Result<Certificate, NoCertificate>
    requires { (version ≡ 1) ⊎ (version ≡ 2) }
    ensures bare { IfOk result (IsBare n.now.net h.now.net version) }
    ensures place { IfErr result (IsPlaced n.now.net h.now.net) }
{
    let roles = all_roles(alloc, n, h, found)?;
    let copies = all_copies(alloc, n, h, found)?;
    check_roles(version, n, h, &copies, &roles)?;
    one_partition(alloc, version, n, h, copies, roles)
}
