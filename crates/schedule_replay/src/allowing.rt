//! Which schedules a certificate allows.
ghost use Rattle.std.specs.Prelude.{◌≡◌, ◌↔◌, ◌+◌, ◌*◌, ◌<◌, ◌≤◌, All, IfOk, IfSome, IsTrue, Some, length, replicate, option_map, ◌%◌};
ghost use Rattle.tmr_base.specs.Copies.{copy_number};
ghost use Rattle.certificate.specs.Schedules.{Allowed, IsIn};
ghost use Rattle.certificate.specs.Cert.{IsCert, role_of, part_depth};
ghost use Rattle.schedule_replay.specs.Allowing.{part_number, place_of as place_of_part, is_close as is_close_to, is_near as is_near_to};
ghost use Rattle.schedule_replay.specs.Outcome.{part_of_role};

use certificate::{Certificate, Role};
use schedules::Schedule;
use std::alloc::Global;
use tmr_base::{CopyNo, NetId, OutOfMemory, PartId};

/// The partition and the copy that hardened node h belongs to.
fn node_domain(c: &Certificate, h: NetId) -> (PartId, CopyNo)
    requires low { c.now.hardened_inputs ≤ h.0 }
    requires high { h.0 < c.now.hardened_inputs + length c.now.roles }
    ensures is_in { IsIn c.now h.0 (Some result.0.0) result.1 }
    ensures part { part_of_role c.now (role_of c.now h.0) ≡ Some result.0.0 }
    ensures range { result.0.0 < length c.now.depth }
{
    match c.role(h) {
        Role::Copy { node, copy } => (c.part(node), copy),
        Role::Voter { part, copy, .. } => (part, copy),
    }
}

/// The copy with this number.
fn numbered_copy(number: u32) -> CopyNo
    requires { number < 3 }
    ensures { copy_number result ≡ number }
{
    match number {
        0 => CopyNo::First,
        1 => CopyNo::Second,
        _ => CopyNo::Third,
    }
}

/// The partition and the copy that hardened net h belongs to. The inputs are a partition of their own, `None`.
#[tactic(auto, using(crate::proofs::Apart::domains))]
fn domain(c: &Certificate, h: NetId) -> (Option<PartId>, CopyNo)
    requires low { h.0 < c.now.hardened_inputs → h.0 < 3 * c.now.original_inputs }
    requires high { h.0 < c.now.hardened_inputs + length c.now.roles }
    ensures is_in { IsIn c.now h.0 (part_number result.0) result.1 }
    ensures range { IfSome result.0 (λ p. p.0 < length c.now.depth) }
{
    if h.0 < c.hardened_inputs() {
        return (None, numbered_copy(h.0 % 3));
    }
    let (p, copy) = node_domain(c, h);
    (Some(p), copy)
}

/// The partition that a node belongs to; none for an input.
#[tactic(auto, using(crate::proofs::Apart::domains))]
pub fn struck_part(c: &Certificate, h: NetId) -> Option<PartId>
    requires { h.0 < c.now.hardened_inputs + length c.now.roles }
    ensures part { part_number result ≡ part_of_role c.now (role_of c.now h.0) }
    ensures range { IfSome result (λ p. p.0 < length c.now.depth) }
{
    if h.0 < c.hardened_inputs() {
        return None;
    }
    let (p, _) = node_domain(c, h);
    Some(p)
}

/// The depth of a partition. That of the inputs has 0.
fn depth_of(c: &Certificate, p: Option<PartId>) -> u32
    requires { IfSome p (λ p. p.0 < length c.now.depth) }
    ensures { result ≡ part_depth c.now (part_number p) }
{
    match p {
        None => 0,
        Some(p) => c.depth(p),
    }
}

/// The place of a partition among all, in which the inputs come first.
fn place_of(p: Option<PartId>) -> usize
    ensures { result ≡ place_of_part (part_number p) }
{
    match p {
        None => 0,
        Some(p) => p.0 as usize + 1,
    }
}

/// An upset in this cycle is at most the depth behind the last one, if there was one.
fn is_close(last: u32, cycle: u32, depth: u32) -> bool
    ensures { result ≡ is_close_to last cycle depth }
{
    0 < last && u64::from(cycle) < u64::from(last) + u64::from(depth)
}

/// Some other copy than `copy` was struck at most the depth before this cycle.
fn is_near(lasts: &[u32], place: usize, copy: CopyNo, cycle: u32, depth: u32) -> bool
    requires { 3 * place + 2 < length lasts.now }
    ensures { result ≡ is_near_to lasts.now place copy cycle depth }
{
    let at = 3 * place;
    match copy {
        CopyNo::First => is_close(lasts[at + 1], cycle, depth)
            || is_close(lasts[at + 2], cycle, depth),
        CopyNo::Second => is_close(lasts[at], cycle, depth)
            || is_close(lasts[at + 2], cycle, depth),
        CopyNo::Third => is_close(lasts[at], cycle, depth) || is_close(lasts[at + 1], cycle, depth),
    }
}

/// No partition was struck yet.
fn no_lasts(alloc: Global, c: &Certificate) -> Result<Vec<u32>, OutOfMemory>
    ensures { IfOk result (λ v. v.items ≡ replicate (3 * (length c.now.depth + 1)) 0) }
{
    Ok(Vec::from_elem(alloc, 0, 3 * (c.parts() as usize + 1))?)
}

/// Any two upsets of different copies of one partition are more than its depth apart. Each upset is of a node, or of a
/// copy of an input.
pub fn is_allowed(alloc: Global, s: &Schedule, c: &Certificate) -> Result<bool, OutOfMemory>
    requires low { All (λ u. u.net.0 < c.now.hardened_inputs → u.net.0 < 3 * c.now.original_inputs) s.now.upsets }
    requires high { All (λ u. u.net.0 < c.now.hardened_inputs + length c.now.roles) s.now.upsets }
    ensures { IfOk result (λ allowed. IsTrue allowed ↔ Allowed s.now.upsets c.now) }
{
    let _cycles = s.cycles();
    let mut lasts = no_lasts(alloc, c)?;
    for j in 0..s.upset_count() {
        let u = s.upset(j);
        let (p, copy) = domain(c, u.net);
        let place = place_of(p);
        if is_near(&lasts, place, copy, u.cycle, depth_of(c, p)) {
            return Ok(false);
        }
        lasts[3 * place + copy.number() as usize] = u.cycle + 1;
    }
    Ok(true)
}
