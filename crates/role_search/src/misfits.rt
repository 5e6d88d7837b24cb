//! The first place that fits nothing, by the roles that were found.
ghost use Rattle.std.specs.Prelude.{◌*◌, ◌<◌, ◌⊎◌, length, IfSome, IsTrue};
ghost use Rattle.role_search.specs.Misfits.{IsThere};

use crate::designs::Designs;
use crate::found::{COPIES, FoundRoles};
use crate::pins::{is_node, node, pin, pin_count};
use certificate::Role;
use flat_net::{FlatNet, nodes_of};
use tmr_base::{CopyNo, NetId};

/// What is wrong at a pin: it reads a net that fits nothing, or a node that would have to be two things.
#[derive(Clone, Copy, Drop)]
pub enum Misfit {
    /// This pin of a hardened node reads a net that can be neither the copy nor the voter that is wanted there.
    Pin { node: NetId, pin: u32 },
    /// This hardened node would have to be two things.
    TwoRoles(NetId),
}

/// Hardened net g is copy c of original net x.
fn is_copy(n: &FlatNet, found: &FoundRoles, x: NetId, c: CopyNo, g: NetId) -> bool {
    if x.0 < n.input_count() {
        return u64::from(g.0) == 3 * u64::from(x.0) + u64::from(c.number());
    }
    found.copy(n, x, c) == Some(g)
}

/// The first output of the hardened design that is not the copy that it must be.
pub fn first_bad_output(designs: &Designs, found: &FoundRoles) -> Option<u32>
    ensures { IfSome result (λ k. (k < 3 * length designs.now.original.now.net.outputs) ⊎ (k < length designs.now.hardened.now.net.outputs)) }
{
    let (n, h) = (designs.original, designs.hardened);
    let count = h.output_count();
    for k in 0..count {
        let i = k / 3;
        if i >= n.output_count() {
            return Some(k);
        }
        let c = COPIES[(k % 3) as usize];
        if !is_copy(n, found, n.output(i), c, h.output(k)) {
            return Some(k);
        }
    }
    if u64::from(count) < 3 * u64::from(n.output_count()) {
        return Some(count);
    }
    None
}

/// Hardened net p is read for copy c where the original reads x, and may be.
fn is_read(designs: &Designs, found: &FoundRoles, x: NetId, c: CopyNo, p: NetId) -> bool {
    if p.0 < designs.hardened.input_count() {
        return !designs.inputs_are_voted() && is_copy(designs.original, found, x, c, p);
    }
    match found.role(designs.hardened, p) {
        Some(Role::Copy { node, copy }) => node == x && copy == c,
        Some(Role::Voter { node, copy, .. }) => node == x && copy == c,
        None => false,
    }
}

/// Hardened node p has a role, and could be read where the original reads x if it had another one.
fn has_another_role(designs: &Designs, found: &FoundRoles, x: NetId, p: NetId) -> bool {
    match found.role(designs.hardened, p) {
        Some(Role::Copy { .. }) => designs.is_alike(x, p),
        Some(Role::Voter { node, .. }) => node == x || designs.is_alike(x, p),
        None => false,
    }
}

/// What is wrong where pin j of hardened node g reads p in the place of the original net x: p would have to be two
/// things, or it is none.
fn misfit_of(
    designs: &Designs,
    found: &FoundRoles,
    g: NetId,
    j: u32,
    x: NetId,
    p: NetId,
) -> Misfit {
    if has_another_role(designs, found, x, p) {
        return Misfit::TwoRoles(p);
    }
    Misfit::Pin { node: g, pin: j }
}

/// What is wrong at pin j of hardened node g, which is copy c of original node y.
fn bad_read(
    designs: &Designs,
    found: &FoundRoles,
    y: NetId,
    c: CopyNo,
    g: NetId,
    j: u32,
) -> Option<Misfit> {
    let Some(p) = pin(designs.hardened, g, j) else {
        return None;
    };
    let Some(x) = pin(designs.original, y, j) else {
        return Some(Misfit::Pin { node: g, pin: j });
    };
    if is_read(designs, found, x, c, p) {
        return None;
    }
    Some(misfit_of(designs, found, g, j, x, p))
}

/// What is wrong at pin k of hardened node g, which is a voter of original net x.
fn bad_vote(designs: &Designs, found: &FoundRoles, x: NetId, g: NetId, k: u32) -> Option<Misfit> {
    let Some(p) = pin(designs.hardened, g, k) else {
        return None;
    };
    if k < 3 && is_copy(designs.original, found, x, COPIES[k as usize], p) {
        return None;
    }
    Some(misfit_of(designs, found, g, k, x, p))
}

/// What is wrong at pin j of hardened node g, by its role.
fn bad_pin(designs: &Designs, found: &FoundRoles, g: NetId, j: u32) -> Option<Misfit> {
    match found.role(designs.hardened, g) {
        Some(Role::Copy { node, copy }) => bad_read(designs, found, node, copy, g, j),
        Some(Role::Voter { node, .. }) => bad_vote(designs, found, node, g, j),
        None => None,
    }
}

/// What a misfit names is there.
fn is_there(h: &FlatNet, misfit: Misfit) -> bool
    ensures { IsTrue result → IsThere h.now.net misfit }
{
    match misfit {
        Misfit::Pin { node, pin } => is_node(h, node) && pin < h.pin_count(node),
        Misfit::TwoRoles(node) => is_node(h, node),
    }
}

/// The first misfit at a pin of hardened node g.
fn misfit_at(designs: &Designs, found: &FoundRoles, g: NetId) -> Option<Misfit>
    ensures { IfSome result (IsThere designs.now.hardened.now.net) }
{
    let h = designs.hardened;
    for j in 0..pin_count(h, g) {
        if let Some(misfit) = bad_pin(designs, found, g, j) {
            if is_there(h, misfit) {
                return Some(misfit);
            }
        }
    }
    None
}

/// The first misfit of the hardened nodes in order.
pub fn first_misfit(designs: &Designs, found: &FoundRoles) -> Option<Misfit>
    ensures { IfSome result (IsThere designs.now.hardened.now.net) }
{
    for i in 0..nodes_of(designs.hardened) {
        if let Some(misfit) = misfit_at(designs, found, node(designs.hardened, i)) {
            return Some(misfit);
        }
    }
    None
}
