//! The search backward from what has a role: by what the original's pin reads, what a pin reads gets its role.

use crate::designs::Designs;
use crate::found::{COPIES, FoundRoles, is_voter_of};
use crate::pins::{pin, pin_count};
use certificate::Role;
use flat_net::nodes_of;
use tmr_base::{CopyNo, NetId, OutOfMemory};

/// Hardened net p is read for copy c where the original reads x: it gets its role, where it has none.
fn read(
    designs: &Designs,
    found: &mut FoundRoles,
    x: NetId,
    c: CopyNo,
    p: NetId,
) -> Result<(), OutOfMemory> {
    if found.role(designs.hardened, p).is_some() {
        return Ok(());
    }
    if is_voter_of(designs, found, x, p) {
        return found.give_voter(designs.hardened, x, c, p);
    }
    found.give_copy(designs, x, c, p)
}

/// Looks at the pins of hardened node g, which is copy c of original node y.
fn look_at_copy(
    designs: &Designs,
    found: &mut FoundRoles,
    y: NetId,
    c: CopyNo,
    g: NetId,
) -> Result<(), OutOfMemory> {
    for j in 0..pin_count(designs.hardened, g) {
        if let Some(x) = pin(designs.original, y, j) {
            if let Some(p) = pin(designs.hardened, g, j) {
                read(designs, found, x, c, p)?;
            }
        }
    }
    Ok(())
}

/// Looks at pin k of hardened node g, which is a voter of original net x.
fn look_at_vote(
    designs: &Designs,
    found: &mut FoundRoles,
    x: NetId,
    k: CopyNo,
    g: NetId,
) -> Result<(), OutOfMemory> {
    match pin(designs.hardened, g, k.number()) {
        Some(q) => found.give_copy(designs, x, k, q),
        None => Ok(()),
    }
}

/// Looks at the pins of hardened node g by its role.
pub fn look_at(designs: &Designs, found: &mut FoundRoles, g: NetId) -> Result<(), OutOfMemory> {
    match found.role(designs.hardened, g) {
        None => Ok(()),
        Some(Role::Copy { node, copy }) => look_at_copy(designs, found, node, copy, g),
        Some(Role::Voter { node, .. }) => {
            look_at_vote(designs, found, node, CopyNo::First, g)?;
            look_at_vote(designs, found, node, CopyNo::Second, g)?;
            look_at_vote(designs, found, node, CopyNo::Third, g)
        }
    }
}

/// Looks at all that has got a role. Each hardened node gets one once at most.
fn look_at_all(designs: &Designs, found: &mut FoundRoles) -> Result<(), OutOfMemory> {
    for looked in 0..nodes_of(designs.hardened) {
        let _looked = looked;
        match found.next() {
            Some(g) => look_at(designs, found, g)?,
            None => return Ok(()),
        }
    }
    Ok(())
}

/// Output k of the hardened design, counted from 0, gets its role.
fn look_at_output(designs: &Designs, found: &mut FoundRoles, k: u32) -> Result<(), OutOfMemory> {
    let i = k / 3;
    if k < designs.hardened.output_count() && i < designs.original.output_count() {
        let c = COPIES[(k % 3) as usize];
        let (x, g) = (designs.original.output(i), designs.hardened.output(k));
        return found.give_copy(designs, x, c, g);
    }
    Ok(())
}

/// The outputs get their roles, and then all that leads to them.
pub fn look_from_outputs(designs: &Designs, found: &mut FoundRoles) -> Result<(), OutOfMemory> {
    for k in 0..designs.hardened.output_count() {
        look_at_output(designs, found, k)?;
    }
    look_at_all(designs, found)
}
