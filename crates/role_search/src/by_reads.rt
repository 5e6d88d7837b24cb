//! Nodes that no output depends on are told by what they read.

use crate::backward::look_at;
use crate::designs::Designs;
use crate::found::FoundRoles;
use crate::missing_copies::{MissingCopies, copy_read, key_read};
use crate::pins::{node, pin_count};
use crate::roleless::Roleless;
use flat_net::nodes_of;
use std::alloc::Global;
use tmr_base::{CopyNo, OutOfMemory};

/// What the search backward left: the hardened nodes without a role, and the copies that are nowhere.
#[derive(Drop)]
pub struct LeftOver {
    roleless: Roleless,
    missing: MissingCopies,
}

impl LeftOver {
    /// What is left now.
    pub fn of(
        alloc: Global,
        designs: &Designs,
        found: &FoundRoles,
    ) -> Result<LeftOver, OutOfMemory> {
        Ok(LeftOver {
            roleless: Roleless::of(alloc, designs.hardened, found)?,
            missing: MissingCopies::of(alloc, designs, found)?,
        })
    }
}

/// Hardened node i becomes copy c of the first original node that reads the same, if there is one.
fn try_copy(
    designs: &Designs,
    found: &mut FoundRoles,
    missing: &mut MissingCopies,
    i: u32,
    c: CopyNo,
) -> Result<(), OutOfMemory> {
    let Some(key) = key_read(designs, found, i, c) else {
        return Ok(());
    };
    match missing.first(found, key, c)? {
        Some(x) => {
            let (x, g) = (node(designs.original, x), node(designs.hardened, i));
            found.give_copy(designs, x, c, g)
        }
        None => Ok(()),
    }
}

/// Hardened node i, each of whose pins stands for something, gets its role by what it reads.
fn try_node(
    designs: &Designs,
    found: &mut FoundRoles,
    missing: &mut MissingCopies,
    i: u32,
) -> Result<(), OutOfMemory> {
    let h = designs.hardened;
    if pin_count(h, node(h, i)) > 0 {
        return match copy_read(h, found, node(h, i)) {
            Some(c) => try_copy(designs, found, missing, i, c),
            None => Ok(()),
        };
    }
    try_copy(designs, found, missing, i, CopyNo::First)?;
    try_copy(designs, found, missing, i, CopyNo::Second)?;
    try_copy(designs, found, missing, i, CopyNo::Third)
}

/// Looks at the next hardened node that has got a role, or else tries the next that is ready. Answers whether there was
/// one.
fn step(
    designs: &Designs,
    found: &mut FoundRoles,
    left: &mut LeftOver,
) -> Result<bool, OutOfMemory> {
    if let Some(g) = found.next() {
        look_at(designs, found, g)?;
        left.roleless.settle(designs.hardened, g)?;
        return Ok(true);
    }
    match left.roleless.next() {
        Some(i) => {
            try_node(designs, found, &mut left.missing, i)?;
            Ok(true)
        }
        None => Ok(false),
    }
}

/// Gives roles by what is read, as far as that tells them. Each hardened node gets a role once at most, and is ready
/// once at most.
pub fn settle_all(
    designs: &Designs,
    found: &mut FoundRoles,
    left: &mut LeftOver,
) -> Result<(), OutOfMemory> {
    for round in 0..2 * u64::from(nodes_of(designs.hardened)) {
        let _round = round;
        if !step(designs, found, left)? {
            return Ok(());
        }
    }
    Ok(())
}
