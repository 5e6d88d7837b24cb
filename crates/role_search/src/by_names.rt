//! The last step of the search, and the only one that looks at names of the hardened design: where a copy of `X` is
//! nowhere, a node `X~0`, `X~1` or `X~2` is taken for it.

use crate::backward::look_from_outputs;
use crate::by_reads::{LeftOver, settle_all};
use crate::designs::Designs;
use crate::found::FoundRoles;
use crate::pins::{net_count, node};
use flat_net::nodes_of;
use std::alloc::Global;
use tmr_base::{CopyNo, NetId, OutOfMemory, copy_name};

/// The net of the hardened design with the name of copy c of original net x.
fn named_copy(
    alloc: Global,
    designs: &Designs,
    x: NetId,
    c: CopyNo,
) -> Result<Option<NetId>, OutOfMemory> {
    let n = designs.original;
    if x.0 >= net_count(n) {
        return Ok(None);
    }
    let name = copy_name(alloc, n.name(x), c)?;
    Ok(designs.hardened.find(&name))
}

/// Some copy of original node i is nowhere.
fn lacks_copy(found: &FoundRoles, i: u32) -> bool {
    found.copy_at(i as usize, CopyNo::First).is_none()
        || found.copy_at(i as usize, CopyNo::Second).is_none()
        || found.copy_at(i as usize, CopyNo::Third).is_none()
}

/// Some copy is nowhere.
fn lacks_any(designs: &Designs, found: &FoundRoles) -> bool {
    for i in 0..nodes_of(designs.original) {
        if lacks_copy(found, i) {
            return true;
        }
    }
    false
}

/// Takes the node of the name of copy c for it, if the copy is nowhere, and goes on from there.
fn try_name(
    alloc: Global,
    designs: &Designs,
    found: &mut FoundRoles,
    left: &mut LeftOver,
    i: u32,
    c: CopyNo,
) -> Result<(), OutOfMemory> {
    if found.copy_at(i as usize, c).is_some() {
        return Ok(());
    }
    let x = node(designs.original, i);
    match named_copy(alloc, designs, x, c)? {
        Some(g) => {
            found.give_copy(designs, x, c, g)?;
            settle_all(designs, found, left)
        }
        None => Ok(()),
    }
}

/// Gives roles by names, where copies are nowhere.
fn try_names(
    alloc: Global,
    designs: &Designs,
    found: &mut FoundRoles,
    left: &mut LeftOver,
) -> Result<(), OutOfMemory> {
    for i in 0..nodes_of(designs.original) {
        try_name(alloc, designs, found, left, i, CopyNo::First)?;
        try_name(alloc, designs, found, left, i, CopyNo::Second)?;
        try_name(alloc, designs, found, left, i, CopyNo::Third)?;
    }
    Ok(())
}

/// Gives roles to what no output depends on: by what it reads, and then by names.
fn settle_left_over(
    alloc: Global,
    designs: &Designs,
    found: &mut FoundRoles,
) -> Result<(), OutOfMemory> {
    let mut left = LeftOver::of(alloc, designs, found)?;
    settle_all(designs, found, &mut left)?;
    try_names(alloc, designs, found, &mut left)
}

/// The roles that are found: backward from the outputs, then by what is read, then by names.
pub fn search_roles(alloc: Global, designs: &Designs) -> Result<FoundRoles, OutOfMemory> {
    let mut found = FoundRoles::none(alloc, designs)?;
    look_from_outputs(designs, &mut found)?;
    if lacks_any(designs, &found) {
        settle_left_over(alloc, designs, &mut found)?;
    }
    Ok(found)
}
