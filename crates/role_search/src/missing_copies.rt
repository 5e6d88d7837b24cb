//! The copies that are nowhere yet, by what they would read.

use crate::designs::Designs;
use crate::found::{COPIES, FoundRoles};
use crate::looks::mixed;
use crate::pins::{node, pin, pin_count};
use certificate::Role;
use flat_net::{FlatNet, nodes_of};
use std::alloc::Global;
use std::collections::HashMap;
use tmr_base::{CopyNo, NetId, OutOfMemory};

/// Copies that were nowhere, by what they read: for each key the first original node, and for each copy the next
/// original node with the same key.
#[derive(Drop)]
pub struct MissingCopies {
    first: HashMap<u64, u32>,
    next: Vec<Option<u32>>,
}

/// A key for copy c of original node i: what it looks like, and what it reads.
fn key_of(designs: &Designs, i: u32, c: CopyNo) -> u64 {
    let n = designs.original;
    let x = node(n, i);
    let mut key = mixed(designs.original_look(i as usize), u64::from(c.number()));
    for j in 0..pin_count(n, x) {
        if let Some(p) = pin(n, x, j) {
            key = mixed(key, u64::from(p.0));
        }
    }
    key
}

/// Which copy of which original net hardened net p stands for, as far as that is known.
fn stands_for(h: &FlatNet, found: &FoundRoles, p: NetId) -> Option<(NetId, CopyNo)> {
    if p.0 < h.input_count() {
        return Some((NetId(p.0 / 3), COPIES[(p.0 % 3) as usize]));
    }
    match found.role(h, p) {
        Some(Role::Copy { node, copy }) => Some((node, copy)),
        Some(Role::Voter { node, copy, .. }) => Some((node, copy)),
        None => None,
    }
}

/// What pin j of hardened node g stands for.
fn pin_stands_for(h: &FlatNet, found: &FoundRoles, g: NetId, j: u32) -> Option<(NetId, CopyNo)> {
    match pin(h, g, j) {
        Some(p) => stands_for(h, found, p),
        None => None,
    }
}

/// The copy that the first pin of hardened node g stands for; a node without pins may be any.
pub fn copy_read(h: &FlatNet, found: &FoundRoles, g: NetId) -> Option<CopyNo> {
    match pin_stands_for(h, found, g, 0) {
        Some((_, c)) => Some(c),
        None => None,
    }
}

/// The key of the original node of which hardened node i would be copy c, by what it reads.
pub fn key_read(designs: &Designs, found: &FoundRoles, i: u32, c: CopyNo) -> Option<u64> {
    let h = designs.hardened;
    let g = node(h, i);
    let mut key = mixed(designs.hardened_look(i as usize), u64::from(c.number()));
    for j in 0..pin_count(h, g) {
        match pin_stands_for(h, found, g, j) {
            Some((x, d)) => {
                if d != c {
                    return None;
                }
                key = mixed(key, u64::from(x.0));
            }
            None => return None,
        }
    }
    Some(key)
}

impl MissingCopies {
    /// The copies that are nowhere yet.
    pub fn of(
        alloc: Global,
        designs: &Designs,
        found: &FoundRoles,
    ) -> Result<MissingCopies, OutOfMemory> {
        let count = nodes_of(designs.original);
        let mut missing = MissingCopies {
            first: HashMap::new(alloc),
            next: vec![in alloc; None; 3 * count as usize]?,
        };
        for i in (0..count).rev() {
            missing.add(designs, found, i, CopyNo::First)?;
            missing.add(designs, found, i, CopyNo::Second)?;
            missing.add(designs, found, i, CopyNo::Third)?;
        }
        Ok(missing)
    }

    /// Adds copy c of original node i, if it is nowhere, in front of those with the same key.
    fn add(
        &mut self,
        designs: &Designs,
        found: &FoundRoles,
        i: u32,
        c: CopyNo,
    ) -> Result<(), OutOfMemory> {
        if found.copy_at(i as usize, c).is_some() {
            return Ok(());
        }
        let key = key_of(designs, i, c);
        let at = 3 * i as usize + c.number() as usize;
        let behind = self.first.insert(key, i)?;
        if at < self.next.len() {
            self.next[at] = behind;
        }
        Ok(())
    }

    /// The original node behind i among those with the same key.
    fn behind(&self, i: u32, c: CopyNo) -> Option<u32> {
        match self.next.get(3 * i as usize + c.number() as usize) {
            Some(next) => *next,
            None => None,
        }
    }

    /// The first original node of this key of which copy c is nowhere yet.
    pub fn first(
        &mut self,
        found: &FoundRoles,
        key: u64,
        c: CopyNo,
    ) -> Result<Option<u32>, OutOfMemory> {
        let mut at = self.first.get(&key).copied();
        for tried in 0..self.next.len() {
            let _tried = tried;
            let Some(i) = at else {
                return Ok(None);
            };
            if found.copy_at(i as usize, c).is_none() {
                let _before = self.first.insert(key, i)?;
                return Ok(Some(i));
            }
            at = self.behind(i, c);
        }
        Ok(None)
    }
}
