//! The roles that have been found so far.

use crate::designs::Designs;
use crate::pins::{pin, place};
use certificate::Role;
use flat_net::{FlatNet, nodes_of};
use std::alloc::Global;
use tmr_base::{CopyNo, NetId, OutOfMemory, PartId};

/// What stands for no net: no net has this number.
const NONE: NetId = NetId(4294967295);

/// The three copies, in order.
pub const COPIES: [CopyNo; 3] = [CopyNo::First, CopyNo::Second, CopyNo::Third];

/// The role of each hardened node, if one is found, with partition 0 for all; the copies of each original node; and
/// the hardened nodes that have a role and whose pins have not been looked at.
#[derive(Drop)]
pub struct FoundRoles {
    roles: Vec<Option<Role>>,
    copies: Vec<NetId>,
    work: Vec<NetId>,
}

/// Where copy c of original node i stands in the list of copies.
fn copy_place(i: usize, c: CopyNo) -> Option<usize> {
    if i < 4294967296 {
        Some(3 * i + c.number() as usize)
    } else {
        None
    }
}

impl FoundRoles {
    /// Nothing is found.
    pub(crate) fn none(alloc: Global, designs: &Designs) -> Result<FoundRoles, OutOfMemory> {
        let roles = vec![in alloc; None; nodes_of(designs.hardened) as usize]?;
        let copies = vec![in alloc; NONE; 3 * nodes_of(designs.original) as usize]?;
        Ok(FoundRoles {
            roles,
            copies,
            work: Vec::new(alloc),
        })
    }

    /// The role of hardened net g, if it is a node and has one.
    pub(crate) fn role(&self, h: &FlatNet, g: NetId) -> Option<Role> {
        match place(h, g) {
            Some(i) => self.role_at(i),
            None => None,
        }
    }

    /// The role of hardened node i, counted from 0.
    pub fn role_at(&self, i: usize) -> Option<Role> {
        match self.roles.get(i) {
            Some(role) => *role,
            None => None,
        }
    }

    /// Copy c of original net x, if it is a node and the copy is found.
    pub(crate) fn copy(&self, n: &FlatNet, x: NetId, c: CopyNo) -> Option<NetId> {
        match place(n, x) {
            Some(i) => self.copy_at(i, c),
            None => None,
        }
    }

    /// Copy c of original node i, counted from 0.
    pub fn copy_at(&self, i: usize, c: CopyNo) -> Option<NetId> {
        match copy_place(i, c) {
            Some(at) => match self.copies.get(at) {
                Some(g) => if *g == NONE { None } else { Some(*g) },
                None => None,
            },
            None => None,
        }
    }

    /// Gives hardened node g a role, where it has none.
    fn give(&mut self, h: &FlatNet, g: NetId, role: Role) -> Result<bool, OutOfMemory> {
        let Some(i) = place(h, g) else {
            return Ok(false);
        };
        if i >= self.roles.len() || self.roles[i].is_some() {
            return Ok(false);
        }
        self.work.push(g)?;
        self.roles[i] = Some(role);
        Ok(true)
    }

    /// Makes hardened node g copy c of original node x, where they look alike, g has no role, and the copy is not
    /// found yet.
    pub(crate) fn give_copy(
        &mut self,
        designs: &Designs,
        x: NetId,
        c: CopyNo,
        g: NetId,
    ) -> Result<(), OutOfMemory> {
        if !designs.is_alike(x, g) || self.copy(designs.original, x, c).is_some() {
            return Ok(());
        }
        if self.give(designs.hardened, g, Role::Copy { node: x, copy: c })? {
            self.note_copy(designs.original, x, c, g);
        }
        Ok(())
    }

    /// Notes that g is copy c of original node x.
    fn note_copy(&mut self, n: &FlatNet, x: NetId, c: CopyNo, g: NetId) {
        if let Some(i) = place(n, x) {
            if let Some(at) = copy_place(i, c) {
                if at < self.copies.len() {
                    self.copies[at] = g;
                }
            }
        }
    }

    /// Makes hardened node g the voter of original net x that gives copy c, where g has no role.
    pub(crate) fn give_voter(
        &mut self,
        h: &FlatNet,
        x: NetId,
        c: CopyNo,
        g: NetId,
    ) -> Result<(), OutOfMemory> {
        let role = Role::Voter {
            node: x,
            part: PartId(0),
            copy: c,
        };
        let _given = self.give(h, g, role)?;
        Ok(())
    }

    /// The next hardened node whose pins have not been looked at.
    pub(crate) fn next(&mut self) -> Option<NetId> {
        self.work.pop()
    }
}

/// Pin k of hardened node g may be copy k of original node x.
fn may_read(designs: &Designs, found: &FoundRoles, x: NetId, k: CopyNo, g: NetId) -> bool {
    let Some(q) = pin(designs.hardened, g, k.number()) else {
        return false;
    };
    if !designs.is_alike(x, q) {
        return false;
    }
    match (
        found.copy(designs.original, x, k),
        found.role(designs.hardened, q),
    ) {
        (Some(known), _) => known == q,
        (None, Some(_)) => false,
        (None, None) => true,
    }
}

/// Pin k of hardened node g is copy k of input x.
fn reads_input(h: &FlatNet, x: NetId, k: CopyNo, g: NetId) -> bool {
    match pin(h, g, k.number()) {
        Some(q) => u64::from(q.0) == 3 * u64::from(x.0) + u64::from(k.number()),
        None => false,
    }
}

/// Each pin of hardened node g is the copy of its number of input x.
fn reads_inputs(h: &FlatNet, x: NetId, g: NetId) -> bool {
    reads_input(h, x, CopyNo::First, g)
        && reads_input(h, x, CopyNo::Second, g)
        && reads_input(h, x, CopyNo::Third, g)
}

/// Each pin of hardened node g may be the copy of its number of original node x.
fn may_read_copies(designs: &Designs, found: &FoundRoles, x: NetId, g: NetId) -> bool {
    may_read(designs, found, x, CopyNo::First, g)
        && may_read(designs, found, x, CopyNo::Second, g)
        && may_read(designs, found, x, CopyNo::Third, g)
}

/// Hardened node g is taken for a voter of original net x. Where g may be a copy of x too, since x is a majority
/// itself, it is taken for a voter if its pins may be the copies of x.
pub fn is_voter_of(designs: &Designs, found: &FoundRoles, x: NetId, g: NetId) -> bool {
    if !designs.is_majority(g) {
        return false;
    }
    if x.0 < designs.original.input_count() {
        return designs.inputs_are_voted() && reads_inputs(designs.hardened, x, g);
    }
    !designs.is_alike(x, g) || may_read_copies(designs, found, x, g)
}
