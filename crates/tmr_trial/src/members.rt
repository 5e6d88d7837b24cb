//! The nodes of a hardened design, by partition and copy.
ghost use Rattle.std.specs.Prelude.{◌≡◌, ◌≢◌, ◌<◌, ◌≤◌, ◌++◌, ◌∷◌, [], ◌+◌, length, slice_set, IfOk, OnOk};
ghost use Rattle.certificate.specs.Cert.{IsCert};
ghost use Rattle.graph.specs.Rows.{row};
ghost use Rattle.tmr_base.specs.declared.copies.CopyNo.{CopyNo};
ghost use Rattle.tmr_trial.specs.Members.{rows_of, AreMembers};
ghost use Rattle.tmr_trial.specs.NearSchedules.{nodes_among};

use crate::strikes::domain;
use certificate::Certificate;
use flat_net::FlatNet;
use graph::Readers;
use std::alloc::Global;
use tmr_base::{CopyNo, NetId, OutOfMemory, PartId};

/// For each copy, the nodes of each partition, in order.
#[derive(Drop)]
pub struct Members {
    pub first: Readers,
    pub second: Readers,
    pub third: Readers,
}

impl Members {
    /// The nodes of partition p and this copy.
    pub fn row(&self, p: PartId, copy: CopyNo) -> &[u32]
        requires { p.0 < length (rows_of self.now copy) }
        ensures { result.now ≡ row (rows_of self.now copy) p.0 }
    {
        match copy {
            CopyNo::First => self.first.row(p.0),
            CopyNo::Second => self.second.row(p.0),
            CopyNo::Third => self.third.row(p.0),
        }
    }
}

/// No nodes yet.
fn no_members(alloc: Global, c: &Certificate) -> Result<Members, OutOfMemory>
    ensures { IfOk result (λ m. AreMembers c.now 0 m) }
{
    let parts = c.parts();
    let first = Readers::empty(alloc, parts)?;
    let second = Readers::empty(alloc, parts)?;
    let third = Readers::empty(alloc, parts)?;
    Ok(Members {
        first,
        second,
        third,
    })
}

/// A node more of partition p and this copy.
fn add_member(members: &mut Members, p: PartId, copy: CopyNo, x: NetId) -> Result<(), OutOfMemory>
    requires { (d : CopyNo) → p.0 < length (rows_of members.old d) }
    ensures added { OnOk result (rows_of members.new copy ≡ slice_set (rows_of members.old copy) p.0 (row (rows_of members.old copy) p.0 ++ x.0 ∷ [])) }
    ensures others { OnOk result ((d : CopyNo) → d ≢ copy → rows_of members.new d ≡ rows_of members.old d) }
{
    match copy {
        CopyNo::First => members.first.add(p.0, x.0),
        CopyNo::Second => members.second.add(p.0, x.0),
        CopyNo::Third => members.third.add(p.0, x.0),
    }
}

/// The nodes of hardened design h by partition and copy, as its certificate has them.
pub fn members_of(alloc: Global, h: &FlatNet, c: &Certificate) -> Result<Members, OutOfMemory>
    requires inputs { c.now.hardened_inputs ≡ length h.now.net.inputs }
    requires nodes { length c.now.roles ≡ length h.now.net.nodes }
    ensures { IfOk result (λ m. AreMembers c.now (length c.now.roles) m) }
{
    let inputs = h.input_count();
    let mut members = no_members(alloc, c)?;
    for g in 0..h.node_count() {
        let x = NetId(inputs + g);
        let (p, copy) = domain(c, x);
        add_member(&mut members, p, copy, x)?;
    }
    Ok(members)
}
