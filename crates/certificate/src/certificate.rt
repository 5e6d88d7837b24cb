//! Certificates of hardened designs.
ghost use Rattle.std.specs.Prelude.{◌≡◌, ◌↔◌, ◌+◌, ◌<◌, ◌≤◌, length, IsTrue, Some};
ghost use Rattle.flat_net.specs.Net.{net_count};
ghost use Rattle.certificate.specs.Draft.{cert_of_draft};
ghost use Rattle.certificate.specs.Cert.{PlainCert, IsCert, Fits, part_of, depth_of, copy_of, label_of, role_of, RoleIsInRange};

use crate::triples::{id_at, label_at};
use crate::{CertDraft, Role};
use flat_net::FlatNet;
use std::marker::Model;
use tmr_base::{CopyNo, NetId, PartId};

/// What each hardened node is for, with the labels of copies and the depths of partitions.
#[derive(Drop)]
pub struct Certificate {
    version: u8,
    original_inputs: u32,
    hardened_inputs: u32,
    depth: Vec<u32>,
    part: Vec<u32>,
    copies: Vec<[NetId; 3]>,
    labels: Vec<[u32; 3]>,
    roles: Vec<Role>,
}

impl Model for Certificate {
    ghost use Rattle.certificate.specs.Cert.{PlainCert, IsCert};

    ghost Value = { PlainCert };

    ghost use Rattle.certificate.specs.View.{cert_of};

    ghost view = { cert_of };

    ghost invariant = { λ k. IsCert (cert_of k) };
}

impl Certificate {
    /// A certificate of version 1 of these fields, which are consistent as `IsCert` says.
    pub fn make(draft: CertDraft) -> Certificate
        requires { IsCert (cert_of_draft 1 draft) }
        ensures { result ≡ cert_of_draft 1 draft }
    {
        Certificate::of_version(1, draft)
    }

    /// A certificate of version 2 of these fields, which are consistent as `IsCert` says: a voter may be
    /// of an input.
    pub fn make2(draft: CertDraft) -> Certificate
        requires { IsCert (cert_of_draft 2 draft) }
        ensures { result ≡ cert_of_draft 2 draft }
    {
        Certificate::of_version(2, draft)
    }

    /// A certificate of this version.
    pub(crate) fn of_version(version: u8, draft: CertDraft) -> Certificate
        requires { IsCert (cert_of_draft version draft) }
        ensures { result ≡ cert_of_draft version draft }
    {
        Certificate {
            version,
            original_inputs: draft.original_inputs,
            hardened_inputs: draft.hardened_inputs,
            depth: draft.depth,
            part: draft.part,
            copies: draft.copies,
            labels: draft.labels,
            roles: draft.roles,
        }
    }

    /// The version, 1 or 2. In version 2 inputs may be upset, and registers may begin with a free value.
    pub fn version(&self) -> u8
        ensures { result ≡ self.now.version }
    {
        self.version
    }

    /// How many partitions there are. Each certificate is consistent.
    pub fn parts(&self) -> u32
        ensures count { result ≡ length self.now.depth }
        ensures cert { IsCert self.now }
    {
        self.depth.len() as u32
    }

    /// The depth of partition p, in cycles: the certified bound on how long an upset there lasts.
    pub fn depth(&self, p: PartId) -> u32
        requires { p.0 < length self.now.depth }
        ensures { result ≡ depth_of self.now p.0 }
    {
        self.depth[p.0 as usize]
    }

    /// The partition of original node x.
    #[tactic(auto, using(flat_net::proofs::Slots::slot_read))]
    pub fn part(&self, x: NetId) -> PartId
        requires low { self.now.original_inputs ≤ x.0 }
        requires high { x.0 < self.now.original_inputs + length self.now.part }
        ensures part { part_of self.now x.0 ≡ Some result.0 }
        ensures range { result.0 < length self.now.depth }
    {
        PartId(self.part[(x.0 - self.original_inputs) as usize])
    }

    /// Copy c of original node x, which is a hardened node.
    #[tactic(auto, using(crate::proofs::TripleLaws::copy_within))]
    pub fn copy(&self, x: NetId, c: CopyNo) -> NetId
        requires low { self.now.original_inputs ≤ x.0 }
        requires high { x.0 < self.now.original_inputs + length self.now.part }
        ensures copy { result.0 ≡ copy_of self.now x.0 c }
        ensures low { self.now.hardened_inputs ≤ result.0 }
        ensures high { result.0 < self.now.hardened_inputs + length self.now.roles }
    {
        self.listed_copy(x, c)
    }

    fn listed_copy(&self, x: NetId, c: CopyNo) -> NetId
        requires low { self.now.original_inputs ≤ x.0 }
        requires high { x.0 < self.now.original_inputs + length self.now.part }
        ensures copy { result.0 ≡ copy_of self.now x.0 c }
        ensures cert { IsCert self.now }
    {
        id_at(&self.copies, (x.0 - self.original_inputs) as usize, c)
    }

    /// The label of copy c of original node x.
    #[tactic(auto, using(flat_net::proofs::Slots::slot_map_read))]
    pub fn label(&self, x: NetId, c: CopyNo) -> u32
        requires low { self.now.original_inputs ≤ x.0 }
        requires high { x.0 < self.now.original_inputs + length self.now.part }
        ensures { result ≡ label_of self.now x.0 c }
    {
        label_at(&self.labels, (x.0 - self.original_inputs) as usize, c)
    }

    /// The role of hardened node h.
    #[tactic(auto, using(flat_net::proofs::Slots::slot_read))]
    pub fn role(&self, h: NetId) -> Role
        requires low { self.now.hardened_inputs ≤ h.0 }
        requires high { h.0 < self.now.hardened_inputs + length self.now.roles }
        ensures role { role_of self.now h.0 ≡ Some result }
        ensures range { RoleIsInRange self.now result }
    {
        self.roles[(h.0 - self.hardened_inputs) as usize]
    }

    /// How many inputs the hardened design has.
    pub fn hardened_inputs(&self) -> u32
        ensures value { result ≡ self.now.hardened_inputs }
        ensures cert { IsCert self.now }
    {
        self.hardened_inputs
    }

    /// The counts of inputs and nodes are those of the two designs.
    pub fn fits(&self, n: &FlatNet, h: &FlatNet) -> bool
        ensures { IsTrue result ↔ Fits n.now.net h.now.net self.now }
    {
        self.original_inputs == n.input_count()
            && self.part.len() == n.node_count() as usize
            && self.hardened_inputs == h.input_count()
            && self.roles.len() == h.node_count() as usize
    }
}
