//! Roles of hardened nodes.

use tmr_base::{CopyNo, NetId, PartId};

/// What a hardened node is for: it is copy `copy` of an original node, or the voter of an original net
/// for a partition, which gives copy `copy`. In version 1 the net is a node too.
#[derive(Clone, Copy, Debug, PartialEq, Eq, Drop)]
pub enum Role {
    Copy {
        node: NetId,
        copy: CopyNo,
    },
    Voter {
        node: NetId,
        part: PartId,
        copy: CopyNo,
    },
}
