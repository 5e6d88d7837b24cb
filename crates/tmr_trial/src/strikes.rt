//! The last upset of each partition.
ghost use Rattle.std.specs.Prelude.{◌≡◌, ◌+◌, ◌<◌, ◌≤◌, [], length, IfOk, Some};
ghost use Rattle.certificate.specs.Schedules.{IsIn};
ghost use Rattle.tmr_trial.specs.Strikes.{is_near as is_near_to, AreStrikes};

use certificate::{Certificate, Role};
use std::alloc::Global;
use tmr_base::{CopyNo, NetId, OutOfMemory, PartId};

/// The cycle and the copy of an upset.
#[derive(Clone, Copy, Drop)]
pub struct Strike {
    pub cycle: u32,
    pub copy: CopyNo,
}

/// The partition and the copy that hardened node h belongs to.
pub fn domain(c: &Certificate, h: NetId) -> (PartId, CopyNo)
    requires low { c.now.hardened_inputs ≤ h.0 }
    requires high { h.0 < c.now.hardened_inputs + length c.now.roles }
    ensures is_in { IsIn c.now h.0 (Some result.0.0) result.1 }
    ensures range { result.0.0 < length c.now.depth }
{
    match c.role(h) {
        Role::Copy { node, copy } => (c.part(node), copy),
        Role::Voter { part, copy, .. } => (part, copy),
    }
}

/// No partition was struck yet.
#[tactic(auto, using(crate::proofs::StrikeLaws::none_yet))]
pub fn no_strikes(alloc: Global, c: &Certificate) -> Result<Vec<Option<Strike>>, OutOfMemory>
    ensures { IfOk result (λ strikes. AreStrikes c.now [] strikes.items) }
{
    Ok(vec![in alloc; None; c.parts() as usize]?)
}

/// The last upset was of another copy, and no more than the depth before this cycle. The earlier ones of
/// that partition need no look: those of the last one's copy are no later than it, and those of other
/// copies are farther from it than the depth.
pub fn is_near(last: Option<Strike>, copy: CopyNo, cycle: u32, depth: u32) -> bool
    ensures { result ≡ is_near_to last copy cycle depth }
{
    match last {
        None => false,
        Some(strike) => {
            strike.copy.number() != copy.number()
                && u64::from(cycle) <= u64::from(strike.cycle) + u64::from(depth)
        }
    }
}
