//! Designs and schedules for trials, drawn from a number.
//!
//! The layers above may rely on this: `design` is the design that a number gives, exactly; `schedule` is
//! the schedule that it gives for a hardened design, and the certificate allows it. `near_schedule` is one of pairs of upsets that the
//! certificate does not allow.
//!
//! What is hard: a certificate speaks of each two upsets of a schedule, and there may be a million. So upsets are drawn cycle by cycle,
//! and a new one is compared with the last upset of its partition alone (`strikes` says why that is enough). Pairs that are too near are
//! drawn behind all rows of inputs (`near_schedules`), so that a number gives the same inputs in both kinds of schedule. A pair begins only
//! where each earlier one has ended, so upsets stay in order; its second node is not searched for, but listed before (`members`).
#![tactic(auto)]

mod allowed_schedules;
mod designs;
mod gates;
mod members;
mod naming;
mod near_pairs;
mod near_schedules;
mod nodes;
mod numbers;
mod strikes;

pub use allowed_schedules::schedule;
pub use designs::design;
pub use members::{Members, members_of};
pub use near_pairs::NearPair;
pub use near_schedules::near_schedule;
