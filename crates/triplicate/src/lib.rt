//! The plan of hardening: what a hardened design is made of, from which it and its certificate follow.
//!
//! The layers above may rely on this: `make_plan` answers a plan of the form, version and bound that are wanted, or want of memory; and the
//! pair that a plan stands for has the hardened form. `hardened_text` writes the texts of that pair, and `hardened_pair` makes it in memory.
#![tactic(auto)]

mod ahead;
mod blocks;
mod choosing;
mod depths;
mod form;
mod hardened;
mod planning;
mod surveying;
mod taps;
mod voters;
mod voting;

pub use blocks::copies;
pub use form::Form;
pub use hardened::{Hardened, HardenedFree};
pub use planning::{Plan, PlanFrom, make_plan, plan_from};
pub use surveying::{LeanSurvey, Survey, survey_of};
pub use taps::{Taps, tap};
pub use voting::VotedPins;
