//! The check that a hardened design masks upsets.
//!
//! The layer above may rely on this: `check` answers Ok exactly where the eight rules hold, and else
//! the first rule and place that fail; where it answers Ok, every allowed schedule of upsets is masked.
//! `check_free` does so for certificates of both versions: with version 2 inputs may be upset, and the
//! marked registers may begin with any value. `reading` tells what a hardened net stands for, and `clocks`
//! whether two clocks have one edge.
#![tactic(auto)]

pub mod clocks;
mod copying;
mod node_rules;
mod outputs;
pub mod reading;
mod refusal;
mod side;
mod verdict;

pub use refusal::Refusal;
pub use verdict::{check, check_free};
