//! A sweep over sizes of partitions: what the hardened form of each size has.
//!
//! The layers above may rely on this: `sweep` is a text of the original and of one pair in the hardened form for each size, of
//! which each line tells. The pairs themselves are never made: all is reckoned from the plans.
#![tactic(auto)]

mod counting;
mod lines;
mod longest;
mod near;
mod reaching;
mod sweeping;
mod swept;
mod votes;

pub use longest::levels;
pub use sweeping::sweep;
pub use swept::{Swept, SweptFrom, sweep_size};
