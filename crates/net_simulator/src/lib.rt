//! Runs of a design, cycle by cycle.
//!
//! The layers above may rely on this: after a step the values of all nets are those of one cycle, in which
//! each net meets its equation but for those that are forced; a step takes no memory.
#![tactic(auto)]

mod beside;
mod changes;
mod cycle;
mod marks;
mod registers;
mod short;
mod tables;
mod truth;
mod twin_sim;
mod twins;
mod wide;

pub use twin_sim::TwinSim;
pub use wide::WideSim;
