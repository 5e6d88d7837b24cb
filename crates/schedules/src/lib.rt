//! Schedules of upsets, and the files that they are read from.
//!
//! The layers above may rely on this: a `Schedule` is rows of inputs, start values and upsets in strictly ascending
//! order of cycle and net; reading is exact: it gives the schedule that a file's document is for two designs, or its
//! first fault.
#![tactic(auto)]

mod document;
mod entry;
mod fault;
mod reading;
mod schedule;

pub use fault::ScheduleFault;
pub use reading::{read_schedule, read_schedule_free};
pub use schedule::Schedule;
