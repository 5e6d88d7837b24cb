//! Whether a certificate allows a schedule of upsets, and what the schedule does to a hardened design.
//!
//! The layers above may rely on this: `is_allowed` compares all pairs of upsets; a replay's numbers are those of the one
//! trace of each design.
//!
//! Up to 64 schedules are replayed at once, in words of which each has a bit. A single schedule is a list of one.
#![tactic(auto)]

mod allowing;
mod origins;
mod outcome;
mod replaying;
mod starts;
mod striking;
mod waving;
mod wide;
mod wide_comparing;
mod wide_rows;
mod wide_running;
mod words;

pub use allowing::is_allowed;
pub use outcome::{Difference, Outcome};
pub use replaying::{replay, replay_free};
pub use waving::wave_values;
pub use wide::replay_wide;
