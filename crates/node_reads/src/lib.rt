//! For each node of a design the other nodes that read it, and those that it reads.
//!
//! The layers above may rely on this: a row lists each node once. The rows of `packed_readers_of` and `sources_of` are in ascending
//! order. Those of `sorted_rows` have the same nodes; in which order is no clause, and only the time that a search takes hangs on it.
//! `Notes` are rows that grow in any order, for these and for the layers above.
#![tactic(auto)]

mod dealing;
mod notes;
mod reading;
mod sorting;
mod wide;

pub use notes::Notes;
pub use reading::{packed_readers_of, sources_of};
pub use sorting::sorted_rows;
pub use wide::{is_long, is_wide, wide_sources_of};
