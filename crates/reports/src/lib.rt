//! The report on a hardened design: its counts, what its partitions cost, and how long upsets last there.
//!
//! The layers above may rely on this: `report` is the text that `report_text` spells, of one list of least
//! depths and chains that the rules give.
#![tactic(auto)]

mod counting;
mod loops;
mod partitions;
mod reporting;
mod voters;
mod words;
mod writing;

pub use reporting::report;
