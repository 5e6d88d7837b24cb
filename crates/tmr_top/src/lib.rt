//! The runs of the program: from the words of the command line to a status and a printed text.
//!
//! Each command is one room under `commands`; `help` and `version` share one. Around the rooms stands what all share: files are loaded
//! (`loads`), designs and pairs are opened (`designs`, `pair_files`, `pairs`), and the texts of a work are saved (`saves`, `givers`, `conclusion`).
#![tactic(auto)]

mod commands;
mod conclusion;
mod decision;
mod designs;
mod givers;
mod loads;
mod pair_files;
mod pairs;
mod performing;
mod program;
mod saves;
mod shown_pairs;
mod status;
mod taker;

pub use program::run;
pub use status::Status;
