//! One room a command. A room opens its files, works, and concludes; its contract is `Performed` at its command.
//! `performing` matches the command once and calls its room. A room knows no other room, and what two rooms share stands beside
//! `commands`: how files are opened (`designs`, `pairs`), and how texts are saved and the status is decided (`conclusion`).

pub mod campaign;
pub mod certify;
pub mod explain;
pub mod exposing;
pub mod flatten;
pub mod from_aag;
pub mod guard;
pub mod guarded;
pub mod harden;
pub mod help;
pub mod picture;
pub mod replay;
pub mod report;
pub mod sweeping;
pub mod to_aag;
pub mod trial;
pub mod validate;
mod wave;
