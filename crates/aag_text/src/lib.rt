//! And-inverter graphs, and their text: AIGER ASCII.
//!
//! The layers above may rely on `specs/`: what a graph is and what it does (`Aig.antt`, `Traces.antt`), when a
//! design and a graph do the same (`Same.antt`), how a graph is spelled (`Text.antt`), what a file of a graph is
//! line by line (`Lines.antt`), and what the file of a design is (`Written.antt`).
#![tactic(auto)]

mod aig;
mod gates;
mod law;
mod nets;
mod text;
mod writing;

pub use aig::{Aig, Gate, Header, Latch, Literal, Start};
pub use writing::{CountedFile, write_aag, write_counted};
