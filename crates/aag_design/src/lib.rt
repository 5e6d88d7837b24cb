//! The design of an AIGER file (ASCII, format 1.0).
//!
//! The layers above may rely on `specs/`: the design that a graph gives, by name (`Draft.antt`), that it does the same as the graph
//! (`Same.antt`), how many entries a graph has (`Counts.antt`), loops of gates (`Loop.antt`), which design or first fault a file has
//! (`Read.antt`), and what is read of the file of a design (`ReadBack.antt`). What a file of a graph is stands in `aag_text`, and the
//! faults of its lines and variables in `aag_reader`.
#![tactic(auto)]

mod counts;
mod design;
mod drafting;
mod fault;
mod file;
mod law;
mod loops;
mod marks;
mod names;

pub use counts::Counts;
pub use fault::AagFault;
pub use file::{CountedDesign, read_aag, read_counted};
pub use law::is_read_back;
