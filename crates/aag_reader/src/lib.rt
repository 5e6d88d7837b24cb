//! Reading and-inverter graphs: the graph of an AIGER file, or the first fault of its lines and variables.
//!
//! The layers above may rely on `specs/`: which line of a file is the first bad one (`BadLine.antt`), and which variables
//! are defined and read, and the faults (`Faults.antt`). What a file of a graph is stands in `aag_text`.
#![tactic(auto)]

mod entry;
mod fault;
mod file;
mod forms;
mod lines;
mod reading;
mod variables;

pub use fault::GraphFault;
pub use file::{Graph, graph_of};
