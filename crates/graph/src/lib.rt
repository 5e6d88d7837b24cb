//! Graphs: rows of numbers, a search over them, and their readers.
//!
//! The layers above may rely on this: a `Graph` is a list of rows, of which row y has the numbers of the
//! vertices that vertex y reads, in order. `search` follows all rows: a read that leads to an open vertex
//! is cut, each vertex stands in the order after all that it reads uncut, and uncut reads lead from the
//! reader of a cut read to the vertex read. `order_or_cycle` gives an order in which each vertex that the
//! roots lead to stands after all that it reads, or a cycle of reads that begins with its least number.
//! `readers_of` gives the rows of the readers. Nothing here recurses: a chain of any length is followed.
#![tactic(auto)]

mod cuts;
mod deciding;
mod offsets;
mod ordering;
mod readers;
mod reversing;
mod rows;
mod searching;
mod spans;
mod turning;

pub use cuts::CutReads;
pub use ordering::{Sorted, order_or_cycle};
pub use readers::Readers;
pub use reversing::readers_of;
pub use rows::Graph;
pub use searching::{Searched, search};
pub use turning::keep_first;
