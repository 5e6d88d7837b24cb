//! The partitions of a hardened design as a graph, in the text that `dot` draws.
//!
//! The layers above may rely on this: `picture` is the text that `picture_text` spells, of one list of
//! frames and one list of edges that the definitions give.
//!
//! What is hard: nobody can read thousands of boxes. So the 400 partitions with the most nodes have a box each, and all others share one.
//! They are found without sorting, from how many partitions have each number of nodes (`places`). A net counts once on an edge, however many
//! pins and voters read it there, so pairs of a net and a place are kept in a set (`edges`). A frame is the path that more than half of a
//! partition's nodes have. One pass, in which nodes vote for and against a path, leaves the only one that it can be; another counts (`groups`).
#![tactic(auto)]

mod counting;
mod edges;
mod groups;
mod meeting;
mod paths;
mod picturing;
mod places;
mod words;
mod writing;

pub use picturing::picture;
