//! Partitions of a design's nodes: the plain cut, its refinement, and what a partitioning costs.
//!
//! The layers above may rely on this: `plain`, `refine`, `cost` and `is_minimal` are exactly their
//! definitions, in which the cost is counted anew each time; refining keeps the rule of sizes and
//! never raises the cost.
#![tactic(auto)]

mod costs;
mod counts;
mod plain_cut;
mod reading;
mod refinement;

pub use costs::pairs::{cost, cost_by};
pub use plain_cut::plain;
pub use reading::{Reads, Sources, reads_of};
pub use refinement::minimal::is_minimal;
pub use refinement::refining::{
    Refined, RefinedFrom, refine, refine_counted, refine_from, refine_known,
};
