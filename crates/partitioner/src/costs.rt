//! What a partitioning costs, and what a node costs in each partition.

pub mod ahead;
pub mod gains;
pub mod hints;
pub mod lanes;
pub mod losses;
pub mod pairs;
