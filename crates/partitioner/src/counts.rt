//! What is counted beside a partitioning.

pub mod counting;
pub mod marking;
pub mod marks;
pub mod partitioning;
pub mod places;
pub mod rows;
pub mod runs;
pub mod sets;
pub mod spots;
pub mod tracking;
