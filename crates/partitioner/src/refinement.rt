//! Moves of single nodes that lower the cost.

pub mod minimal;
pub mod moving;
pub mod placing;
pub mod refining;
pub mod resting;
pub mod scanning;
