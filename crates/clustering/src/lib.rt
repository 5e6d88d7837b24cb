//! Partitions made of clusters: nodes that nets tie together stand in one partition.
//!
//! The layers above may rely on this: `clusters` and `settled_parts` keep the rule of sizes. Which nodes stand together is no clause;
//! their cost tells what that is worth. So of all but the last pass (`settling`) it is proved that it is safe and ends, and nothing
//! else. `numbers` has the look-ups of such a search, for the layers above too.
//!
//! Nodes are joined to groups, and these to larger ones, level by level (`levels`, `joining`). The groups of the highest level fill
//! partitions (`filling`). From there down to the nodes the groups of each level move (`moving`). Each of these looks at a net once for each
//! group that it touches, and only where these are few: so the time is linear in the pins, also where all nodes read one.
#![tactic(auto)]

mod effort;
mod filling;
mod joining;
mod levels;
mod moving;
mod multilevel;
mod numberings;
pub mod numbers;
mod settling;

pub use effort::is_large;
pub use levels::Level;
pub use multilevel::{clusters, clusters_from, levels_of};
pub use settling::settled_parts;
