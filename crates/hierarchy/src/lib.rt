//! Flattens a library: the models that the main model places, and those that they place, become one
//! flat design.
//!
//! The layers above may rely on `IsFlat` and `IsFlatFault` of `specs/Flatten.antt`: what the flat elements
//! of a library are, by which texts their nets go, and which fault is the first, are definitions over the
//! library alone. Nothing here recurses over the hierarchy: it is walked by a stack.
#![tactic(auto)]

mod design;
mod flat_fault;
mod laws;
mod walking;

pub use design::flattening::{Flat, flatten, flatten_free, flatten_owned};
pub use flat_fault::FlatFault;
pub use laws::{depth_suffices, paths_differ};
