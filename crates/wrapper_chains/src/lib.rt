//! Long chains of wrappers, cut short. A wrapper is a model with one `.subckt` statement that holds an element; the model
//! hands its nets on to what that places.
//!
//! A library may have a chain of thousands of wrappers, and place it thousands of times: a walk through each would take the
//! product of the two. So one statement stands for a whole chain, and places the model at its end. What is hard is that
//! nothing may grow: all these statements together are no larger than a constant times the library, and no model is copied.
//!
//! The layer above may rely on `IsSameFlat` of `specs/SameFlat.antt`: the flat elements stay the same, and so do the paths
//! of their nets, since the model at the end of a chain has no net of its own. It may ask which models hold nothing, too.
#![tactic(auto)]

mod bare_models;
mod bindings;
mod cutting;
mod long_chains;
mod ways;

pub use bare_models::{filled_models, filled_target, is_bare};
pub use bindings::{bind_actuals, copy_bindings};
pub use cutting::cut_short;
