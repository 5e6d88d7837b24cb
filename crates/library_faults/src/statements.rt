//! The faults of `.subckt` statements, each statement by itself.
//!
//! A model may have many inputs, and a statement many bindings: no name is looked for in a list. Few names are
//! walked all the same, since a set of them takes six times their memory. The faults are tried in the order
//! that `PlacingFault` tells, so that the first is one alone.

pub(crate) mod names;
pub(crate) mod placing;
pub(crate) mod ports;
