//! Flat designs: inputs, tables and registers by number, with their names.
//!
//! The layers above may rely on this: a `FlatNet` is a record of lists (model, inputs, nodes, outputs,
//! clock) that is valid, and beside it an order in which its nodes can be evaluated. It is built from a
//! `Draft`, which has the same by name; where the draft is no design, its first fault is named. A
//! `FreeNet` is a design with a mark at each register whose value in cycle 0 is left free.
#![tactic(auto)]

mod building;
mod counts;
mod draft;
mod fault;
mod free;
mod kind;
mod net;
mod nodes;
mod wiring;

pub use building::build;
pub use counts::nodes_of;
pub use draft::Draft;
pub use fault::NetFault;
pub use free::FreeNet;
pub use kind::Kind;
pub use net::FlatNet;
pub use nodes::{Body, PackedNodes, no_nodes, push_register, push_table};
