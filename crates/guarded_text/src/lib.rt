//! The text of a guarded design, written from its original.
//!
//! The layers above may rely on this: `GuardedText` gives in pieces the flat text of the guarded design, `guard_net n` of
//! crate `dwc`, which is read and flattened back to it. Neither that text nor the guarded design is ever held whole: its
//! nodes need no names and no numbers of their own.
#![tactic(auto)]

mod comparing;
mod copies;
mod names;
mod ports;
mod text;

pub use text::{GuardedText, guarded_nodes};
