//! How exposed a hardened design is: how many pairs of upsets its certificate does not allow.
//!
//! The layers above may rely on this: `exposure` is the text that `exposure_text` spells, and `near` the number of pairs of
//! nets and distances of cycles that are too near in a partition. What too near means is told by `allowed_where_none_too_near`:
//! a schedule of upsets is allowed exactly where no two of its upsets are too near.
#![tactic(auto)]

mod counting;
mod laws;
mod lines;
mod nearness;
mod text;

pub use laws::{allowed_where_none_too_near, counts_are_of_nets, near_counts_strikes};
pub use nearness::near;
pub use text::exposure;
