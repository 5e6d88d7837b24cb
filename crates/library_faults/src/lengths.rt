//! The length of the flat text, counted model by model.
//!
//! A library of a few lines can have more flat elements than can be counted one by one. So each model is counted once,
//! after those that it places: its bytes, its own nets, which grow by each path that they stand under, and how often
//! each of its formals stands, which goes by what it is bound to. Sums that no limit lets a text have are cut off.

pub(crate) mod count;
pub(crate) mod counting;
pub(crate) mod entries;
pub(crate) mod flat_text;
pub(crate) mod placed_text;
