//! Covers of tables: the rows of a `.names` statement and the value that they give.
//!
//! The layers above may rely on this: a `Cover` is its width, its polarity and its rows, each as wide
//! as the cover; `value` is the value of the rows; reading a cover takes no memory.
#![tactic(auto)]

mod cover;
mod cover_rows;
mod covers;
mod rows;
mod vote;

pub use cover::{Cover, RowFault};
pub use covers::Covers;
pub use vote::majority;
