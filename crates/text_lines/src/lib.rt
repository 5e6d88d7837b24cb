//! Texts line by line: the lines of bytes that are at hand, and lines that come in pieces and are joined.
//!
//! The layers above may rely on this: `Lines` hands out the lines of a text one by one, with their numbers, and whether a
//! line feed ended each. `PendingLine` takes a text that comes in pieces, and joins a line that ends in a backslash with the
//! next. specs/Lines says what a line is, specs/Joined what a joined line and its tokens are.
#![tactic(auto)]

mod joined;
mod lines;
mod pending;

pub use joined::{Tokens, tokens};
pub use lines::{Line, Lines, line_end};
pub use pending::PendingLine;
