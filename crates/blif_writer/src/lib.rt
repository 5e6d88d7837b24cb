//! Writes a flat design as a text of the Berkeley Logic Interchange Format.
//!
//! The layers above may rely on this: the text is `flat_text` of `specs/Text.antt`, a list of lines of words.
//! Reading and flattening it gives the design, and no other (`IsNetOf` of `specs/NetOf.antt`), and its length
//! is a sum over the nodes and their pins (`flat_length` of `specs/Length.antt`). With marks, a register's
//! free value is written `3`, and the text gives the marks back too (`IsFreeNetOf`).
#![tactic(auto)]

mod ahead;
mod marked;
mod nodes;
mod text;
mod words;

pub use ahead::make_room;
pub use text::{write_flat, write_free};
pub use words::{put_rows, put_start};
