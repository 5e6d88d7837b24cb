//! Reads a text of the Berkeley Logic Interchange Format: bytes, which may come in pieces, as the
//! library of models that they spell, or as the first bad line with what is wrong there.
//!
//! Whether models fit together is decided above. The layers above may rely on `reading` of
//! `specs/Reading.antt`: what a text gives is a definition over its bytes, and the reader answers it
//! however the bytes are cut.
//!
//! Numbers of 32 bits count the pins and the rows of a table, and the models. A long text may have more of them. That is
//! tested where each is counted, and the answer is `Memory`: so what a text gives does not depend on these numbers.
#![tactic(auto)]

mod fault;
mod library;
mod progress;
mod reader;
mod statements;

pub use fault::{TextFault, TextKind};
pub use library::{BlifModel, Element, Init, Library};
pub use reader::{Reader, read_library};
