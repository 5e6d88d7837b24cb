//! Waves: a text in the value change dump format, which wave viewers show.
//!
//! The layers above may rely on this: the text is `vcd_text` of `specs/Text.antt`, a list of lines; what it tells of
//! each name in each cycle (`vcd_at` of `specs/At.antt`) is the value that was given.
#![tactic(auto)]

mod changes;
mod text;

pub use text::write_vcd;
