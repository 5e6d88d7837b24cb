//! Looks at a library before its flat design is made: the first fault of its `.subckt` statements, of models
//! that place each other in a loop, or of the length of its flat text; else an order of its models, each with
//! the count of what its flat elements hold.
//!
//! The layers above may rely on `IsSound`, `Fits` and `IsLibraryFault` of `specs/Sound.antt`. The flat elements and their text
//! are defined in `specs/Flat.antt` and `specs/FlatText.antt`, over the library alone. None of them is made here: a
//! library of a few lines can have more flat elements than any memory holds.
#![tactic(auto)]

mod fault;
mod lengths;
mod looked;
mod statements;
mod survey;

pub use fault::{LibraryFault, PlacingFault};
pub use lengths::count::{Count, times_used};
pub use lengths::entries::{entry_at, entry_of};
pub use lengths::flat_text::step_text;
pub use looked::{Looked, look};
pub use statements::names::copy_names;
