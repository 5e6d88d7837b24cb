//! What is wrong with a library.
ghost use Rattle.std.specs.Prelude.{◌≡◌};
ghost use Rattle.library_faults.specs.declared.fault.LibraryFault.TheVariants.{Memory};

use std::alloc::AllocError;
use tmr_base::{Name, OutOfMemory};

/// The first fault of a `.subckt` statement. They are tried in this order: the model that it places is
/// unknown; it has an input that is also an output; a binding names no input or output of it, or one
/// that an earlier binding names; one of its inputs has no binding.
#[derive(Debug, Drop)]
pub enum PlacingFault {
    /// No model has this name.
    UnknownModel(Name),
    /// The placed model has this input, which no binding names.
    UnboundInput(Name),
    /// The placed model has no input or output of this name.
    UnknownFormal(Name),
    /// An earlier binding of the statement names it too.
    DuplicateFormal(Name),
    /// It is an input of the placed model, and an output of it.
    BothWays(Name),
}

/// The first fault of a library, in the order of these variants.
#[derive(Debug, Drop)]
pub enum LibraryFault {
    /// The first fault of the statements of the models that the main model reaches, in the order of the file.
    Misplaced(PlacingFault),
    /// Reached models of which each places the next, and the last the first; none stands twice, and the
    /// first is the one that is first in the file.
    Recursive(Vec<Name>),
    /// The flat text is longer than the limit.
    TooLarge,
    /// There was no memory.
    Memory,
}

impl From<OutOfMemory> for LibraryFault {
    ghost from_gives = { λ _ fault. fault ≡ Memory };

    fn from(_error: OutOfMemory) -> LibraryFault {
        LibraryFault::Memory
    }
}

impl From<AllocError> for LibraryFault {
    ghost from_gives = { λ _ fault. fault ≡ Memory };

    fn from(_error: AllocError) -> LibraryFault {
        LibraryFault::Memory
    }
}
