//! Why a library has no flat design.
ghost use Rattle.std.specs.Prelude.{◌≡◌};
ghost use Rattle.hierarchy.specs.Private.Stages.{flat_fault_of, library_fault_of};
ghost use Rattle.hierarchy.specs.declared.flat_fault.FlatFault.TheVariants.{Memory};

use flat_net::NetFault;
use library_faults::{LibraryFault, PlacingFault};
use std::alloc::AllocError;
use tmr_base::{Name, OutOfMemory};

/// The first fault of a library. The models that the main model reaches are looked at in the order of the
/// file, and in each its `.subckt` statements. The first five are of one statement and are tried in the
/// order `UnknownModel`, `BothWays`, per binding `UnknownFormal` and `DuplicateFormal`, `UnboundInput`;
/// the others follow in the order in which they stand here.
#[derive(Debug, Drop)]
pub enum FlatFault {
    /// No model has this name.
    UnknownModel(Name),
    /// The placed model has this input, which no binding names.
    UnboundInput(Name),
    /// The placed model has no input or output of this name.
    UnknownFormal(Name),
    /// An earlier binding of the statement names it too.
    DuplicateFormal(Name),
    /// It is an input of the placed model, and an output of it.
    BothWays(Name),
    /// Reached models of which each places the next, and the last the first; none stands twice, and the
    /// first is the one that is first in the file.
    Recursive(Vec<Name>),
    /// The flat text is longer than the limit.
    TooLarge,
    /// The first text that an earlier different net has.
    NameClash(Name),
    /// The fault of the flat design. It is never `Memory`.
    Net(NetFault),
    /// There was no memory.
    Memory,
}

impl From<OutOfMemory> for FlatFault {
    ghost from_gives = { λ _ fault. fault ≡ Memory };

    fn from(_error: OutOfMemory) -> FlatFault {
        FlatFault::Memory
    }
}

impl From<AllocError> for FlatFault {
    ghost from_gives = { λ _ fault. fault ≡ Memory };

    fn from(_error: AllocError) -> FlatFault {
        FlatFault::Memory
    }
}

fn placing_fault(fault: PlacingFault) -> FlatFault
    ensures { result ≡ flat_fault_of fault }
{
    match fault {
        PlacingFault::UnknownModel(name) => FlatFault::UnknownModel(name),
        PlacingFault::UnboundInput(name) => FlatFault::UnboundInput(name),
        PlacingFault::UnknownFormal(name) => FlatFault::UnknownFormal(name),
        PlacingFault::DuplicateFormal(name) => FlatFault::DuplicateFormal(name),
        PlacingFault::BothWays(name) => FlatFault::BothWays(name),
    }
}

impl From<LibraryFault> for FlatFault {
    ghost from_gives = { λ fault made. made ≡ library_fault_of fault };

    fn from(fault: LibraryFault) -> FlatFault {
        match fault {
            LibraryFault::Misplaced(fault) => placing_fault(fault),
            LibraryFault::Recursive(names) => FlatFault::Recursive(names),
            LibraryFault::TooLarge => FlatFault::TooLarge,
            LibraryFault::Memory => FlatFault::Memory,
        }
    }
}
