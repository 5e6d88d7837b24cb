//! Why a file gives no graph.
ghost use Rattle.std.specs.Prelude.{◌≡◌};
ghost use Rattle.aag_reader.specs.declared.fault.GraphFault.TheVariants.{Memory};

use std::alloc::{AllocError, AllocFailed};
use tmr_base::OutOfMemory;

/// The first fault of a file, in this order.
#[derive(Debug, Drop)]
pub enum GraphFault {
    /// The first line that is not of its form. Where the file ends too early, it is the number of its lines plus 1.
    Line(u64),
    /// The first variable that is defined a second time.
    Doubled(u32),
    /// The first variable of a next, output or gate literal, in file order, that is not 0 and is not defined.
    Undefined(u32),
    /// There was no memory.
    Memory,
}

impl From<AllocError> for GraphFault {
    ghost from_gives = { λ _ e. e ≡ Memory };

    fn from(_error: AllocError) -> GraphFault {
        GraphFault::Memory
    }
}

impl<T: Drop> From<AllocFailed<T>> for GraphFault {
    ghost from_gives = { λ _ e. e ≡ Memory };

    fn from(_error: AllocFailed<T>) -> GraphFault {
        GraphFault::Memory
    }
}

impl From<OutOfMemory> for GraphFault {
    ghost from_gives = { λ _ e. e ≡ Memory };

    fn from(_error: OutOfMemory) -> GraphFault {
        GraphFault::Memory
    }
}
