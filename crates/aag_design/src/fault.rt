//! Why a file gives no design.
ghost use Rattle.std.specs.Prelude.{◌≡◌};
ghost use Rattle.aag_design.specs.declared.fault.AagFault.TheVariants.{Memory};

use std::alloc::{AllocError, AllocFailed};
use tmr_base::OutOfMemory;

/// The first fault of a file, in this order.
#[derive(Debug, Drop)]
pub enum AagFault {
    /// The first line that is not of its form. Where the file ends too early, it is the number of its lines plus 1.
    Line(u64),
    /// The first variable that is defined a second time.
    Doubled(u32),
    /// The first variable of a next, output or gate literal, in file order, that is not 0 and is not defined.
    Undefined(u32),
    /// Gates of which each reads the next and the last reads the first, none twice, beginning with the least.
    Loop(Vec<u32>),
    /// The flat text of the design is longer than the limit.
    TooLarge,
    /// There was no memory.
    Memory,
}

impl From<AllocError> for AagFault {
    ghost from_gives = { λ _ e. e ≡ Memory };

    fn from(_error: AllocError) -> AagFault {
        AagFault::Memory
    }
}

impl<T: Drop> From<AllocFailed<T>> for AagFault {
    ghost from_gives = { λ _ e. e ≡ Memory };

    fn from(_error: AllocFailed<T>) -> AagFault {
        AagFault::Memory
    }
}

impl From<OutOfMemory> for AagFault {
    ghost from_gives = { λ _ e. e ≡ Memory };

    fn from(_error: OutOfMemory) -> AagFault {
        AagFault::Memory
    }
}
