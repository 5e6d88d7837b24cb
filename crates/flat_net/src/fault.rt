//! Why a draft is no design.
ghost use Rattle.std.specs.Prelude.{◌≡◌};
ghost use Rattle.flat_net.specs.declared.fault.NetFault.TheVariants.{Memory};

use tmr_base::{Name, OutOfMemory};

/// The first fault of a draft, in this order.
#[derive(Debug, Drop)]
pub enum NetFault {
    /// The first output of an element that is a main input or the output of an earlier element.
    DoubleDriven(Name),
    /// The output of the first latch whose clocking differs from that of the first latch of all.
    MixedClock(Name),
    /// The common control, which is named `NIL`, is no main input, is a pin, or is a main output.
    ClockUse(Name),
    /// The first pin, and then the first main output, that is no net of the design.
    Undriven(Name),
    /// Tables of which each reads the next and the last reads the first, none twice, beginning with the least number.
    CombLoop(Vec<Name>),
    /// There was no memory.
    Memory,
}

impl From<OutOfMemory> for NetFault {
    ghost from_gives = { λ _ fault. fault ≡ Memory };

    fn from(_error: OutOfMemory) -> NetFault {
        NetFault::Memory
    }
}
