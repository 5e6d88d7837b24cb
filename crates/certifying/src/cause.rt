//! Why no certificate is found.
ghost use Rattle.std.specs.Prelude.{◌≡◌};
ghost use Rattle.certifying.specs.declared.cause.NoCertificate.TheVariants.{Memory};

use std::alloc::{AllocError, AllocFailed};
use tmr_base::{CopyNo, NetId, OutOfMemory};
use validator::Refusal;

/// Why no certificate is found, in the order in which the causes are tried. Of each the least place is told.
#[derive(Drop)]
pub enum NoCertificate {
    /// The hardened design has not three inputs for each original one.
    Inputs,
    /// The clocks differ, or one design alone has one.
    Clock,
    /// This output of the hardened design, counted from 0, is not the copy that it must be, or is one too many
    /// or too few.
    Output(u32),
    /// This pin of a hardened node reads a net that can be neither the copy nor the voter that is wanted there.
    Pin { node: NetId, pin: u32 },
    /// This hardened node would have to be two things.
    TwoRoles(NetId),
    /// This hardened node stands for nothing.
    NoRole(NetId),
    /// This copy of an original node is nowhere.
    NoCopy { node: NetId, copy: CopyNo },
    /// Of these copies each reads the next without a voter, and the last reads the first.
    Loop(Vec<u32>),
    /// What was found is refused by this rule.
    Rule(Refusal),
    /// There was not enough memory.
    Memory,
}

impl From<AllocError> for NoCertificate {
    ghost from_gives = { λ _ e. e ≡ Memory };

    fn from(_error: AllocError) -> NoCertificate {
        NoCertificate::Memory
    }
}

impl<T: Drop> From<AllocFailed<T>> for NoCertificate {
    ghost from_gives = { λ _ e. e ≡ Memory };

    fn from(_error: AllocFailed<T>) -> NoCertificate {
        NoCertificate::Memory
    }
}

impl From<OutOfMemory> for NoCertificate {
    ghost from_gives = { λ _ e. e ≡ Memory };

    fn from(_error: OutOfMemory) -> NoCertificate {
        NoCertificate::Memory
    }
}
