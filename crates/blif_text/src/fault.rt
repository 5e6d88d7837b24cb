//! Why a text is refused.
ghost use Rattle.std.specs.Prelude.{◌≡◌};
ghost use Rattle.blif_text.specs.declared.fault.Refusal.TheVariants.{Memory};

use std::alloc::{AllocError, AllocFailed};
use tmr_base::OutOfMemory;

/// What is wrong with the first bad statement.
#[derive(Clone, Copy, Debug, PartialEq, Eq, Drop)]
pub enum TextKind {
    /// No model is open, as for `.inputs a` before the first `.model` or behind an `.end`; or the
    /// text has no statement at all.
    NoModel,
    /// Another word with a dot, as `.gate`, or a latch that is active on a level, as `ah`.
    Unsupported,
    /// A token that is to be a name and is none, as `a\` in `.inputs a\ b`.
    BadName,
    /// A row of another form than its table has, as `11 2` under `.names a b y`.
    BadRow,
    /// A row with another output than those before it, as `0 0` after `1 1`.
    MixedCover,
    /// A latch's type or initial value that is none, as `.latch d q 4`.
    BadLatch,
    /// A binding without `=`, or with a side that is no name, as `a=`.
    BadBinding,
    /// A name that the lists of this word have already, as `.outputs y y`.
    DuplicatePort,
    /// A `.model` with the name of an earlier one.
    DuplicateModel,
    /// A row that follows neither `.names` nor a row.
    RowOutside,
    /// Too few or too many tokens after the word, as `.latch d`.
    Arguments,
}

/// Why a text is refused.
#[derive(Clone, Copy, Debug, PartialEq, Eq, Drop)]
pub enum TextFault {
    /// The first bad statement begins on this line, counted from 1, and is refused with this kind.
    Bad { line: u64, kind: TextKind },
    /// There was no memory for what is read. The same is said where a table has more than 4,294,967,295 pins or rows, or
    /// the text more than as many models, since numbers of 32 bits count them.
    Memory,
}

/// Why a statement was not taken.
#[derive(Debug, Drop)]
pub(crate) enum Refusal {
    Bad(TextKind),
    Memory,
}

impl From<AllocError> for Refusal {
    ghost from_gives = { λ _ e. e ≡ Memory };

    fn from(_e: AllocError) -> Refusal {
        Refusal::Memory
    }
}

impl<T: Drop> From<AllocFailed<T>> for Refusal {
    ghost from_gives = { λ _ e. e ≡ Memory };

    fn from(_e: AllocFailed<T>) -> Refusal {
        Refusal::Memory
    }
}

impl From<OutOfMemory> for Refusal {
    ghost from_gives = { λ _ e. e ≡ Memory };

    fn from(_e: OutOfMemory) -> Refusal {
        Refusal::Memory
    }
}
