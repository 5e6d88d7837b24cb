//! How a run ends.
ghost use Rattle.std.specs.Prelude.{◌≡◌};
ghost use Rattle.tmr_top.specs.Codes.{code_of};

/// How a run ended.
#[derive(Clone, Copy, Debug, PartialEq, Eq, Drop)]
pub enum Status {
    /// The command was done, and its whole text was put.
    Done,
    /// The pair of designs breaks one of the eight rules, or the netlist is not the guarded one.
    NotAccepted,
    /// The words are no command.
    Usage,
    /// A load, a save or the put of the text failed.
    Fault,
    /// A file is too long, or its bytes are not what it is to hold.
    Refused,
    /// There was no memory.
    Memory,
}

impl Status {
    /// The exit status of the program: 0 to 5, in the order of the variants.
    pub fn code(&self) -> u8
        ensures { result ≡ code_of self.now }
    {
        match self {
            Status::Done => 0,
            Status::NotAccepted => 1,
            Status::Usage => 2,
            Status::Fault => 3,
            Status::Refused => 4,
            Status::Memory => 5,
        }
    }
}
