//! The three copies of a net.
ghost use Rattle.std.specs.Prelude.{◌≡◌};
ghost use Rattle.tmr_base.specs.Copies.{copy_number};

/// Which of the three copies of a net.
#[derive(Clone, Copy, Debug, PartialEq, Eq, Drop)]
pub enum CopyNo {
    First,
    Second,
    Third,
}

impl CopyNo {
    /// 0, 1 or 2.
    pub fn number(self) -> u32
        ensures { result ≡ copy_number self }
    {
        match self {
            CopyNo::First => 0,
            CopyNo::Second => 1,
            CopyNo::Third => 2,
        }
    }
}
