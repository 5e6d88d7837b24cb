//! A count of faults.
ghost use Rattle.std.specs.Prelude.{◌≡◌, ◌≤◌, ◌+◌, ◌-◌, ◌^◌, min, true, false};

use std::marker::Model;

/// A count that rises by one at each fault, and ends at the last number of 64 bits.
#[derive(Drop)]
pub struct FaultCount {
    count: u64,
}

impl Model for FaultCount {
    ghost use Rattle.std.specs.Prelude.{ℕ};

    ghost Value = { ℕ };

    ghost view = { λ faults. faults.count };
}

impl FaultCount {
    /// No fault so far.
    pub fn new() -> FaultCount
        ensures { result ≡ 0 }
    {
        FaultCount { count: 0 }
    }

    /// Counts a fault.
    pub fn raise(&mut self)
        ensures raised { self.new ≡ min (self.old + 1) (2 ^ 64 - 1) }
        ensures later { self.old ≤ self.new }
    {
        self.count = self.count.saturating_add(1);
    }

    /// Counts a fault where a call was refused.
    pub fn raise_if(&mut self, refused: bool)
        ensures refused { refused ≡ true → self.new ≡ min (self.old + 1) (2 ^ 64 - 1) }
        ensures passed { refused ≡ false → self.new ≡ self.old }
        ensures later { self.old ≤ self.new }
    {
        if refused {
            self.raise();
        }
    }
}
