//! The words of `trial`.
ghost use Rattle.std.specs.Prelude.{◌≤◌};

/// The two numbers of `trial NUMBER NODES`: what the design is drawn from, and how many nodes it has.
#[derive(Clone, Copy, Drop)]
pub struct TrialWords {
    pub number: u64,
    pub nodes: u32,
    ghost few: { nodes ≤ 100000 },
}
