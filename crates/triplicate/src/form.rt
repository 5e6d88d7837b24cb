//! The two forms of hardening.

/// Which partitions hardening makes, and which pins inside them it votes.
#[derive(Clone, Copy, Debug, PartialEq, Eq, Drop)]
pub enum Form {
    /// Partitions refined from the plain cut, and a cut of which each pin is needed.
    Plain,
    /// Partitions that cost no more, and the cut at registers: mostly fewer voters, and less depth.
    Lean,
}
