//! Which reads are cut.
ghost use Rattle.std.specs.Prelude.{◌≡◌, ◌<◌, length};
ghost use Rattle.graph.specs.Rows.{row};
ghost use Rattle.graph.specs.Search.{is_cut};

use crate::deciding::Decisions;
use std::marker::Model;

/// For each vertex and each of its reads, whether the read is cut.
#[derive(Drop)]
pub struct CutReads {
    decisions: Decisions,
}

impl Model for CutReads {
    ghost use Rattle.std.specs.Prelude.{Bool, List};

    ghost Value = { List (List Bool) };

    ghost view = { λ c. c.decisions.rows };
}

impl CutReads {
    /// The cut that was decided.
    pub(crate) fn new(decisions: Decisions) -> CutReads
        ensures { result ≡ decisions.rows }
    {
        CutReads { decisions }
    }

    /// Read j of vertex y is cut.
    pub fn is_cut(&self, y: u32, j: u32) -> bool
        requires vertex { y < length self.now }
        requires read { j < length (row self.now y) }
        ensures { result ≡ is_cut self.now y j }
    {
        self.decisions.bit(y, j)
    }
}
