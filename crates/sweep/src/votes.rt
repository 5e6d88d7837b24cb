//! Which pins are voted.
ghost use Rattle.std.specs.Prelude.{◌≡◌, ◌<◌, length};
ghost use Rattle.feedback_cut.specs.Inner.{node_pins};
ghost use Rattle.sweep.specs.Private.Reaching.{voted_by, HasTaps};

use flat_net::FlatNet;
use triplicate::Plan;

/// Which pins are voted.
#[derive(Drop)]
pub enum Votes<'a> {
    /// None, as in the original.
    Absent,
    /// Those of a plan.
    Planned(&'a Plan),
}

/// Whether pin j of node y is voted.
pub fn is_voted(n: &FlatNet, votes: &Votes, y: u32, j: u32) -> bool
    requires taps { HasTaps n.now.net votes.now }
    requires node { y < length n.now.net.nodes }
    requires pin { j < length (node_pins n.now.net y) }
    ensures { result ≡ voted_by n.now.net votes.now y j }
{
    match votes {
        Votes::Absent => false,
        Votes::Planned(plan) => plan.is_voted(n, y, j),
    }
}
