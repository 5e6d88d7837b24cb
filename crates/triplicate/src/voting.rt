//! Which pins are voted.
ghost use Rattle.std.specs.Prelude.{◌≡◌, ◌<◌, ℕ, length};
ghost use Rattle.graph.specs.Rows.{row};
ghost use Rattle.feedback_cut.specs.Inner.{node_pins};
ghost use Rattle.recovery_depth.specs.Extra.{is_cut_or_extra};
ghost use Rattle.triplicate.specs.Pins.{pin_is_voted, AreVotesOf};

use feedback_cut::CutPins;
use flat_net::{FlatNet, nodes_of};
use recovery_depth::Extra;
use std::marker::Model;
use tmr_base::{NetId, Parts};

/// Which pins are voted: whether those that read inputs are, the cut ones, and extra ones.
#[derive(Drop)]
pub struct VotedPins<'a> {
    pub inputs: bool,
    pub cut: &'a CutPins,
    pub extra: &'a Extra,
}

impl<'a> Model for VotedPins<'a> {
    ghost use Rattle.triplicate.specs.Pins.{PlainVotes};

    ghost Value = { PlainVotes };

    ghost view = { λ v. record { inputs = v.inputs; cut = v.cut.now; marks = v.extra.now.marks } };
}

/// Pin j of node y is cut or extra.
fn is_own_voted(votes: &VotedPins, y: u32, j: u32) -> bool
    requires node { y < length votes.now.cut }
    requires pin { j < length (row votes.now.cut y) }
    requires marks { y < length votes.now.marks }
    ensures { result ≡ is_cut_or_extra votes.now.cut votes.now.marks y j }
{
    votes.cut.is_cut(y, j) || votes.extra.is_extra(y, j)
}

/// Pin j of node y is voted: it reads an input, and those pins are, or a node of another partition, or it is
/// cut or extra.
pub fn is_voted(n: &FlatNet, parts: &Parts, votes: &VotedPins, y: u32, j: u32) -> bool
    requires votes { AreVotesOf n.now.net parts.now votes.now }
    requires node { y < length n.now.net.nodes }
    requires pin { j < length (node_pins n.now.net y) }
    ensures { result ≡ pin_is_voted n.now.net parts.now votes.now y j }
{
    let _nodes = nodes_of(n);
    let inputs = n.input_count();
    let x = n.pin(NetId(inputs + y), j);
    if x.0 < inputs {
        return votes.inputs;
    }
    parts.of(x.0 - inputs) != parts.of(y) || is_own_voted(votes, y, j)
}
