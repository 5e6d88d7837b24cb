//! Where in the hardened design each net's copies and voters stand.
ghost use Rattle.std.specs.Prelude.{◌≡◌, ◌+◌, ◌*◌, ◌<◌, length, IfOk};
ghost use Rattle.flat_net.specs.Net.{net_count};
ghost use Rattle.triplicate.specs.Pins.{pin_is_voted};
ghost use Rattle.triplicate.specs.Blocks.{copies_of, hardened_roles};
ghost use Rattle.triplicate.specs.Starts.{AreVoterRows, AreStarts};
ghost use Rattle.triplicate.specs.Numbers.{block_start, HasFewNets};

use crate::voting::VotedPins;
use flat_net::{FlatNet, nodes_of};
use graph::Graph;
use std::alloc::Global;
use tmr_base::{OutOfMemory, Parts};

/// How many copies of net x are nodes.
pub fn copies(n: &FlatNet, x: u32) -> u32
    ensures { result ≡ length (copies_of n.now.net x) }
{
    if x < n.input_count() { 0 } else { 3 }
}

/// Where what stands for the net behind x begins, where what stands for x begins at `start`.
fn next_start(
    n: &FlatNet,
    parts: &Parts,
    votes: &VotedPins,
    voters: &Graph,
    x: u32,
    start: u32,
) -> u32
    requires voters { AreVoterRows n.now.net parts.now (pin_is_voted n.now.net parts.now votes.now) voters.now }
    requires few { HasFewNets n.now.net parts.now (pin_is_voted n.now.net parts.now votes.now) }
    requires net { x < net_count n.now.net }
    requires start { start ≡ block_start n.now.net parts.now (pin_is_voted n.now.net parts.now votes.now) x }
    ensures { result ≡ block_start n.now.net parts.now (pin_is_voted n.now.net parts.now votes.now) (x + 1) }
{
    let copied = copies(n, x);
    let voting = voters.row(x).len() as u32;
    start + copied + 3 * voting
}

/// For each net the number of the first hardened node that stands for it, and last the number behind all.
pub fn block_starts(
    alloc: Global,
    n: &FlatNet,
    parts: &Parts,
    votes: &VotedPins,
    voters: &Graph,
) -> Result<Vec<u32>, OutOfMemory>
    requires voters { AreVoterRows n.now.net parts.now (pin_is_voted n.now.net parts.now votes.now) voters.now }
    requires few { HasFewNets n.now.net parts.now (pin_is_voted n.now.net parts.now votes.now) }
    ensures { IfOk result (λ starts. AreStarts n.now.net parts.now (pin_is_voted n.now.net parts.now votes.now) starts.items) }
{
    let inputs = n.input_count();
    let nets = inputs + nodes_of(n);
    let mut starts = Vec::with_capacity(alloc, nets as usize + 1)?;
    let mut next = 3 * inputs;
    for x in 0..nets {
        starts.push(next)?;
        next = next_start(n, parts, votes, voters, x, next);
    }
    starts.push(next)?;
    Ok(starts)
}

/// How many nets the hardened design has.
pub fn hardened_nets(n: &FlatNet, parts: &Parts, votes: &VotedPins, voters: &Graph) -> u32
    requires voters { AreVoterRows n.now.net parts.now (pin_is_voted n.now.net parts.now votes.now) voters.now }
    requires few { HasFewNets n.now.net parts.now (pin_is_voted n.now.net parts.now votes.now) }
    ensures { result ≡ 3 * length n.now.net.inputs + length (hardened_roles n.now.net parts.now (pin_is_voted n.now.net parts.now votes.now)) }
{
    let inputs = n.input_count();
    let nets = inputs + nodes_of(n);
    let mut next = 3 * inputs;
    for x in 0..nets {
        next = next_start(n, parts, votes, voters, x, next);
    }
    next
}
