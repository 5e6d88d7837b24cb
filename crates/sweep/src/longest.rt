//! How many tables stand on the longest path of a design.
ghost use Rattle.std.specs.Prelude.{◌≡◌, ◌+◌, ◌<◌, ◌≤◌, ◌⊎◌, ℕ, length, slice_index, IfOk};
ghost use Rattle.limits.specs.Most.{widest_nets};
ghost use Rattle.flat_net.specs.Net.{net_count, pin_total, node_of, IsRegister};
ghost use Rattle.sweep.specs.Levels.{AreLevels};
ghost use Rattle.sweep.specs.Private.Reaching.{voted_by, HasTaps, along, kept, IsMostOut, IsMostKept, AreVotedLevels};

use crate::reaching::{along, greater, reached};
use crate::votes::Votes;
use flat_net::{FlatNet, Kind, nodes_of};
use std::alloc::Global;
use tmr_base::{NetId, OutOfMemory};

/// The most that is reached at an output.
fn most_out(n: &FlatNet, reach: &[u32]) -> u32
    requires long { length reach.now ≡ net_count n.now.net }
    ensures { IsMostOut n.now.net reach.now result }
{
    let mut most = 0;
    for k in 0..n.output_count() {
        let x = n.output(k);
        most = greater(most, reach[x.0 as usize]);
    }
    most
}

/// What comes along the pin of node y, if it is a register.
fn kept(n: &FlatNet, votes: &Votes, reach: &[u32], y: u32) -> u32
    requires taps { HasTaps n.now.net votes.now }
    requires long { length reach.now ≡ net_count n.now.net }
    requires few { (x : ℕ) → slice_index reach.now x < 2147483648 }
    requires node { y < length n.now.net.nodes }
    ensures { result ≡ kept n.now.net (voted_by n.now.net votes.now) reach.now y }
{
    let _nodes = nodes_of(n);
    match n.kind(NetId(n.input_count() + y)) {
        Kind::Register => along(n, votes, reach, y, 0),
        Kind::Input => 0,
        Kind::Table => 0,
    }
}

/// The most that comes along the pin of a register.
fn most_kept(n: &FlatNet, votes: &Votes, reach: &[u32]) -> u32
    requires taps { HasTaps n.now.net votes.now }
    requires long { length reach.now ≡ net_count n.now.net }
    requires few { (x : ℕ) → slice_index reach.now x < 2147483648 }
    ensures { IsMostKept n.now.net (voted_by n.now.net votes.now) reach.now result }
{
    let mut most = 0;
    for y in 0..nodes_of(n) {
        most = greater(most, kept(n, votes, reach, y));
    }
    most
}

/// The most tables on a path from an input or a register to a register or an output, where a voted pin counts one table more.
pub fn voted_levels(alloc: Global, n: &FlatNet, votes: &Votes) -> Result<u32, OutOfMemory>
    requires taps { HasTaps n.now.net votes.now }
    requires few { net_count n.now.net + pin_total n.now.net ≤ widest_nets }
    ensures { IfOk result (λ levels. AreVotedLevels n.now.net (voted_by n.now.net votes.now) levels) }
{
    let _nodes = nodes_of(n);
    let reach = reached(alloc, n, votes)?;
    let outputs = most_out(n, &reach);
    let registers = most_kept(n, votes, &reach);
    Ok(greater(outputs, registers).saturating_sub(1))
}

/// The most tables on a path from an input or a register to a register or an output. The one refusal is want of memory.
pub fn levels(alloc: Global, n: &FlatNet) -> Result<u32, OutOfMemory>
    requires { net_count n.now.net + pin_total n.now.net ≤ widest_nets }
    ensures { IfOk result (λ levels. AreLevels n.now.net levels) }
{
    let levels = voted_levels(alloc, n, &Votes::Absent)?;
    Ok(levels)
}
