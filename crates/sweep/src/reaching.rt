//! For each net the most tables on a path to it.
ghost use Rattle.std.specs.Prelude.{◌≡◌, ◌==◌, ◌+◌, ◌-◌, ◌<◌, ◌≤◌, ℕ, max, length, map, slice_index, IfOk, if◌then◌else◌};
ghost use Rattle.std.specs.List.{range_with_len};
ghost use Rattle.limits.specs.Most.{widest_nets};
ghost use Rattle.flat_net.specs.Net.{net_count, pin_total, node_of, IsTable};
ghost use Rattle.feedback_cut.specs.Inner.{node_pins};
ghost use Rattle.sweep.specs.Private.Reaching.{voted_by, HasTaps, passed, along, first_reach, IsMostAt, IsNextReach, AreReached};

use crate::votes::{Votes, is_voted};
use flat_net::{FlatNet, Kind, nodes_of};
use std::alloc::Global;
use tmr_base::{NetId, OutOfMemory};

/// What comes along a pin: nothing where nothing is reached, and one more where the pin is voted.
fn passed(reach: u32, voted: bool) -> u32
    requires { reach < 2147483648 }
    ensures value { result ≡ passed reach voted }
    ensures few { result ≤ reach + 1 }
{
    if reach == 0 {
        return 0;
    }
    if voted { reach + 1 } else { reach }
}

/// The greater of two numbers.
pub fn greater(a: u32, b: u32) -> u32
    ensures { result ≡ max a b }
{
    if a < b { b } else { a }
}

/// What comes along pin j of node y.
pub fn along(n: &FlatNet, votes: &Votes, reach: &[u32], y: u32, j: u32) -> u32
    requires taps { HasTaps n.now.net votes.now }
    requires long { length reach.now ≡ net_count n.now.net }
    requires few { (x : ℕ) → slice_index reach.now x < 2147483648 }
    requires node { y < length n.now.net.nodes }
    requires pin { j < length (node_pins n.now.net y) }
    ensures value { result ≡ along n.now.net (voted_by n.now.net votes.now) reach.now y j }
    ensures few { result ≤ 2147483648 }
{
    let _nodes = nodes_of(n);
    let x = n.pin(NetId(n.input_count() + y), j);
    passed(reach[x.0 as usize], is_voted(n, votes, y, j))
}

/// The most that comes along a pin of node y.
fn most_along(n: &FlatNet, votes: &Votes, reach: &[u32], y: u32) -> u32
    requires taps { HasTaps n.now.net votes.now }
    requires long { length reach.now ≡ net_count n.now.net }
    requires few { (x : ℕ) → slice_index reach.now x < 2147483648 }
    requires node { y < length n.now.net.nodes }
    ensures most { IsMostAt n.now.net (voted_by n.now.net votes.now) reach.now y result }
    ensures few { result ≤ 2147483648 }
{
    let _nodes = nodes_of(n);
    let mut most = 0;
    for j in 0..n.pin_count(NetId(n.input_count() + y)) {
        most = greater(most, along(n, votes, reach, y, j));
    }
    most
}

/// One more, where something comes along.
fn one_more(most: u32) -> u32
    requires { most ≤ 2147483648 }
    ensures { result ≡ (if most == 0 then 0 else most + 1) }
{
    if most == 0 { 0 } else { most + 1 }
}

/// One more than what comes along the pins of table x, if something does.
fn table_reach(n: &FlatNet, votes: &Votes, reach: &[u32], x: NetId) -> u32
    requires taps { HasTaps n.now.net votes.now }
    requires long { length reach.now ≡ net_count n.now.net }
    requires few { (x : ℕ) → slice_index reach.now x < 2147483648 }
    requires low { length n.now.net.inputs ≤ x.0 }
    requires high { x.0 < net_count n.now.net }
    requires table { IsTable (node_of n.now.net x.0) }
    ensures { IsNextReach n.now.net (voted_by n.now.net votes.now) reach.now x.0 result }
{
    let y = x.0 - n.input_count();
    let most = most_along(n, votes, reach, y);
    one_more(most)
}

/// What is reached at net x, where its pins come before it.
fn next_reach(n: &FlatNet, votes: &Votes, reach: &[u32], x: NetId) -> u32
    requires taps { HasTaps n.now.net votes.now }
    requires long { length reach.now ≡ net_count n.now.net }
    requires few { (x : ℕ) → slice_index reach.now x < 2147483648 }
    requires low { length n.now.net.inputs ≤ x.0 }
    requires high { x.0 < net_count n.now.net }
    ensures { IsNextReach n.now.net (voted_by n.now.net votes.now) reach.now x.0 result }
{
    match n.kind(x) {
        Kind::Table => table_reach(n, votes, reach, x),
        Kind::Input => reach[x.0 as usize],
        Kind::Register => reach[x.0 as usize],
    }
}

/// What is reached at net x before any table is looked at.
fn first_reach(n: &FlatNet, x: NetId) -> u32
    requires { x.0 < net_count n.now.net }
    ensures { result ≡ first_reach (node_of n.now.net x.0) }
{
    match n.kind(x) {
        Kind::Table => 0,
        Kind::Input => 1,
        Kind::Register => 1,
    }
}

/// What is reached at each net before any table is looked at.
fn first_reaches(alloc: Global, n: &FlatNet) -> Result<Vec<u32>, OutOfMemory>
    ensures { IfOk result (λ reach. reach.items ≡ map (λ x. first_reach (node_of n.now.net x)) (range_with_len 0 (net_count n.now.net))) }
{
    let nets = n.input_count() + nodes_of(n);
    let mut reach = Vec::with_capacity(alloc, nets as usize)?;
    for x in 0..nets {
        reach.push(first_reach(n, NetId(x)))?;
    }
    Ok(reach)
}

/// For each net one more than the most tables on a path to it, or 0 where none leads to it. A voted pin counts one table more.
pub fn reached(alloc: Global, n: &FlatNet, votes: &Votes) -> Result<Vec<u32>, OutOfMemory>
    requires taps { HasTaps n.now.net votes.now }
    requires few { net_count n.now.net + pin_total n.now.net ≤ widest_nets }
    ensures { IfOk result (λ reach. AreReached n.now.net (voted_by n.now.net votes.now) n.now.order (length n.now.net.nodes) reach.items) }
{
    let count = nodes_of(n);
    let mut reach = first_reaches(alloc, n)?;
    for i in 0..count {
        let x = n.ordered(i);
        let next = next_reach(n, votes, &reach, x);
        reach[x.0 as usize] = next;
    }
    Ok(reach)
}
