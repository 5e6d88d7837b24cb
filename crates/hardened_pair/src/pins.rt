//! The numbers of copies and voters.
ghost use Rattle.std.specs.Prelude.{◌≡◌, ◌<◌, suc, true, length, OnOk};
ghost use Rattle.flat_net.specs.Net.{net_count};
ghost use Rattle.feedback_cut.specs.Inner.{node_pins};
ghost use Rattle.triplicate.specs.Voting.{needs_voter};
ghost use Rattle.triplicate.specs.Numbers.{voter_rank};
ghost use Rattle.hardened_pair.specs.Private.Layouts.{IsLayout, net_of, partitions, voted, first_copy_of, first_voter_of, first_pin_of, first_pins_of};

use crate::layout::{Layout, start_of};
use flat_net::nodes_of;
use tmr_base::{NetId, OutOfMemory};
use triplicate::{copies, tap};

/// The first copy of net x.
pub fn first_copy(layout: &Layout, x: u32) -> u32
    requires layout { IsLayout layout.now }
    requires net { x < net_count (net_of layout.now) }
    ensures { result ≡ first_copy_of layout.now x }
{
    let n = layout.net;
    let _nodes = nodes_of(n);
    if x < n.input_count() {
        3 * x
    } else {
        start_of(layout, x)
    }
}

/// The first voter of net x for the partition that stands at this place, counted from 1, among those that need one.
fn first_voter(layout: &Layout, x: u32, p: u32, place: u32) -> u32
    requires layout { IsLayout layout.now }
    requires net { x < net_count (net_of layout.now) }
    requires part { p < (partitions layout.now).count }
    requires needed { needs_voter (net_of layout.now) (partitions layout.now) (voted layout.now) x p ≡ true }
    requires place { place ≡ suc (voter_rank (net_of layout.now) (partitions layout.now) (voted layout.now) x p) }
    ensures { result ≡ first_voter_of layout.now x p }
{
    let n = layout.net;
    let _nodes = nodes_of(n);
    let copied = copies(n, x);
    start_of(layout, x) + copied + 3 * (place - 1)
}

/// What the first copy of node y reads at pin j.
fn first_pin(layout: &Layout, y: u32, j: u32) -> u32
    requires layout { IsLayout layout.now }
    requires node { y < length (net_of layout.now).nodes }
    requires pin { j < length (node_pins (net_of layout.now) y) }
    ensures { result ≡ first_pin_of layout.now y j }
{
    let n = layout.net;
    let _nodes = nodes_of(n);
    let inputs = n.input_count();
    let pin = n.pin(NetId(inputs + y), j);
    let part = layout.plan.parts.of(y);
    let place = tap(&layout.plan.taps, y, j);
    if place == 0 {
        first_copy(layout, pin.0)
    } else {
        first_voter(layout, pin.0, part, place)
    }
}

/// What the first copy of node y reads, put into `pins`. The second and third copies read what stands one and two
/// places behind.
pub fn first_pins(layout: &Layout, y: u32, pins: &mut Vec<u32>) -> Result<(), OutOfMemory>
    requires layout { IsLayout layout.now }
    requires node { y < length (net_of layout.now).nodes }
    ensures { OnOk result (pins.new.items ≡ first_pins_of layout.now y) }
{
    pins.clear();
    let n = layout.net;
    let _nodes = nodes_of(n);
    let inputs = n.input_count();
    let count = n.pin_count(NetId(inputs + y));
    for j in 0..count {
        pins.push(first_pin(layout, y, j))?;
    }
    Ok(())
}
