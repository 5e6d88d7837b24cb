//! Where in the hardened design each net's copies and voters stand.
ghost use Rattle.std.specs.Prelude.{◌≡◌, ◌≤◌};
ghost use Rattle.flat_net.specs.Net.{net_count};
ghost use Rattle.triplicate.specs.Numbers.{block_start};
ghost use Rattle.hardened_pair.specs.Private.Layouts.{IsLayout, net_of, partitions, voted};

use flat_net::FlatNet;
use triplicate::Plan;

/// A design, the plan of its hardened form, and for each net the number of the first hardened node that stands for it;
/// the last number is that behind all.
#[derive(Drop)]
pub struct Layout<'a> {
    pub net: &'a FlatNet,
    pub plan: &'a Plan,
    pub starts: Vec<u32>,
}

/// Where what stands for net x begins; for the number of nets, the number behind all.
pub fn start_of(layout: &Layout, x: u32) -> u32
    requires layout { IsLayout layout.now }
    requires net { x ≤ net_count (net_of layout.now) }
    ensures { result ≡ block_start (net_of layout.now) (partitions layout.now) (voted layout.now) x }
{
    layout.starts[x as usize]
}

/// How many hardened nets there are, for which room is made at once: the number behind all.
pub fn room_of(layout: &Layout) -> u32 {
    match layout.starts.last() {
        Some(end) => *end,
        None => 0,
    }
}
