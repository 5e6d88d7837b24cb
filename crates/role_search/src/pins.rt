//! What a design holds, for places that may not be there.
ghost use Rattle.std.specs.Prelude.{◌≡◌, ◌↔◌, ◌<◌, ◌≤◌, length, IsTrue, IfSome};
ghost use Rattle.flat_net.specs.Net.{IsNode, net_count};

use flat_net::{FlatNet, nodes_of};
use tmr_base::NetId;

/// How many nets there are.
pub fn net_count(n: &FlatNet) -> u32
    ensures { result ≡ net_count n.now.net }
{
    let nodes = nodes_of(n);
    n.input_count() + nodes
}

/// How many pins net x has: none where there is no such net.
pub fn pin_count(n: &FlatNet, x: NetId) -> u32 {
    if x.0 < net_count(n) {
        n.pin_count(x)
    } else {
        0
    }
}

/// Pin j of net x, where there is one.
pub fn pin(n: &FlatNet, x: NetId, j: u32) -> Option<NetId>
    ensures { IfSome result (λ p. p.0 < net_count n.now.net) }
{
    if x.0 < net_count(n) && j < n.pin_count(x) {
        Some(n.pin(x, j))
    } else {
        None
    }
}

/// Net x is a node.
pub fn is_node(n: &FlatNet, x: NetId) -> bool
    ensures { IsTrue result ↔ IsNode n.now.net x.0 }
{
    n.input_count() <= x.0 && x.0 < net_count(n)
}

/// The place of net x among the nodes, counted from 0, if it is one.
pub fn place(n: &FlatNet, x: NetId) -> Option<usize> {
    let inputs = n.input_count();
    if inputs <= x.0 && x.0 < net_count(n) {
        Some((x.0 - inputs) as usize)
    } else {
        None
    }
}

/// The net number of node i, counted from 0; of a number past the nodes the number past all nets.
pub fn node(n: &FlatNet, i: u32) -> NetId
    ensures { length n.now.net.inputs ≤ result.0 }
{
    let inputs = n.input_count();
    if i < nodes_of(n) {
        NetId(inputs + i)
    } else {
        NetId(net_count(n))
    }
}
