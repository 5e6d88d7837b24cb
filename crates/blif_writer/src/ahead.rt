//! Room for names before they are written.
ghost use Rattle.std.specs.Prelude.{◌≡◌, ◌<◌, ◌≤◌, length, OnOk};
ghost use Rattle.flat_net.specs.Net.{net_count};

use flat_net::{FlatNet, nodes_of};
use std::alloc::AllocError;
use tmr_base::NetId;

/// Room is made for so many nodes at once.
const AT_ONCE: u32 = 8;

/// How many bytes the names have that node x reads.
fn read_bytes(net: &FlatNet, x: NetId) -> usize
    requires range { x.0 < net_count net.now.net }
    requires node { length net.now.net.inputs ≤ x.0 }
{
    let mut bytes: usize = 0;
    for j in 0..net.pin_count(x) {
        bytes = bytes.saturating_add(net.name(net.pin(x, j)).bytes().len());
    }
    bytes
}

/// Makes room for the names that node i and the seven behind it read, where i is a multiple of eight. Nothing is put.
///
/// This is for speed alone. In a large design these names stand far apart, and here they come from memory side by side. Where each is fetched
/// when it is put, the program waits for one after the other.
pub fn make_room(out: &mut Vec<u8>, net: &FlatNet, i: u32) -> Result<(), AllocError>
    requires { i < length net.now.net.nodes }
    ensures { OnOk result (out.new.items ≡ out.old.items) }
{
    if i % AT_ONCE != 0 {
        return Ok(());
    }
    let end = nodes_of(net).min(i.saturating_add(AT_ONCE));
    let inputs = net.input_count();
    let mut bytes: usize = 0;
    for k in i..end {
        bytes = bytes.saturating_add(read_bytes(net, NetId(inputs + k)));
    }
    out.reserve(bytes)
}
