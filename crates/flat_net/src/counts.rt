//! How many nodes a design has.
ghost use Rattle.std.specs.Prelude.{◌≡◌, ◌+◌, ◌<◌, length};
ghost use Rattle.flat_net.specs.Net.{IsDesign};

use crate::FlatNet;

/// How many nodes there are, as `FlatNet::node_count` tells it, and that with the inputs they are fewer
/// than a u32 counts.
pub fn nodes_of(n: &FlatNet) -> u32
    ensures count { result ≡ length n.now.net.nodes }
    ensures few { length n.now.net.inputs + length n.now.net.nodes < 4294967295 }
    ensures design { IsDesign n.now }
{
    let _inputs = n.input_count();
    n.node_count()
}
