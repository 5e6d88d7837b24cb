//! Marks as they count.
ghost use Rattle.std.specs.Prelude.{◌≡◌, ◌<◌};
ghost use Rattle.flat_net.specs.Net.{net_count};
ghost use Rattle.explaining.specs.Private.Pieces.{mark_in};

use certificate::Certificate;
use flat_net::FreeNet;
use tmr_base::NetId;

/// Whether net x is marked, as far as marks count: in version 1 none does.
#[tactic(auto, using(validator::proofs::Starts::node_bit_none))]
pub fn is_free(n: &FreeNet, c: &Certificate, x: NetId) -> bool
    requires { x.0 < net_count n.now.design.net }
    ensures { result ≡ mark_in n.now c.now x.0 }
{
    c.version() != 1 && n.is_free(x)
}
