//! The rule of clocks.
ghost use Rattle.std.specs.Prelude.{◌≡◌, ◌↔◌, IsTrue};
ghost use Rattle.std.specs.Option.{option_map};
ghost use Rattle.certificate.specs.Rules.{SameEdge};

use flat_net::FlatNet;
use tmr_base::Edge;

/// The clock's edge, if there is a clock.
pub fn clock_edge(n: &FlatNet) -> Option<Edge>
    ensures { result ≡ option_map (λ clock. clock.0) n.now.net.clock }
{
    match n.clock() {
        None => None,
        Some((edge, _)) => Some(edge),
    }
}

/// The clocks have one edge, or there is none.
pub fn same_edge(n: &FlatNet, h: &FlatNet) -> bool
    ensures { IsTrue result ↔ SameEdge n.now.net.clock h.now.net.clock }
{
    match (clock_edge(n), clock_edge(h)) {
        (None, None) => true,
        (Some(a), Some(b)) => a == b,
        _ => false,
    }
}
