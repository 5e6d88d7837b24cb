//! Why the rules of inputs and clocks fail.
ghost use Rattle.std.specs.Prelude.{◌≡◌, ◌*◌, length, IfSome, IfNone};
ghost use Rattle.flat_net.specs.Net.{Net};
ghost use Rattle.certificate.specs.Rules.{SameEdge};
ghost use Rattle.explaining.specs.Reasons.{InputsFail, ClocksFail};
ghost use Rattle.explaining.specs.Private.Pieces.{HasNets};

use crate::reason::Reason;
use flat_net::FlatNet;
use validator::clocks::clock_edge;

/// Why h has not three inputs for each one of n.
pub fn inputs_reason<'a>(n: &FlatNet, h: &FlatNet) -> Option<Reason<'a>>
    ensures none { IfNone result (length h.now.net.inputs ≡ 3 * length n.now.net.inputs) }
    ensures some { IfSome result (InputsFail n.now.net h.now.net) }
    ensures nets { (m o : Net) → IfSome result (HasNets m o) }
{
    let is = h.input_count();
    let wanted = 3 * u64::from(n.input_count());
    if u64::from(is) == wanted {
        return None;
    }
    Some(Reason::InputCount { is, wanted })
}

/// Why the clock of h is not as that of n.
pub fn clock_reason<'a>(n: &FlatNet, h: &FlatNet) -> Option<Reason<'a>>
    ensures none { IfNone result (SameEdge n.now.net.clock h.now.net.clock) }
    ensures some { IfSome result (ClocksFail n.now.net.clock h.now.net.clock) }
    ensures nets { (m o : Net) → IfSome result (HasNets m o) }
{
    match (clock_edge(n), clock_edge(h)) {
        (None, None) => None,
        (Some(_), None) => Some(Reason::NoClock),
        (None, Some(_)) => Some(Reason::NewClock),
        (Some(wanted), Some(is)) => {
            if is == wanted {
                None
            } else {
                Some(Reason::WrongEdge { is, wanted })
            }
        }
    }
}
