//! Why an output is not what it is to be.
ghost use Rattle.std.specs.Prelude.{◌≡◌, ◌*◌, ◌<◌, length, max, IfSome, IfNone};
ghost use Rattle.certificate.specs.Cert.{Fits};
ghost use Rattle.certificate.specs.Rules.{Rule8};
ghost use Rattle.explaining.specs.Reasons.{OutputFails};
ghost use Rattle.explaining.specs.Private.Pieces.{HasNets};

use crate::reason::Reason;
use certificate::Certificate;
use flat_net::FlatNet;
use validator::reading::{copy_at, is_copy};

/// Why output position `place` of h is not what it is to be.
#[tactic(auto, using(validator::proofs::OutputLaws::rule_8_at))]
pub fn output_reason<'a>(
    n: &FlatNet,
    h: &FlatNet,
    c: &Certificate,
    place: u64,
) -> Option<Reason<'a>>
    requires fits { Fits n.now.net h.now.net c.now }
    requires place { place < max (length h.now.net.outputs) (3 * length n.now.net.outputs) }
    ensures none { IfNone result (Rule8 n.now.net h.now.net c.now place) }
    ensures some { IfSome result (OutputFails n.now.net h.now.net c.now place) }
    ensures nets { IfSome result (HasNets n.now.net h.now.net) }
{
    let count = h.output_count();
    if place >= 3 * u64::from(n.output_count()) {
        let net = h.output(place as u32);
        return Some(Reason::NewOutput { net });
    }
    let node = n.output((place / 3) as u32);
    let copy = copy_at((place % 3) as u32);
    if place >= u64::from(count) {
        return Some(Reason::NoOutput { node, copy });
    }
    let net = h.output(place as u32);
    if is_copy(n, c, net, node, copy) {
        return None;
    }
    Some(Reason::WrongOutput { net, node, copy })
}
