//! The rule of outputs.
ghost use Rattle.std.specs.Prelude.{◌↔◌, ◌<◌, length, IsTrue};
ghost use Rattle.certificate.specs.Cert.{Fits};
ghost use Rattle.certificate.specs.Rules.{Rule8};
ghost use Rattle.validator.specs.FirstBad.{IsFirstBad};

use crate::reading::{copy_at, is_copy};
use certificate::Certificate;
use flat_net::FlatNet;

/// Output j of h is the copy that it should be.
#[tactic(auto, using(crate::proofs::OutputLaws::rule_8_at))]
fn output_holds(n: &FlatNet, h: &FlatNet, c: &Certificate, j: u32) -> bool
    requires fits { Fits n.now.net h.now.net c.now }
    requires j { j < length h.now.net.outputs }
    ensures { IsTrue result ↔ Rule8 n.now.net h.now.net c.now j }
{
    let i = j / 3;
    if i >= n.output_count() {
        return false;
    }
    let x = n.output(i);
    is_copy(n, c, h.output(j), x, copy_at(j % 3))
}

/// The first output position that is wrong.
pub fn first_bad_output(n: &FlatNet, h: &FlatNet, c: &Certificate) -> Option<u32>
    requires { Fits n.now.net h.now.net c.now }
    ensures { IsFirstBad (λ j. Rule8 n.now.net h.now.net c.now j) result }
{
    let count = h.output_count();
    for j in 0..count {
        if !output_holds(n, h, c, j) {
            return Some(j);
        }
    }
    if u64::from(count) < 3 * u64::from(n.output_count()) {
        return Some(count);
    }
    None
}
