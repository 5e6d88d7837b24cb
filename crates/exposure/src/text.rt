//! The text of an exposure.
ghost use Rattle.std.specs.Prelude.{◌≡◌, IfOk};
ghost use Rattle.certificate.specs.Cert.{Fits};
ghost use Rattle.exposure.specs.Text.{exposure_text};

use crate::counting::counted;
use crate::lines::{put_inputs, put_parts, put_total};
use crate::nearness::near_total;
use certificate::Certificate;
use flat_net::FlatNet;
use std::alloc::Global;
use tmr_base::OutOfMemory;

/// The text of the exposure of hardened design `h` with this certificate: for each partition that has nodes how many nets its three
/// copies have, its depth, and how many pairs of nets and distances of cycles are too near; and the sum. In version 2 the
/// inputs come first. The one refusal is want of memory.
pub fn exposure(
    alloc: Global,
    n: &FlatNet,
    h: &FlatNet,
    c: &Certificate,
) -> Result<Vec<u8>, OutOfMemory>
    requires { Fits n.now.net h.now.net c.now }
    ensures { IfOk result (λ text. text.items ≡ exposure_text c.now) }
{
    let counts = counted(alloc, n, h, c)?;
    let mut out = Vec::new(alloc);
    put_inputs(&mut out, n, c)?;
    put_parts(&mut out, c, &counts)?;
    put_total(&mut out, near_total(n, c, &counts))?;
    Ok(out)
}
