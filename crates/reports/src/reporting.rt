//! The report on a hardened design.
ghost use Rattle.std.specs.Prelude.{◌≡◌, ◌==◌, ◌&&◌, ◌<◌, ℕ, [], length, IfOk};
ghost use Rattle.certificate.specs.Cert.{Fits};
ghost use Rattle.certificate.specs.Rules.{AllHold};
ghost use Rattle.feedback_cut.specs.Components.{AreComponents};
ghost use Rattle.reports.specs.Counts.{partitions};
ghost use Rattle.reports.specs.Report.{IsReport};
ghost use Rattle.reports.specs.Private.Left.{AreCounted};

use crate::counting::{counts, every_node};
use crate::loops::loop_heads;
use crate::partitions::partitions;
use crate::voters::voter_counts;
use crate::writing::{PartCounts, put_head, put_parts};
use certificate::Certificate;
use feedback_cut::{components, registers};
use flat_net::{FlatNet, nodes_of};
use partitioner::cost;
use recovery_depth::least;
use std::alloc::Global;
use tmr_base::{OutOfMemory, Parts};

/// What each partition has.
fn counted(
    alloc: Global,
    n: &FlatNet,
    c: &Certificate,
    parts: &Parts,
) -> Result<PartCounts, OutOfMemory>
    requires nodes { length c.now.part ≡ length n.now.net.nodes }
    requires parts { parts.now ≡ partitions c.now }
    ensures counted { IfOk result (λ counts. AreCounted n.now.net c.now counts) }
    ensures components { IfOk result (λ counts. AreComponents n.now.net (partitions c.now) counts.groups) }
{
    let count = nodes_of(n);
    let all = every_node(alloc, count)?;
    let nodes = counts(alloc, parts, &all)?;
    let is_register = registers(alloc, n)?;
    let registers = counts(alloc, parts, &is_register)?;
    let groups = components(alloc, n, parts)?;
    let heads = loop_heads(alloc, &groups, count)?;
    let loops = counts(alloc, parts, &heads)?;
    Ok(PartCounts {
        nodes,
        registers,
        loops,
        groups,
    })
}

/// The report on a hardened design: how many nodes, registers, copies and voters there are, what the
/// certificate's partitions cost, and for each partition its nodes, registers and loops, its certified
/// depth, the least depth that the rules admit, and the registers of a longest chain. The certificate may
/// be of either version; the rules are to hold, where no register counts as marked. A few passes over
/// both designs.
pub fn report(
    alloc: Global,
    n: &FlatNet,
    h: &FlatNet,
    c: &Certificate,
) -> Result<Vec<u8>, OutOfMemory>
    requires fits { Fits n.now.net h.now.net c.now }
    requires corresponds { AllHold n.now.net [] h.now.net [] c.now }
    ensures { IfOk result (λ text. IsReport n.now.net h.now.net c.now text.items) }
{
    // It says that the certificate is consistent.
    c.parts();
    let parts = partitions(alloc, n, c)?;
    let cost = cost(alloc, n, &parts)?;
    let counts = counted(alloc, n, c, &parts)?;
    let deeps = least(alloc, n, h, c)?;
    let voters = voter_counts(n, h, c);
    let mut out = Vec::new(alloc);
    put_head(alloc, &mut out, n, c, voters, cost)?;
    put_parts(alloc, &mut out, n, c, &counts, &deeps)?;
    Ok(out)
}
