//! The least depths that a hardened design admits.
ghost use Rattle.std.specs.Prelude.{◌≡◌, ◌<◌, [], length, IfOk};
ghost use Rattle.certificate.specs.Cert.{Fits};
ghost use Rattle.certificate.specs.Rules.{AllHold};
ghost use Rattle.recovery_depth.specs.Least.{AreDeep, AreLeast, AreAdmitted};

use crate::copies::{copy_reads, originals, places, ranks, register_copies};
use crate::depth_and_chain::Deep;
use crate::last_registers::{LastRegisters, registers_before};
use crate::longest_chains::{chain_ends, depths_and_chains};
use crate::ordering::ordered;
use crate::partition_depths::greatest_labels;
use crate::reaching::reaches_in;
use certificate::Certificate;
use flat_net::{FlatNet, nodes_of};
use std::alloc::Global;
use tmr_base::OutOfMemory;

/// For each partition the least depth that the rules on labels and depths admit with the certificate's
/// roles, and the original registers of a longest chain, first to last. The rules are those of the
/// certificate's version, and no register counts as marked.
///
/// The depth is the most registers of a walk of copies in the partition. Of several longest chains it takes one that lies
/// in the lowest copy and goes through registers of low numbers; no clause says which.
pub fn least(
    alloc: Global,
    n: &FlatNet,
    h: &FlatNet,
    c: &Certificate,
) -> Result<Vec<Deep>, OutOfMemory>
    requires fits { Fits n.now.net h.now.net c.now }
    requires corresponds { AllHold n.now.net [] h.now.net [] c.now }
    ensures long { IfOk result (λ deeps. length deeps.items ≡ length c.now.depth) }
    ensures deep { IfOk result (λ deeps. AreDeep h.now.net c.now deeps.items) }
    ensures lowest { IfOk result (λ deeps. AreLeast h.now.net c.now deeps.items) }
    ensures admitted { IfOk result (λ deeps. AreAdmitted h.now.net c.now deeps.items) }
{
    let parts = c.parts();
    let _original = n.input_count();
    let count = nodes_of(h);
    let graph = copy_reads(alloc, n, h, c)?;
    let is_register = register_copies(alloc, n, h, c)?;
    let order = ordered(alloc, &graph, count)?;
    let reaches = reaches_in(alloc, &graph, &is_register, &order, count)?;
    let ranks = ranks(alloc, n, h, c)?;
    let before = registers_before(alloc, &graph, &is_register, &reaches, &order, &ranks, count)?;
    let places = places(alloc, n, h, c)?;
    let depths = greatest_labels(alloc, &places, &reaches)?;
    let last = LastRegisters {
        is_register: &is_register,
        reaches: &reaches,
        before: &before,
        ranks: &ranks,
        none: count,
    };
    let ends = chain_ends(alloc, &places, &depths, &last)?;
    let originals = originals(alloc, n, h, c)?;
    let found = depths_and_chains(alloc, &before, &originals, &ends, &depths, parts)?;
    Ok(found)
}
