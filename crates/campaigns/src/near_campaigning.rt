//! Campaigns on a pair whose upsets are too near.
ghost use Rattle.std.specs.Prelude.{◌≡◌, ◌<◌, ◌≤◌, ◌*◌, length, IfOk, IfSome};
ghost use Rattle.certificate.specs.Cert.{Fits};
ghost use Rattle.certificate.specs.Rules.{FreeCorresponds};
ghost use Rattle.campaigns.specs.NearCampaign.{IsNearCampaign, IsNearText};

use crate::campaigning::replay_all;
use crate::drawing::draw_near_schedules;
use crate::first_wrong::{WrongOutput, first_wrong};
use crate::lines::near_text;
use crate::sums::{CampaignSums, sum_runs};
use certificate::Certificate;
use flat_net::{FlatNet, FreeNet};
use std::alloc::Global;
use tmr_base::OutOfMemory;

/// What the runs of a near campaign come to.
#[derive(Clone, Copy, Debug, PartialEq, Eq, Drop)]
struct NearCampaign {
    sums: CampaignSums,
    /// The first wrong output of all that are kept.
    first: Option<WrongOutput>,
}

/// What 64 runs of so many cycles come to, whose schedules strike pairs that are too near.
fn near_campaign(
    alloc: Global,
    number: u64,
    cycles: u32,
    n: &FlatNet,
    h: &FlatNet,
    c: &Certificate,
) -> Result<NearCampaign, OutOfMemory>
    requires fits { Fits n.now.net h.now.net c.now }
    requires inputs { length h.now.net.inputs ≡ 3 * length n.now.net.inputs }
    requires outputs { length h.now.net.outputs ≡ 3 * length n.now.net.outputs }
    requires few { cycles ≤ 100000 }
    ensures campaign { IfOk result (λ r. IsNearCampaign number cycles n.now.net h.now.net c.now r.sums r.first) }
    ensures output { IfOk result (λ r. IfSome r.first (λ w. w.output < length n.now.net.outputs)) }
{
    let list = draw_near_schedules(alloc, number, cycles, n, h, c)?;
    let outcomes = replay_all(alloc, n, h, c, &list, cycles)?;
    let sums = sum_runs(&list, &outcomes);
    let first = first_wrong(&outcomes);
    Ok(NearCampaign { sums, first })
}

/// The text of a campaign on a pair, of which the eight rules hold, with schedules that the certificate does not allow: five
/// lines, and a sixth one that names the first wrong output, where one is kept. The schedule of run j, counted from 0, is drawn
/// from `number` + j + 1, modulo 2^64: its rows are those of the campaign, and its upsets are pairs that strike two copies of one
/// partition exactly its depth apart. The schedules are kept in memory, so they take 64 bytes for each cycle and input of the
/// original, and at most 1,536 more for each cycle. The only error is want of memory.
pub fn near_report(
    alloc: Global,
    number: u64,
    cycles: u32,
    n: &FreeNet,
    h: &FreeNet,
    c: &Certificate,
) -> Result<Vec<u8>, OutOfMemory>
    requires fits { Fits n.now.design.net h.now.design.net c.now }
    requires corresponds { FreeCorresponds n.now.design.net n.now.free h.now.design.net h.now.free c.now }
    requires few { cycles ≤ 100000 }
    ensures { IfOk result (λ text. IsNearText number cycles n.now.design.net h.now.design.net c.now text.items) }
{
    let original = n.net();
    let hardened = h.net();
    let told = near_campaign(alloc, number, cycles, original, hardened, c)?;
    let text = near_text(alloc, original, &told.sums, told.first)?;
    Ok(text)
}
