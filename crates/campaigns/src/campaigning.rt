//! Campaigns on a pair.
ghost use Rattle.std.specs.Prelude.{◌≡◌, ◌≤◌, ◌*◌, All, length, IfOk};
ghost use Rattle.certificate.specs.Cert.{Fits};
ghost use Rattle.certificate.specs.Rules.{FreeCorresponds};
ghost use Rattle.schedule_replay.specs.Many.{AreReplaysOf};
ghost use Rattle.validator.specs.Masking.{Masks};
ghost use Rattle.campaigns.specs.Campaign.{AreCampaignSchedules, IsCampaign, IsCampaignText};
ghost use Rattle.campaigns.specs.Private.Running.{IsRunnable, IsBounded};

use crate::drawing::draw_schedules;
use crate::lines::campaign_text;
use crate::sums::{CampaignSums, sum_runs};
use certificate::Certificate;
use flat_net::{FlatNet, FreeNet};
use schedule_replay::{Outcome, replay_wide};
use schedules::Schedule;
use std::alloc::Global;
use tmr_base::OutOfMemory;

/// What the schedules do to the pair, 64 in a word.
pub fn replay_all(
    alloc: Global,
    n: &FlatNet,
    h: &FlatNet,
    c: &Certificate,
    list: &[Schedule],
    cycles: u32,
) -> Result<Vec<Outcome>, OutOfMemory>
    requires fits { Fits n.now.net h.now.net c.now }
    requires inputs { length h.now.net.inputs ≡ 3 * length n.now.net.inputs }
    requires outputs { length h.now.net.outputs ≡ 3 * length n.now.net.outputs }
    requires many { length list.now ≡ 64 }
    requires few { cycles ≤ 100000 }
    requires runnable { All (λ s. IsRunnable n.now.net h.now.net cycles s) list.now }
    ensures replays { IfOk result (λ outcomes. AreReplaysOf n.now.net h.now.net c.now list.now outcomes.items) }
    ensures bounded { IfOk result (λ outcomes. All (λ o. IsBounded o) outcomes.items) }
{
    // What the original keeps.
    let _inputs = n.input_count();
    let outcomes = replay_wide(alloc, n, h, c, list)?;
    Ok(outcomes)
}

/// What 64 runs of so many cycles come to on a pair that masks every allowed schedule. The schedule of run j, counted from
/// 0, is drawn from `number` + j + 1, modulo 2^64: a row of inputs for each cycle, and in each cycle an upset of some
/// hardened node, which is left out where the certificate would not allow the schedule with it. Registers begin with their
/// initial values, and no input is upset. The schedules are kept in memory, so they take 64 bytes for each cycle and input of
/// the original, and at most 768 more for each cycle. The only error is want of memory.
pub fn masked_campaign(
    alloc: Global,
    number: u64,
    cycles: u32,
    n: &FlatNet,
    h: &FlatNet,
    c: &Certificate,
) -> Result<CampaignSums, OutOfMemory>
    requires fits { Fits n.now.net h.now.net c.now }
    requires inputs { length h.now.net.inputs ≡ 3 * length n.now.net.inputs }
    requires outputs { length h.now.net.outputs ≡ 3 * length n.now.net.outputs }
    requires masks { Masks n.now.net h.now.net c.now }
    requires few { cycles ≤ 100000 }
    ensures { IfOk result (λ sums. IsCampaign number cycles n.now.net h.now.net c.now sums) }
{
    let list = draw_schedules(alloc, number, cycles, n, h, c)?;
    let outcomes = replay_all(alloc, n, h, c, &list, cycles)?;
    Ok(sum_runs(&list, &outcomes))
}

/// What 64 runs of so many cycles on a pair come to, of which the eight rules hold. The certificate may be of either
/// version; registers begin with their initial values, and with 0 where the value is free.
pub fn campaign(
    alloc: Global,
    number: u64,
    cycles: u32,
    n: &FreeNet,
    h: &FreeNet,
    c: &Certificate,
) -> Result<CampaignSums, OutOfMemory>
    requires fits { Fits n.now.design.net h.now.design.net c.now }
    requires corresponds { FreeCorresponds n.now.design.net n.now.free h.now.design.net h.now.free c.now }
    requires few { cycles ≤ 100000 }
    ensures { IfOk result (λ sums. IsCampaign number cycles n.now.design.net h.now.design.net c.now sums) }
{
    let original = n.net();
    let hardened = h.net();
    // What the designs and the certificate keep.
    let _kept = (original.input_count(), hardened.input_count(), c.parts());
    let sums = masked_campaign(alloc, number, cycles, original, hardened, c)?;
    Ok(sums)
}

/// The text of a campaign on a pair, of which the eight rules hold: five lines.
pub fn campaign_report(
    alloc: Global,
    number: u64,
    cycles: u32,
    n: &FreeNet,
    h: &FreeNet,
    c: &Certificate,
) -> Result<Vec<u8>, OutOfMemory>
    requires fits { Fits n.now.design.net h.now.design.net c.now }
    requires corresponds { FreeCorresponds n.now.design.net n.now.free h.now.design.net h.now.free c.now }
    requires few { cycles ≤ 100000 }
    ensures { IfOk result (λ text. IsCampaignText number cycles n.now.design.net h.now.design.net c.now text.items) }
{
    let sums = campaign(alloc, number, cycles, n, h, c)?;
    let text = campaign_text(alloc, &sums)?;
    Ok(text)
}
