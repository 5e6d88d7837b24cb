//! The schedules of a campaign.
ghost use Rattle.std.specs.Prelude.{◌≡◌, ◌+◌, ◌%◌, ◌^◌, ◌≤◌, ℕ, All, Some, length, slice_get, IfOk};
ghost use Rattle.certificate.specs.Cert.{Fits};
ghost use Rattle.certificate.specs.Schedules.{Allowed};
ghost use Rattle.schedules.specs.Schedule.{PlainSchedule};
ghost use Rattle.tmr_trial.specs.Schedules.{IsDrawnSchedule};
ghost use Rattle.tmr_trial.specs.Members.{AreMembers};
ghost use Rattle.tmr_trial.specs.NearSchedules.{IsNearSchedule};
ghost use Rattle.campaigns.specs.Campaign.{AreCampaignSchedules};
ghost use Rattle.campaigns.specs.NearCampaign.{AreNearSchedules, IsRefused};
ghost use Rattle.campaigns.specs.Private.Running.{IsRunnable};

use certificate::Certificate;
use flat_net::FlatNet;
use schedules::Schedule;
use std::alloc::Global;
use tmr_base::OutOfMemory;
use tmr_trial::{Members, members_of, near_schedule, schedule};

/// The schedule of so many cycles that is drawn from a number.
fn draw_schedule(
    alloc: Global,
    number: u64,
    cycles: u32,
    n: &FlatNet,
    h: &FlatNet,
    c: &Certificate,
) -> Result<Schedule, OutOfMemory>
    requires fits { Fits n.now.net h.now.net c.now }
    requires few { cycles ≤ 100000 }
    ensures drawn { IfOk result (λ s. IsDrawnSchedule number n.now.net h.now.net c.now cycles s) }
    ensures allowed { IfOk result (λ s. Allowed s.upsets c.now) }
    ensures runnable { IfOk result (λ s. IsRunnable n.now.net h.now.net cycles s) }
{
    let s = schedule(alloc, number, n, h, c, cycles)?;
    // What a schedule keeps.
    let _cycles = s.cycles();
    Ok(s)
}

/// The schedules of all runs: that of run j is drawn from the number that is j + 1 behind this one.
pub fn draw_schedules(
    alloc: Global,
    number: u64,
    cycles: u32,
    n: &FlatNet,
    h: &FlatNet,
    c: &Certificate,
) -> Result<Vec<Schedule>, OutOfMemory>
    requires fits { Fits n.now.net h.now.net c.now }
    requires few { cycles ≤ 100000 }
    ensures drawn { IfOk result (λ list. AreCampaignSchedules number cycles n.now.net h.now.net c.now list.items) }
    ensures runnable { IfOk result (λ list. All (λ s. IsRunnable n.now.net h.now.net cycles s) list.items) }
{
    let mut list = Vec::with_capacity(alloc, 64)?;
    for j in 0..64u64 {
        let s = draw_schedule(alloc, number.wrapping_add(j + 1), cycles, n, h, c)?;
        list.push(s)?;
    }
    Ok(list)
}

/// The schedule of so many cycles of pairs that are too near, drawn from a number.
fn draw_near_schedule(
    alloc: Global,
    number: u64,
    cycles: u32,
    n: &FlatNet,
    h: &FlatNet,
    c: &Certificate,
    members: &Members,
) -> Result<Schedule, OutOfMemory>
    requires fits { Fits n.now.net h.now.net c.now }
    requires members { AreMembers c.now (length c.now.roles) members.now }
    requires few { cycles ≤ 100000 }
    ensures drawn { IfOk result (λ s. IsNearSchedule number n.now.net h.now.net c.now cycles s) }
    ensures refused { IfOk result (λ s. IsRefused c.now s) }
    ensures runnable { IfOk result (λ s. IsRunnable n.now.net h.now.net cycles s) }
{
    let s = near_schedule(alloc, number, n, h, c, members, cycles)?;
    // What a schedule keeps.
    let _cycles = s.cycles();
    Ok(s)
}

/// The schedules of all runs, whose upsets are too near: that of run j is drawn from the number that is j + 1 behind this one.
pub fn draw_near_schedules(
    alloc: Global,
    number: u64,
    cycles: u32,
    n: &FlatNet,
    h: &FlatNet,
    c: &Certificate,
) -> Result<Vec<Schedule>, OutOfMemory>
    requires fits { Fits n.now.net h.now.net c.now }
    requires few { cycles ≤ 100000 }
    ensures drawn { IfOk result (λ list. AreNearSchedules number cycles n.now.net h.now.net c.now list.items) }
    ensures runnable { IfOk result (λ list. All (λ s. IsRunnable n.now.net h.now.net cycles s) list.items) }
{
    let members = members_of(alloc, h, c)?;
    let mut list = Vec::with_capacity(alloc, 64)?;
    for j in 0..64u64 {
        let next = number.wrapping_add(j + 1);
        let s = draw_near_schedule(alloc, next, cycles, n, h, c, &members)?;
        list.push(s)?;
    }
    Ok(list)
}
