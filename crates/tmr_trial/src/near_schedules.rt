//! The schedule of pairs of upsets that a number gives.
ghost use Rattle.std.specs.Prelude.{◌≡◌, ◌==◌, ◌+◌, ◌*◌, ◌++◌, ◌∷◌, [], ◌<◌, ◌≤◌, ◌≢◌, All, length, IfOk, OnOk};
ghost use Rattle.certificate.specs.Cert.{Fits};
ghost use Rattle.certificate.specs.Schedules.{Allowed};
ghost use Rattle.schedules.specs.Schedule.{IsBefore};
ghost use Rattle.tmr_trial.specs.Members.{AreMembers};
ghost use Rattle.tmr_trial.specs.NearDrawing.{HasRows, HasPairs};
ghost use Rattle.tmr_trial.specs.NearSchedules.{IsNearSchedule, is_turned, pair_upsets};

use crate::allowed_schedules::{Trial, draw_row, draw_upset};
use crate::members::Members;
use crate::near_pairs::{NearPair, draw_pair};
use crate::numbers::Numbers;
use certificate::Certificate;
use flat_net::FlatNet;
use schedules::Schedule;
use std::alloc::Global;
use tmr_base::{OutOfMemory, Upset};

/// Draws the row of cycle t as the trial's schedule does. Of the upset that it draws behind the row there is no use.
fn draw_row_alone(
    number: u64,
    n: &FlatNet,
    h: &FlatNet,
    t: u32,
    numbers: &mut Numbers,
    row: &mut Vec<bool>,
    s: &mut Schedule,
) -> Result<(), OutOfMemory>
    requires room { t < 1048576 }
    requires drawn { HasRows number n.now.net h.now.net t numbers.old.state s.old }
    ensures { OnOk result (HasRows number n.now.net h.now.net (t + 1) numbers.new.state s.new) }
{
    draw_row(numbers, n.input_count(), row)?;
    s.push_cycle(row)?;
    if h.node_count() == 0 {
        return Ok(());
    }
    let _unused = draw_upset(h, t, numbers);
    Ok(())
}

/// The rows of all cycles.
fn draw_rows(
    alloc: Global,
    number: u64,
    n: &FlatNet,
    h: &FlatNet,
    cycles: u32,
    numbers: &mut Numbers,
) -> Result<Schedule, OutOfMemory>
    requires few { cycles ≤ 524288 }
    requires state { numbers.old.state ≡ number }
    ensures { IfOk result (λ s. HasRows number n.now.net h.now.net cycles numbers.new.state s) }
{
    let mut row = Vec::new(alloc);
    let mut s = Schedule::new(alloc, n.input_count());
    for t in 0..cycles {
        draw_row_alone(number, n, h, t, numbers, &mut row, &mut s)?;
    }
    Ok(s)
}

/// Both upsets are in one cycle, and the second one strikes the lower net.
fn is_turned(q: NearPair) -> bool
    ensures { result ≡ is_turned q }
{
    q.first.cycle == q.second.cycle && q.second.net.0 < q.first.net.0
}

/// The two upsets of a pair in a schedule's order.
#[tactic(auto, using(crate::proofs::NearLaws::orders))]
fn in_order(q: NearPair) -> (Upset, Upset)
    requires apart { q.first.net.0 ≢ q.second.net.0 }
    requires later { q.first.cycle ≤ q.second.cycle }
    ensures order { pair_upsets q ≡ result.0 ∷ result.1 ∷ [] }
    ensures before { IsBefore result.0 result.1 }
    ensures begins { q.first.cycle ≤ result.0.cycle }
    ensures first { result.0.cycle ≤ q.second.cycle }
    ensures second { result.1.cycle ≤ q.second.cycle }
{
    if is_turned(q) {
        (q.second, q.first)
    } else {
        (q.first, q.second)
    }
}

/// Adds the two upsets of a pair that begins behind all others, in order.
fn push_pair(s: &mut Schedule, q: NearPair) -> Result<(), OutOfMemory>
    requires apart { q.first.net.0 ≢ q.second.net.0 }
    requires later { q.first.cycle ≤ q.second.cycle }
    requires earlier { All (λ u. u.cycle < q.first.cycle) s.old.upsets }
    requires range { q.second.cycle < length s.old.rows }
    requires room { length s.old.upsets + 2 ≤ 1048576 }
    ensures { OnOk result (s.new ≡ record s.old { upsets = s.old.upsets ++ pair_upsets q }) }
{
    let (a, b) = in_order(q);
    s.push_upset(a)?;
    s.push_upset(b)?;
    Ok(())
}

/// Draws the pair of cycle t, and adds it where each earlier one has ended.
fn draw_next_pair(
    trial: &Trial<'_>,
    members: &Members,
    cycles: u32,
    t: u32,
    numbers: &mut Numbers,
    next: &mut u32,
    s: &mut Schedule,
) -> Result<(), OutOfMemory>
    requires fits { Fits trial.now.original.now.net trial.now.hardened.now.net trial.now.certificate.now }
    requires some { 0 < length trial.now.hardened.now.net.nodes }
    requires members { AreMembers trial.now.certificate.now (length trial.now.certificate.now.roles) members.now }
    requires few { cycles ≤ 524288 }
    requires t { t < cycles }
    requires drawn { HasPairs trial.now.number trial.now.original.now.net trial.now.hardened.now.net trial.now.certificate.now cycles t numbers.old.state next.old s.old }
    ensures { OnOk result (HasPairs trial.now.number trial.now.original.now.net trial.now.hardened.now.net trial.now.certificate.now cycles (t + 1) numbers.new.state next.new s.new) }
{
    let h = trial.hardened;
    let pair = draw_pair(h, trial.certificate, members, cycles, t, numbers);
    if t < *next {
        return Ok(());
    }
    match pair {
        None => Ok(()),
        Some(q) => {
            push_pair(s, q)?;
            *next = q.second.cycle + 1;
            Ok(())
        }
    }
}

/// The schedule of so many cycles of pairs, drawn from this number.
fn draw_near(
    alloc: Global,
    number: u64,
    n: &FlatNet,
    h: &FlatNet,
    c: &Certificate,
    members: &Members,
    cycles: u32,
) -> Result<Schedule, OutOfMemory>
    requires fits { Fits n.now.net h.now.net c.now }
    requires members { AreMembers c.now (length c.now.roles) members.now }
    requires few { cycles ≤ 524288 }
    ensures { IfOk result (λ s. IsNearSchedule number n.now.net h.now.net c.now cycles s) }
{
    let mut numbers = Numbers::new(number);
    let mut s = draw_rows(alloc, number, n, h, cycles, &mut numbers)?;
    if h.node_count() == 0 {
        return Ok(s);
    }
    let trial = Trial {
        number,
        original: n,
        hardened: h,
        certificate: c,
    };
    let mut next = 0;
    for t in 0..cycles {
        draw_next_pair(&trial, members, cycles, t, &mut numbers, &mut next, &mut s)?;
    }
    Ok(s)
}

/// The schedule of so many cycles of pairs that are too near, drawn from this number. One pass over the cycles draws the rows, and
/// another one the pairs.
pub fn near_schedule(
    alloc: Global,
    number: u64,
    n: &FlatNet,
    h: &FlatNet,
    c: &Certificate,
    members: &Members,
    cycles: u32,
) -> Result<Schedule, OutOfMemory>
    requires fits { Fits n.now.net h.now.net c.now }
    requires members { AreMembers c.now (length c.now.roles) members.now }
    requires few { cycles ≤ 524288 }
    // The schedule that the number gives.
    ensures exact { IfOk result (λ s. IsNearSchedule number n.now.net h.now.net c.now cycles s) }
    // The certificate does not allow it, where it strikes at all.
    ensures refused { IfOk result (λ s. 0 < length s.upsets → Allowed s.upsets c.now → ⊥) }
    // Its upsets are of hardened nodes.
    ensures low { IfOk result (λ s. All (λ u. c.now.hardened_inputs ≤ u.net.0) s.upsets) }
    ensures high { IfOk result (λ s. All (λ u. u.net.0 < c.now.hardened_inputs + length c.now.roles) s.upsets) }
{
    let s = draw_near(alloc, number, n, h, c, members, cycles)?;
    Ok(s)
}
