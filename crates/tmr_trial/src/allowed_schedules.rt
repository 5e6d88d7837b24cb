//! The schedule that a number gives.
ghost use Rattle.std.specs.Prelude.{◌≡◌, ◌==◌, ◌+◌, ◌<◌, ◌≤◌, All, Some, length, IfOk, OnOk};
ghost use Rattle.certificate.specs.Cert.{Fits};
ghost use Rattle.certificate.specs.Schedules.{Allowed};
ghost use Rattle.tmr_trial.specs.Numbers.{state_after, draw};
ghost use Rattle.tmr_trial.specs.Schedules.{row_drawn, IsAdded, IsDrawnSchedule};
ghost use Rattle.tmr_trial.specs.Strikes.{AreStrikes};
ghost use Rattle.tmr_trial.specs.Drawing.{HasDrawn, IsNext};

use crate::numbers::{Numbers, draw};
use crate::strikes::{Strike, domain, is_near, no_strikes};
use certificate::Certificate;
use flat_net::FlatNet;
use schedules::Schedule;
use std::alloc::Global;
use tmr_base::{NetId, OutOfMemory, Upset};

/// What a schedule is drawn for: the number that gives it, the two designs, and the certificate.
#[derive(Drop)]
pub struct Trial<'a> {
    pub number: u64,
    pub original: &'a FlatNet,
    pub hardened: &'a FlatNet,
    pub certificate: &'a Certificate,
}

/// Draws the inputs of a cycle.
pub fn draw_row(numbers: &mut Numbers, inputs: u32, row: &mut Vec<bool>) -> Result<(), OutOfMemory>
    ensures row { OnOk result (row.new.items ≡ row_drawn inputs numbers.old.state) }
    ensures state { OnOk result (numbers.new.state ≡ state_after inputs numbers.old.state) }
{
    row.clear();
    for i in 0..inputs {
        let _input = i;
        let bit = draw(numbers, 2) == 1;
        row.push(bit)?;
    }
    Ok(())
}

/// Draws the upset of cycle t: a node and its value.
pub fn draw_upset(h: &FlatNet, t: u32, numbers: &mut Numbers) -> Upset
    requires { 0 < length h.now.net.nodes }
    ensures upset { result ≡ record { cycle = t; net = record { 0 = length h.now.net.inputs + draw numbers.old.state 0 (length h.now.net.nodes) }; value = draw numbers.old.state 1 2 == 1 } }
    ensures state { numbers.new.state ≡ state_after 2 numbers.old.state }
    ensures low { length h.now.net.inputs ≤ result.net.0 }
    ensures high { result.net.0 < length h.now.net.inputs + length h.now.net.nodes }
{
    let inputs = h.input_count();
    let node = draw(numbers, h.node_count());
    let value = draw(numbers, 2) == 1;
    Upset {
        cycle: t,
        net: NetId(inputs + node),
        value,
    }
}

/// Adds an upset of a later cycle where the schedule stays allowed with it.
fn add_if_allowed(
    c: &Certificate,
    u: Upset,
    strikes: &mut Vec<Option<Strike>>,
    s: &mut Schedule,
) -> Result<(), OutOfMemory>
    requires { IsNext c.now u strikes.old.items s.old }
    ensures added { OnOk result (IsAdded c.now s.old.upsets (Some u) s.new.upsets) }
    ensures inputs { OnOk result (s.new.inputs ≡ s.old.inputs) }
    ensures rows { OnOk result (s.new.rows ≡ s.old.rows) }
    ensures starts { OnOk result (s.new.starts ≡ s.old.starts) }
    ensures allowed { OnOk result (Allowed s.new.upsets c.now) }
    ensures strikes { OnOk result (AreStrikes c.now s.new.upsets strikes.new.items) }
{
    let _cycles = s.cycles();
    let (p, copy) = domain(c, u.net);
    let at = p.0 as usize;
    if is_near(strikes[at], copy, u.cycle, c.depth(p)) {
        return Ok(());
    }
    s.push_upset(u)?;
    strikes[at] = Some(Strike {
        cycle: u.cycle,
        copy,
    });
    Ok(())
}

/// Draws cycle t. `row` is room for its inputs.
fn draw_cycle(
    trial: &Trial<'_>,
    t: u32,
    numbers: &mut Numbers,
    row: &mut Vec<bool>,
    strikes: &mut Vec<Option<Strike>>,
    s: &mut Schedule,
) -> Result<(), OutOfMemory>
    requires fits { Fits trial.now.original.now.net trial.now.hardened.now.net trial.now.certificate.now }
    requires room { t < 1048576 }
    requires drawn { HasDrawn trial.now.number trial.now.original.now.net trial.now.hardened.now.net trial.now.certificate.now t numbers.old.state strikes.old.items s.old }
    ensures { OnOk result (HasDrawn trial.now.number trial.now.original.now.net trial.now.hardened.now.net trial.now.certificate.now (t + 1) numbers.new.state strikes.new.items s.new) }
{
    let h = trial.hardened;
    draw_row(numbers, trial.original.input_count(), row)?;
    s.push_cycle(row)?;
    if h.node_count() == 0 {
        return Ok(());
    }
    let u = draw_upset(h, t, numbers);
    add_if_allowed(trial.certificate, u, strikes, s)?;
    Ok(())
}

/// The schedule of so many cycles that is drawn from this number: a row of inputs for each cycle, and in
/// each cycle an upset of some hardened node, which is left out where the schedule would not be allowed
/// with it. One pass over the cycles.
pub fn schedule(
    alloc: Global,
    number: u64,
    n: &FlatNet,
    h: &FlatNet,
    c: &Certificate,
    cycles: u32,
) -> Result<Schedule, OutOfMemory>
    requires fits { Fits n.now.net h.now.net c.now }
    requires few { cycles ≤ 1048576 }
    // The schedule that the number gives.
    ensures exact { IfOk result (λ s. IsDrawnSchedule number n.now.net h.now.net c.now cycles s) }
    // The certificate allows it.
    ensures allowed { IfOk result (λ s. Allowed s.upsets c.now) }
    // Its upsets are of hardened nodes.
    ensures low { IfOk result (λ s. All (λ u. c.now.hardened_inputs ≤ u.net.0) s.upsets) }
    ensures high { IfOk result (λ s. All (λ u. u.net.0 < c.now.hardened_inputs + length c.now.roles) s.upsets) }
{
    let mut numbers = Numbers::new(number);
    let mut strikes = no_strikes(alloc, c)?;
    let mut row = Vec::new(alloc);
    let mut s = Schedule::new(alloc, n.input_count());
    let trial = Trial {
        number,
        original: n,
        hardened: h,
        certificate: c,
    };
    for t in 0..cycles {
        draw_cycle(&trial, t, &mut numbers, &mut row, &mut strikes, &mut s)?;
    }
    Ok(s)
}
