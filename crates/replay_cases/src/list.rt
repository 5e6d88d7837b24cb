//! Schedules that are replayed at once.
ghost use Rattle.std.specs.Prelude.{◌≡◌, ◌++◌, ◌∷◌, [], ◌*◌, ◌<◌, ◌≤◌, All, IfOk, OnOk, IsTrue, length};
ghost use Rattle.certificate.specs.Cert.{Fits};
ghost use Rattle.schedule_replay.specs.Many.{HaveOneLength};
ghost use Rattle.schedules.specs.Reading.{IsNodeOf};

use crate::printing::put_replay;
use certificate::Certificate;
use flat_net::FlatNet;
use schedule_replay::replay_wide;
use schedules::{Schedule, ScheduleFault, read_schedule};
use std::alloc::Global;
use tmr_base::OutOfMemory;

/// The schedule of a text of version 1.
fn read_plain(
    alloc: Global,
    n: &FlatNet,
    h: &FlatNet,
    text: &str,
) -> Result<Schedule, ScheduleFault>
    ensures inputs { IfOk result (λ s. s.inputs ≡ length n.now.net.inputs) }
    ensures nodes { IfOk result (λ s. All (λ u. IsNodeOf h.now.net u.net.0) s.upsets) }
{
    let bytes = text.as_bytes();
    if bytes.len() > 16_777_216 {
        return Err(ScheduleFault::Memory);
    }
    read_schedule(alloc, bytes, n, h)
}

/// One schedule more.
fn push(list: &mut Vec<Schedule>, s: Schedule) -> Result<(), ScheduleFault>
    ensures { OnOk result (list.new.items ≡ list.old.items ++ s ∷ []) }
{
    match list.push(s) {
        Ok(()) => Ok(()),
        Err(_) => Err(ScheduleFault::Memory),
    }
}

/// The schedules that stand between bars.
pub fn read_list(
    alloc: Global,
    n: &FlatNet,
    h: &FlatNet,
    text: &str,
) -> Result<Vec<Schedule>, ScheduleFault>
    ensures inputs { IfOk result (λ v. All (λ s. s.inputs ≡ length n.now.net.inputs) v.items) }
    ensures nodes { IfOk result (λ v. All (λ s. All (λ u. IsNodeOf h.now.net u.net.0) s.upsets) v.items) }
{
    let mut list = Vec::new(alloc);
    for piece in text.split('|') {
        let schedule = read_plain(alloc, n, h, piece)?;
        push(&mut list, schedule)?;
    }
    Ok(list)
}

/// All have the same number of cycles.
fn have_one_length(list: &[Schedule]) -> bool
    ensures { IsTrue result → HaveOneLength list.now }
{
    for j in 0..list.len() {
        if list[j].cycles() != list[0].cycles() {
            return false;
        }
    }
    true
}

/// The outcomes of all schedules.
pub fn wide_text(
    alloc: Global,
    n: &FlatNet,
    h: &FlatNet,
    c: &Certificate,
    list: &[Schedule],
) -> Result<String, OutOfMemory>
    requires fits { Fits n.now.net h.now.net c.now }
    requires inputs { length h.now.net.inputs ≡ 3 * length n.now.net.inputs }
    requires outputs { length h.now.net.outputs ≡ 3 * length n.now.net.outputs }
    requires rows { All (λ s. s.inputs ≡ length n.now.net.inputs) list.now }
    requires nodes { All (λ s. All (λ u. IsNodeOf h.now.net u.net.0) s.upsets) list.now }
{
    if list.is_empty() || list.len() > 64 || !have_one_length(list) {
        return Ok(String::from_str(alloc, "no list")?);
    }
    let outcomes = replay_wide(alloc, n, h, c, list)?;
    let mut text = String::new(alloc);
    for (s, o) in list.iter().zip(&outcomes) {
        if !text.is_empty() {
            text.push_str(" | ")?;
        }
        put_replay(&mut text, n, s, o)?;
    }
    Ok(text)
}
