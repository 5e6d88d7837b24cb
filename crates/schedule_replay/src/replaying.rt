//! Replays a schedule on a design and its hardened form.
ghost use Rattle.std.specs.Prelude.{◌≡◌, ◌*◌, ◌<◌, List, Bool, All, IfOk, IsTrue, [], length};
ghost use Rattle.flat_net.specs.Net.{net_count};
ghost use Rattle.certificate.specs.Cert.{Fits};
ghost use Rattle.validator.specs.Masking.{Masks, FreeMasks};
ghost use Rattle.schedule_replay.specs.Origins.{NamesNoTable};
ghost use Rattle.schedule_replay.specs.Outcome.{IsReplayOf, IsFreeReplay};
ghost use Rattle.schedules.specs.Reading.{IsNodeOf};
ghost use Rattle.schedule_replay.specs.OutcomeView.{plain_outcome};
ghost use Rattle.schedule_replay.specs.Starts.{MarksRegisters, AreStarts};

use crate::Outcome;
use crate::starts::{Starts, no_starts, starts_of};
use crate::wide::replay_runs;
use certificate::Certificate;
use flat_net::{FlatNet, FreeNet};
use schedules::Schedule;
use std::alloc::Global;
use std::slice;
use tmr_base::OutOfMemory;

/// The outcome where the nodes of `starts` begin with these values: that of a list of one schedule.
#[tactic(auto, using(crate::proofs::OneSchedule::one_schedule))]
fn replay_from(
    alloc: Global,
    n: &FlatNet,
    h: &FlatNet,
    c: &Certificate,
    s: &Schedule,
    starts: Starts,
) -> Result<Outcome, OutOfMemory>
    requires fits { Fits n.now.net h.now.net c.now }
    requires inputs { length h.now.net.inputs ≡ 3 * length n.now.net.inputs }
    requires outputs { length h.now.net.outputs ≡ 3 * length n.now.net.outputs }
    requires rows { s.now.inputs ≡ length n.now.net.inputs }
    requires nets { All (λ u. u.net.0 < net_count h.now.net) s.now.upsets }
    requires original { All (λ f. f.0.0 < net_count n.now.net) starts.original.items }
    requires hardened { All (λ f. f.0.0 < net_count h.now.net) starts.hardened.items }
    requires registers { NamesNoTable n.now.net starts.original.items }
    ensures { IfOk result (λ o. (f w g u : List Bool) → MarksRegisters n.now.net f → MarksRegisters h.now.net g → AreStarts n.now.net f w 0 starts.original.items → AreStarts h.now.net g u 0 starts.hardened.items →
        IsReplayOf n.now.net f w h.now.net g u c.now s.now (plain_outcome o)) }
{
    let mut outcomes = replay_runs(alloc, n, h, c, slice::from_ref(s), &starts)?;
    Ok(outcomes.swap_remove(0))
}

/// What the schedule does to the hardened design, told by the one trace of each design, where nodes alone are upset and
/// no register begins with a free value.
#[tactic(auto, using(crate::proofs::Starting::nodes_in_range))]
pub fn replay(
    alloc: Global,
    n: &FlatNet,
    h: &FlatNet,
    c: &Certificate,
    s: &Schedule,
) -> Result<Outcome, OutOfMemory>
    requires fits { Fits n.now.net h.now.net c.now }
    requires inputs { length h.now.net.inputs ≡ 3 * length n.now.net.inputs }
    requires outputs { length h.now.net.outputs ≡ 3 * length n.now.net.outputs }
    requires rows { s.now.inputs ≡ length n.now.net.inputs }
    requires nodes { All (λ u. IsNodeOf h.now.net u.net.0) s.now.upsets }
    ensures outcome { IfOk result (λ o. IsReplayOf n.now.net [] [] h.now.net [] [] c.now s.now (plain_outcome o)) }
    ensures masked { Masks n.now.net h.now.net c.now → IfOk result (λ o. IsTrue o.allowed → (o.wrong ≡ 0) × (o.late ≡ 0)) }
{
    // What a schedule keeps.
    let _cycles = s.cycles();
    let starts = no_starts(alloc);
    match replay_from(alloc, n, h, c, s, starts) {
        Ok(outcome) => Ok(outcome),
        Err(error) => Err(error),
    }
}

/// The same for certificates of version 2: inputs may be upset, and the marked registers begin with the schedule's start
/// values.
pub fn replay_free(
    alloc: Global,
    n: &FreeNet,
    h: &FreeNet,
    c: &Certificate,
    s: &Schedule,
) -> Result<Outcome, OutOfMemory>
    requires fits { Fits n.now.design.net h.now.design.net c.now }
    requires version { c.now.version ≡ 2 }
    requires inputs { length h.now.design.net.inputs ≡ 3 * length n.now.design.net.inputs }
    requires outputs { length h.now.design.net.outputs ≡ 3 * length n.now.design.net.outputs }
    requires rows { s.now.inputs ≡ length n.now.design.net.inputs }
    requires nets { All (λ u. u.net.0 < net_count h.now.design.net) s.now.upsets }
    ensures outcome { IfOk result (λ o. IsFreeReplay n.now.design.net n.now.free h.now.design.net h.now.free c.now s.now (plain_outcome o)) }
    ensures masked { FreeMasks n.now.design.net n.now.free h.now.design.net h.now.free c.now → IfOk result (λ o. IsTrue o.allowed → (o.wrong ≡ 0) × (o.late ≡ 0)) }
{
    // What a schedule keeps.
    let _cycles = s.cycles();
    let starts = starts_of(alloc, n, h, c, s)?;
    let original = n.net();
    let hardened = h.net();
    match replay_from(alloc, original, hardened, c, s, starts) {
        Ok(outcome) => Ok(outcome),
        Err(error) => Err(error),
    }
}
