//! Replays up to 64 schedules at once.
ghost use Rattle.std.specs.Prelude.{◌≡◌, ◌↔◌, ◌+◌, ◌*◌, ◌<◌, ◌≤◌, ℕ, All, OnOk, IfOk, IsTrue, Some, length, slice_get};
ghost use Rattle.flat_net.specs.Net.{net_count};
ghost use Rattle.certificate.specs.Cert.{Fits};
ghost use Rattle.certificate.specs.Schedules.{Allowed};
ghost use Rattle.validator.specs.Masking.{Masks};
ghost use Rattle.schedule_replay.specs.declared.outcome.Outcome.{Outcome as AnOutcome};
ghost use Rattle.schedule_replay.specs.Many.{HaveOneLength, AreReplaysOf};
ghost use Rattle.schedules.specs.Reading.{IsNodeOf};
ghost use Rattle.schedule_replay.specs.Running.{Traces, AreTracesOf, HasCounted, CountsFit};
ghost use Rattle.schedules.specs.Schedule.{PlainSchedule, IsPlainSchedule};
ghost use Rattle.schedule_replay.specs.Origins.{NamesNoTable};
ghost use Rattle.schedule_replay.specs.Wide.{HaveTaken, IsWideReady, HasRunWide, AreReplaysFrom, HasBegun, HaveBegun};

use crate::starts::{Starts, no_starts};
use crate::wide_comparing::{compare_nodes_wide, compare_outputs_wide};
use crate::wide_rows::{Progress, start_progress};
use crate::wide_running::{WideRunning, advance_runs, start_runs};
use crate::{Outcome, is_allowed};
use certificate::Certificate;
use flat_net::FlatNet;
use net_meaning::free_traces_are_unique;
use schedules::Schedule;
use std::alloc::Global;
use tmr_base::OutOfMemory;

/// A design, its hardened form, and the certificate that tells how they stand to each other.
#[derive(Drop)]
struct Pair<'a> {
    original: &'a FlatNet,
    hardened: &'a FlatNet,
    certificate: &'a Certificate,
}

/// Runs cycle t, and counts.
fn count_cycle_wide(
    pair: &Pair,
    list: &[Schedule],
    t: u32,
    runs: &mut Vec<Progress>,
    r: &mut WideRunning,
    o: &mut Vec<Outcome>,
) -> Result<(), OutOfMemory>
    requires fits { Fits pair.now.original.now.net pair.now.hardened.now.net pair.now.certificate.now }
    requires inputs { length pair.now.hardened.now.net.inputs ≡ 3 * length pair.now.original.now.net.inputs }
    requires outputs { length pair.now.hardened.now.net.outputs ≡ 3 * length pair.now.original.now.net.outputs }
    requires few { length list.now ≤ 64 }
    requires plain { All (λ s. IsPlainSchedule s) list.now }
    requires rows { All (λ s. s.inputs ≡ length pair.now.original.now.net.inputs) list.now }
    requires nets { All (λ s. All (λ u. u.net.0 < net_count pair.now.hardened.now.net) s.upsets) list.now }
    requires t { All (λ s. t < length s.rows) list.now }
    requires limit { t < 1048576 }
    requires ready { IsWideReady pair.now.original.now.net pair.now.hardened.now.net pair.now.certificate.now r.old }
    requires taken { HaveTaken pair.now.certificate.now list.now t runs.old.items }
    requires long { length o.old.items ≡ length list.now }
    requires bounded { All (λ a. CountsFit t a) o.old.items }
    ensures ready { OnOk result (IsWideReady pair.now.original.now.net pair.now.hardened.now.net pair.now.certificate.now r.new) }
    ensures taken { OnOk result (HaveTaken pair.now.certificate.now list.now (t + 1) runs.new.items) }
    ensures long { OnOk result (length o.new.items ≡ length list.now) }
    ensures bounded { OnOk result (All (λ a. CountsFit (t + 1) a) o.new.items) }
    ensures counted { OnOk result ((j : ℕ) (s : PlainSchedule) (a b : AnOutcome) (v : Traces) → slice_get list.now j ≡ Some s → slice_get o.old.items j ≡ Some a → slice_get o.new.items j ≡ Some b → AreTracesOf pair.now.original.now.net pair.now.hardened.now.net s v →
        HasRunWide pair.now.original.now.net pair.now.hardened.now.net v t j r.old → HasCounted pair.now.original.now.net pair.now.hardened.now.net pair.now.certificate.now s.upsets v.original v.hardened t a →
        HasRunWide pair.now.original.now.net pair.now.hardened.now.net v (t + 1) j r.new × HasCounted pair.now.original.now.net pair.now.hardened.now.net pair.now.certificate.now s.upsets v.original v.hardened (t + 1) b) }
    ensures allowed { OnOk result ((j : ℕ) (a b : AnOutcome) → slice_get o.old.items j ≡ Some a → slice_get o.new.items j ≡ Some b → b.allowed ≡ a.allowed) }
{
    let (n, h, c) = (pair.original, pair.hardened, pair.certificate);
    let _known = n.input_count();
    advance_runs(n, h, c, list, t, runs, r)?;
    compare_outputs_wide(n, h, t, &r.original, &r.hardened, o)?;
    compare_nodes_wide(n, h, c, t, r, runs, o);
    Ok(())
}

/// Nothing was counted yet.
fn no_outcome(alloc: Global, s: &Schedule, c: &Certificate) -> Result<Outcome, OutOfMemory>
    requires low { All (λ u. u.net.0 < c.now.hardened_inputs → u.net.0 < 3 * c.now.original_inputs) s.now.upsets }
    requires high { All (λ u. u.net.0 < c.now.hardened_inputs + length c.now.roles) s.now.upsets }
    ensures begun { IfOk result (λ o. HasBegun c.now s.now o) }
    ensures plain { OnOk result (IsPlainSchedule s.now) }
{
    let _cycles = s.cycles();
    let allowed = is_allowed(alloc, s, c)?;
    Ok(Outcome {
        allowed,
        first: Vec::new(alloc),
        differences: 0,
        wrong: 0,
        late: 0,
    })
}

/// Outcomes before the first cycle.
fn start_outcomes(
    alloc: Global,
    c: &Certificate,
    list: &[Schedule],
) -> Result<Vec<Outcome>, OutOfMemory>
    requires low { All (λ s. All (λ u. u.net.0 < c.now.hardened_inputs → u.net.0 < 3 * c.now.original_inputs) s.upsets) list.now }
    requires high { All (λ s. All (λ u. u.net.0 < c.now.hardened_inputs + length c.now.roles) s.upsets) list.now }
    ensures begun { IfOk result (λ v. HaveBegun c.now list.now v.items) }
    ensures plain { OnOk result (All (λ s. IsPlainSchedule s) list.now) }
{
    let mut outcomes = Vec::new(alloc);
    for j in 0..list.len() {
        let outcome = no_outcome(alloc, &list[j], c)?;
        outcomes.push(outcome)?;
    }
    Ok(outcomes)
}

/// The outcomes of all schedules, where the nodes of `starts` begin with these values.
#[tactic(auto, using(crate::proofs::WideLaws::all_in_range))]
pub fn replay_runs(
    alloc: Global,
    n: &FlatNet,
    h: &FlatNet,
    c: &Certificate,
    list: &[Schedule],
    starts: &Starts,
) -> Result<Vec<Outcome>, OutOfMemory>
    requires fits { Fits n.now.net h.now.net c.now }
    requires inputs { length h.now.net.inputs ≡ 3 * length n.now.net.inputs }
    requires outputs { length h.now.net.outputs ≡ 3 * length n.now.net.outputs }
    requires some { 0 < length list.now }
    requires few { length list.now ≤ 64 }
    requires rows { All (λ s. s.inputs ≡ length n.now.net.inputs) list.now }
    requires cycles { HaveOneLength list.now }
    requires nets { All (λ s. All (λ u. u.net.0 < net_count h.now.net) s.upsets) list.now }
    requires original { All (λ f. f.0.0 < net_count n.now.net) starts.now.original.items }
    requires hardened { All (λ f. f.0.0 < net_count h.now.net) starts.now.hardened.items }
    requires registers { NamesNoTable n.now.net starts.now.original.items }
    ensures outcomes { IfOk result (λ v. AreReplaysFrom n.now.net h.now.net starts.now c.now list.now v.items) }
    ensures plain { OnOk result (All (λ s. IsPlainSchedule s) list.now) }
{
    // What the two designs keep, and that there is one trace of each.
    let _known = (n.input_count(), h.input_count());
    free_traces_are_unique();
    let mut outcomes = start_outcomes(alloc, c, list)?;
    let mut runs = start_progress(alloc, c, list)?;
    let mut running = start_runs(alloc, n, h, c, starts)?;
    let pair = Pair {
        original: n,
        hardened: h,
        certificate: c,
    };
    for t in 0..list[0].cycles() {
        count_cycle_wide(&pair, list, t, &mut runs, &mut running, &mut outcomes)?;
    }
    Ok(outcomes)
}

/// What each of up to 64 schedules does, all at once: outcome j is that of schedule j, as `replay` tells it.
#[tactic(auto, using(crate::proofs::WideLaws::nodes_listed))]
pub fn replay_wide(
    alloc: Global,
    n: &FlatNet,
    h: &FlatNet,
    c: &Certificate,
    list: &[Schedule],
) -> Result<Vec<Outcome>, OutOfMemory>
    requires fits { Fits n.now.net h.now.net c.now }
    requires inputs { length h.now.net.inputs ≡ 3 * length n.now.net.inputs }
    requires outputs { length h.now.net.outputs ≡ 3 * length n.now.net.outputs }
    requires some { 0 < length list.now }
    requires few { length list.now ≤ 64 }
    requires rows { All (λ s. s.inputs ≡ length n.now.net.inputs) list.now }
    requires cycles { HaveOneLength list.now }
    requires nodes { All (λ s. All (λ u. IsNodeOf h.now.net u.net.0) s.upsets) list.now }
    ensures outcomes { IfOk result (λ v. AreReplaysOf n.now.net h.now.net c.now list.now v.items) }
    ensures masked { Masks n.now.net h.now.net c.now → IfOk result (λ v. All (λ o. IsTrue o.allowed → (o.wrong ≡ 0) × (o.late ≡ 0)) v.items) }
{
    let starts = no_starts(alloc);
    match replay_runs(alloc, n, h, c, list, &starts) {
        Ok(outcomes) => Ok(outcomes),
        Err(error) => Err(error),
    }
}
