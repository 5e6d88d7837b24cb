//! The values of the outputs in each cycle.
ghost use Rattle.std.specs.Prelude.{◌≡◌, ◌++◌, ◌*◌, ◌<◌, ◌≤◌, List, Bool, All, OnOk, IfOk, IsSome, Some, length, option_map};
ghost use Rattle.table_cover.specs.Words.{bits_of};
ghost use Rattle.flat_net.specs.Net.{net_count};
ghost use Rattle.net_meaning.specs.Meaning.{row_at};
ghost use Rattle.certificate.specs.Cert.{Fits};
ghost use Rattle.schedule_replay.specs.declared.outcome.Difference.{Difference};
ghost use Rattle.schedule_replay.specs.Origins.{NamesNoTable};
ghost use Rattle.schedule_replay.specs.Outcome.{outputs_in};
ghost use Rattle.schedule_replay.specs.Starts.{MarksRegisters, AreStarts};
ghost use Rattle.schedule_replay.specs.Waves.{waves, wave_of, AreWavesOf, AreFreeWaves};

use crate::Difference;
use crate::starts::{Starts, starts_of};
use crate::wide_comparing::{difference, output_words};
use crate::wide_rows::start_progress;
use crate::wide_running::{WideRunning, advance_runs, start_runs};
use certificate::Certificate;
use flat_net::{FlatNet, FreeNet};
use net_meaning::free_traces_are_unique;
use schedules::Schedule;
use std::alloc::Global;
use std::slice;
use tmr_base::OutOfMemory;

/// Adds the original's value and the three copies'.
fn push_wave(d: &Difference, values: &mut Vec<bool>) -> Result<(), OutOfMemory>
    ensures { OnOk result (values.new.items ≡ values.old.items ++ wave_of d.now) }
{
    values.push(d.original)?;
    values.extend_from_slice(&d.copies)?;
    Ok(())
}

/// Adds the values of all outputs in cycle t of the first run.
fn push_outputs(
    n: &FlatNet,
    h: &FlatNet,
    t: u32,
    r: &WideRunning,
    values: &mut Vec<bool>,
) -> Result<(), OutOfMemory>
    requires outputs { length h.now.net.outputs ≡ 3 * length n.now.net.outputs }
    requires original_net { r.now.original.net ≡ n.now.net }
    requires hardened_net { r.now.hardened.net ≡ h.now.net }
    requires original { IsSome r.now.original.last }
    requires hardened { IsSome r.now.hardened.last }
    ensures { OnOk result ((tr ft : List (List Bool)) → option_map (bits_of 0) r.now.original.last ≡ Some (row_at tr t) → option_map (bits_of 0) r.now.hardened.last ≡ Some (row_at ft t) →
        values.new.items ≡ values.old.items ++ waves (outputs_in n.now.net h.now.net tr ft t (length n.now.net.outputs))) }
{
    for i in 0..n.output_count() {
        let words = output_words(n, h, i, &r.original, &r.hardened);
        push_wave(&difference(&words, t, i, 0), values)?;
    }
    Ok(())
}

/// The values where the nodes of `starts` begin with these values: those of a list of one schedule.
#[tactic(auto, using(crate::proofs::OneSchedule::one_schedule))]
fn waves_from(
    alloc: Global,
    n: &FlatNet,
    h: &FlatNet,
    c: &Certificate,
    s: &Schedule,
    starts: Starts,
) -> Result<Vec<bool>, OutOfMemory>
    requires fits { Fits n.now.net h.now.net c.now }
    requires inputs { length h.now.net.inputs ≡ 3 * length n.now.net.inputs }
    requires outputs { length h.now.net.outputs ≡ 3 * length n.now.net.outputs }
    requires rows { s.now.inputs ≡ length n.now.net.inputs }
    requires nets { All (λ u. u.net.0 < net_count h.now.net) s.now.upsets }
    requires original { All (λ f. f.0.0 < net_count n.now.net) starts.original.items }
    requires hardened { All (λ f. f.0.0 < net_count h.now.net) starts.hardened.items }
    requires registers { NamesNoTable n.now.net starts.original.items }
    ensures { IfOk result (λ v. (f w g u : List Bool) → MarksRegisters n.now.net f → MarksRegisters h.now.net g → AreStarts n.now.net f w 0 starts.original.items → AreStarts h.now.net g u 0 starts.hardened.items →
        AreWavesOf n.now.net f w h.now.net g u s.now v.items) }
{
    // What the two designs keep, and that there is one trace of each.
    let _known = (n.input_count(), h.input_count());
    free_traces_are_unique();
    let list = slice::from_ref(s);
    let mut runs = start_progress(alloc, c, list)?;
    let mut running = start_runs(alloc, n, h, c, &starts)?;
    let mut values = Vec::new(alloc);
    for t in 0..s.cycles() {
        advance_runs(n, h, c, list, t, &mut runs, &mut running)?;
        push_outputs(n, h, t, &running, &mut values)?;
    }
    Ok(values)
}

/// Cycle by cycle, for each output of the original in order, its value and those of its three copies. With a certificate
/// of version 1 nothing counts as marked.
pub fn wave_values(
    alloc: Global,
    n: &FreeNet,
    h: &FreeNet,
    c: &Certificate,
    s: &Schedule,
) -> Result<Vec<bool>, OutOfMemory>
    requires fits { Fits n.now.design.net h.now.design.net c.now }
    requires inputs { length h.now.design.net.inputs ≡ 3 * length n.now.design.net.inputs }
    requires outputs { length h.now.design.net.outputs ≡ 3 * length n.now.design.net.outputs }
    requires rows { s.now.inputs ≡ length n.now.design.net.inputs }
    requires nets { All (λ u. u.net.0 < net_count h.now.design.net) s.now.upsets }
    requires few { length n.now.design.net.outputs * length s.now.rows ≤ 4194304 }
    ensures { IfOk result (λ v. AreFreeWaves n.now.design.net n.now.free h.now.design.net h.now.free c.now s.now v.items) }
{
    let starts = starts_of(alloc, n, h, c, s)?;
    let original = n.net();
    let hardened = h.net();
    match waves_from(alloc, original, hardened, c, s, starts) {
        Ok(values) => Ok(values),
        Err(error) => Err(error),
    }
}
