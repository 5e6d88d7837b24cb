//! Runs a design and its hardened form side by side, in all runs.
ghost use Rattle.std.specs.Prelude.{◌≡◌, ◌+◌, ◌*◌, ◌<◌, ◌≤◌, ℕ, All, OnOk, IfOk, IsSome, Some, length, slice_get};
ghost use Rattle.flat_net.specs.Net.{net_count};
ghost use Rattle.certificate.specs.Cert.{Fits};
ghost use Rattle.net_simulator.specs.Cycle.{forced_in};
ghost use Rattle.schedule_replay.specs.Starts.{forced_to};
ghost use Rattle.schedules.specs.Schedule.{PlainSchedule, IsPlainSchedule};
ghost use Rattle.schedule_replay.specs.Running.{Traces, AreTracesOf, BeginWith};
ghost use Rattle.schedule_replay.specs.Origins.{IsCompared, NamesNoTable};
ghost use Rattle.schedule_replay.specs.Wide.{HaveTaken, AreToldQuiet, IsWideReady, HasRunWide};

use crate::origins::origins_of;
use crate::starts::Starts;
use crate::wide_rows::{Progress, add_starts, push_pairs, take_runs, write_rows};
use certificate::Certificate;
use flat_net::FlatNet;
use net_simulator::{TwinSim, WideSim};
use schedules::Schedule;
use std::alloc::Global;
use tmr_base::{NetId, OutOfMemory};

/// Simulators of all runs of a design and of its hardened form, what is given in a cycle, and the start values, which
/// count in cycle 0.
#[derive(Drop)]
pub struct WideRunning<'a> {
    pub original: WideSim<'a>,
    pub hardened: TwinSim<'a>,
    row: Vec<u64>,
    spread: Vec<u64>,
    pairs: Vec<(NetId, bool)>,
    struck: Vec<(NetId, u64, u64)>,
    original_starts: Vec<(NetId, u64, u64)>,
    hardened_starts: Vec<(NetId, u64, u64)>,
}

/// So many words that are 0.
fn words(alloc: Global, count: usize) -> Result<Vec<u64>, OutOfMemory>
    ensures { IfOk result (λ v. length v.items ≡ count) }
{
    Ok(Vec::from_elem(alloc, 0, count)?)
}

/// The pairs, forced in all runs.
fn in_all_runs(
    alloc: Global,
    pairs: &[(NetId, bool)],
) -> Result<Vec<(NetId, u64, u64)>, OutOfMemory>
    ensures forced { IfOk result (λ v. (j x : ℕ) → j < 64 → forced_in j v.items x ≡ forced_to pairs.now x) }
    ensures nets { IfOk result (λ v. (high : ℕ) → All (λ f. f.0.0 < high) pairs.now → All (λ f. f.0.0 < high) v.items) }
{
    let mut forced = Vec::new(alloc);
    push_pairs(pairs, u64::MAX, &mut forced)?;
    Ok(forced)
}

/// Simulators before the first cycle. In all runs the nodes of `starts` begin with these values.
pub fn start_runs<'a>(
    alloc: Global,
    n: &'a FlatNet,
    h: &'a FlatNet,
    c: &Certificate,
    starts: &Starts,
) -> Result<WideRunning<'a>, OutOfMemory>
    requires fits { Fits n.now.net h.now.net c.now }
    requires inputs { length h.now.net.inputs ≡ 3 * length n.now.net.inputs }
    requires original { All (λ f. f.0.0 < net_count n.now.net) starts.now.original.items }
    requires hardened { All (λ f. f.0.0 < net_count h.now.net) starts.now.hardened.items }
    requires registers { NamesNoTable n.now.net starts.now.original.items }
    ensures ready { IfOk result (λ r. IsWideReady n.now.net h.now.net c.now r) }
    ensures begun { IfOk result (λ r. (j : ℕ) (v : Traces) → j < 64 → BeginWith n.now.net h.now.net v starts.now → HasRunWide n.now.net h.now.net v 0 j r) }
{
    let inputs = n.input_count() as usize;
    let original = WideSim::new(alloc, n)?;
    let origins = origins_of(alloc, n, h, c)?;
    let hardened = TwinSim::new(alloc, n, h, origins)?;
    let row = words(alloc, inputs)?;
    let spread = words(alloc, 3 * inputs)?;
    let original_starts = in_all_runs(alloc, &starts.original)?;
    let hardened_starts = in_all_runs(alloc, &starts.hardened)?;
    Ok(WideRunning {
        original,
        hardened,
        row,
        spread,
        pairs: Vec::new(alloc),
        struck: Vec::new(alloc),
        original_starts,
        hardened_starts,
    })
}

/// Runs cycle t of both designs.
#[tactic(auto, using(crate::proofs::WideLaws::all_in_range))]
pub fn advance_runs(
    n: &FlatNet,
    h: &FlatNet,
    c: &Certificate,
    list: &[Schedule],
    t: u32,
    runs: &mut Vec<Progress>,
    r: &mut WideRunning,
) -> Result<(), OutOfMemory>
    requires fits { Fits n.now.net h.now.net c.now }
    requires inputs { length h.now.net.inputs ≡ 3 * length n.now.net.inputs }
    requires few { length list.now ≤ 64 }
    requires plain { All (λ s. IsPlainSchedule s) list.now }
    requires rows { All (λ s. s.inputs ≡ length n.now.net.inputs) list.now }
    requires nets { All (λ s. All (λ u. u.net.0 < net_count h.now.net) s.upsets) list.now }
    requires t { All (λ s. t < length s.rows) list.now }
    requires ready { IsWideReady n.now.net h.now.net c.now r.old }
    requires taken { HaveTaken c.now list.now t runs.old.items }
    ensures ready { OnOk result (IsWideReady n.now.net h.now.net c.now r.new) }
    ensures taken { OnOk result (HaveTaken c.now list.now (t + 1) runs.new.items) }
    ensures quiet { OnOk result (AreToldQuiet c.now list.now t runs.new.items) }
    ensures ran { OnOk result ((j : ℕ) (s : PlainSchedule) (v : Traces) → slice_get list.now j ≡ Some s → AreTracesOf n.now.net h.now.net s v →
        HasRunWide n.now.net h.now.net v t j r.old → HasRunWide n.now.net h.now.net v (t + 1) j r.new) }
    ensures original { OnOk result (IsSome r.new.original.last) }
    ensures hardened { OnOk result (IsSome r.new.hardened.last) }
    ensures compared { OnOk result (IsCompared r.new.original r.new.hardened) }
{
    let _known = h.input_count();
    write_rows(list, t, n.input_count(), &mut r.row, &mut r.spread);
    take_runs(list, c, t, runs, &mut r.pairs, &mut r.struck)?;
    add_starts(&r.hardened_starts, &mut r.struck)?;
    r.original.step(&r.row, &r.original_starts);
    r.hardened.step_beside(&r.original, &r.spread, &r.struck);
    r.original_starts.clear();
    r.hardened_starts.clear();
    Ok(())
}
