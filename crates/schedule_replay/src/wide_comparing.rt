//! Compares the values of two designs in a cycle, in all runs.
ghost use Rattle.std.specs.Prelude.{◌≡◌, ◌∷◌, [], ◌+◌, ◌*◌, ◌<◌, ◌≤◌, ◌||◌, ℕ, List, Bool, All, OnOk, IsTrue, IsSome, Some, length, nat_eq, nat_le, option_map, slice_get, slice_index, if◌then◌else◌};
ghost use Rattle.tmr_base.specs.declared.ids.Upset.{Upset};
ghost use Rattle.table_cover.specs.Words.{bits_of};
ghost use Rattle.flat_net.specs.Net.{net_count};
ghost use Rattle.net_meaning.specs.Meaning.{row_at};
ghost use Rattle.certificate.specs.Cert.{Fits, part_of};
ghost use Rattle.schedule_replay.specs.declared.outcome.Outcome.{Outcome as AnOutcome};
ghost use Rattle.schedule_replay.specs.declared.wide_rows.Progress.{Progress as AProgress};
ghost use Rattle.schedule_replay.specs.Origins.{RunsBeside, IsCompared};
ghost use Rattle.schedule_replay.specs.Outcome.{output_at, outputs_in, late_in, copies_wrong};
ghost use Rattle.schedules.specs.Schedule.{PlainSchedule};
ghost use Rattle.schedule_replay.specs.Wide.{AreToldQuiet, difference_in, wrong_in, late_in_run, is_told_quiet, HasNoted, Notes};
ghost use Rattle.schedule_replay.specs.Private.Telling.{TellQuiet};

use crate::Difference;
use crate::outcome::{Outcome, note};
use crate::striking::is_quiet;
use crate::wide_rows::Progress;
use crate::wide_running::WideRunning;
use crate::words::bit_of_run;
use certificate::Certificate;
use flat_net::FlatNet;
use net_simulator::{TwinSim, WideSim};
use tmr_base::{CopyNo, NetId, OutOfMemory, PartId};

/// The words of a net of the original and of its three copies.
#[derive(Clone, Copy, Drop)]
pub struct FourWords {
    pub original: u64,
    pub first: u64,
    pub second: u64,
    pub third: u64,
}

/// No copy differs in any run.
fn all_same(w: &FourWords) -> bool
    ensures { IsTrue result → (w.now.first ≡ w.now.original) × (w.now.second ≡ w.now.original) × (w.now.third ≡ w.now.original) }
{
    w.first == w.original && w.second == w.original && w.third == w.original
}

/// Output i and its copies in cycle t of run j.
pub fn difference(w: &FourWords, t: u32, i: u32, j: usize) -> Difference
    requires { j < 64 }
    ensures { result ≡ difference_in w.now t i j }
{
    Difference {
        cycle: t,
        output: i,
        original: bit_of_run(w.original, j),
        copies: [
            bit_of_run(w.first, j),
            bit_of_run(w.second, j),
            bit_of_run(w.third, j),
        ],
    }
}

/// Counts output i of cycle t in all runs.
fn note_runs(o: &mut Vec<Outcome>, w: &FourWords, t: u32, i: u32) -> Result<(), OutOfMemory>
    requires few { length o.old.items ≤ 64 }
    requires differences { All (λ a. a.differences < 9223372036854775808) o.old.items }
    requires wrong { All (λ a. a.wrong < 9223372036854775808) o.old.items }
    ensures long { OnOk result (length o.new.items ≡ length o.old.items) }
    ensures bounded { OnOk result ((j : ℕ) (a b : AnOutcome) → slice_get o.old.items j ≡ Some a → slice_get o.new.items j ≡ Some b → HasNoted 1 a b) }
    ensures counts { OnOk result ((j : ℕ) (a b : AnOutcome) → slice_get o.old.items j ≡ Some a → slice_get o.new.items j ≡ Some b → Notes (difference_in w.now t i j ∷ []) a b) }
{
    if all_same(w) {
        return Ok(());
    }
    for j in 0..o.len() {
        note(&mut o[j], difference(w, t, i, j))?;
    }
    Ok(())
}

/// Output i and its copies.
pub fn output_words(
    n: &FlatNet,
    h: &FlatNet,
    i: u32,
    original: &WideSim,
    hardened: &TwinSim,
) -> FourWords
    requires i { i < length n.now.net.outputs }
    requires outputs { length h.now.net.outputs ≡ 3 * length n.now.net.outputs }
    requires original_net { original.now.net ≡ n.now.net }
    requires hardened_net { hardened.now.net ≡ h.now.net }
    requires original { IsSome original.now.last }
    requires hardened { IsSome hardened.now.last }
    ensures { (t j : ℕ) (tr ft : List (List Bool)) → option_map (bits_of j) original.now.last ≡ Some (row_at tr t) → option_map (bits_of j) hardened.now.last ≡ Some (row_at ft t) → difference_in result t i j ≡ output_at n.now.net h.now.net tr ft t i }
{
    let _outputs = h.output_count();
    let k = 3 * i;
    FourWords {
        original: original.value(n.output(i)),
        first: hardened.value(h.output(k)),
        second: hardened.value(h.output(k + 1)),
        third: hardened.value(h.output(k + 2)),
    }
}

/// Counts the outputs of cycle t in all runs.
pub fn compare_outputs_wide(
    n: &FlatNet,
    h: &FlatNet,
    t: u32,
    original: &WideSim,
    hardened: &TwinSim,
    o: &mut Vec<Outcome>,
) -> Result<(), OutOfMemory>
    requires outputs { length h.now.net.outputs ≡ 3 * length n.now.net.outputs }
    requires original_net { original.now.net ≡ n.now.net }
    requires hardened_net { hardened.now.net ≡ h.now.net }
    requires original { IsSome original.now.last }
    requires hardened { IsSome hardened.now.last }
    requires few { length o.old.items ≤ 64 }
    requires differences { All (λ a. a.differences < 4611686018427387904) o.old.items }
    requires wrong { All (λ a. a.wrong < 4611686018427387904) o.old.items }
    ensures long { OnOk result (length o.new.items ≡ length o.old.items) }
    ensures bounded { OnOk result ((j : ℕ) (a b : AnOutcome) → slice_get o.old.items j ≡ Some a → slice_get o.new.items j ≡ Some b → HasNoted 4294967295 a b) }
    ensures counts { OnOk result ((j : ℕ) (a b : AnOutcome) (tr ft : List (List Bool)) → slice_get o.old.items j ≡ Some a → slice_get o.new.items j ≡ Some b → option_map (bits_of j) original.now.last ≡ Some (row_at tr t) → option_map (bits_of j) hardened.now.last ≡ Some (row_at ft t) →
        Notes (outputs_in n.now.net h.now.net tr ft t (length n.now.net.outputs)) a b) }
{
    for i in 0..n.output_count() {
        note_runs(o, &output_words(n, h, i, original, hardened), t, i)?;
    }
    Ok(())
}

/// How many copies differ in run j, if the partition is quiet.
fn late_of(w: &FourWords, quiet: bool, j: usize) -> u64
    requires { j < 64 }
    ensures value { result ≡ late_in_run w.now quiet j }
    ensures bound { result ≤ 3 }
{
    if !quiet {
        return 0;
    }
    let own = bit_of_run(w.original, j);
    u64::from(own != bit_of_run(w.first, j))
        + u64::from(own != bit_of_run(w.second, j))
        + u64::from(own != bit_of_run(w.third, j))
}

/// Adds to what is late.
fn add_late(o: &mut Outcome, count: u64)
    requires late { o.old.late < 9223372036854775808 }
    requires count { count ≤ 3 }
    ensures { o.new ≡ record o.old { late = o.old.late + count } }
{
    o.late += count;
}

/// Counts a node of partition p in cycle t, in all runs.
fn late_runs(o: &mut Vec<Outcome>, w: &FourWords, runs: &[Progress], p: PartId, depth: u32, t: u32)
    requires few { length o.old.items ≤ 64 }
    requires long { length runs.now ≡ length o.old.items }
    requires lasts { All (λ q. p.0 < length q.lasts.items) runs.now }
    requires late { All (λ a. a.late < 9223372036854775808) o.old.items }
    ensures long { length o.new.items ≡ length o.old.items }
    ensures late { (j : ℕ) (a b : AnOutcome) (q : AProgress) → slice_get o.old.items j ≡ Some a → slice_get o.new.items j ≡ Some b → slice_get runs.now j ≡ Some q →
        b ≡ record a { late = a.late + late_in_run w.now (is_told_quiet (slice_index q.lasts.items p.0) depth t) j } }
{
    if all_same(w) {
        return;
    }
    for j in 0..o.len() {
        let quiet = is_quiet(runs[j].lasts[p.0 as usize], depth, t);
        add_late(&mut o[j], late_of(w, quiet, j));
    }
}

/// Node x and its copies. Where these have its word, none of them is read.
fn node_words(
    n: &FlatNet,
    h: &FlatNet,
    c: &Certificate,
    x: NetId,
    original: &WideSim,
    hardened: &TwinSim,
) -> FourWords
    requires fits { Fits n.now.net h.now.net c.now }
    requires low { length n.now.net.inputs ≤ x.0 }
    requires high { x.0 < net_count n.now.net }
    requires original_net { original.now.net ≡ n.now.net }
    requires hardened_net { hardened.now.net ≡ h.now.net }
    requires original { IsSome original.now.last }
    requires hardened { IsSome hardened.now.last }
    requires beside { RunsBeside n.now.net h.now.net c.now hardened.now }
    requires compared { IsCompared original.now hardened.now }
    ensures { (t j : ℕ) (tr ft : List (List Bool)) → option_map (bits_of j) original.now.last ≡ Some (row_at tr t) → option_map (bits_of j) hardened.now.last ≡ Some (row_at ft t) → wrong_in result j ≡ copies_wrong c.now tr ft t x.0 }
{
    // Both designs stand for what the certificate fits, and it for itself.
    let _known = (n.input_count(), h.input_count(), c.hardened_inputs());
    let own = original.value(x);
    if !hardened.may_differ(x) {
        return FourWords {
            original: own,
            first: own,
            second: own,
            third: own,
        };
    }
    FourWords {
        original: own,
        first: hardened.value(c.copy(x, CopyNo::First)),
        second: hardened.value(c.copy(x, CopyNo::Second)),
        third: hardened.value(c.copy(x, CopyNo::Third)),
    }
}

/// Counts the nodes of cycle t in all runs.
pub fn compare_nodes_wide(
    n: &FlatNet,
    h: &FlatNet,
    c: &Certificate,
    t: u32,
    r: &WideRunning,
    runs: &[Progress],
    o: &mut Vec<Outcome>,
)
    requires fits { Fits n.now.net h.now.net c.now }
    requires original_net { r.now.original.net ≡ n.now.net }
    requires hardened_net { r.now.hardened.net ≡ h.now.net }
    requires original { IsSome r.now.original.last }
    requires hardened { IsSome r.now.hardened.last }
    requires beside { RunsBeside n.now.net h.now.net c.now r.now.hardened }
    requires compared { IsCompared r.now.original r.now.hardened }
    requires few { length o.old.items ≤ 64 }
    requires long { length runs.now ≡ length o.old.items }
    requires lasts { All (λ q. length q.lasts.items ≡ length c.now.depth) runs.now }
    requires late { All (λ a. a.late < 4611686018427387904) o.old.items }
    ensures long { length o.new.items ≡ length o.old.items }
    ensures same { (j : ℕ) (a b : AnOutcome) → slice_get o.old.items j ≡ Some a → slice_get o.new.items j ≡ Some b → b ≡ record a { late = b.late } }
    ensures bound { (j : ℕ) (a b : AnOutcome) → slice_get o.old.items j ≡ Some a → slice_get o.new.items j ≡ Some b → b.late ≤ a.late + 3 * length n.now.net.nodes }
    ensures late { (j : ℕ) (a b : AnOutcome) (q : AProgress) (tr ft : List (List Bool)) (s : List Upset) → slice_get o.old.items j ≡ Some a → slice_get o.new.items j ≡ Some b → slice_get runs.now j ≡ Some q →
        option_map (bits_of j) r.now.original.last ≡ Some (row_at tr t) → option_map (bits_of j) r.now.hardened.last ≡ Some (row_at ft t) → TellQuiet c.now s t q.lasts.items →
        b ≡ record a { late = a.late + late_in n.now.net c.now s tr ft t (length n.now.net.nodes) } }
{
    let inputs = n.input_count();
    for i in 0..n.node_count() {
        let x = NetId(inputs + i);
        let p = c.part(x);
        let words = node_words(n, h, c, x, &r.original, &r.hardened);
        late_runs(o, &words, runs, p, c.depth(p), t);
    }
}
