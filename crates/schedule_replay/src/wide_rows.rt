//! The rows of inputs and the upsets of a cycle, in all runs.
ghost use Rattle.std.specs.Prelude.{◌≡◌, ◌≢◌, ◌++◌, ◌+◌, ◌*◌, ◌/◌, ◌<◌, ◌≤◌, ℕ, true, false, List, Bool, All, OnOk, IfOk, None, Some, length, slice_get, slice_index};
ghost use Rattle.table_cover.specs.Words.{word_bit, bits_of};
ghost use Rattle.net_meaning.specs.Meaning.{row_at, spread_row, value_at, upset_at};
ghost use Rattle.net_simulator.specs.Cycle.{forced_in};
ghost use Rattle.schedule_replay.specs.Starts.{forced_to};
ghost use Rattle.schedules.specs.Schedule.{PlainSchedule};
ghost use Rattle.schedule_replay.specs.Wide.{HasTaken, HaveTaken, AreToldQuiet, IsFresh};
ghost use Rattle.schedule_replay.specs.Private.Telling.{TellQuiet};

use crate::striking::take_upsets;
use crate::words::{run_word, value_word, with_bit};
use certificate::Certificate;
use schedules::Schedule;
use std::alloc::Global;
use tmr_base::{NetId, OutOfMemory};

/// How far a run has come in its upsets: where the next ones begin, and the cycle behind the last one of each partition.
#[derive(Drop)]
pub struct Progress {
    pub next: u32,
    pub lasts: Vec<u32>,
}

/// No partition was struck yet.
fn no_progress(alloc: Global, c: &Certificate) -> Result<Progress, OutOfMemory>
    ensures { IfOk result (λ p. IsFresh c.now p) }
{
    let lasts = Vec::from_elem(alloc, 0, c.parts() as usize)?;
    Ok(Progress { next: 0, lasts })
}

/// Runs before their first upset.
pub fn start_progress(
    alloc: Global,
    c: &Certificate,
    list: &[Schedule],
) -> Result<Vec<Progress>, OutOfMemory>
    ensures { IfOk result (λ v. HaveTaken c.now list.now 0 v.items) }
{
    let mut runs = Vec::new(alloc);
    for made in 0..list.len() {
        let _made = made;
        let progress = no_progress(alloc, c)?;
        runs.push(progress)?;
    }
    Ok(runs)
}

/// The word of input i in cycle t.
fn input_word(list: &[Schedule], t: u32, i: u32) -> u64
    requires few { length list.now ≤ 64 }
    requires cycles { All (λ s. t < length s.rows) list.now }
    requires inputs { All (λ s. i < s.inputs) list.now }
    ensures { (j : ℕ) (s : PlainSchedule) → slice_get list.now j ≡ Some s → word_bit j result ≡ value_at s.rows t i }
{
    let mut word = 0;
    for j in 0..list.len() {
        word = with_bit(word, j, list[j].input(t, i));
    }
    word
}

/// Writes the inputs of cycle t.
fn write_row(list: &[Schedule], t: u32, inputs: u32, row: &mut [u64])
    requires few { length list.now ≤ 64 }
    requires cycles { All (λ s. t < length s.rows) list.now }
    requires inputs { All (λ s. s.inputs ≡ inputs) list.now }
    requires row { length row.old ≡ inputs }
    ensures { (j : ℕ) (s : PlainSchedule) (i : ℕ) → slice_get list.now j ≡ Some s → i < inputs → word_bit j (slice_index row.new i) ≡ value_at s.rows t i }
{
    for i in 0..inputs {
        row[i as usize] = input_word(list, t, i);
    }
}

/// Writes each word of a row three times.
fn write_spread(row: &[u64], spread: &mut [u64])
    requires { length spread.old ≡ 3 * length row.now }
    ensures { (m : ℕ) → m < length spread.new → slice_index spread.new m ≡ slice_index row.now (m / 3) }
{
    for m in 0..spread.len() {
        spread[m] = row[m / 3];
    }
}

/// Writes the inputs of cycle t, once and three times.
pub fn write_rows(list: &[Schedule], t: u32, inputs: u32, row: &mut [u64], spread: &mut [u64])
    requires few { length list.now ≤ 64 }
    requires cycles { All (λ s. t < length s.rows) list.now }
    requires inputs { All (λ s. s.inputs ≡ inputs) list.now }
    requires plain { All (λ s. length (row_at s.rows t) ≡ inputs) list.now }
    requires row { length row.old ≡ inputs }
    requires spread { length spread.old ≡ 3 * inputs }
    ensures row { (j : ℕ) (s : PlainSchedule) → slice_get list.now j ≡ Some s → bits_of j row.new ≡ row_at s.rows t }
    ensures spread { (j : ℕ) (s : PlainSchedule) → slice_get list.now j ≡ Some s → bits_of j spread.new ≡ spread_row (row_at s.rows t) }
{
    write_row(list, t, inputs, row);
    write_spread(row, spread);
}

/// Forces in the runs of the mask what the pairs say.
pub fn push_pairs(
    pairs: &[(NetId, bool)],
    mask: u64,
    struck: &mut Vec<(NetId, u64, u64)>,
) -> Result<(), OutOfMemory>
    ensures own { OnOk result ((j x : ℕ) → j < 64 → word_bit j mask ≡ true → forced_in j struck.old.items x ≡ None → forced_in j struck.new.items x ≡ forced_to pairs.now x) }
    ensures others { OnOk result ((j x : ℕ) → word_bit j mask ≡ false → forced_in j struck.new.items x ≡ forced_in j struck.old.items x) }
    ensures nets { OnOk result ((high : ℕ) → All (λ f. f.0.0 < high) pairs.now → All (λ f. f.0.0 < high) struck.old.items → All (λ f. f.0.0 < high) struck.new.items) }
{
    for k in 0..pairs.len() {
        let (x, value) = pairs[k];
        struck.push((x, mask, value_word(mask, value)))?;
    }
    Ok(())
}

/// Forces in run j what the pairs say.
fn push_run(
    pairs: &[(NetId, bool)],
    j: usize,
    struck: &mut Vec<(NetId, u64, u64)>,
) -> Result<(), OutOfMemory>
    requires { j < 64 }
    ensures own { OnOk result ((x : ℕ) → forced_in j struck.old.items x ≡ None → forced_in j struck.new.items x ≡ forced_to pairs.now x) }
    ensures others { OnOk result ((i x : ℕ) → i < 64 → i ≢ j → forced_in i struck.new.items x ≡ forced_in i struck.old.items x) }
    ensures nets { OnOk result ((high : ℕ) → All (λ f. f.0.0 < high) pairs.now → All (λ f. f.0.0 < high) struck.old.items → All (λ f. f.0.0 < high) struck.new.items) }
{
    push_pairs(pairs, run_word(j), struck)?;
    Ok(())
}

/// Adds start values behind the upsets, which come first.
pub fn add_starts(
    starts: &[(NetId, u64, u64)],
    struck: &mut Vec<(NetId, u64, u64)>,
) -> Result<(), OutOfMemory>
    ensures { OnOk result (struck.new.items ≡ struck.old.items ++ starts.now) }
{
    struck.extend_from_slice(starts)?;
    Ok(())
}

/// Takes the upsets of cycle t in one run.
fn take_run(
    s: &Schedule,
    c: &Certificate,
    t: u32,
    p: &mut Progress,
    pairs: &mut Vec<(NetId, bool)>,
) -> Result<(), OutOfMemory>
    requires high { All (λ u. u.net.0 < c.now.hardened_inputs + length c.now.roles) s.now.upsets }
    requires taken { HasTaken c.now s.now.upsets t p.old }
    ensures taken { OnOk result (HasTaken c.now s.now.upsets (t + 1) p.new) }
    ensures quiet { OnOk result (TellQuiet c.now s.now.upsets t p.new.lasts.items) }
    ensures pairs { OnOk result ((x : ℕ) → forced_to pairs.new.items x ≡ upset_at s.now.upsets t x) }
    ensures nets { OnOk result (All (λ f. f.0.0 < c.now.hardened_inputs + length c.now.roles) pairs.new.items) }
{
    p.next = take_upsets(s, c, t, p.next, pairs, &mut p.lasts)?;
    Ok(())
}

/// Takes the upsets of cycle t in all runs.
pub fn take_runs(
    list: &[Schedule],
    c: &Certificate,
    t: u32,
    runs: &mut Vec<Progress>,
    pairs: &mut Vec<(NetId, bool)>,
    struck: &mut Vec<(NetId, u64, u64)>,
) -> Result<(), OutOfMemory>
    requires few { length list.now ≤ 64 }
    requires high { All (λ s. All (λ u. u.net.0 < c.now.hardened_inputs + length c.now.roles) s.upsets) list.now }
    requires taken { HaveTaken c.now list.now t runs.old.items }
    ensures taken { OnOk result (HaveTaken c.now list.now (t + 1) runs.new.items) }
    ensures quiet { OnOk result (AreToldQuiet c.now list.now t runs.new.items) }
    ensures struck { OnOk result ((j : ℕ) (s : PlainSchedule) (x : ℕ) → slice_get list.now j ≡ Some s → forced_in j struck.new.items x ≡ upset_at s.upsets t x) }
    ensures nets { OnOk result (All (λ f. f.0.0 < c.now.hardened_inputs + length c.now.roles) struck.new.items) }
{
    struck.clear();
    for j in 0..list.len() {
        take_run(&list[j], c, t, &mut runs[j], pairs)?;
        push_run(pairs, j, struck)?;
    }
    Ok(())
}
