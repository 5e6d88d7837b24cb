//! `replay ORIG HARD CERT SCHED` and `wave ORIG HARD CERT SCHED VCD`: what a schedule of upsets does to a pair that is accepted. `wave`
//! saves the waves too.
ghost use Rattle.std.specs.Prelude.{◌≡◌, ◌≤◌, ◌<◌, ◌*◌, All, true, false, length, IfOk, IfErr, IsTrue};
ghost use Rattle.flat_net.specs.Net.{Net, net_count};
ghost use Rattle.certificate.specs.Cert.{Fits};
ghost use Rattle.certificate.specs.Rules.{FreeCorresponds};
ghost use Rattle.certificate.specs.Starts.{counted};
ghost use Rattle.schedules.specs.Document.{sched_of};
ghost use Rattle.schedules.specs.Gives.{Fails};
ghost use Rattle.schedule_replay.specs.Outcome.{IsFreeReplay};
ghost use Rattle.schedule_replay.specs.OutcomeView.{plain_outcome};
ghost use Rattle.schedules.specs.Reading.{IsNodeOf, IsReadAs};
ghost use Rattle.validator.specs.Masking.{Masks, FreeMasks};
ghost use Rattle.limits.specs.Most.{widest_nets};
ghost use Rattle.tmr_words.specs.Line.{Replay};
ghost use Rattle.tmr_words.specs.FileWords.{pair_in, replaying_in, word_in};
ghost use Rattle.tmr_top.specs.Loads.{schedule_file, replay_files};
ghost use Rattle.tmr_top.specs.Pairs.{Accepts, IsMasking};
ghost use Rattle.tmr_top.specs.Replayed.{IsReplayRefused, is_too_large};
ghost use Rattle.tmr_top.specs.Private.Opened.{Never, Gives, Opens};
ghost use Rattle.tmr_top.specs.Private.PairFiles.{pair_of, IsFit};
ghost use Rattle.tmr_top.specs.Private.Replaying.{AreReplayFiles, IsBeforeSchedule, IsReplayRead, IsReplayable, ReadsSchedule, IsToldWork, IsTooLargeStop};
ghost use Rattle.tmr_top.specs.Private.Rooms.{Performed};
ghost use Rattle.tmr_top.specs.Private.Works.{IsWorkOver};

use crate::commands::wave::save_waves;
use crate::conclusion::conclude;
use crate::decision::{Decision, Verdict, Work};
use crate::designs::{refuse, refuse_for};
use crate::loads::{Kept, SCHEDULE_LIMIT, Stop, load_bytes, stopped};
use crate::pair_files::PairRead;
use crate::pairs::{check_pair, deny, load_pair};
use certificate::Certificate;
use flat_net::FreeNet;
use schedule_replay::{Outcome, replay, replay_free};
use schedules::{Schedule, ScheduleFault, read_schedule, read_schedule_free};
use std::alloc::Global;
use tmr_base::OutOfMemory;
use tmr_outside::Files;
use tmr_texts::{replay_lines, schedule_reason};
use tmr_words::ReplayWords;

/// The most that outputs times cycles may be where waves are saved.
const WAVE_LIMIT: u64 = 4_194_304;

/// What was read of a pair while its files were loaded, and the bytes of a schedule.
#[derive(Drop)]
pub struct ReplayFiles {
    pub pair: Kept<PairRead>,
    pub schedule: Vec<u8>,
}

/// A pair and a schedule for it.
#[derive(Drop)]
pub struct ReplayRead {
    pub pair: PairRead,
    pub schedule: Schedule,
}

/// The schedule that the bytes write, by the version of the certificate.
#[tactic(auto, using(crate::proofs::ReplayLaws::readings))]
fn read_upsets(
    alloc: Global,
    bytes: &[u8],
    n: &FreeNet,
    h: &FreeNet,
    c: &Certificate,
) -> Result<Schedule, ScheduleFault>
    requires bytes { length bytes.now ≤ 16777216 }
    requires fits { Fits n.now.design.net h.now.design.net c.now }
    ensures ok { IfOk result (λ s. IsReadAs (length n.now.design.net.inputs)
        (sched_of c.now.version bytes.now n.now.design.net (counted c.now n.now.free) h.now.design.net) s) }
    ensures nodes { c.now.version ≡ 1 → IfOk result (λ s. All (λ u. IsNodeOf h.now.design.net u.net.0) s.upsets) }
    ensures nets { IfOk result (λ s. All (λ u. u.net.0 < net_count h.now.design.net) s.upsets) }
    ensures inputs { IfOk result (λ s. s.inputs ≡ length n.now.design.net.inputs) }
    ensures err { IfErr result (λ fault. Fails fault
        (sched_of c.now.version bytes.now n.now.design.net (counted c.now n.now.free) h.now.design.net)) }
{
    // What each certificate keeps: its version is 1 or 2.
    let _parts = c.parts();
    if c.version() == 1 {
        read_schedule(alloc, bytes, n.net(), h.net())
    } else {
        read_schedule_free(alloc, bytes, n, h, c)
    }
}

/// What the schedule does, by the version of the certificate.
#[tactic(auto, using(crate::proofs::ReplayLaws::replays))]
fn replay_of(
    alloc: Global,
    n: &FreeNet,
    h: &FreeNet,
    c: &Certificate,
    s: &Schedule,
) -> Result<Outcome, OutOfMemory>
    requires fits { Fits n.now.design.net h.now.design.net c.now }
    requires inputs { length h.now.design.net.inputs ≡ 3 * length n.now.design.net.inputs }
    requires outputs { length h.now.design.net.outputs ≡ 3 * length n.now.design.net.outputs }
    requires rows { s.now.inputs ≡ length n.now.design.net.inputs }
    requires nodes { c.now.version ≡ 1 → All (λ u. IsNodeOf h.now.design.net u.net.0) s.now.upsets }
    requires nets { All (λ u. u.net.0 < net_count h.now.design.net) s.now.upsets }
    requires masks { Masks n.now.design.net h.now.design.net c.now }
    requires free_masks { FreeMasks n.now.design.net n.now.free h.now.design.net h.now.free c.now }
    ensures replayed { IfOk result (λ o. IsFreeReplay n.now.design.net n.now.free
        h.now.design.net h.now.free c.now s.now (plain_outcome o)) }
    ensures masked { IfOk result (λ o. IsTrue o.allowed → (o.wrong ≡ 0) × (o.late ≡ 0)) }
{
    // What each certificate keeps: its version is 1 or 2.
    let _parts = c.parts();
    if c.version() == 1 {
        replay(alloc, n.net(), h.net(), c, s)
    } else {
        replay_free(alloc, n, h, c, s)
    }
}

/// Whether there are too many waves to be saved.
fn is_too_large(waves: Option<&str>, outputs: u32, cycles: u32) -> bool
    ensures { (n : Net) → outputs ≡ length n.outputs → result ≡ is_too_large (word_in waves.entry) n cycles }
{
    match waves {
        None => false,
        Some(_) => u64::from(outputs) * u64::from(cycles) > WAVE_LIMIT,
    }
}

/// The schedule, where its waves are not too many to be saved.
fn keep_small<'a>(
    alloc: Global,
    words: &ReplayWords,
    pair: &PairRead,
    s: Schedule,
) -> Result<Schedule, Stop<'a>>
    ensures small { IfOk result (λ t. is_too_large (word_in words.now.waves) pair.now.original.design.net (length t.rows) ≡ false) }
    ensures same { IfOk result (λ t. t ≡ s) }
    ensures large { IfErr result (IsTooLargeStop words.now.schedule.now
        (is_too_large (word_in words.now.waves) pair.now.original.design.net (length s.rows))) }
{
    if is_too_large(words.waves, pair.original.net().output_count(), s.cycles()) {
        return Err(refuse(alloc, words.schedule, b"wave too large"));
    }
    Ok(s)
}

/// The schedule for a pair that the bytes of its file write.
fn schedule_for<'a>(
    alloc: Global,
    words: &ReplayWords,
    pair: &PairRead,
    bytes: &[u8],
) -> Result<Schedule, Stop<'a>>
    requires short { length bytes.now ≤ 16777216 }
    requires fit { IsFit pair.now }
    ensures gives { Gives (IsBeforeSchedule (replaying_in words.now) pair.now bytes.now)
        (λ s held. ReadsSchedule held (schedule_file words.now.schedule.now) (pair_of pair.now) s)
        (λ line held. IsReplayRefused (replaying_in words.now) held line) result }
    ensures replayable { IfOk result (IsReplayable (word_in words.now.waves) pair.now) }
{
    match read_upsets(
        alloc,
        bytes,
        &pair.original,
        &pair.hardened,
        &pair.certificate,
    ) {
        Ok(s) => keep_small(alloc, words, pair, s),
        Err(fault) => Err(refuse_for(alloc, words.schedule, schedule_reason(alloc, fault))),
    }
}

/// Loads the four files of a replay.
fn load_replay<'a, F: Files>(
    alloc: Global,
    words: &ReplayWords<'a>,
    files: &mut F,
) -> Result<ReplayFiles, Stop<'a>>
    ensures opens { Opens (replay_files (replaying_in words.now)) (AreReplayFiles (replaying_in words.now)) Never
        (F.seen files.old) (F.seen files.new) (F.steady files.old) (F.steady files.new) result }
    ensures fit { IfOk result (λ loaded. IfOk loaded.pair IsFit) }
    ensures schedule_short { IfOk result (λ loaded. length loaded.schedule.items ≤ 16777216) }
{
    match load_pair(alloc, &words.pair, files) {
        Ok(pair) => match load_bytes(alloc, words.schedule, SCHEDULE_LIMIT, files) {
            Ok(schedule) => Ok(ReplayFiles { pair, schedule }),
            Err(stop) => Err(stop),
        },
        Err(stop) => Err(stop),
    }
}

/// A pair that was read, and then a schedule for it.
fn read_replay<'a>(
    alloc: Global,
    words: &ReplayWords,
    loaded: ReplayFiles,
) -> Result<ReplayRead, Stop<'a>>
    requires fit { IfOk loaded.pair IsFit }
    requires schedule_short { length loaded.schedule.items ≤ 16777216 }
    ensures gives { Gives (AreReplayFiles (replaying_in words.now) loaded) (IsReplayRead (replaying_in words.now))
        (λ line held. IsReplayRefused (replaying_in words.now) held line) result }
    ensures fit { IfOk result (λ read. IsFit read.pair) }
    ensures replayable { IfOk result (λ read. IsReplayable (word_in words.now.waves) read.pair read.schedule) }
{
    let ReplayFiles { pair, schedule } = loaded;
    match pair {
        Ok(pair) => match schedule_for(alloc, words, &pair, &schedule) {
            Ok(schedule) => Ok(ReplayRead { pair, schedule }),
            Err(stop) => Err(stop),
        },
        Err(line) => Err(Stop::Refused(line)),
    }
}

/// Loads and reads the four files of a replay.
fn open_replay<'a, F: Files>(
    alloc: Global,
    words: &ReplayWords<'a>,
    files: &mut F,
) -> Result<ReplayRead, Stop<'a>>
    ensures opens { Opens (replay_files (replaying_in words.now)) (IsReplayRead (replaying_in words.now))
        (λ line held. IsReplayRefused (replaying_in words.now) held line)
        (F.seen files.old) (F.seen files.new) (F.steady files.old) (F.steady files.new) result }
    ensures fit { IfOk result (λ read. IsFit read.pair) }
    ensures replayable { IfOk result (λ read. IsReplayable (word_in words.now.waves) read.pair read.schedule) }
{
    match load_replay(alloc, words, files) {
        Ok(loaded) => read_replay(alloc, words, loaded),
        Err(stop) => Err(stop),
    }
}

/// What the schedule does is told, and its waves are a text to be saved where there is a name for it.
#[tactic(auto, using(crate::proofs::ReplayLaws::done))]
fn replay_accepted<'a>(
    alloc: Global,
    waves: Option<&'a str>,
    n: &FreeNet,
    h: &FreeNet,
    c: &Certificate,
    s: &Schedule,
) -> Result<Work<'a, 'a>, OutOfMemory>
    requires fits { Fits n.now.design.net h.now.design.net c.now }
    requires accepted { FreeCorresponds n.now.design.net n.now.free h.now.design.net h.now.free c.now }
    requires rows { s.now.inputs ≡ length n.now.design.net.inputs }
    requires nodes { c.now.version ≡ 1 → All (λ u. IsNodeOf h.now.design.net u.net.0) s.now.upsets }
    requires nets { All (λ u. u.net.0 < net_count h.now.design.net) s.now.upsets }
    requires masks { Masks n.now.design.net h.now.design.net c.now }
    requires free_masks { FreeMasks n.now.design.net n.now.free h.now.design.net h.now.free c.now }
    requires small { 4 * net_count n.now.design.net ≤ widest_nets }
    requires room { is_too_large (word_in waves) n.now.design.net (length s.now.rows) ≡ false }
    ensures { IfOk result (IsToldWork (word_in waves.entry) (record {
      original = n.now.design.net;
      free = n.now.free;
      hardened = h.now.design.net;
      hardened_free = h.now.free;
      certificate = c.now;
    }) s.now) }
{
    let outcome = replay_of(alloc, n, h, c, s)?;
    let saves = save_waves(alloc, waves, n, h, c, s)?;
    let text = replay_lines(alloc, n.net(), s, &outcome)?;
    Ok(Work {
        verdict: Verdict::Done,
        saves,
        text,
    })
}

/// What is told of a replay, where the pair is accepted.
fn tell<'a>(
    alloc: Global,
    words: &ReplayWords<'a>,
    read: &ReplayRead,
) -> Result<Work<'a, 'a>, OutOfMemory>
    requires fit { IsFit read.now.pair }
    requires replayable { IsReplayable (word_in words.now.waves) read.now.pair read.now.schedule }
    ensures { IfOk result (IsWorkOver (Replay (replaying_in words.now))
        (IsReplayRead (replaying_in words.now) read.now)) }
{
    let pair = &read.pair;
    match check_pair(pair) {
        Ok(()) => replay_accepted(
            alloc,
            words.waves,
            &pair.original,
            &pair.hardened,
            &pair.certificate,
            &read.schedule,
        ),
        Err(refusal) => deny(alloc, pair, refusal),
    }
}

/// The room of `replay` and of `wave`.
pub fn perform<F: Files>(
    alloc: Global,
    words: &ReplayWords,
    files: &mut F,
) -> Result<Decision, OutOfMemory>
    ensures { Performed (Replay (replaying_in words.now)) (F.seen files.old) (F.seen files.new)
        (F.steady files.old) (F.steady files.new) result }
{
    match open_replay(alloc, words, files) {
        Ok(read) => conclude(alloc, tell(alloc, words, &read), files),
        Err(stop) => stopped(alloc, stop),
    }
}
