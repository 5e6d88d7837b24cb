//! `wave ORIG HARD CERT SCHED VCD`: the waves of a replay, as a text that is saved. The room is that of `replay`.
ghost use Rattle.std.specs.Prelude.{◌≡◌, ◌≤◌, ◌<◌, ◌*◌, ◌++◌, ◌∷◌, [], codes, true, false, All, length, IfOk, OnOk};
ghost use Rattle.flat_net.specs.Net.{net_count};
ghost use Rattle.certificate.specs.Cert.{Fits};
ghost use Rattle.schedule_replay.specs.Waves.{AreFreeWaves};
ghost use Rattle.limits.specs.Most.{widest_nets};
ghost use Rattle.tmr_base.specs.Names.{is_name};
ghost use Rattle.tmr_words.specs.FileWords.{word_in};
ghost use Rattle.tmr_texts.specs.ReplayText.{waves_of, output_waves};
ghost use Rattle.tmr_top.specs.Loads.{wave_names};
ghost use Rattle.tmr_top.specs.Replayed.{AreSaved, SavesWaves, is_too_large};
ghost use Rattle.tmr_top.specs.Private.Works.{save_names, save_texts};

use crate::decision::{Save, SavedText};
use crate::designs::checked_nodes;
use certificate::Certificate;
use flat_net::{FlatNet, FreeNet};
use schedule_replay::wave_values;
use schedules::Schedule;
use std::alloc::Global;
use tmr_base::{Name, NameFault, OutOfMemory};
use tmr_texts::output_name;
use vcd_text::write_vcd;

/// The name, and then these bytes.
#[tactic(auto, using(crate::proofs::WaveLaws::suffixes))]
fn suffixed(alloc: Global, x: &Name, suffix: &[u8]) -> Result<Name, OutOfMemory>
    requires { is_name suffix.now ≡ true }
    ensures { IfOk result (λ name. name ≡ x.now ++ suffix.now) }
{
    let mut bytes = x.bytes().to_vec(alloc)?;
    bytes.extend_from_slice(suffix)?;
    match Name::read(alloc, &bytes) {
        Ok(name) => Ok(name),
        Err(NameFault::Memory) => Err(OutOfMemory),
        Err(NameFault::Bad) => unreachable!(),
    }
}

/// Adds the names of an output's waves.
fn push_waves(alloc: Global, names: &mut Vec<Name>, x: &Name) -> Result<(), OutOfMemory>
    ensures { OnOk result (names.new.items ≡ names.old.items ++ waves_of x.now) }
{
    names.push(suffixed(alloc, x, b"~o")?)?;
    names.push(suffixed(alloc, x, b"~0")?)?;
    names.push(suffixed(alloc, x, b"~1")?)?;
    names.push(suffixed(alloc, x, b"~2")?)?;
    Ok(())
}

/// The names of the waves of all outputs.
#[tactic(auto, using(crate::proofs::WaveLaws::listing))]
fn output_waves(alloc: Global, n: &FlatNet) -> Result<Vec<Name>, OutOfMemory>
    ensures { IfOk result (λ names. names.items ≡ output_waves n.now.net) }
{
    let mut names = Vec::new(alloc);
    for k in 0..n.output_count() {
        push_waves(alloc, &mut names, output_name(n, k))?;
    }
    Ok(names)
}

/// The text of the waves.
#[tactic(auto, using(crate::proofs::WaveLaws::texts))]
fn wave_text(
    alloc: Global,
    n: &FreeNet,
    h: &FreeNet,
    c: &Certificate,
    s: &Schedule,
) -> Result<Vec<u8>, OutOfMemory>
    requires fits { Fits n.now.design.net h.now.design.net c.now }
    requires inputs { length h.now.design.net.inputs ≡ 3 * length n.now.design.net.inputs }
    requires outputs { length h.now.design.net.outputs ≡ 3 * length n.now.design.net.outputs }
    requires rows { s.now.inputs ≡ length n.now.design.net.inputs }
    requires nets { All (λ u. u.net.0 < net_count h.now.design.net) s.now.upsets }
    requires small { 4 * net_count n.now.design.net ≤ widest_nets }
    requires few { length n.now.design.net.outputs * length s.now.rows ≤ 4194304 }
    ensures { IfOk result (λ text. AreSaved (record {
      original = n.now.design.net;
      free = n.now.free;
      hardened = h.now.design.net;
      hardened_free = h.now.free;
      certificate = c.now;
    }) s.now (text.items ∷ [])) }
{
    // What each design keeps.
    let _nodes = checked_nodes(n);
    let values = wave_values(alloc, n, h, c, s)?;
    let names = output_waves(alloc, n.net())?;
    write_vcd(alloc, &names, s.cycles(), &values)
}

/// What is saved of the waves: their text, where there is a name for it.
#[tactic(auto, using(crate::proofs::WaveLaws::saving))]
pub fn save_waves<'a>(
    alloc: Global,
    waves: Option<&'a str>,
    n: &FreeNet,
    h: &FreeNet,
    c: &Certificate,
    s: &Schedule,
) -> Result<Vec<Save<'a, 'a>>, OutOfMemory>
    requires fits { Fits n.now.design.net h.now.design.net c.now }
    requires inputs { length h.now.design.net.inputs ≡ 3 * length n.now.design.net.inputs }
    requires outputs { length h.now.design.net.outputs ≡ 3 * length n.now.design.net.outputs }
    requires rows { s.now.inputs ≡ length n.now.design.net.inputs }
    requires nets { All (λ u. u.net.0 < net_count h.now.design.net) s.now.upsets }
    requires small { 4 * net_count n.now.design.net ≤ widest_nets }
    requires few { is_too_large (word_in waves) n.now.design.net (length s.now.rows) ≡ false }
    ensures names { IfOk result (λ saves. save_names saves.items ≡ wave_names (word_in waves.entry)) }
    ensures saves { IfOk result (λ saves. SavesWaves (word_in waves.entry) (record {
      original = n.now.design.net;
      free = n.now.free;
      hardened = h.now.design.net;
      hardened_free = h.now.free;
      certificate = c.now;
    }) s.now (save_texts saves.items)) }
{
    let mut saves = Vec::new(alloc);
    match waves {
        None => Ok(saves),
        Some(name) => {
            let text = wave_text(alloc, n, h, c, s)?;
            saves.push(Save {
                name,
                text: SavedText::Whole(text),
            })?;
            Ok(saves)
        }
    }
}
