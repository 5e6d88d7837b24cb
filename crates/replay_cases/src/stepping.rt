//! Steps of 64 runs of one design at once.
ghost use Rattle.std.specs.Prelude.{◌≡◌, ◌<◌, All, IfOk, IfSome, IsSome, OnOk};
ghost use Rattle.flat_net.specs.Net.{net_count};

use crate::designs::design_of;
use flat_net::FlatNet;
use net_simulator::WideSim;
use std::alloc::Global;
use tmr_base::{Name, NetId, OutOfMemory};

/// The net, the runs and the values of `NAME=RUNS:VALUES`.
fn triple_of(alloc: Global, net: &FlatNet, name: &str, words: &str) -> Option<(NetId, u64, u64)>
    ensures { IfSome result (λ f. f.0.0 < net_count net.now.net) }
{
    let name = Name::read(alloc, name.as_bytes()).ok()?;
    let (mask, value) = words.split_once(':')?;
    let mask = mask.parse::<u64>().ok()?;
    let value = value.parse::<u64>().ok()?;
    match net.find(&name) {
        Some(x) => Some((x, mask, value)),
        None => None,
    }
}

/// Adds a triple.
fn push_triple(
    net: &FlatNet,
    forced: &mut Vec<(NetId, u64, u64)>,
    triple: (NetId, u64, u64),
) -> Result<(), OutOfMemory>
    requires triple { triple.0.0 < net_count net.now.net }
    requires all { All (λ f. f.0.0 < net_count net.now.net) forced.old.items }
    ensures { OnOk result (All (λ f. f.0.0 < net_count net.now.net) forced.new.items) }
{
    forced.push(triple)?;
    Ok(())
}

/// Adds what a word forces, if it forces a net.
fn push_forced(
    alloc: Global,
    net: &FlatNet,
    forced: &mut Vec<(NetId, u64, u64)>,
    word: &str,
) -> Result<(), OutOfMemory>
    requires { All (λ f. f.0.0 < net_count net.now.net) forced.old.items }
    ensures { OnOk result (All (λ f. f.0.0 < net_count net.now.net) forced.new.items) }
{
    let (name, words) = word.split_once('=').unwrap_or((word, ""));
    match triple_of(alloc, net, name, words) {
        Some(triple) => push_triple(net, forced, triple),
        None => Ok(()),
    }
}

/// What a step forces.
fn forced_of(
    alloc: Global,
    net: &FlatNet,
    step: &str,
) -> Result<Vec<(NetId, u64, u64)>, OutOfMemory>
    ensures { IfOk result (λ v. All (λ f. f.0.0 < net_count net.now.net) v.items) }
{
    let mut forced = Vec::new(alloc);
    for word in step.split(' ') {
        push_forced(alloc, net, &mut forced, word)?;
    }
    Ok(forced)
}

/// The words of a step's inputs.
fn inputs_of(alloc: Global, step: &str) -> Result<Vec<u64>, OutOfMemory> {
    let mut ins = Vec::new(alloc);
    for word in step.split(' ') {
        if let Ok(value) = word.parse::<u64>() {
            ins.push(value)?;
        }
    }
    Ok(ins)
}

/// Adds the words of the outputs.
fn put_outputs(text: &mut String, net: &FlatNet, sim: &WideSim) -> Result<(), OutOfMemory>
    requires net { sim.now.net ≡ net.now.net }
    requires started { IsSome sim.now.last }
{
    for k in 0..net.output_count() {
        write!(text, "{} ", sim.value(net.output(k)))?;
    }
    text.push_str("/ ")?;
    Ok(())
}

/// Runs a step, and adds what it gives.
fn put_step(
    alloc: Global,
    text: &mut String,
    net: &FlatNet,
    sim: &mut WideSim,
    step: &str,
) -> Result<(), OutOfMemory>
    requires { sim.old.net ≡ net.now.net }
    ensures { OnOk result (sim.new.net ≡ net.now.net) }
{
    let ins = inputs_of(alloc, step)?;
    let forced = forced_of(alloc, net, step)?;
    if ins.len() != net.input_count() as usize {
        text.push_str("other inputs")?;
        return Ok(());
    }
    sim.step(&ins, &forced);
    put_outputs(text, net, sim)
}

/// The words of the outputs after each step.
fn words_text(alloc: Global, net: &FlatNet, steps: &str) -> Result<String, OutOfMemory> {
    let mut sim = WideSim::new(alloc, net)?;
    let mut text = String::new(alloc);
    for step in steps.split('/') {
        put_step(alloc, &mut text, net, &mut sim, step)?;
    }
    Ok(text)
}

/// A chain of so many inverters behind one input.
fn chain_of(alloc: Global, count: u32) -> Result<String, OutOfMemory> {
    let mut text = String::from_str(alloc, ".model m\n.inputs a\n.outputs")?;
    if count > 1 {
        write!(text, " n{} n{}", count - 2, count - 1)?;
    }
    text.push_str("\n")?;
    for i in 0..count {
        if i == 0 {
            text.push_str(".names a n0\n0 1\n")?;
        } else {
            write!(text, ".names n{} n{i}\n0 1\n", i - 1)?;
        }
    }
    text.push_str(".end\n")?;
    Ok(text)
}

/// The last net but one has the complement of the word, and the last one the word.
fn is_right(net: &FlatNet, sim: &WideSim, word: u64) -> bool
    requires net { sim.now.net ≡ net.now.net }
    requires started { IsSome sim.now.last }
{
    net.output_count() == 2 && sim.value(net.output(0)) == !word && sim.value(net.output(1)) == word
}

/// How many of so many steps give the last two nets what a chain gives them, up to the first that does not. The word of step t is t times a large odd
/// number.
fn right_steps(alloc: Global, net: &FlatNet, steps: u32) -> Result<u32, OutOfMemory> {
    let mut sim = WideSim::new(alloc, net)?;
    if net.input_count() != 1 {
        return Ok(0);
    }
    for t in 0..steps {
        let word = u64::from(t).wrapping_mul(6_364_136_223_846_793_005);
        sim.step(&[word], &[]);
        if !is_right(net, &sim, word) {
            return Ok(t);
        }
    }
    Ok(steps)
}

/// What so many inverters do in so many steps.
fn chain_text(alloc: Global, count: u32, steps: u32) -> Result<String, OutOfMemory> {
    let netlist = chain_of(alloc, count)?;
    let mut text = String::new(alloc);
    match design_of(alloc, netlist.as_str()) {
        Some(design) => write!(text, "right {}", right_steps(alloc, design.net(), steps)?)?,
        None => text.push_str("no design")?,
    }
    Ok(text)
}

/// What a verb answers: `chain COUNT STEPS`, or the steps of a design.
pub fn stepping_text(
    alloc: Global,
    netlist: &str,
    verb: &str,
    text: &str,
) -> Result<String, OutOfMemory> {
    if verb == "chain" {
        let (count, steps) = text.split_once(' ').unwrap_or((text, ""));
        return chain_text(
            alloc,
            count.parse::<u32>().unwrap_or(0),
            steps.parse::<u32>().unwrap_or(0),
        );
    }
    match design_of(alloc, netlist) {
        Some(design) => words_text(alloc, design.net(), text),
        None => Ok(String::from_str(alloc, "no design")?),
    }
}
