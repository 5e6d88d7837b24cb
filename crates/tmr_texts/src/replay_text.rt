//! What is told of a replay.
ghost use Rattle.std.specs.Prelude.{◌≡◌, ◌<◌, ◌++◌, All, length, IfOk, OnOk};
ghost use Rattle.schedule_replay.specs.OutcomeView.{plain_outcome};
ghost use Rattle.tmr_texts.specs.ReplayText.{bit_text, output_name, difference_line, difference_lines, outcome_lines, replay_lines};

use crate::form_text::yes_or_no;
use crate::texts::{counted, join};
use flat_net::FlatNet;
use schedule_replay::{Difference, Outcome};
use schedules::Schedule;
use std::alloc::Global;
use tmr_base::{Name, OutOfMemory};

/// A value with a blank before it.
fn bit(value: bool) -> &'static [u8]
    ensures { result.now ≡ bit_text value }
{
    if value {
        b" 1".as_slice()
    } else {
        b" 0".as_slice()
    }
}

/// The name of output k.
#[tactic(auto, using(crate::proofs::ReplayTextLaws::names))]
pub fn output_name(n: &FlatNet, k: u32) -> &Name
    requires { k < length n.now.net.outputs }
    ensures { result.now ≡ output_name n.now.net k }
{
    n.name(n.output(k))
}

/// The line of a difference.
#[tactic(auto, unfolding(crate::specs::ReplayText::difference_line))]
fn difference_line(alloc: Global, n: &FlatNet, d: &Difference) -> Result<Vec<u8>, OutOfMemory>
    requires { d.now.output < length n.now.net.outputs }
    ensures { IfOk result (λ text. text.items ≡ difference_line n.now.net d.now) }
{
    let cycle = counted(alloc, b"differ ", d.cycle as u64)?;
    let name = output_name(n, d.output).bytes().to_vec(alloc)?;
    let [first, second, third] = d.copies;
    join(
        alloc,
        &[
            cycle.as_slice(),
            b" ".as_slice(),
            name.as_slice(),
            bit(d.original),
            bit(first),
            bit(second),
            bit(third),
            b"\n".as_slice(),
        ],
    )
}

/// Puts the lines of differences.
#[tactic(auto, using(crate::proofs::ReplayTextLaws::differences))]
fn put_differences(
    alloc: Global,
    text: &mut Vec<u8>,
    n: &FlatNet,
    first: &[Difference],
) -> Result<(), OutOfMemory>
    requires { All (λ d. d.output < length n.now.net.outputs) first.now }
    ensures { OnOk result (text.new.items ≡ text.old.items ++ difference_lines n.now.net first.now) }
{
    for difference in first {
        let line = difference_line(alloc, n, difference)?;
        text.extend_from_slice(&line)?;
    }
    Ok(())
}

/// The lines on the numbers of a replay.
#[tactic(auto, unfolding(crate::specs::ReplayText::outcome_lines))]
fn outcome_lines(
    alloc: Global,
    cycles: u32,
    upsets: u32,
    o: &Outcome,
) -> Result<Vec<u8>, OutOfMemory>
    ensures { IfOk result (λ text. text.items ≡ outcome_lines cycles upsets (plain_outcome o.now)) }
{
    let cycles = counted(alloc, b"cycles ", cycles as u64)?;
    let upsets = counted(alloc, b"\nupsets ", upsets as u64)?;
    let differences = counted(alloc, b"\ndifferences ", o.differences)?;
    let wrong = counted(alloc, b"\nwrong ", o.wrong)?;
    let late = counted(alloc, b"\nlate ", o.late)?;
    join(
        alloc,
        &[
            cycles.as_slice(),
            upsets.as_slice(),
            b"\nallowed ".as_slice(),
            yes_or_no(o.allowed),
            differences.as_slice(),
            wrong.as_slice(),
            late.as_slice(),
            b"\n".as_slice(),
        ],
    )
}

/// What is told of a replay of this schedule.
pub fn replay_lines(
    alloc: Global,
    n: &FlatNet,
    s: &Schedule,
    o: &Outcome,
) -> Result<Vec<u8>, OutOfMemory>
    requires { All (λ d. d.output < length n.now.net.outputs) o.now.first.items }
    ensures { IfOk result (λ text. text.items ≡ replay_lines n.now.net s.now (plain_outcome o.now)) }
{
    let mut text = Vec::new(alloc);
    put_differences(alloc, &mut text, n, &o.first)?;
    let lines = outcome_lines(alloc, s.cycles(), s.upset_count(), o)?;
    text.extend_from_slice(&lines)?;
    Ok(text)
}
