//! `sweep ORIG`: what hardening costs with partitions of each size. It saves nothing.
ghost use Rattle.std.specs.Prelude.{IfOk};
ghost use Rattle.limits.specs.Most.{most_original};
ghost use Rattle.tmr_words.specs.Line.{Sweep};
ghost use Rattle.tmr_words.specs.FileWords.{sweeping_in};
ghost use Rattle.tmr_top.specs.Loads.{original_file};
ghost use Rattle.tmr_top.specs.Designs.{HoldsDesign};
ghost use Rattle.tmr_top.specs.Private.Refused.{IsWithin};
ghost use Rattle.tmr_top.specs.Private.Rooms.{Performed};
ghost use Rattle.tmr_top.specs.Private.Works.{IsWorkOver};

use crate::conclusion::conclude;
use crate::decision::{Decision, Work, telling};
use crate::designs::{checked_nodes, open_original};
use crate::loads::stopped;
use flat_net::FreeNet;
use std::alloc::Global;
use sweep::sweep;
use tmr_base::OutOfMemory;
use tmr_outside::Files;
use tmr_words::SweepWords;

/// What hardening a design costs with partitions of each size.
#[tactic(auto, using(crate::proofs::LimitLaws::few))]
fn tell<'a>(
    alloc: Global,
    words: &SweepWords<'a>,
    design: &FreeNet,
) -> Result<Work<'a, 'a>, OutOfMemory>
    requires { IsWithin (most_original words.now.limits) design.now }
    ensures { IfOk result (IsWorkOver (Sweep (sweeping_in words.now))
        (λ held. HoldsDesign held (original_file words.now.limits words.now.original.now) design.now.design.net design.now.free)) }
{
    let text = sweep(alloc, design, words.form, words.version, words.most)?;
    Ok(telling(alloc, text))
}

/// The room of `sweep`.
pub fn perform<F: Files>(
    alloc: Global,
    words: &SweepWords,
    files: &mut F,
) -> Result<Decision, OutOfMemory>
    ensures { Performed (Sweep (sweeping_in words.now)) (F.seen files.old) (F.seen files.new)
        (F.steady files.old) (F.steady files.new) result }
{
    match open_original(alloc, words.original, words.limits, files) {
        Ok(design) => conclude(alloc, tell(alloc, words, &design), files),
        Err(stop) => stopped(alloc, stop),
    }
}
