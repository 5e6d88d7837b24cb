//! `to-aag ORIG AAG`: the AIGER file of a design is saved.
ghost use Rattle.std.specs.Prelude.{IfOk};
ghost use Rattle.limits.specs.Most.{most_original};
ghost use Rattle.tmr_words.specs.Line.{WriteGraph};
ghost use Rattle.tmr_words.specs.FileWords.{graphing_in};
ghost use Rattle.tmr_top.specs.Loads.{original_file};
ghost use Rattle.tmr_top.specs.Designs.{HoldsDesign};
ghost use Rattle.tmr_top.specs.Private.Refused.{IsWithin};
ghost use Rattle.tmr_top.specs.Private.Rooms.{Performed};
ghost use Rattle.tmr_top.specs.Private.Works.{IsWorkOver};

use crate::conclusion::conclude;
use crate::decision::{Decision, Work, saving};
use crate::designs::open_original;
use crate::loads::stopped;
use aag_text::write_counted;
use flat_net::FreeNet;
use std::alloc::Global;
use tmr_base::OutOfMemory;
use tmr_outside::Files;
use tmr_texts::graph_made;
use tmr_words::GraphWords;

/// The file of a design, and what is told of it.
#[tactic(auto, using(crate::proofs::LimitLaws::few))]
fn tell<'a>(
    alloc: Global,
    words: &GraphWords<'a>,
    design: &FreeNet,
) -> Result<Work<'a, 'a>, OutOfMemory>
    requires { IsWithin (most_original words.now.limits) design.now }
    ensures { IfOk result (IsWorkOver (WriteGraph (graphing_in words.now))
        (λ held. HoldsDesign held (original_file words.now.limits words.now.original.now) design.now.design.net design.now.free)) }
{
    let file = write_counted(alloc, design)?;
    let text = graph_made(alloc, design.net(), file.gates, design.free_count())?;
    saving(alloc, words.graph, file.bytes, text)
}

/// The room of `to-aag`.
pub fn perform<F: Files>(
    alloc: Global,
    words: &GraphWords,
    files: &mut F,
) -> Result<Decision, OutOfMemory>
    ensures { Performed (WriteGraph (graphing_in words.now)) (F.seen files.old) (F.seen files.new)
        (F.steady files.old) (F.steady files.new) result }
{
    match open_original(alloc, words.original, words.limits, files) {
        Ok(design) => conclude(alloc, tell(alloc, words, &design), files),
        Err(stop) => stopped(alloc, stop),
    }
}
