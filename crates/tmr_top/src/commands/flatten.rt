//! `flatten ORIG FLAT`: the flat text of a design is saved.
ghost use Rattle.std.specs.Prelude.{IfOk};
ghost use Rattle.tmr_words.specs.Line.{Flatten};
ghost use Rattle.tmr_words.specs.FileWords.{flattening_in};
ghost use Rattle.tmr_top.specs.Loads.{original_file};
ghost use Rattle.tmr_top.specs.Designs.{HoldsDesign};
ghost use Rattle.tmr_top.specs.Private.Rooms.{Performed};
ghost use Rattle.tmr_top.specs.Private.Works.{IsWorkOver};

use crate::conclusion::conclude;
use crate::decision::{Decision, Work, saving};
use crate::designs::open_original;
use crate::loads::stopped;
use blif_writer::write_flat;
use flat_net::FreeNet;
use std::alloc::Global;
use tmr_base::OutOfMemory;
use tmr_outside::Files;
use tmr_texts::flattened;
use tmr_words::FlatWords;

/// The flat text of a design, and what is told of it.
fn tell<'a>(
    alloc: Global,
    words: &FlatWords<'a>,
    design: &FreeNet,
) -> Result<Work<'a, 'a>, OutOfMemory>
    ensures { IfOk result (IsWorkOver (Flatten (flattening_in words.now))
        (λ held. HoldsDesign held (original_file words.now.limits words.now.original.now) design.now.design.net design.now.free)) }
{
    let bytes = write_flat(alloc, design.net())?;
    let text = flattened(alloc, design.net(), design.free_count())?;
    saving(alloc, words.flat, bytes, text)
}

/// The room of `flatten`.
pub fn perform<F: Files>(
    alloc: Global,
    words: &FlatWords,
    files: &mut F,
) -> Result<Decision, OutOfMemory>
    ensures { Performed (Flatten (flattening_in words.now)) (F.seen files.old) (F.seen files.new)
        (F.steady files.old) (F.steady files.new) result }
{
    match open_original(alloc, words.original, words.limits, files) {
        Ok(design) => conclude(alloc, tell(alloc, words, &design), files),
        Err(stop) => stopped(alloc, stop),
    }
}
