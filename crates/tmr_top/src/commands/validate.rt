//! `validate ORIG HARD CERT`: whether the eight rules hold of a pair. It saves nothing.
ghost use Rattle.std.specs.Prelude.{IfOk};
ghost use Rattle.tmr_words.specs.Line.{Validate};
ghost use Rattle.tmr_words.specs.FileWords.{pair_in};
ghost use Rattle.tmr_top.specs.Pairs.{HoldsPair};
ghost use Rattle.tmr_top.specs.Private.PairFiles.{pair_of, IsFit};
ghost use Rattle.tmr_top.specs.Private.Rooms.{Performed};
ghost use Rattle.tmr_top.specs.Private.Works.{IsWorkOver};

use crate::conclusion::conclude;
use crate::decision::{Decision, Work, telling};
use crate::loads::stopped;
use crate::pair_files::PairRead;
use crate::pairs::{check_pair, deny, open_pair};
use std::alloc::Global;
use tmr_base::OutOfMemory;
use tmr_outside::Files;
use tmr_texts::accepted;
use tmr_words::PairWords;

/// What is told of a pair: that it is accepted, or the first rule that fails.
fn tell<'a>(
    alloc: Global,
    words: &PairWords<'a>,
    pair: &PairRead,
) -> Result<Work<'a, 'a>, OutOfMemory>
    requires { IsFit pair.now }
    ensures { IfOk result (IsWorkOver (Validate (pair_in words.now))
        (λ held. HoldsPair held (pair_in words.now) (pair_of pair.now))) }
{
    match check_pair(pair) {
        Ok(()) => {
            let text = accepted(
                alloc,
                &pair.certificate,
                pair.original.free_count(),
                pair.hardened.free_count(),
            )?;
            Ok(telling(alloc, text))
        }
        Err(refusal) => deny(alloc, pair, refusal),
    }
}

/// The room of `validate`.
pub fn perform<F: Files>(
    alloc: Global,
    words: &PairWords,
    files: &mut F,
) -> Result<Decision, OutOfMemory>
    ensures { Performed (Validate (pair_in words.now)) (F.seen files.old) (F.seen files.new)
        (F.steady files.old) (F.steady files.new) result }
{
    match open_pair(alloc, words, files) {
        Ok(pair) => conclude(alloc, tell(alloc, words, &pair), files),
        Err(stop) => stopped(alloc, stop),
    }
}
