//! `explain ORIG HARD CERT`: every place at which a rule fails, and why; or the line of a file for which that file is refused. It saves nothing.
ghost use Rattle.std.specs.Prelude.{IfOk};
ghost use Rattle.tmr_words.specs.Line.{Explain};
ghost use Rattle.tmr_words.specs.FileWords.{pair_in};
ghost use Rattle.tmr_top.specs.Pairs.{HoldsPair};
ghost use Rattle.tmr_top.specs.Private.PairFiles.{pair_of, IsFit};
ghost use Rattle.tmr_top.specs.Private.Rooms.{Performed};
ghost use Rattle.tmr_top.specs.Private.Works.{IsWorkOver};

use crate::conclusion::conclude;
use crate::decision::{Decision, Work, denying, telling};
use crate::loads::stopped;
use crate::pair_files::PairRead;
use crate::pairs::{accepted_text, check_pair};
use crate::shown_pairs::open_shown_pair;
use explaining::explain;
use std::alloc::Global;
use tmr_base::OutOfMemory;
use tmr_outside::Files;
use tmr_words::PairWords;

/// What is told of a pair: that it is accepted, or every place at which a rule fails.
fn tell<'a>(
    alloc: Global,
    words: &PairWords<'a>,
    pair: &PairRead,
) -> Result<Work<'a, 'a>, OutOfMemory>
    requires { IsFit pair.now }
    ensures { IfOk result (IsWorkOver (Explain (pair_in words.now))
        (λ held. HoldsPair held (pair_in words.now) (pair_of pair.now))) }
{
    match check_pair(pair) {
        Ok(()) => {
            let text = accepted_text(alloc, pair)?;
            Ok(telling(alloc, text))
        }
        Err(_) => {
            let text = explain(alloc, &pair.original, &pair.hardened, &pair.certificate)?;
            Ok(denying(alloc, text))
        }
    }
}

/// The room of `explain`.
pub fn perform<F: Files>(
    alloc: Global,
    words: &PairWords,
    files: &mut F,
) -> Result<Decision, OutOfMemory>
    ensures { Performed (Explain (pair_in words.now)) (F.seen files.old) (F.seen files.new)
        (F.steady files.old) (F.steady files.new) result }
{
    match open_shown_pair(alloc, words, files) {
        Ok(pair) => conclude(alloc, tell(alloc, words, &pair), files),
        Err(stop) => stopped(alloc, stop),
    }
}
