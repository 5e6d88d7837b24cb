//! `picture ORIG HARD CERT DOT`: the partitions of a pair that is accepted are saved as a graph for `dot`.
ghost use Rattle.std.specs.Prelude.{IfOk};
ghost use Rattle.tmr_words.specs.Line.{Picture};
ghost use Rattle.tmr_words.specs.FileWords.{pair_in, picturing_in};
ghost use Rattle.tmr_top.specs.Pairs.{HoldsPair};
ghost use Rattle.tmr_top.specs.Private.PairFiles.{pair_of, IsFit};
ghost use Rattle.tmr_top.specs.Private.Rooms.{Performed};
ghost use Rattle.tmr_top.specs.Private.Works.{IsWorkOver};

use crate::conclusion::conclude;
use crate::decision::{Decision, Work, saving};
use crate::loads::stopped;
use crate::pair_files::PairRead;
use crate::pairs::{accepted_text, check_pair, deny, open_pair};
use partition_graph::picture;
use std::alloc::Global;
use tmr_base::OutOfMemory;
use tmr_outside::Files;
use tmr_words::PictureWords;

/// The picture of a pair, where it is accepted.
fn tell<'a>(
    alloc: Global,
    words: &PictureWords<'a>,
    pair: &PairRead,
) -> Result<Work<'a, 'a>, OutOfMemory>
    requires { IsFit pair.now }
    ensures { IfOk result (IsWorkOver (Picture (picturing_in words.now))
        (λ held. HoldsPair held (pair_in words.now.pair) (pair_of pair.now))) }
{
    match check_pair(pair) {
        Ok(()) => {
            let drawn = picture(
                alloc,
                pair.original.net(),
                pair.hardened.net(),
                &pair.certificate,
            )?;
            let text = accepted_text(alloc, pair)?;
            saving(alloc, words.picture, drawn, text)
        }
        Err(refusal) => deny(alloc, pair, refusal),
    }
}

/// The room of `picture`.
pub fn perform<F: Files>(
    alloc: Global,
    words: &PictureWords,
    files: &mut F,
) -> Result<Decision, OutOfMemory>
    ensures { Performed (Picture (picturing_in words.now)) (F.seen files.old) (F.seen files.new)
        (F.steady files.old) (F.steady files.new) result }
{
    match open_pair(alloc, &words.pair, files) {
        Ok(pair) => conclude(alloc, tell(alloc, words, &pair), files),
        Err(stop) => stopped(alloc, stop),
    }
}
