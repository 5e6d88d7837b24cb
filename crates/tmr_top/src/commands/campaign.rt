//! `campaign ORIG HARD CERT NUMBER CYCLES [near]`: 64 drawn schedules of upsets, run on a pair that is accepted. It saves nothing.
ghost use Rattle.std.specs.Prelude.{IfOk};
ghost use Rattle.tmr_words.specs.Line.{Campaign};
ghost use Rattle.tmr_words.specs.FileWords.{pair_in, campaigning_in};
ghost use Rattle.tmr_top.specs.Campaigned.{Says};
ghost use Rattle.tmr_top.specs.Pairs.{HoldsPair, Accepts};
ghost use Rattle.tmr_top.specs.Private.PairFiles.{pair_of, IsFit};
ghost use Rattle.tmr_top.specs.Private.Rooms.{Performed};
ghost use Rattle.tmr_top.specs.Private.Works.{IsWorkOver};

use crate::conclusion::conclude;
use crate::decision::{Decision, Work, telling};
use crate::loads::stopped;
use crate::pair_files::PairRead;
use crate::pairs::{check_pair, deny, open_pair};
use campaigns::{campaign_report, near_report};
use std::alloc::Global;
use tmr_base::OutOfMemory;
use tmr_outside::Files;
use tmr_words::CampaignWords;

/// The text of the campaign that is asked for.
fn report_on(alloc: Global, words: &CampaignWords, pair: &PairRead) -> Result<Vec<u8>, OutOfMemory>
    requires fit { IsFit pair.now }
    requires accepts { Accepts (pair_of pair.now) }
    ensures { IfOk result (λ text. Says words.now.near (campaigning_in words.now) (pair_of pair.now) text.items) }
{
    let n = &pair.original;
    let h = &pair.hardened;
    let c = &pair.certificate;
    if words.near {
        let text = near_report(alloc, words.number, words.cycles, n, h, c)?;
        return Ok(text);
    }
    let text = campaign_report(alloc, words.number, words.cycles, n, h, c)?;
    Ok(text)
}

/// What 64 runs of a pair come to, where it is accepted.
fn tell<'a>(
    alloc: Global,
    words: &CampaignWords<'a>,
    pair: &PairRead,
) -> Result<Work<'a, 'a>, OutOfMemory>
    requires { IsFit pair.now }
    ensures { IfOk result (IsWorkOver (Campaign (campaigning_in words.now))
        (λ held. HoldsPair held (pair_in words.now.pair) (pair_of pair.now))) }
{
    match check_pair(pair) {
        Ok(()) => {
            let text = report_on(alloc, words, pair)?;
            Ok(telling(alloc, text))
        }
        Err(refusal) => deny(alloc, pair, refusal),
    }
}

/// The room of `campaign`.
pub fn perform<F: Files>(
    alloc: Global,
    words: &CampaignWords,
    files: &mut F,
) -> Result<Decision, OutOfMemory>
    ensures { Performed (Campaign (campaigning_in words.now)) (F.seen files.old) (F.seen files.new)
        (F.steady files.old) (F.steady files.new) result }
{
    match open_pair(alloc, &words.pair, files) {
        Ok(pair) => conclude(alloc, tell(alloc, words, &pair), files),
        Err(stop) => stopped(alloc, stop),
    }
}
