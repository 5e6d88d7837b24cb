//! `guarded ORIG GUARDED`: whether a file holds the guarded design of another. It saves nothing.
ghost use Rattle.std.specs.Prelude.{IfOk};
ghost use Rattle.limits.specs.Most.{most_original};
ghost use Rattle.tmr_words.specs.Line.{CheckGuard};
ghost use Rattle.tmr_words.specs.FileWords.{guarding_in};
ghost use Rattle.tmr_top.specs.Private.PairFiles.{AreDesigns};
ghost use Rattle.tmr_top.specs.Private.Refused.{IsWithin};
ghost use Rattle.tmr_top.specs.Private.Rooms.{Performed};
ghost use Rattle.tmr_top.specs.Private.Works.{IsWorkOver};

use crate::conclusion::conclude;
use crate::decision::{Decision, Work, denying, telling};
use crate::loads::stopped;
use crate::pair_files::Designs;
use crate::pairs::open_designs;
use dwc::{GuardAnswer, check_guard};
use std::alloc::Global;
use tmr_base::OutOfMemory;
use tmr_outside::Files;
use tmr_texts::{guard_found, guard_not_found};
use tmr_words::GuardWords;

/// What is told of the two designs.
#[tactic(auto, using(crate::proofs::LimitLaws::few))]
fn tell<'a>(
    alloc: Global,
    words: &GuardWords<'a>,
    designs: &Designs,
) -> Result<Work<'a, 'a>, OutOfMemory>
    requires { IsWithin (most_original words.now.limits) designs.now.original }
    ensures { IfOk result (IsWorkOver (CheckGuard (guarding_in words.now))
        (AreDesigns words.now.limits words.now.original.now words.now.guarded.now designs.now)) }
{
    match check_guard(alloc, designs.original.net(), designs.hardened.net())? {
        GuardAnswer::Guarded => {
            let text = guard_found(alloc)?;
            Ok(telling(alloc, text))
        }
        GuardAnswer::Not { rule, at } => {
            let text = guard_not_found(alloc, rule, at)?;
            Ok(denying(alloc, text))
        }
    }
}

/// The room of `guarded`.
pub fn perform<F: Files>(
    alloc: Global,
    words: &GuardWords,
    files: &mut F,
) -> Result<Decision, OutOfMemory>
    ensures { Performed (CheckGuard (guarding_in words.now)) (F.seen files.old) (F.seen files.new)
        (F.steady files.old) (F.steady files.new) result }
{
    match open_designs(alloc, words.original, words.guarded, words.limits, files) {
        Ok(designs) => conclude(alloc, tell(alloc, words, &designs), files),
        Err(stop) => stopped(alloc, stop),
    }
}
