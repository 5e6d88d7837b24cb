//! `guard ORIG GUARDED`: the guarded design of a design is saved. Its text is made while it is saved.
ghost use Rattle.std.specs.Prelude.{◌≤◌, IfOk};
ghost use Rattle.blif_writer.specs.Length.{flat_length};
ghost use Rattle.dwc.specs.Guard.{guard_net};
ghost use Rattle.limits.specs.Most.{most_original, most_hardened};
ghost use Rattle.tmr_words.specs.Line.{Guard};
ghost use Rattle.tmr_words.specs.FileWords.{guarding_in};
ghost use Rattle.tmr_top.specs.Loads.{original_file};
ghost use Rattle.tmr_top.specs.Designs.{HoldsDesign};
ghost use Rattle.tmr_top.specs.Private.FlatWithin.{IsFlatWithin};
ghost use Rattle.tmr_top.specs.Private.Refused.{IsWithin};
ghost use Rattle.tmr_top.specs.Private.Rooms.{Performed};
ghost use Rattle.tmr_top.specs.Private.Works.{IsWorkOver};

use crate::conclusion::conclude;
use crate::decision::{Decision, SavedText, Work, saving_made};
use crate::designs::{checked_nodes, open_original};
use crate::loads::stopped;
use flat_net::FreeNet;
use guarded_text::{GuardedText, guarded_nodes};
use std::alloc::Global;
use tmr_base::OutOfMemory;
use tmr_outside::Files;
use tmr_texts::guard_made;
use tmr_words::GuardWords;

/// The flat text of the guarded design keeps the limit of its file, where that of the original keeps its own.
fn text_keeps_limit(words: &GuardWords, n: &FreeNet)
    requires { IsFlatWithin (most_original words.now.limits) n.now.design.net n.now.free }
    ensures { flat_length (guard_net n.now.design.net) ≤ most_hardened words.now.limits }
{
    let _original = checked_nodes(n);
}

/// The text of the guarded design, of which nothing is made yet, and what is told of it.
#[tactic(auto, using(crate::proofs::LimitLaws::few))]
fn tell<'n, 't>(
    alloc: Global,
    words: &GuardWords<'n>,
    design: &'t FreeNet,
) -> Result<Work<'n, 't>, OutOfMemory>
    requires { IsWithin (most_original words.now.limits) design.now }
    ensures { IfOk result (IsWorkOver (Guard (guarding_in words.now))
        (λ held. HoldsDesign held (original_file words.now.limits words.now.original.now) design.now.design.net design.now.free)) }
{
    text_keeps_limit(words, design);
    let net = design.net();
    let guarded = GuardedText::in_pieces(alloc, net)?;
    let text = guard_made(alloc, net, guarded_nodes(net), design.free_count())?;
    saving_made(alloc, words.guarded, SavedText::Guarded(guarded), text)
}

/// The room of `guard`.
pub fn perform<F: Files>(
    alloc: Global,
    words: &GuardWords,
    files: &mut F,
) -> Result<Decision, OutOfMemory>
    ensures { Performed (Guard (guarding_in words.now)) (F.seen files.old) (F.seen files.new)
        (F.steady files.old) (F.steady files.new) result }
{
    match open_original(alloc, words.original, words.limits, files) {
        Ok(design) => conclude(alloc, tell(alloc, words, &design), files),
        Err(stop) => stopped(alloc, stop),
    }
}
