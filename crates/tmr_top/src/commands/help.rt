//! `help [COMMAND]` and `version`: a text that rests on the words alone. They load and save nothing.
ghost use Rattle.std.specs.Prelude.{◌≡◌, IfOk};
ghost use Rattle.tmr_texts.specs.Help.{help_text as text_of_help};
ghost use Rattle.tmr_words.specs.Line.{Help, Version};
ghost use Rattle.tmr_top.specs.Private.Rooms.{Performed};
ghost use Rattle.tmr_top.specs.Private.Works.{IsWorkOver};

use crate::conclusion::conclude;
use crate::decision::{Decision, Work, telling};
use std::alloc::Global;
use tmr_base::OutOfMemory;
use tmr_outside::Files;
use tmr_texts::{help_text, version_text};
use tmr_words::Topic;

/// The text that `help` prints.
fn help_bytes(alloc: Global, topic: Option<Topic>) -> Result<Vec<u8>, OutOfMemory>
    ensures { IfOk result (λ text. text.items ≡ text_of_help topic) }
{
    let text = help_text(alloc, topic)?;
    Ok(text)
}

/// What is told of one command, or of all.
fn tell_help<'a>(alloc: Global, topic: Option<Topic>) -> Result<Work<'a, 'a>, OutOfMemory>
    ensures { IfOk result (IsWorkOver (Help topic) (λ held. Unit {0})) }
{
    let text = help_bytes(alloc, topic)?;
    Ok(telling(alloc, text))
}

/// The version of these sources.
fn tell_version<'a>(alloc: Global) -> Result<Work<'a, 'a>, OutOfMemory>
    ensures { IfOk result (IsWorkOver Version (λ held. Unit {0})) }
{
    let text = version_text(alloc)?;
    Ok(telling(alloc, text))
}

/// The room of `help`.
pub fn perform_help<F: Files>(
    alloc: Global,
    topic: Option<Topic>,
    files: &mut F,
) -> Result<Decision, OutOfMemory>
    ensures { Performed (Help topic) (F.seen files.old) (F.seen files.new)
        (F.steady files.old) (F.steady files.new) result }
{
    conclude(alloc, tell_help(alloc, topic), files)
}

/// The room of `version`.
pub fn perform_version<F: Files>(alloc: Global, files: &mut F) -> Result<Decision, OutOfMemory>
    ensures { Performed Version (F.seen files.old) (F.seen files.new)
        (F.steady files.old) (F.steady files.new) result }
{
    conclude(alloc, tell_version(alloc), files)
}
