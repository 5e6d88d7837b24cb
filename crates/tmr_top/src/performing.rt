//! What every command does: its room opens its files, works, saves, and decides.
ghost use Rattle.tmr_words.specs.FileWords.{command_in};
ghost use Rattle.tmr_top.specs.Private.Rooms.{Performed};

use crate::commands::{
    campaign, certify, explain, exposing, flatten, from_aag, guard, guarded, harden, help, picture,
    replay, report, sweeping, to_aag, trial, validate,
};
use crate::decision::Decision;
use std::alloc::Global;
use tmr_base::OutOfMemory;
use tmr_outside::Files;
use tmr_words::CommandWords;

/// What a command comes to before its text is put: it loads its files in order, works, and saves
/// its texts in order.
pub fn perform<F: Files>(
    alloc: Global,
    words: &CommandWords,
    files: &mut F,
) -> Result<Decision, OutOfMemory>
    ensures { Performed (command_in words.now) (F.seen files.old) (F.seen files.new)
        (F.steady files.old) (F.steady files.new) result }
{
    match words {
        CommandWords::Validate(pair) => validate::perform(alloc, pair, files),
        CommandWords::Harden(words) => harden::perform(alloc, words, files),
        CommandWords::Flatten(words) => flatten::perform(alloc, words, files),
        CommandWords::Replay(words) => replay::perform(alloc, words, files),
        CommandWords::Report(pair) => report::perform(alloc, pair, files),
        CommandWords::Guard(words) => guard::perform(alloc, words, files),
        CommandWords::CheckGuard(words) => guarded::perform(alloc, words, files),
        CommandWords::WriteGraph(words) => to_aag::perform(alloc, words, files),
        CommandWords::ReadGraph(words) => from_aag::perform(alloc, words, files),
        CommandWords::Trial(words) => trial::perform(alloc, words, files),
        CommandWords::Certify(words) => certify::perform(alloc, words, files),
        CommandWords::Exposure(pair) => exposing::perform(alloc, pair, files),
        CommandWords::Sweep(words) => sweeping::perform(alloc, words, files),
        CommandWords::Explain(pair) => explain::perform(alloc, pair, files),
        CommandWords::Campaign(words) => campaign::perform(alloc, words, files),
        CommandWords::Picture(words) => picture::perform(alloc, words, files),
        CommandWords::Help(topic) => help::perform_help(alloc, *topic, files),
        CommandWords::Version => help::perform_version(alloc, files),
    }
}
