//! How every command ends: its texts are saved where it is done, and its status is decided.
ghost use Rattle.std.specs.Prelude.{◌≡◌, Ok, IfOk};
ghost use Rattle.tmr_words.specs.Line.{Command};
ghost use Rattle.tmr_top.specs.Private.Works.{SavesFor};
ghost use Rattle.tmr_top.specs.Private.Rooms.{Concludes};

use crate::Status;
use crate::decision::{Decision, Verdict, Work};
use crate::saves::{SaveStop, save_all};
use std::alloc::Global;
use tmr_base::OutOfMemory;
use tmr_outside::Files;
use tmr_texts::save_fault;

/// Saves the texts of a work that is done, and decides. What is printed is made before the first save; a text that is saved may be made
/// while it is saved.
#[tactic(auto, using(crate::proofs::PerformLaws::conclusions))]
fn save_work<F: Files>(alloc: Global, work: Work, files: &mut F) -> Result<Decision, OutOfMemory>
    requires { work.verdict ≡ Verdict.Done }
    ensures { (c : Command) → SavesFor c work.entry → Concludes c (Ok work.entry)
        (F.seen files.old) (F.seen files.new) (F.steady files.old) (F.steady files.new) result }
{
    let Work { saves, text, .. } = work;
    match save_all(files, saves) {
        Ok(()) => Ok(Decision {
            status: Status::Done,
            text,
        }),
        Err(SaveStop::Failed(name)) => match save_fault(alloc, name) {
            Ok(text) => Ok(Decision {
                status: Status::Fault,
                text,
            }),
            Err(_) => Err(OutOfMemory),
        },
        Err(SaveStop::Memory) => Err(OutOfMemory),
    }
}

/// Decides by a work. Texts are saved only where it is Done.
#[tactic(auto, using(crate::proofs::PerformLaws::conclusions))]
fn decide_work<F: Files>(alloc: Global, work: Work, files: &mut F) -> Result<Decision, OutOfMemory>
    ensures { (c : Command) → SavesFor c work.entry → Concludes c (Ok work.entry)
        (F.seen files.old) (F.seen files.new) (F.steady files.old) (F.steady files.new) result }
{
    match work.verdict {
        Verdict::Done => save_work(alloc, work, files),
        Verdict::NotAccepted => Ok(Decision {
            status: Status::NotAccepted,
            text: work.text,
        }),
        Verdict::Refused => Ok(Decision {
            status: Status::Refused,
            text: work.text,
        }),
    }
}

/// Ends a command by its work, where there was memory for it.
#[tactic(auto, using(crate::proofs::PerformLaws::conclusions))]
pub fn conclude<F: Files>(
    alloc: Global,
    work: Result<Work, OutOfMemory>,
    files: &mut F,
) -> Result<Decision, OutOfMemory>
    ensures { (c : Command) → IfOk work.entry (SavesFor c) → Concludes c work.entry
        (F.seen files.old) (F.seen files.new) (F.steady files.old) (F.steady files.new) result }
{
    match work {
        Ok(work) => decide_work(alloc, work, files),
        Err(_) => Err(OutOfMemory),
    }
}
