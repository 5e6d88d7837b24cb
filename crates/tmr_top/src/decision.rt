//! What a command comes to before its text is put.
ghost use Rattle.std.specs.Prelude.{◌≡◌, ◌∷◌, [], IfOk};
ghost use Rattle.tmr_top.specs.Private.Works.{IsDoneWith, IsDeniedWith, text_of};

use crate::Status;
use certificate::CertText;
use guarded_text::GuardedText;
use hardened_text::{CertificateText, DesignText};
use std::alloc::Global;
use text_pieces::Pieces;
use tmr_base::OutOfMemory;

/// What a command comes to by what its files hold.
#[derive(Clone, Copy, Debug, PartialEq, Eq, Drop)]
pub enum Verdict {
    Done,
    NotAccepted,
    Refused,
}

/// A text to be saved: one that is held whole, or one that is made piece by piece while it is saved.
#[derive(Drop)]
pub enum SavedText<'t> {
    Whole(Vec<u8>),
    Design(Pieces<DesignText<'t>>),
    Certificate(Pieces<CertificateText<'t>>),
    Found(Pieces<CertText<'t>>),
    Guarded(Pieces<GuardedText<'t>>),
}

/// A text to be saved, and the name that it is saved under.
#[derive(Drop)]
pub struct Save<'n, 't> {
    pub name: &'n str,
    pub text: SavedText<'t>,
}

/// What the work of a command gives, where its files are read: the verdict, the texts to be saved
/// where it is Done, in this order, and the text to be printed.
#[derive(Drop)]
pub struct Work<'n, 't> {
    pub verdict: Verdict,
    pub saves: Vec<Save<'n, 't>>,
    pub text: Vec<u8>,
}

/// The status of a run before its text is put, and that text.
#[derive(Drop)]
pub struct Decision {
    pub status: Status,
    pub text: Vec<u8>,
}

/// The work that is done with this text, and saves nothing.
pub fn telling<'a>(alloc: Global, text: Vec<u8>) -> Work<'a, 'a>
    ensures { IsDoneWith [] [] text.items result }
{
    Work {
        verdict: Verdict::Done,
        saves: Vec::new(alloc),
        text,
    }
}

/// The work that is done with this text, and saves these bytes under this name.
pub fn saving<'a>(
    alloc: Global,
    name: &'a str,
    bytes: Vec<u8>,
    text: Vec<u8>,
) -> Result<Work<'a, 'a>, OutOfMemory>
    ensures { IfOk result (IsDoneWith (name.now ∷ []) (bytes.items ∷ []) text.items) }
{
    saving_made(alloc, name, SavedText::Whole(bytes), text)
}

/// The work that is done with this text, and saves another one under this name.
pub fn saving_made<'n, 't>(
    alloc: Global,
    name: &'n str,
    made: SavedText<'t>,
    text: Vec<u8>,
) -> Result<Work<'n, 't>, OutOfMemory>
    ensures { IfOk result (IsDoneWith (name.now ∷ []) (text_of made.entry ∷ []) text.items) }
{
    let mut saves = Vec::new(alloc);
    saves.push(Save { name, text: made })?;
    Ok(Work {
        verdict: Verdict::Done,
        saves,
        text,
    })
}

/// The work where the files do not agree, with this text.
pub fn denying<'n, 't>(alloc: Global, text: Vec<u8>) -> Work<'n, 't>
    ensures { IsDeniedWith text.items result }
{
    Work {
        verdict: Verdict::NotAccepted,
        saves: Vec::new(alloc),
        text,
    }
}
