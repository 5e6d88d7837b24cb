//! Texts, saved one after the other.
ghost use Rattle.std.specs.Prelude.{◌≡◌, ◌∷◌, [], IfErr, OnOk};
ghost use Rattle.tmr_outside.specs.Saving.{IsSave};
ghost use Rattle.tmr_top.specs.Changes.{ChangesOnly};
ghost use Rattle.tmr_top.specs.Private.Saved.{Saves, IsSaveStop};
ghost use Rattle.tmr_top.specs.Private.Works.{save_names, save_texts, text_of};

use crate::decision::{Save, SavedText};
use crate::givers::TextGiver;
use tmr_outside::{Files, SaveFault};

/// Why saves came to no end, and at the file of which name.
#[derive(Clone, Copy, Debug, PartialEq, Eq, Drop)]
pub enum SaveStop<'a> {
    Failed(&'a str),
    Memory,
}

/// Saves a text, piece by piece where it is not held whole.
fn save_text<F: Files>(files: &mut F, name: &str, text: SavedText<'_>) -> Result<(), SaveFault>
    ensures { IsSave name.now (text_of text.entry) result (F.seen files.old) (F.seen files.new)
        (F.steady files.old) (F.steady files.new) }
{
    match text {
        SavedText::Whole(bytes) => files.save(name, &bytes),
        SavedText::Design(text) => files.save_pieces(name, &mut TextGiver { text }),
        SavedText::Certificate(text) => files.save_pieces(name, &mut TextGiver { text }),
        SavedText::Found(text) => files.save_pieces(name, &mut TextGiver { text }),
        SavedText::Guarded(text) => files.save_pieces(name, &mut TextGiver { text }),
    }
}

/// Saves one text.
#[tactic(auto, using(crate::proofs::SaveLaws::one_save))]
fn save_one<'a, F: Files>(
    files: &mut F,
    name: &'a str,
    text: SavedText<'_>,
) -> Result<(), SaveStop<'a>>
    ensures saves { OnOk result (Saves (name.now ∷ []) (text_of text.entry ∷ [])
        (F.seen files.old) (F.seen files.new)) }
    ensures stop { IfErr result (λ stop. IsSaveStop (name.now ∷ []) (text_of text.entry ∷ [])
        (F.seen files.old) (F.seen files.new) stop) }
    ensures changes { ChangesOnly [] (name.now ∷ []) (F.seen files.old) (F.seen files.new) }
    ensures steady { F.steady files.old → F.steady files.new }
    ensures steady_stop { F.steady files.old → IfErr result (λ stop. stop ≡ SaveStop.Memory) }
{
    match save_text(files, name, text) {
        Ok(()) => Ok(()),
        Err(SaveFault::Failed) => Err(SaveStop::Failed(name)),
        Err(SaveFault::Memory) => Err(SaveStop::Memory),
    }
}

/// Saves the texts under their names, in this order, up to the first that fails.
pub fn save_all<'a, F: Files>(files: &mut F, saves: Vec<Save<'a, '_>>) -> Result<(), SaveStop<'a>>
    ensures saves { OnOk result (Saves (save_names saves.entry.items) (save_texts saves.entry.items)
        (F.seen files.old) (F.seen files.new)) }
    ensures stop { IfErr result (λ stop. IsSaveStop (save_names saves.entry.items) (save_texts saves.entry.items)
        (F.seen files.old) (F.seen files.new) stop) }
    ensures changes { ChangesOnly [] (save_names saves.entry.items) (F.seen files.old) (F.seen files.new) }
    ensures steady { F.steady files.old → F.steady files.new }
    ensures steady_stop { F.steady files.old → IfErr result (λ stop. stop ≡ SaveStop.Memory) }
{
    for save in saves {
        let Save { name, text } = save;
        save_one(files, name, text)?;
    }
    Ok(())
}
