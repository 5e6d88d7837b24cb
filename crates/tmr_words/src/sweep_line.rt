//! What the words behind `sweep` mean.
ghost use Rattle.std.specs.Prelude.{◌≡◌, ◌<◌};
ghost use Rattle.std.specs.Option.{option_map};
ghost use Rattle.tmr_words.specs.Private.WordsRead.{words_in};
ghost use Rattle.tmr_words.specs.Line.{sweeping_with, sweeping_as, sweeping_of};
ghost use Rattle.tmr_words.specs.FileWords.{sweeping_in, read_words as read_texts};

use crate::option_values::{said_form, said_number, said_version};
use crate::sweep_words::SweepWords;
use crate::words::{ReadWords, has_no_sizes};
use limits::Limits;
use triplicate::Form;

/// The words of `sweep`, where there is one and it is not empty.
#[tactic(auto, unfolding(crate::specs::Line::sweeping_with))]
fn sweep_words<'a>(
    limits: Limits,
    form: Form,
    version: u8,
    most: u32,
    plain: &[&'a str],
) -> Option<SweepWords<'a>>
    requires version { (0 < version) × (version < 3) }
    requires most { 0 < most }
    ensures { option_map sweeping_in result ≡ sweeping_with limits form version most (read_texts plain.now) }
{
    match plain {
        [original] => {
            if original.is_empty() {
                return None;
            }
            Some(SweepWords {
                original: *original,
                form,
                version,
                most,
                limits,
            })
        }
        _ => None,
    }
}

/// A sweep of this form, where its other options and its file can be read.
#[tactic(auto, unfolding(crate::specs::Line::sweeping_as))]
fn read_sweeping_as<'a>(limits: Limits, words: &ReadWords<'a>, form: Form) -> Option<SweepWords<'a>>
    ensures { option_map sweeping_in result ≡ sweeping_as limits form (words_in words.now) }
{
    match said_version(words.versions.as_slice()) {
        None => None,
        Some(version) => match said_number(4294967295, words.depths.as_slice()) {
            None => None,
            Some(most) => sweep_words(limits, form, version, most, words.plain.as_slice()),
        },
    }
}

/// The words of `sweep`, where its options and its file can be read.
#[tactic(auto, unfolding(crate::specs::Line::sweeping_of))]
pub fn read_sweeping<'a>(limits: Limits, words: &ReadWords<'a>) -> Option<SweepWords<'a>>
    ensures { option_map sweeping_in result ≡ sweeping_of limits (words_in words.now) }
{
    if !has_no_sizes(words) {
        return None;
    }
    match said_form(words.forms.as_slice()) {
        None => None,
        Some(form) => read_sweeping_as(limits, words, form),
    }
}
