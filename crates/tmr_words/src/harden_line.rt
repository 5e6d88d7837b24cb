//! What the words behind `harden` mean.
ghost use Rattle.std.specs.Prelude.{◌≡◌, ◌<◌};
ghost use Rattle.std.specs.Option.{option_map};
ghost use Rattle.tmr_words.specs.Private.WordsRead.{words_in};
ghost use Rattle.tmr_words.specs.Line.{hardening_with, hardening_as, hardening_of};
ghost use Rattle.tmr_words.specs.FileWords.{command_in, read_words as read_texts};

use crate::harden_words::HardenWords;
use crate::line::CommandWords;
use crate::option_values::{said_form, said_number, said_version};
use crate::words::ReadWords;
use limits::Limits;
use triplicate::Form;

/// `harden`, where there are three words, none is empty, and the last two differ.
#[tactic(auto, unfolding(crate::specs::Line::hardening_with))]
fn hardening_words<'a>(
    limits: Limits,
    form: Form,
    size: u32,
    version: u8,
    most: u32,
    plain: &[&'a str],
) -> Option<CommandWords<'a>>
    requires size { 0 < size }
    requires version { (0 < version) × (version < 3) }
    requires most { 0 < most }
    ensures { option_map command_in result ≡ hardening_with limits form size version most (read_texts plain.now) }
{
    match plain {
        [original, hardened, certificate] => {
            if original.is_empty() || hardened.is_empty() || certificate.is_empty() {
                return None;
            }
            if hardened == certificate {
                return None;
            }
            Some(CommandWords::Harden(HardenWords {
                original: *original,
                hardened: *hardened,
                certificate: *certificate,
                form,
                size,
                version,
                most,
                limits,
            }))
        }
        _ => None,
    }
}

/// `harden` of this form, where its other options and its files can be read.
#[tactic(auto, unfolding(crate::specs::Line::hardening_as))]
fn read_hardening_of<'a>(
    limits: Limits,
    words: &ReadWords<'a>,
    form: Form,
) -> Option<CommandWords<'a>>
    ensures { option_map command_in result ≡ hardening_as limits form (words_in words.now) }
{
    match said_number(64, words.sizes.as_slice()) {
        None => None,
        Some(size) => match said_version(words.versions.as_slice()) {
            None => None,
            Some(version) => match said_number(4294967295, words.depths.as_slice()) {
                None => None,
                Some(most) => hardening_words(
                    limits,
                    form,
                    size,
                    version,
                    most,
                    words.plain.as_slice(),
                ),
            },
        },
    }
}

/// `harden`, where its options and files can be read.
#[tactic(auto, unfolding(crate::specs::Line::hardening_of))]
pub fn read_hardening<'a>(limits: Limits, words: &ReadWords<'a>) -> Option<CommandWords<'a>>
    ensures { option_map command_in result ≡ hardening_of limits (words_in words.now) }
{
    match said_form(words.forms.as_slice()) {
        None => None,
        Some(form) => read_hardening_of(limits, words, form),
    }
}
