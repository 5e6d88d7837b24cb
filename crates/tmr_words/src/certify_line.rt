//! What the words behind `certify` mean.
ghost use Rattle.std.specs.Prelude.{◌≡◌, ◌<◌};
ghost use Rattle.std.specs.Option.{option_map};
ghost use Rattle.tmr_words.specs.Private.WordsRead.{words_in};
ghost use Rattle.tmr_words.specs.Line.{certifying_with, certifying_of};
ghost use Rattle.tmr_words.specs.FileWords.{certifying_in, read_words as read_texts};

use crate::certify_words::CertifyWords;
use crate::option_values::said_version;
use crate::words::{ReadWords, has_versions_alone};
use limits::Limits;

/// The words of `certify`, where there are three, none is empty, and the last is neither of the others.
#[tactic(auto, unfolding(crate::specs::Line::certifying_with))]
fn certify_words<'a>(limits: Limits, version: u8, plain: &[&'a str]) -> Option<CertifyWords<'a>>
    requires { (0 < version) × (version < 3) }
    ensures { option_map certifying_in result ≡ certifying_with limits version (read_texts plain.now) }
{
    match plain {
        [original, hardened, certificate] => {
            if original.is_empty() || hardened.is_empty() || certificate.is_empty() {
                return None;
            }
            if certificate == original || certificate == hardened {
                return None;
            }
            Some(CertifyWords {
                original: *original,
                hardened: *hardened,
                certificate: *certificate,
                version,
                limits,
            })
        }
        _ => None,
    }
}

/// The words of `certify`, where its option and its files can be read.
#[tactic(auto, unfolding(crate::specs::Line::certifying_of))]
pub fn read_certifying<'a>(limits: Limits, words: &ReadWords<'a>) -> Option<CertifyWords<'a>>
    ensures { option_map certifying_in result ≡ certifying_of limits (words_in words.now) }
{
    if !has_versions_alone(words) {
        return None;
    }
    match said_version(words.versions.as_slice()) {
        None => None,
        Some(version) => certify_words(limits, version, words.plain.as_slice()),
    }
}
