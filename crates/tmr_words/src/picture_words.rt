//! What the words behind `picture` mean.
ghost use Rattle.std.specs.Prelude.{◌≡◌};
ghost use Rattle.std.specs.Option.{option_map};
ghost use Rattle.tmr_words.specs.Line.{picturing_of};
ghost use Rattle.tmr_words.specs.FileWords.{picturing_in, read_words as read_texts};

use crate::line::{PairWords, pair_with};
use limits::Limits;

/// The files of `picture ORIG HARD CERT DOT`, which saves the picture as DOT.
#[derive(Clone, Copy, Drop)]
pub struct PictureWords<'a> {
    pub pair: PairWords<'a>,
    pub picture: &'a str,
}

/// The words of `picture`, where there are four and none is empty.
#[tactic(auto, unfolding(crate::specs::Line::picturing_of))]
pub fn read_picturing<'a>(limits: Limits, plain: &[&'a str]) -> Option<PictureWords<'a>>
    ensures { option_map picturing_in result ≡ picturing_of limits (read_texts plain.now) }
{
    match plain {
        [original, hardened, certificate, picture] => {
            if picture.is_empty() {
                return None;
            }
            match pair_with(limits, *original, *hardened, *certificate) {
                None => None,
                Some(pair) => Some(PictureWords {
                    pair,
                    picture: *picture,
                }),
            }
        }
        _ => None,
    }
}
