//! What the words behind `campaign` mean.
ghost use Rattle.std.specs.Prelude.{◌≡◌, ◌≤◌, ◌<◌, codes, IfSome};
ghost use Rattle.std.specs.Option.{option_map};
ghost use Rattle.std.specs.Str.{bytes_eq};
ghost use Rattle.tmr_words.specs.Campaigns.{cycles_number};
ghost use Rattle.tmr_words.specs.Line.{campaign_over, campaigning_of};
ghost use Rattle.tmr_words.specs.FileWords.{pair_in, campaigning_in, read_words as read_texts};

use crate::campaign_words::CampaignWords;
use crate::line::{PairWords, pair_with};
use limits::Limits;
use tmr_base::{read_u32, read_u64};

/// The number of cycles that a word writes.
#[tactic(auto, unfolding(crate::specs::Campaigns::cycles_number))]
fn read_cycles(word: &str) -> Option<u32>
    ensures some { IfSome result (λ cycles. 0 < cycles) }
    ensures few { IfSome result (λ cycles. cycles ≤ 100000) }
    ensures number { result ≡ cycles_number word.now }
{
    match read_u32(word.as_bytes()) {
        None => None,
        Some(cycles) => {
            if 0 < cycles && cycles <= 100_000 {
                Some(cycles)
            } else {
                None
            }
        }
    }
}

/// A campaign over a pair, where there is one and the two numbers can be read.
#[tactic(auto, unfolding(crate::specs::Line::campaign_over))]
fn campaign_over<'a>(
    pair: Option<PairWords<'a>>,
    number: &str,
    cycles: &str,
    near: bool,
) -> Option<CampaignWords<'a>>
    ensures { option_map campaigning_in result
        ≡ campaign_over (option_map pair_in pair.entry) number.now cycles.now near }
{
    match pair {
        None => None,
        Some(pair) => match read_u64(number.as_bytes()) {
            None => None,
            Some(number) => match read_cycles(cycles) {
                None => None,
                Some(cycles) => Some(CampaignWords {
                    pair,
                    number,
                    cycles,
                    near,
                }),
            },
        },
    }
}

/// The word asks for upsets that are too near.
fn is_near(word: &str) -> bool
    ensures { result ≡ bytes_eq word.now (codes "near") }
{
    match word {
        "near" => true,
        _ => false,
    }
}

/// The words of `campaign`, where there are five, or `near` is a sixth one, and they can be read.
#[tactic(auto, unfolding(crate::specs::Line::campaigning_of))]
pub fn read_campaigning<'a>(limits: Limits, plain: &[&'a str]) -> Option<CampaignWords<'a>>
    ensures { option_map campaigning_in result ≡ campaigning_of limits (read_texts plain.now) }
{
    match plain {
        [original, hardened, certificate, number, cycles] => {
            let pair = pair_with(limits, *original, *hardened, *certificate);
            campaign_over(pair, *number, *cycles, false)
        }
        [original, hardened, certificate, number, cycles, word] => {
            if !is_near(*word) {
                return None;
            }
            let pair = pair_with(limits, *original, *hardened, *certificate);
            campaign_over(pair, *number, *cycles, true)
        }
        _ => None,
    }
}
