//! What the words behind `trial` mean.
ghost use Rattle.std.specs.Prelude.{◌≡◌, ◌≤◌, IfSome};
ghost use Rattle.std.specs.Option.{option_map};
ghost use Rattle.tmr_words.specs.FileWords.{read_words as read_texts};
ghost use Rattle.tmr_words.specs.Trials.{nodes_number, trial_of};
ghost use Rattle.tmr_words.specs.TrialWords.{trial_in};

use crate::trial_words::TrialWords;
use tmr_base::{read_u32, read_u64};

/// The number of nodes that a word writes.
#[tactic(auto, unfolding(crate::specs::Trials::nodes_number))]
fn read_nodes(word: &str) -> Option<u32>
    ensures few { IfSome result (λ nodes. nodes ≤ 100000) }
    ensures number { result ≡ nodes_number word.now }
{
    match read_u32(word.as_bytes()) {
        None => None,
        Some(nodes) => { if nodes <= 100_000 { Some(nodes) } else { None } }
    }
}

/// The two numbers, where there are two words and each writes one.
#[tactic(auto, unfolding(crate::specs::Trials::trial_of))]
pub fn read_trial_words(plain: &[&str]) -> Option<TrialWords>
    ensures { option_map trial_in result ≡ trial_of (read_texts plain.now) }
{
    match plain {
        [number, nodes] => match read_u64(number.as_bytes()) {
            None => None,
            Some(number) => match read_nodes(nodes) {
                None => None,
                Some(nodes) => Some(TrialWords { number, nodes }),
            },
        },
        _ => None,
    }
}
