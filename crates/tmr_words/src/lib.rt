//! What the words of the command line mean: which command, over which files, with which options.
//!
//! The layer above may rely on this: `read_line` answers the command that `meaning` of `specs/Line` gives the words, or none. It opens
//! no file. `commands` and `call_of` are the table of the commands and of how each is called, and the usage text follows from it.
#![tactic(auto)]

mod campaign_line;
mod campaign_words;
mod certify_line;
mod certify_words;
mod harden_line;
mod harden_words;
mod line;
mod option_values;
mod picture_words;
mod replay_words;
mod sweep_line;
mod sweep_words;
mod topic;
mod trial_line;
mod trial_words;
mod words;

pub use campaign_words::CampaignWords;
pub use certify_words::CertifyWords;
pub use harden_words::HardenWords;
pub use line::{
    CommandWords, FlatWords, GraphReadWords, GraphWords, GuardWords, PairWords, read_line,
};
pub use picture_words::PictureWords;
pub use replay_words::ReplayWords;
pub use sweep_words::SweepWords;
pub use topic::{Topic, call_of, commands};
pub use trial_words::TrialWords;
