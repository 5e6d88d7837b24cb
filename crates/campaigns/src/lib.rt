//! Campaigns: a hardened design is run over 64 drawn schedules of upsets, 64 in a word.
//!
//! The layers above may rely on this: the numbers are those of the one run of each of the 64 schedules that the number gives. Of
//! a campaign the certificate allows each schedule, and nothing is wrong and nothing late. Of a near one each schedule strikes pairs
//! that the certificate forbids, and the wrong output that is told is the first one that is kept.
#![tactic(auto)]

mod campaigning;
mod drawing;
mod first_wrong;
mod lines;
mod near_campaigning;
mod sums;

pub use campaigning::{campaign, campaign_report, masked_campaign};
pub use first_wrong::WrongOutput;
pub use lines::campaign_text;
pub use near_campaigning::near_report;
pub use sums::CampaignSums;
