//! The words of `campaign`.
ghost use Rattle.std.specs.Prelude.{◌<◌, ◌≤◌};

use crate::line::PairWords;

/// The files of `campaign ORIG HARD CERT NUMBER CYCLES [near]`, what its schedules are drawn from, how many
/// cycles each has, and whether `near` stands behind them.
#[derive(Clone, Copy, Drop)]
pub struct CampaignWords<'a> {
    pub pair: PairWords<'a>,
    pub number: u64,
    pub cycles: u32,
    pub near: bool,
    ghost some: { 0 < cycles },
    ghost few: { cycles ≤ 100000 },
}
