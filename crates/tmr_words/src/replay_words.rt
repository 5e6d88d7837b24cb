//! The words of `replay` and `wave`.

use crate::line::PairWords;

/// The files of `replay ORIG HARD CERT SCHED`, and of `wave ORIG HARD CERT SCHED VCD`, which saves
/// the waves.
#[derive(Clone, Copy, Drop)]
pub struct ReplayWords<'a> {
    pub pair: PairWords<'a>,
    pub schedule: &'a str,
    pub waves: Option<&'a str>,
}
