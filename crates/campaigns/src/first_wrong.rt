//! The first wrong output of several runs.
ghost use Rattle.std.specs.Prelude.{◌≡◌, ◌+◌, ◌<◌, ◌≤◌, Some, length, slice_get};
ghost use Rattle.schedule_replay.specs.Outcome.{is_wrong};
ghost use Rattle.campaigns.specs.NearCampaign.{IsFirst, IsKeptWrong};
ghost use Rattle.campaigns.specs.Private.Seeking.{IsSeenWrong, is_earlier, earlier_one, with_difference};

use schedule_replay::{Difference, Outcome};

/// An output of which fewer than two copies equal the original: the cycle, the output's place in the original, and the run,
/// all counted from 0.
#[derive(Clone, Copy, Debug, PartialEq, Eq, Drop)]
pub struct WrongOutput {
    pub cycle: u32,
    pub output: u32,
    pub run: u32,
}

/// Fewer than two copies equal the original.
fn is_wrong(d: &Difference) -> bool
    ensures { result ≡ is_wrong d.now }
{
    let [a, b, c] = d.copies;
    u32::from(a != d.original) + u32::from(b != d.original) + u32::from(c != d.original) > 1
}

/// In an earlier cycle, or in the same one at an earlier output.
fn is_earlier(w: WrongOutput, v: WrongOutput) -> bool
    ensures { result ≡ is_earlier w v }
{
    w.cycle < v.cycle || (w.cycle == v.cycle && w.output < v.output)
}

/// The earlier one of the first one so far and a new one.
fn earlier_one(first: Option<WrongOutput>, w: WrongOutput) -> WrongOutput
    ensures { result ≡ earlier_one first w }
{
    match first {
        Some(v) if !is_earlier(w, v) => v,
        _ => w,
    }
}

/// The first one, where a difference of this run is looked at too.
fn with_difference(first: Option<WrongOutput>, run: u32, d: &Difference) -> Option<WrongOutput>
    ensures { result ≡ with_difference first run d.now }
{
    if !is_wrong(d) {
        return first;
    }
    let w = WrongOutput {
        cycle: d.cycle,
        output: d.output,
        run,
    };
    Some(earlier_one(first, w))
}

/// Difference i.
fn difference_at(differences: &[Difference], i: usize) -> &Difference
    requires { i < length differences.now }
    ensures { slice_get differences.now i ≡ Some result.now }
{
    &differences[i]
}

/// The first one, where the differences of run j are looked at too.
fn with_run(outcomes: &[Outcome], j: u32, first: Option<WrongOutput>) -> Option<WrongOutput>
    requires within { j < length outcomes.now }
    requires first { IsFirst (IsSeenWrong outcomes.now j 0) first }
    ensures { IsFirst (IsSeenWrong outcomes.now (j + 1) 0) result }
{
    let mut found = first;
    let differences = outcomes[j as usize].first.as_slice();
    for i in 0..differences.len() {
        let d = difference_at(differences, i);
        found = with_difference(found, j, d);
    }
    found
}

/// The first wrong output of all runs, among the differences that are kept.
pub fn first_wrong(outcomes: &[Outcome]) -> Option<WrongOutput>
    requires { length outcomes.now ≤ 64 }
    ensures { IsFirst (IsKeptWrong outcomes.now) result }
{
    let mut found = None;
    for j in 0..outcomes.len() as u32 {
        found = with_run(outcomes, j, found);
    }
    found
}
