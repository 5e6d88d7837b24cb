//! The sums over the runs of a campaign.
ghost use Rattle.std.specs.Prelude.{◌≡◌, ◌+◌, ◌*◌, ◌≤◌, ◌<◌, All, length};
ghost use Rattle.campaigns.specs.Campaign.{AreSumsOf};
ghost use Rattle.campaigns.specs.Private.Running.{IsBounded};

use schedule_replay::Outcome;
use schedules::Schedule;

/// Over all runs: the upsets, the outputs of which some copy differs from the original, those of which fewer
/// than two copies equal the original, and the copies of nodes that differ in a quiet partition.
#[derive(Clone, Copy, Debug, PartialEq, Eq, Drop)]
pub struct CampaignSums {
    pub upsets: u64,
    pub differences: u64,
    pub wrong: u64,
    pub late: u64,
}

/// Adds what a run comes to.
fn add_run(sums: &mut CampaignSums, s: &Schedule, o: &Outcome)
    requires upsets { sums.old.upsets ≤ 64 * 4294967295 }
    requires differences { sums.old.differences ≤ 64 * 4503599627370496 }
    requires wrong { sums.old.wrong ≤ 64 * 4503599627370496 }
    requires late { sums.old.late ≤ 64 * 13510798882111488 }
    requires bounded { IsBounded o.now }
    ensures upsets { sums.new.upsets ≡ sums.old.upsets + length s.now.upsets }
    ensures few { sums.new.upsets ≤ sums.old.upsets + 4294967295 }
    ensures differences { sums.new.differences ≡ sums.old.differences + o.now.differences }
    ensures wrong { sums.new.wrong ≡ sums.old.wrong + o.now.wrong }
    ensures late { sums.new.late ≡ sums.old.late + o.now.late }
{
    sums.upsets += u64::from(s.upset_count());
    sums.differences += o.differences;
    sums.wrong += o.wrong;
    sums.late += o.late;
}

/// The sums over all runs.
pub fn sum_runs(list: &[Schedule], outcomes: &[Outcome]) -> CampaignSums
    requires few { length list.now ≤ 64 }
    requires long { length outcomes.now ≡ length list.now }
    requires bounded { All (λ o. IsBounded o) outcomes.now }
    ensures { AreSumsOf list.now outcomes.now result }
{
    let mut sums = CampaignSums {
        upsets: 0,
        differences: 0,
        wrong: 0,
        late: 0,
    };
    for j in 0..list.len() {
        add_run(&mut sums, &list[j], &outcomes[j]);
    }
    sums
}
