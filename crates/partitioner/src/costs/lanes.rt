//! Counts for 64 partitions at once, in the bits of words.
ghost use Rattle.std.specs.Prelude.{◌≡◌, ◌<◌, ◌≤◌, ◌+◌, ℕ};
ghost use Rattle.table_cover.specs.Words.{word_bit};
ghost use Rattle.partitioner.specs.Below.{one_if};
ghost use Rattle.partitioner.specs.Private.Lanes.{Reaches, lane_value};

/// For each of 64 partitions a number below 16, whose binary digits stand in the same bit of four words. Where it ran over, the bit of
/// `over` is set.
#[derive(Clone, Copy, Drop)]
pub struct Lanes {
    pub ones: u64,
    pub twos: u64,
    pub fours: u64,
    pub eights: u64,
    pub over: u64,
}

/// All bits of a word, or none.
fn filled(all: bool) -> u64
    ensures { (j : ℕ) → j < 64 → word_bit j result ≡ all }
{
    if all { u64::MAX } else { 0 }
}

/// The same number for all partitions.
pub fn all_lanes(value: u64) -> Lanes
    requires { value < 16 }
    ensures { (j : ℕ) → j < 64 → lane_value result j ≡ value }
{
    Lanes {
        ones: filled(value % 2 == 1),
        twos: filled(value / 2 % 2 == 1),
        fours: filled(value / 4 % 2 == 1),
        eights: filled(value / 8 == 1),
        over: 0,
    }
}

/// One more for each partition whose bit is set in a word.
pub fn add(lanes: Lanes, word: u64) -> Lanes
    ensures { (j k : ℕ) → Reaches lanes j k → Reaches result j (k + one_if (word_bit j word)) }
{
    let to_twos = lanes.ones & word;
    let to_fours = lanes.twos & to_twos;
    let to_eights = lanes.fours & to_fours;
    Lanes {
        ones: lanes.ones ^ word,
        twos: lanes.twos ^ to_twos,
        fours: lanes.fours ^ to_fours,
        eights: lanes.eights ^ to_eights,
        over: lanes.over | (lanes.eights & to_eights),
    }
}
