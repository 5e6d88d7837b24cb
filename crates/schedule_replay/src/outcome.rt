//! What a replay finds.
ghost use Rattle.std.specs.Prelude.{◌≡◌, ◌++◌, ◌∷◌, [], ◌+◌, ◌<◌, ◌≤◌, ℕ, List, OnOk, count_by, length};
ghost use Rattle.schedule_replay.specs.Outcome.{Counts, bits_differ, count_wrong as count_wrong_of};
ghost use Rattle.schedule_replay.specs.declared.outcome.Difference.{Difference};
ghost use Rattle.schedule_replay.specs.Private.Telling.{first_more};

use std::alloc::Global;
use tmr_base::OutOfMemory;

/// An output in a cycle in which some copy differs from the original.
#[derive(Clone, Copy, Debug, PartialEq, Eq, Drop)]
pub struct Difference {
    pub cycle: u32,
    pub output: u32,
    pub original: bool,
    pub copies: [bool; 3],
}

/// What a schedule does to a hardened design.
#[derive(Debug, Drop)]
pub struct Outcome {
    /// The certificate allows the schedule.
    pub allowed: bool,
    /// The first 1,000 differences, by cycle and output.
    pub first: Vec<Difference>,
    /// How many pairs of cycle and output have some copy that differs from the original.
    pub differences: u64,
    /// In how many of them fewer than two copies equal the original.
    pub wrong: u64,
    /// How many triples of cycle, node and copy differ in a quiet partition.
    pub late: u64,
}

/// How many of the three copies differ from the original.
fn count_wrong(d: &Difference) -> u32
    ensures value { result ≡ count_wrong_of d.now }
    ensures bound { result ≤ 3 }
{
    let [a, b, c] = d.copies;
    u32::from(a != d.original) + u32::from(b != d.original) + u32::from(c != d.original)
}

/// One difference more, of which the first 1,000 are kept.
fn push_first(first: &mut Vec<Difference>, d: Difference) -> Result<(), OutOfMemory>
    ensures { OnOk result (first.new.items ≡ first_more first.old.items d) }
{
    if first.len() < 1000 {
        first.push(d)?;
        Ok(())
    } else {
        Ok(())
    }
}

/// One output more.
#[tactic(auto, using(crate::proofs::Counting::counting))]
pub fn note(o: &mut Outcome, d: Difference) -> Result<(), OutOfMemory>
    requires differences { o.old.differences < 9223372036854775808 }
    requires wrong { o.old.wrong < 9223372036854775808 }
    ensures counts { OnOk result ((ds : List Difference) → Counts ds o.old.first.items o.old.differences o.old.wrong → Counts (ds ++ d ∷ []) o.new.first.items o.new.differences o.new.wrong) }
    ensures differences { OnOk result (o.new.differences ≤ o.old.differences + 1) }
    ensures wrong { OnOk result (o.new.wrong ≤ o.old.wrong + 1) }
    ensures late { OnOk result (o.new.late ≡ o.old.late) }
    ensures allowed { OnOk result (o.new.allowed ≡ o.old.allowed) }
{
    let count = count_wrong(&d);
    if count == 0 {
        return Ok(());
    }
    push_first(&mut o.first, d)?;
    o.differences += 1;
    if count == 1 {
        return Ok(());
    }
    o.wrong += 1;
    Ok(())
}
