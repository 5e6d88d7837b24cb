//! What is forced in the next cycle, in 64 runs at once.
ghost use Rattle.std.specs.Prelude.{◌≡◌, ◌<◌, ◌&&◌, ℕ, Some, None, IfOk, length, nat_eq, if◌then◌else◌};
ghost use Rattle.std.specs.Option.{unwrap_or};
ghost use Rattle.table_cover.specs.Words.{word_bit};
ghost use Rattle.net_simulator.specs.Settled.{mark, marked, AreMarks};

use std::alloc::Global;
use tmr_base::{NetId, OutOfMemory};

/// For each net whether some run forces it, and then which runs do, and its values in these.
#[derive(Drop)]
pub struct Marks {
    /// Whether some run forces it. The words of a net that none forces are not read.
    pub forced: Vec<bool>,
    /// The runs.
    pub masks: Vec<u64>,
    /// The values.
    pub values: Vec<u64>,
}

/// The word, but for the runs of the mask, which take their bits from the value.
#[tactic(auto, using(crate::proofs::MarkLaws::merged_bits))]
pub fn merged(own: u64, mask: u64, value: u64) -> u64
    ensures { (j : ℕ) → j < 64 → word_bit j result ≡ unwrap_or (mark (word_bit j mask) (word_bit j value)) (word_bit j own) }
{
    (own & !mask) | (value & mask)
}

/// The same bit in all runs.
#[tactic(auto, using(table_cover::proofs::WordLaws::word_bits))]
pub fn word_of(bit: bool) -> u64
    ensures { (j : ℕ) → j < 64 → word_bit j result ≡ bit }
{
    if bit { u64::MAX } else { 0 }
}

/// So many nets, none of which is forced.
pub fn no_marks(alloc: Global, count: usize) -> Result<Marks, OutOfMemory>
    ensures { IfOk result (λ m. AreMarks count m) }
{
    let forced = Vec::from_elem(alloc, false, count)?;
    let masks = Vec::from_elem(alloc, 0, count)?;
    let values = Vec::from_elem(alloc, 0, count)?;
    Ok(Marks {
        forced,
        masks,
        values,
    })
}

impl Marks {
    /// No net is forced any more.
    pub fn release(&mut self)
        ensures none { (j x : ℕ) → marked self.new j x ≡ None }
        ensures sized { (count : ℕ) → AreMarks count self.old → AreMarks count self.new }
    {
        self.forced.fill(false);
    }

    /// Forces net x in the runs of the mask.
    pub fn force(&mut self, x: NetId, mask: u64, value: u64)
        requires range { AreMarks (length self.old.forced.items) self.old }
        requires net { x.0 < length self.old.forced.items }
        ensures forced { (j y : ℕ) → j < 64 → marked self.new j y ≡ (if nat_eq x.0 y && word_bit j mask then Some (word_bit j value) else marked self.old j y) }
        ensures sized { (count : ℕ) → AreMarks count self.old → AreMarks count self.new }
    {
        let k = x.0 as usize;
        if self.forced[k] {
            self.values[k] = merged(self.values[k], mask, value);
            self.masks[k] |= mask;
        } else {
            self.forced[k] = true;
            self.values[k] = value;
            self.masks[k] = mask;
        }
    }

    /// The word of net x, but for the runs that force it.
    pub fn word(&self, own: u64, x: NetId) -> u64
        requires range { AreMarks (length self.now.forced.items) self.now }
        requires net { x.0 < length self.now.forced.items }
        ensures { (j : ℕ) → j < 64 → word_bit j result ≡ unwrap_or (marked self.now j x.0) (word_bit j own) }
    {
        let k = x.0 as usize;
        if self.forced[k] {
            merged(own, self.masks[k], self.values[k])
        } else {
            own
        }
    }
}
