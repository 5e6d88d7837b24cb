//! Rows of bits, one for each partition, of which few words have any set.
ghost use Rattle.std.specs.Prelude.{◌≡◌, ◌<◌, ◌≤◌, ◌+◌, ◌*◌, ◌/◌, ℕ, true, length, slice_index_or, IfOk};
ghost use Rattle.table_cover.specs.Words.{word_bit};
ghost use Rattle.partitioner.specs.Private.Marks.{Covers, has_bit, lane_of};

use std::alloc::Global;
use std::marker::Model;
use tmr_base::OutOfMemory;

/// What a bit of a word stands for: one partition, or a block of 64.
#[derive(Clone, Copy, Drop)]
pub enum Level {
    Partitions,
    Blocks,
}

/// A bit for each partition, and beside it one for each word of these: where that is not set, the word has no bit set. Past its words a row
/// is taken to have all bits set.
#[derive(Drop)]
pub struct Row {
    words: Vec<u64>,
    blocks: Vec<u64>,
}

impl Model for Row {
    ghost use Rattle.std.specs.Prelude.{ℕ, List};
    ghost use Rattle.partitioner.specs.Private.Marks.{Covers};

    ghost Value = { List ℕ };

    ghost view = { λ r. r.words.items };

    ghost invariant = { λ r. Covers r.blocks.items r.words.items };
}

/// Word w, with all bits set where there is none.
fn word_of(words: &[u64], w: usize) -> u64
    ensures { result ≡ slice_index_or words.now w 18446744073709551615 }
{
    if w < words.len() { words[w] } else { u64::MAX }
}

/// Bit c of a word is set.
pub fn is_set(word: u64, c: u32) -> bool
    requires { c < 64 }
    ensures { result ≡ word_bit c word }
{
    (word >> c) & 1 == 1
}

/// Sets bit q of a row.
fn set_bit(row: &mut Vec<u64>, q: u32)
    ensures long { length row.new.items ≡ length row.old.items }
    ensures kept { (r : ℕ) → has_bit row.old.items r ≡ true → has_bit row.new.items r ≡ true }
    ensures added { has_bit row.new.items q ≡ true }
    ensures others { (r : ℕ) → (r / 64 ≡ q / 64 → ⊥) → has_bit row.new.items r ≡ has_bit row.old.items r }
{
    let w = (q / 64) as usize;
    if w < row.len() {
        row[w] |= 1u64 << (q % 64);
    }
}

/// Clears bit q of a row.
fn clear_bit(row: &mut Vec<u64>, q: u32)
    ensures long { length row.new.items ≡ length row.old.items }
    ensures kept { (r : ℕ) → (q ≡ r → ⊥) → has_bit row.old.items r ≡ true → has_bit row.new.items r ≡ true }
    ensures fewer { (r : ℕ) → has_bit row.new.items r ≡ true → has_bit row.old.items r ≡ true }
{
    let w = (q / 64) as usize;
    if w < row.len() {
        row[w] &= !(1u64 << (q % 64));
    }
}

/// A bit for each of so many words, none of them set. Past these all are.
fn no_blocks(alloc: Global, words: usize) -> Result<Vec<u64>, OutOfMemory>
    ensures { IfOk result (λ blocks. (w : ℕ) → words ≤ w → has_bit blocks.items w ≡ true) }
{
    let mut blocks = vec![in alloc; 0u64; words / 64]?;
    blocks.push(u64::MAX << (words % 64))?;
    Ok(blocks)
}

/// Clears the bit of word w where that has no bit set.
fn close_block(blocks: &mut Vec<u64>, words: &[u64], w: u32)
    requires { Covers blocks.old.items words.now }
    ensures { Covers blocks.new.items words.now }
{
    if word_of(words, w as usize) == 0 {
        clear_bit(blocks, w);
    }
}

impl Row {
    /// A row without words.
    pub fn none(alloc: Global) -> Row
        ensures { length result ≡ 0 }
    {
        Row {
            words: Vec::new(alloc),
            blocks: Vec::new(alloc),
        }
    }

    /// A row of so many words, in which no bit is set.
    pub fn zeros(alloc: Global, words: usize) -> Result<Row, OutOfMemory>
        ensures { IfOk result (λ row. length row ≡ words) }
    {
        let blocks = no_blocks(alloc, words)?;
        let words = vec![in alloc; 0u64; words]?;
        Ok(Row { words, blocks })
    }

    /// The row has words.
    pub fn has_words(&self) -> bool {
        self.words.len() > 0
    }

    /// Word w: bit c of it is set if any is in what lane 64 w + c stands for. For a block it may be set beyond that.
    pub fn word(&self, level: Level, w: usize) -> u64
        ensures { (c q : ℕ) → c < 64 → lane_of level q ≡ w * 64 + c → has_bit self.now q ≡ true → word_bit c result ≡ true }
    {
        match level {
            Level::Partitions => word_of(self.words.as_slice(), w),
            Level::Blocks => word_of(self.blocks.as_slice(), w),
        }
    }

    /// How many words have a bit set. It may be some more.
    pub fn word_count(&self) -> usize {
        let mut count: usize = 0;
        for block in &self.blocks {
            count = count.saturating_add(block.count_ones() as usize);
        }
        count
    }

    /// Bit q is set.
    pub fn has(&self, q: u32) -> bool
        ensures { result ≡ has_bit self.now q }
    {
        is_set(word_of(self.words.as_slice(), (q / 64) as usize), q % 64)
    }

    /// Sets bit q.
    pub fn set(&mut self, q: u32)
        ensures long { length self.new ≡ length self.old }
        ensures kept { (r : ℕ) → has_bit self.old r ≡ true → has_bit self.new r ≡ true }
        ensures added { has_bit self.new q ≡ true }
    {
        set_bit(&mut self.words, q);
        set_bit(&mut self.blocks, q / 64);
    }

    /// Clears bit q.
    pub fn clear(&mut self, q: u32)
        ensures long { length self.new ≡ length self.old }
        ensures kept { (r : ℕ) → (q ≡ r → ⊥) → has_bit self.old r ≡ true → has_bit self.new r ≡ true }
    {
        clear_bit(&mut self.words, q);
        close_block(&mut self.blocks, self.words.as_slice(), q / 64);
    }
}
