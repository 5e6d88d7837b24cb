//! In which partitions nodes of very many readers are near, in rows of bits.
ghost use Rattle.std.specs.Prelude.{◌≡◌, ◌<◌, ◌+◌, ◌*◌, ◌∷◌, ℕ, true, [], length, slice_index_or, IfOk, OnOk};
ghost use Rattle.table_cover.specs.Words.{word_bit};
ghost use Rattle.partitioner.specs.Private.Marks.{is_marked, lane_of};
ghost use Rattle.partitioner.specs.Private.Places.{ArePlaced, placed_rows};

use crate::counts::places::{next_place, no_places, place_of};
use crate::counts::rows::{Level, Row};
use std::alloc::Global;
use std::marker::Model;
use tmr_base::OutOfMemory;

/// For some nodes a row of bits, one for each partition. A node without a row is taken to be marked in all of them. All these share the
/// first row, which has no words.
#[derive(Drop)]
pub struct Marks {
    places: Vec<u32>,
    rows: Vec<Row>,
}

impl Model for Marks {
    ghost use Rattle.std.specs.Prelude.{ℕ, List};
    ghost use Rattle.partitioner.specs.Private.Places.{ArePlaced, placed_rows};

    ghost Value = { List (List ℕ) };

    ghost view = { λ m. placed_rows m.places.items m.rows.items };

    ghost invariant = { λ m. ArePlaced m.places.items m.rows.items };
}

/// The row that nodes without one of their own share.
fn no_rows(alloc: Global) -> Result<Vec<Row>, OutOfMemory>
    ensures { IfOk result (λ rows. rows.items ≡ [] ∷ []) }
{
    let mut rows = Vec::new(alloc);
    rows.push(Row::none(alloc))?;
    Ok(rows)
}

/// The row of node x.
fn row_of<'a>(places: &[u32], rows: &'a [Row], x: u32) -> &'a Row
    requires placed { ArePlaced places.now rows.now }
    requires node { x < length places.now }
    ensures { result.now ≡ slice_index_or (placed_rows places.now rows.now) x [] }
{
    &rows[place_of(places, x)]
}

impl Marks {
    /// So many nodes without a row.
    pub fn empty(alloc: Global, count: u32) -> Result<Marks, OutOfMemory>
        ensures long { IfOk result (λ marks. length marks ≡ count) }
        ensures empty { IfOk result (λ marks. (x : ℕ) → length (slice_index_or marks x []) ≡ 0) }
    {
        let places = no_places(alloc, count)?;
        let rows = no_rows(alloc)?;
        Ok(Marks { places, rows })
    }

    /// Gives node x a row of so many words, in which no bit is set. One that it had before is kept, but is no node's any more.
    pub fn open(&mut self, alloc: Global, x: u32, words: usize) -> Result<(), OutOfMemory>
        requires { x < length self.old }
        ensures long { OnOk result (length self.new ≡ length self.old) }
        ensures others { OnOk result ((z : ℕ) → (z ≡ x → ⊥) → slice_index_or self.new z [] ≡ slice_index_or self.old z []) }
    {
        let row = Row::zeros(alloc, words)?;
        let next = next_place(self.rows.len())?;
        self.rows.push(row)?;
        self.places[x as usize] = next;
        Ok(())
    }

    /// Node x has a row.
    pub fn has_row(&self, x: u32) -> bool
        requires { x < length self.now }
    {
        row_of(&self.places, &self.rows, x).has_words()
    }

    /// How many words of node x have a bit set, of so many, or all of them where it has no row. It may be some more.
    pub fn word_count(&self, x: u32, all: usize) -> usize
        requires { x < length self.now }
    {
        let row = row_of(&self.places, &self.rows, x);
        if row.has_words() {
            row.word_count()
        } else {
            all
        }
    }

    /// Word w of node x: bit c of it is set if the node is marked in what lane 64 w + c stands for.
    pub fn word(&self, x: u32, level: Level, w: usize) -> u64
        requires { x < length self.now }
        ensures { (c q : ℕ) → c < 64 → lane_of level q ≡ w * 64 + c → is_marked self.now x q ≡ true → word_bit c result ≡ true }
    {
        row_of(&self.places, &self.rows, x).word(level, w)
    }

    /// Node x is marked in partition q.
    pub fn is_marked(&self, x: u32, q: u32) -> bool
        requires { x < length self.now }
        ensures { result ≡ is_marked self.now x q }
    {
        row_of(&self.places, &self.rows, x).has(q)
    }

    /// Marks node x in partition q.
    pub fn mark(&mut self, x: u32, q: u32)
        requires { x < length self.old }
        ensures long { length self.new ≡ length self.old }
        ensures rows { (z : ℕ) → length (slice_index_or self.new z []) ≡ length (slice_index_or self.old z []) }
        ensures kept { (z r : ℕ) → is_marked self.old z r ≡ true → is_marked self.new z r ≡ true }
        ensures added { is_marked self.new x q ≡ true }
    {
        let place = place_of(&self.places, x);
        if place > 0 {
            self.rows[place].set(q);
        }
    }

    /// Marks node x no longer in partition q.
    pub fn unmark(&mut self, x: u32, q: u32)
        requires { x < length self.old }
        ensures long { length self.new ≡ length self.old }
        ensures rows { (z : ℕ) → length (slice_index_or self.new z []) ≡ length (slice_index_or self.old z []) }
        ensures kept { (z r : ℕ) → (q ≡ r → ⊥) → is_marked self.old z r ≡ true → is_marked self.new z r ≡ true }
        ensures others { (z r : ℕ) → (z ≡ x → ⊥) → is_marked self.old z r ≡ true → is_marked self.new z r ≡ true }
    {
        let place = place_of(&self.places, x);
        if place > 0 {
            self.rows[place].clear(q);
        }
    }
}
