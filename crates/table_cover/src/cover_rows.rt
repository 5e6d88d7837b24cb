//! The rows of a cover.
ghost use Rattle.std.specs.Prelude.{◌≡◌, ◌≢◌, ◌↔◌, ◌<◌, ◌^◌, ℕ, Some, None, [], ◌∷◌, ◌++◌, true, length, slice_get, IfOk, OnOk, OnErr, IfErr, IsTrue, ◌*◌, ◌+◌};
ghost use Rattle.std.specs.List.{list_all};
ghost use Rattle.table_cover.specs.Cover.{PlainCover, IsCover, IsMajority, IsRow, cover_value, majority_of, is_mark};
ghost use Rattle.table_cover.specs.Words.{word_bit, bits_of};
ghost use Rattle.table_cover.specs.Pushing.{is_output, row_fault, with_row};
ghost use Rattle.table_cover.specs.declared.cover.RowFault.{RowFault};

use crate::cover::RowFault;
use crate::rows::{row_at, same_rows, some_row_fits, wide_some_row};
use smallvec::SmallVec;
use std::alloc::Global;
use std::marker::Model;
use tmr_base::OutOfMemory;

/// How many marks stand in the value itself.
const INLINE: usize = 24;

/// What a cover holds. Up to 24 marks stand in the value itself.
#[derive(Debug, Drop)]
pub(crate) struct CoverRows {
    width: u32,
    is_on: bool,
    count: u32,
    marks: SmallVec<u8, INLINE>,
}

impl Model for CoverRows {
    ghost use Rattle.std.specs.Prelude.{◌≡◌, ◌*◌, length};
    ghost use Rattle.table_cover.specs.Cover.{PlainCover, IsCover};
    ghost use Rattle.table_cover.specs.Rows.{cut_rows};

    ghost Value = { PlainCover };

    ghost view = { λ k. record { width = k.width; is_on = k.is_on; rows = cut_rows k.width k.count k.marks.items } };

    ghost invariant = { λ k. (length k.marks.items ≡ k.count * k.width)
        × IsCover (record { width = k.width; is_on = k.is_on; rows = cut_rows k.width k.count k.marks.items }) };
}

/// `0`, `1` or `-`.
fn is_legal_mark(b: u8) -> bool
    ensures { result ≡ is_mark b }
{
    b == b'0' || b == b'1' || b == b'-'
}

fn are_legal_marks(row: &[u8]) -> bool
    ensures { result ≡ list_all is_mark row.now }
{
    row.iter().all(|b| is_legal_mark(*b))
}

fn is_legal_output(b: u8) -> bool
    ensures { result ≡ is_output b }
{
    b == b'0' || b == b'1'
}

impl CoverRows {
    /// A cover of this width without rows.
    pub fn new(alloc: Global, width: u32) -> CoverRows
        ensures { result ≡ record { width = width; is_on = true; rows = [] } }
    {
        CoverRows {
            width,
            is_on: true,
            count: 0,
            marks: SmallVec::new(alloc),
        }
    }

    /// How many marks a row has.
    pub fn width(&self) -> u32
        ensures width { result ≡ self.now.width }
        ensures cover { IsCover self.now }
    {
        self.width
    }

    /// The rows tell where the value is 1, and not where it is 0.
    pub fn is_on(&self) -> bool
        ensures { result ≡ self.now.is_on }
    {
        self.is_on
    }

    /// How many rows there are.
    #[tactic(auto, using(crate::proofs::RowLaws::length_cut))]
    pub fn row_count(&self) -> u32
        ensures { result ≡ length self.now.rows }
    {
        self.count
    }

    /// The marks of row i, as many as the cover is wide.
    #[tactic(auto, using(crate::proofs::CoverLaws::rows_of_covers))]
    pub fn row(&self, i: u32) -> &[u8]
        requires { i < length self.now.rows }
        ensures row { slice_get self.now.rows i ≡ Some result.now }
        ensures marks { IsRow self.now.width result.now }
    {
        row_at(self.marks.as_slice(), self.width as usize, self.count, i)
    }

    /// The value on these bits, as many as the cover is wide.
    #[tactic(auto, unfolding(crate::specs::Cover::cover_value))]
    pub fn value(&self, bits: &[bool]) -> bool
        requires { length bits.now ≡ self.now.width }
        ensures { result ≡ cover_value self.now bits.now }
    {
        let some = some_row_fits(self.marks.as_slice(), self.width as usize, self.count, bits);
        if self.is_on { some } else { !some }
    }

    /// The values of 64 runs at once: bit j is the value on the bits j of the words, as many as the cover is wide.
    #[tactic(auto, using(crate::proofs::WordLaws::word_bits), unfolding(crate::specs::Cover::cover_value))]
    pub fn wide_value(&self, bits: &[u64]) -> u64
        requires { length bits.now ≡ self.now.width }
        ensures { (j : ℕ) → j < 64 → word_bit j result ≡ cover_value self.now (bits_of j bits.now) }
    {
        let any = wide_some_row(self.marks.as_slice(), self.width as usize, self.count, bits);
        if self.is_on { any } else { !any }
    }

    /// The same width, polarity and rows in order.
    #[tactic(auto, using(crate::proofs::CoverLaws::same_counts))]
    pub fn same(&self, other: &CoverRows) -> bool
        ensures { IsTrue result ↔ (self.now ≡ other.now) }
    {
        if self.width != other.width || self.is_on != other.is_on || self.count != other.count {
            return false;
        }
        same_rows(
            self.width as usize,
            self.count,
            self.marks.as_slice(),
            other.marks.as_slice(),
        )
    }

    /// A number that is the same for rows that are the same, and seldom for others.
    pub fn mix(&self) -> u32 {
        let mut mix = self.width ^ u32::from(self.is_on);
        for mark in self.marks.as_slice() {
            mix = (mix ^ u32::from(*mark)).wrapping_mul(16_777_619);
        }
        mix ^ (mix >> 15)
    }

    /// The same cover once more.
    pub fn copy(&self, alloc: Global) -> Result<CoverRows, OutOfMemory>
        ensures { IfOk result (λ cover. cover ≡ self.now) }
    {
        let marks = SmallVec::from_slice(alloc, self.marks.as_slice())?;
        Ok(CoverRows {
            width: self.width,
            is_on: self.is_on,
            count: self.count,
            marks,
        })
    }

    /// The first reason to refuse the row.
    #[tactic(auto, using(crate::proofs::RowLaws::length_cut))]
    pub fn first_fault(&self, row: &[u8], output: u8) -> Option<RowFault>
        ensures { result ≡ row_fault self.now row.now output }
    {
        if row.len() != self.width as usize {
            return Some(RowFault::Width);
        }
        if !(are_legal_marks(row) && is_legal_output(output)) {
            return Some(RowFault::BadChar);
        }
        if self.count != 0 && self.is_on != (output == b'1') {
            return Some(RowFault::Mixed);
        }
        None
    }

    /// Adds a row of marks (`0`, `1` and `-`) with its output (`0` or `1`) behind the others.
    ///
    /// `Width`, `BadChar` and `Mixed` come exactly where their cause stands, the first of them in this
    /// order. After a refusal the cover is unchanged.
    pub fn push_row(&mut self, row: &[u8], output: u8) -> Result<(), RowFault>
        requires { length self.old.rows < 4294967295 }
        ensures ok { OnOk result (self.new ≡ with_row self.old row.now output) }
        ensures fits { OnOk result (row_fault self.old row.now output ≡ None) }
        ensures refused { IfErr result (λ fault. fault ≢ RowFault.Memory → row_fault self.old row.now output ≡ Some fault) }
        ensures refused_only { (fault : RowFault) → row_fault self.old row.now output ≡ Some fault → result ≡ Err fault }
        ensures err { OnErr result (self.new ≡ self.old) }
    {
        if let Some(fault) = self.first_fault(row, output) {
            return Err(fault);
        }
        match self.marks.extend_from_slice(row) {
            Ok(()) => {
                self.count += 1;
                self.is_on = output == b'1';
                Ok(())
            }
            Err(_) => Err(RowFault::Memory),
        }
    }
}
