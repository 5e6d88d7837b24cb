//! A cover.
ghost use Rattle.std.specs.Prelude.{◌≡◌, ◌≢◌, ◌↔◌, ◌<◌, ◌^◌, ℕ, Some, None, [], ◌∷◌, true, length, slice_get, IfOk, OnOk, OnErr, IfErr, IfSome, IsNone, IsTrue};
ghost use Rattle.table_cover.specs.Cover.{PlainCover, IsCover, IsMajority, IsRow, cover_value, majority_of};
ghost use Rattle.table_cover.specs.Words.{word_bit, bits_of};
ghost use Rattle.table_cover.specs.Pushing.{row_fault, with_row};
ghost use Rattle.table_cover.specs.Sharing.{bare_cover};
ghost use Rattle.table_cover.specs.declared.cover.RowFault.{RowFault};

use crate::cover_rows::CoverRows;
use crate::majority;
use std::alloc::Global;
use std::marker::Model;
use std::rc::Rc;
use tmr_base::OutOfMemory;

/// What a cover keeps: its width alone while it has no rows, and then its rows, which its copies share.
#[derive(Debug, Drop)]
enum Form {
    Bare(u32),
    Held(Rc<CoverRows>),
}

/// The rows of a table, and whether they tell where the value is 1 or where it is 0.
///
/// Each row is as wide as the cover. A cover without rows has polarity on, so its value is 0. A copy shares the rows of
/// its original and takes no memory, until a row is added to one of them.
#[derive(Debug, Drop)]
pub struct Cover {
    alloc: Global,
    form: Form,
}

impl Model for Cover {
    ghost use Rattle.table_cover.specs.Cover.{PlainCover, IsCover};
    ghost use Rattle.table_cover.specs.Sharing.{cover_of};

    ghost Value = { PlainCover };

    ghost view = { λ k. cover_of k.form };

    ghost invariant = { λ k. IsCover (cover_of k.form) };
}

/// Why a row is refused. Where more than one cause stands, `Width` comes before `BadChar`, and `BadChar` before `Mixed`.
#[derive(Clone, Copy, Debug, PartialEq, Eq, Drop)]
pub enum RowFault {
    /// The row is not as wide as the cover.
    Width,
    /// A row with the other output is there.
    Mixed,
    /// A mark is none of `0`, `1` and `-`, or the output is neither `0` nor `1`.
    BadChar,
    /// There was no memory for the row.
    Memory,
}

/// Adds a row to the rows that a cover holds, where they have no other owner, and else to a copy of them.
fn push_held(
    alloc: Global,
    held: &mut Rc<CoverRows>,
    row: &[u8],
    output: u8,
) -> Result<(), RowFault>
    requires { length held.old.value.rows < 4294967295 }
    ensures ok { OnOk result (held.new.value ≡ with_row held.old.value row.now output) }
    ensures fits { OnOk result (row_fault held.old.value row.now output ≡ None) }
    ensures refused { IfErr result (λ fault. fault ≢ RowFault.Memory → row_fault held.old.value row.now output ≡ Some fault) }
    ensures refused_only { (fault : RowFault) → row_fault held.old.value row.now output ≡ Some fault → result ≡ Err fault }
    ensures err { OnErr result (held.new.value ≡ held.old.value) }
{
    if let Some(rows) = Rc::get_mut(held) {
        return rows.push_row(row, output);
    }
    if let Some(fault) = held.first_fault(row, output) {
        return Err(fault);
    }
    let Ok(mut rows) = held.copy(alloc) else {
        return Err(RowFault::Memory);
    };
    rows.push_row(row, output)?;
    let Ok(rows) = Rc::new(alloc, rows) else {
        return Err(RowFault::Memory);
    };
    *held = rows;
    Ok(())
}

impl Cover {
    /// A cover of this width without rows.
    pub fn new(alloc: Global, width: u32) -> Cover
        ensures { result ≡ record { width = width; is_on = true; rows = [] } }
    {
        Cover {
            alloc,
            form: Form::Bare(width),
        }
    }

    /// The rows, if there is one.
    fn held(&self) -> Option<&CoverRows>
        ensures some { IfSome result (λ rows. rows.now ≡ self.now) }
        ensures none { IsNone result → self.now ≡ bare_cover self.now.width }
    {
        match &self.form {
            Form::Bare(_) => None,
            Form::Held(rows) => Some(rows),
        }
    }

    /// How many marks a row has.
    pub fn width(&self) -> u32
        ensures width { result ≡ self.now.width }
        ensures cover { IsCover self.now }
    {
        match &self.form {
            Form::Bare(width) => *width,
            Form::Held(rows) => rows.width(),
        }
    }

    /// The rows tell where the value is 1, and not where it is 0.
    pub fn is_on(&self) -> bool
        ensures { result ≡ self.now.is_on }
    {
        match self.held() {
            Some(rows) => rows.is_on(),
            None => true,
        }
    }

    /// How many rows there are.
    pub fn row_count(&self) -> u32
        ensures { result ≡ length self.now.rows }
    {
        match self.held() {
            Some(rows) => rows.row_count(),
            None => 0,
        }
    }

    /// The marks of row i, as many as the cover is wide.
    pub fn row(&self, i: u32) -> &[u8]
        requires { i < length self.now.rows }
        ensures row { slice_get self.now.rows i ≡ Some result.now }
        ensures marks { IsRow self.now.width result.now }
    {
        match self.held() {
            Some(rows) => rows.row(i),
            None => unreachable!(),
        }
    }

    /// The value on these bits, as many as the cover is wide.
    #[tactic(auto, unfolding(crate::specs::Cover::cover_value))]
    pub fn value(&self, bits: &[bool]) -> bool
        requires { length bits.now ≡ self.now.width }
        ensures { result ≡ cover_value self.now bits.now }
    {
        match self.held() {
            Some(rows) => rows.value(bits),
            None => false,
        }
    }

    /// The values of 64 runs at once: bit j is the value on the bits j of the words, as many as the cover is wide.
    #[tactic(auto, using(crate::proofs::WordLaws::word_bits), unfolding(crate::specs::Cover::cover_value))]
    pub fn wide_value(&self, bits: &[u64]) -> u64
        requires { length bits.now ≡ self.now.width }
        ensures { (j : ℕ) → j < 64 → word_bit j result ≡ cover_value self.now (bits_of j bits.now) }
    {
        match self.held() {
            Some(rows) => rows.wide_value(bits),
            None => 0,
        }
    }

    /// The width is 3, and the value is the majority on all eight rows of bits.
    pub fn is_majority(&self) -> bool
        ensures { IsTrue result ↔ IsMajority self.now }
    {
        if self.width() != 3 {
            return false;
        }
        self.votes(false, false, false)
            && self.votes(false, false, true)
            && self.votes(false, true, false)
            && self.votes(false, true, true)
            && self.votes(true, false, false)
            && self.votes(true, false, true)
            && self.votes(true, true, false)
            && self.votes(true, true, true)
    }

    /// The value on these three bits is their majority.
    fn votes(&self, a: bool, b: bool, c: bool) -> bool
        requires { self.now.width ≡ 3 }
        ensures { IsTrue result ↔ (cover_value self.now (a ∷ b ∷ c ∷ []) ≡ majority_of a b c) }
    {
        self.value(&[a, b, c]) == majority(a, b, c)
    }

    /// The same width, polarity and rows in order.
    pub fn same(&self, other: &Cover) -> bool
        ensures { IsTrue result ↔ (self.now ≡ other.now) }
    {
        match (self.held(), other.held()) {
            (Some(a), Some(b)) => a.same(b),
            (None, None) => self.width() == other.width(),
            _ => self.row_count() == other.row_count() && self.width() == other.width(),
        }
    }

    /// A number that is the same for covers that are the same, and seldom for others.
    pub(crate) fn mix(&self) -> u32 {
        match self.held() {
            Some(rows) => rows.mix(),
            None => self.width(),
        }
    }

    /// The same cover once more. It shares the rows.
    pub fn copy(&self, alloc: Global) -> Result<Cover, OutOfMemory>
        ensures { IfOk result (λ cover. cover ≡ self.now) }
    {
        let form = match &self.form {
            Form::Bare(width) => Form::Bare(*width),
            Form::Held(rows) => Form::Held(rows.clone()?),
        };
        Ok(Cover { alloc, form })
    }

    /// Adds the first row to a cover of this width.
    fn push_first(&mut self, width: u32, row: &[u8], output: u8) -> Result<(), RowFault>
        requires { self.old ≡ bare_cover width }
        ensures ok { OnOk result (self.new ≡ with_row self.old row.now output) }
        ensures fits { OnOk result (row_fault self.old row.now output ≡ None) }
        ensures refused { IfErr result (λ fault. fault ≢ RowFault.Memory → row_fault self.old row.now output ≡ Some fault) }
        ensures refused_only { (fault : RowFault) → row_fault self.old row.now output ≡ Some fault → result ≡ Err fault }
        ensures err { OnErr result (self.new ≡ self.old) }
    {
        let mut rows = CoverRows::new(self.alloc, width);
        rows.push_row(row, output)?;
        let Ok(rows) = Rc::new(self.alloc, rows) else {
            return Err(RowFault::Memory);
        };
        self.form = Form::Held(rows);
        Ok(())
    }

    /// Adds a row of marks (`0`, `1` and `-`) with its output (`0` or `1`) behind the others.
    ///
    /// `Width`, `BadChar` and `Mixed` come exactly where their cause stands, the first of them in this
    /// order. After a refusal the cover is unchanged.
    pub fn push_row(&mut self, row: &[u8], output: u8) -> Result<(), RowFault>
        requires { length self.old.rows < 4294967295 }
        ensures ok { OnOk result (self.new ≡ with_row self.old row.now output) }
        ensures fits { OnOk result (row_fault self.old row.now output ≡ None) }
        ensures refused { IfErr result (λ fault. fault ≢ RowFault.Memory → row_fault self.old row.now output ≡ Some fault) }
        ensures refused_only { (fault : RowFault) → row_fault self.old row.now output ≡ Some fault → result ≡ Err fault }
        ensures err { OnErr result (self.new ≡ self.old) }
    {
        match &mut self.form {
            Form::Bare(width) => {
                let width = *width;
                self.push_first(width, row, output)
            }
            Form::Held(held) => push_held(self.alloc, held, row, output),
        }
    }
}
