//! Rows of bits that grow in the places that are kept for them.
ghost use Rattle.std.specs.Prelude.{◌≡◌, ◌<◌, ◌≤◌, ◌++◌, ◌∷◌, [], length, map, false, slice_set, slice_index, slice_index_or};
ghost use Rattle.graph.specs.Rows.{row};
ghost use Rattle.graph.specs.Private.Packed.{span_in, room_in, ArePacked};

use crate::spans::{Span, Spans};
use std::marker::Model;

/// For each vertex, the bits that are decided of its reads so far. All rows lie side by side in one list.
#[derive(Drop)]
pub struct Decisions {
    spans: Spans,
    bits: Vec<bool>,
}

impl Model for Decisions {
    ghost use Rattle.std.specs.Prelude.{length, map};
    ghost use Rattle.graph.specs.Private.Packed.{PlainDecisions};

    ghost Value = { PlainDecisions };

    ghost use Rattle.graph.specs.Private.Packed.{span_in, room_in, ArePacked};

    ghost view = { λ d. record { rows = map (span_in d.bits.items) d.spans; room = map room_in d.spans } };

    ghost invariant = { λ d. ArePacked 0 d.spans (length d.bits.items) };
}

/// The part of the list that stands there.
fn part(bits: &[bool], span: Span) -> &[bool]
    requires order { span.from ≤ span.to }
    requires end { span.to ≤ length bits.now }
    ensures { result.now ≡ span_in bits.now span }
{
    &bits[span.from..span.to]
}

/// The row of vertex x.
fn bit_row<'a>(spans: &Spans, bits: &'a [bool], x: usize) -> &'a [bool]
    requires packed { ArePacked 0 spans.now (length bits.now) }
    requires within { x < length spans.now }
    ensures { result.now ≡ row (map (span_in bits.now) spans.now) x }
{
    part(bits, spans.at(x))
}

/// One more bit in the row of vertex x.
fn put(spans: &mut Spans, bits: &mut [bool], x: usize, bit: bool)
    requires packed { ArePacked 0 spans.old (length bits.old) }
    requires within { x < length spans.old }
    requires room { length (row (map (span_in bits.old) spans.old) x) < slice_index (map room_in spans.old) x }
    ensures packed { ArePacked 0 spans.new (length bits.new) }
    ensures rows { map (span_in bits.new) spans.new ≡ slice_set (map (span_in bits.old) spans.old) x (row (map (span_in bits.old) spans.old) x ++ bit ∷ []) }
    ensures room { map room_in spans.new ≡ map room_in spans.old }
{
    let span = spans.at(x);
    bits[span.to] = bit;
    spans.grow(x);
}

impl Decisions {
    /// Rows that stand so in these bits.
    pub fn new(spans: Spans, bits: Vec<bool>) -> Decisions
        requires { ArePacked 0 spans (length bits.items) }
        ensures rows { result.rows ≡ map (span_in bits.items) spans }
        ensures room { result.room ≡ map room_in spans }
    {
        Decisions { spans, bits }
    }

    /// The next read of vertex x is decided.
    pub fn decide(&mut self, x: u32, bit: bool)
        requires vertex { x < length self.old.rows }
        requires room { length (row self.old.rows x) < slice_index self.old.room x }
        ensures rows { self.new.rows ≡ slice_set self.old.rows x (row self.old.rows x ++ bit ∷ []) }
        ensures room { self.new.room ≡ self.old.room }
    {
        put(&mut self.spans, &mut self.bits, x as usize, bit);
    }

    /// How many reads of vertex x are decided.
    pub fn decided(&self, x: u32) -> usize
        requires { x < length self.now.rows }
        ensures { result ≡ length (row self.now.rows x) }
    {
        bit_row(&self.spans, &self.bits, x as usize).len()
    }

    /// What is decided of read j of vertex x.
    pub fn bit(&self, x: u32, j: u32) -> bool
        requires vertex { x < length self.now.rows }
        requires read { j < length (row self.now.rows x) }
        ensures { result ≡ slice_index_or (row self.now.rows x) j false }
    {
        bit_row(&self.spans, &self.bits, x as usize)[j as usize]
    }
}
