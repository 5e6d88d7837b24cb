//! Where rows stand that grow side by side in one list.
ghost use Rattle.std.specs.Prelude.{◌≡◌, ◌+◌, ◌<◌, ◌≤◌, ◌++◌, ◌∷◌, [], length, map, slice_set, IfOk, OnOk};
ghost use Rattle.graph.specs.Private.Packed.{widened, grown, span_at};

use std::alloc::Global;
use std::marker::Model;
use tmr_base::OutOfMemory;

/// A row stands from `from` to `to`, and may grow until `limit`.
#[derive(Clone, Copy, Debug, PartialEq, Eq, Drop)]
pub struct Span {
    pub from: usize,
    pub to: usize,
    pub limit: usize,
}

/// The same in 32 bits each.
#[derive(Clone, Copy, Debug, PartialEq, Eq, Drop)]
struct NarrowSpan {
    from: u32,
    to: u32,
    limit: u32,
}

/// Where rows stand, one behind the other. Each place takes 32 bits up to the first row whose limit needs
/// more, and from there on as many bits as a place may need.
#[derive(Drop)]
pub struct Spans {
    narrow: Vec<NarrowSpan>,
    wide: Vec<Span>,
}

impl Model for Spans {
    ghost use Rattle.std.specs.Prelude.{List, map, ◌++◌};
    ghost use Rattle.graph.specs.declared.spans.Span.{Span};
    ghost use Rattle.graph.specs.Private.Packed.{widened};

    ghost Value = { List Span };

    ghost view = { λ spans. map widened spans.narrow.items ++ spans.wide.items };
}

/// The same in 32 bits each.
fn narrowed(span: Span) -> NarrowSpan
    requires from { span.from < 4294967296 }
    requires to { span.to < 4294967296 }
    requires limit { span.limit < 4294967296 }
    ensures { widened result ≡ span }
{
    NarrowSpan {
        from: span.from as u32,
        to: span.to as u32,
        limit: span.limit as u32,
    }
}

/// The same in as many bits as a place may need.
fn widened(span: NarrowSpan) -> Span
    ensures { result ≡ widened span }
{
    Span {
        from: span.from as usize,
        to: span.to as usize,
        limit: span.limit as usize,
    }
}

/// Span x of these, one list behind the other.
fn span_at(narrow: &[NarrowSpan], wide: &[Span], x: usize) -> Span
    requires { x < length narrow.now + length wide.now }
    ensures { result ≡ span_at (map widened narrow.now ++ wide.now) x }
{
    if x < narrow.len() {
        widened(narrow[x])
    } else {
        wide[x - narrow.len()]
    }
}

/// Row x is one longer.
fn grow_narrow(spans: &mut [NarrowSpan], x: usize)
    requires within { x < length spans.old }
    requires room { (span_at (map widened spans.old) x).to < (span_at (map widened spans.old) x).limit }
    ensures { map widened spans.new ≡ slice_set (map widened spans.old) x (grown (span_at (map widened spans.old) x)) }
{
    let span = spans[x];
    spans[x] = NarrowSpan {
        from: span.from,
        to: span.to + 1,
        limit: span.limit,
    };
}

/// Row x is one longer.
fn grow_wide(spans: &mut [Span], x: usize)
    requires within { x < length spans.old }
    requires room { (span_at spans.old x).to < (span_at spans.old x).limit }
    ensures { spans.new ≡ slice_set spans.old x (grown (span_at spans.old x)) }
{
    let span = spans[x];
    spans[x] = Span {
        from: span.from,
        to: span.to + 1,
        limit: span.limit,
    };
}

/// Row x of these, one list behind the other, is one longer.
fn grow_at(narrow: &mut [NarrowSpan], wide: &mut [Span], x: usize)
    requires within { x < length narrow.old + length wide.old }
    requires room { (span_at (map widened narrow.old ++ wide.old) x).to < (span_at (map widened narrow.old ++ wide.old) x).limit }
    ensures { map widened narrow.new ++ wide.new ≡ slice_set (map widened narrow.old ++ wide.old) x (grown (span_at (map widened narrow.old ++ wide.old) x)) }
{
    if x < narrow.len() {
        grow_narrow(narrow, x);
    } else {
        let place = x - narrow.len();
        grow_wide(wide, place);
    }
}

impl Spans {
    /// None, with room for so many.
    pub fn with_room(alloc: Global, count: usize) -> Result<Spans, OutOfMemory>
        ensures { IfOk result (λ spans. spans ≡ []) }
    {
        let narrow = Vec::with_capacity(alloc, count)?;
        Ok(Spans {
            narrow,
            wide: Vec::new(alloc),
        })
    }

    /// Span x.
    pub fn at(&self, x: usize) -> Span
        requires { x < length self.now }
        ensures { result ≡ span_at self.now x }
    {
        span_at(&self.narrow, &self.wide, x)
    }

    /// One more.
    pub fn push(&mut self, span: Span) -> Result<(), OutOfMemory>
        requires order { span.from ≤ span.to }
        requires room { span.to ≤ span.limit }
        ensures { OnOk result (self.new ≡ self.old ++ span ∷ []) }
    {
        if self.wide.is_empty() && span.limit < 4294967296 {
            self.narrow.push(narrowed(span))?;
        } else {
            self.wide.push(span)?;
        }
        Ok(())
    }

    /// Row x is one longer.
    pub fn grow(&mut self, x: usize)
        requires within { x < length self.old }
        requires room { (span_at self.old x).to < (span_at self.old x).limit }
        ensures { self.new ≡ slice_set self.old x (grown (span_at self.old x)) }
    {
        grow_at(&mut self.narrow, &mut self.wide, x);
    }
}
