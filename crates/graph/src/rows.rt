//! Which vertex reads which.
ghost use Rattle.std.specs.Prelude.{◌≡◌, ◌<◌, ◌≤◌, ◌++◌, ◌∷◌, [], ℕ, List, length, map, replicate, slice_range, IfOk, OnOk};
ghost use Rattle.graph.specs.Rows.{row};
ghost use Rattle.graph.specs.Private.Packed.{rows_from, emptied_from, AreEnds};

use crate::deciding::Decisions;
use crate::offsets::Offsets;
use crate::spans::{Span, Spans};
use std::alloc::Global;
use std::marker::Model;
use tmr_base::OutOfMemory;

/// For each vertex, the numbers of the vertices that it reads, in order. A number past all vertices
/// stands for something else that is read. All rows stand in one list, which is cut at their ends.
#[derive(Drop)]
pub struct Graph {
    ends: Offsets,
    reads: Vec<u32>,
}

impl Model for Graph {
    ghost use Rattle.std.specs.Prelude.{ℕ, List, length};

    ghost Value = { List (List ℕ) };

    ghost use Rattle.graph.specs.Private.Packed.{rows_from, AreEnds};

    ghost view = { λ g. rows_from 0 g.ends g.reads.items };

    ghost invariant = { λ g. AreEnds 0 g.ends (length g.reads.items) };
}

/// The part of the list that stands there.
fn part(reads: &[u32], from: usize, to: usize) -> &[u32]
    requires order { from ≤ to }
    requires end { to ≤ length reads.now }
    ensures { result.now ≡ slice_range reads.now from to }
{
    &reads[from..to]
}

/// Row x.
fn row_at<'a>(ends: &Offsets, reads: &'a [u32], x: usize) -> &'a [u32]
    requires ends { AreEnds 0 ends.now (length reads.now) }
    requires within { x < length ends.now }
    ensures { result.now ≡ row (rows_from 0 ends.now reads.now) x }
{
    let (from, to) = ends.piece(x);
    part(reads, from, to)
}

/// Empty rows in the places of these.
fn empty_spans(alloc: Global, ends: &Offsets, count: usize) -> Result<Spans, OutOfMemory>
    requires { AreEnds 0 ends.now count }
    ensures { IfOk result (λ empty. empty ≡ emptied_from 0 ends.now) }
{
    let mut empty = Spans::with_room(alloc, ends.len())?;
    let mut from = 0;
    for x in 0..ends.len() {
        let limit = ends.at(x);
        empty.push(Span {
            from,
            to: from,
            limit,
        })?;
        from = limit;
    }
    Ok(empty)
}

impl Graph {
    /// No vertices.
    pub fn new(alloc: Global) -> Graph
        ensures { result ≡ [] }
    {
        Graph {
            ends: Offsets::new(alloc),
            reads: Vec::new(alloc),
        }
    }

    /// No vertices, with room for so many, which read so many together.
    pub fn with_room(alloc: Global, vertices: usize, reads: usize) -> Result<Graph, OutOfMemory>
        ensures { IfOk result (λ g. g ≡ []) }
    {
        let ends = Offsets::with_room(alloc, vertices)?;
        let reads = Vec::with_capacity(alloc, reads)?;
        Ok(Graph { ends, reads })
    }

    /// How many vertices there are.
    pub fn count(&self) -> usize
        ensures { result ≡ length self.now }
    {
        self.ends.len()
    }

    /// One more vertex, which reads these.
    pub fn push(&mut self, row: &[u32]) -> Result<(), OutOfMemory>
        ensures { OnOk result (self.new ≡ self.old ++ row.now ∷ []) }
    {
        let from = self.reads.len();
        self.reads.extend_from_slice(row)?;
        match self.ends.push(from + row.len()) {
            Ok(()) => Ok(()),
            Err(_) => {
                self.reads.truncate(from);
                Err(OutOfMemory)
            }
        }
    }

    /// What vertex x reads.
    pub fn row(&self, x: u32) -> &[u32]
        requires { x < length self.now }
        ensures { result.now ≡ row self.now x }
    {
        row_at(&self.ends, &self.reads, x as usize)
    }

    /// Nothing is decided of any read, and there is a place for each.
    pub(crate) fn undecided(&self, alloc: Global) -> Result<Decisions, OutOfMemory>
        ensures rows { IfOk result (λ d. d.rows ≡ replicate (length self.now) []) }
        ensures room { IfOk result (λ d. d.room ≡ map length self.now) }
    {
        let spans = empty_spans(alloc, &self.ends, self.reads.len())?;
        let bits = vec![in alloc; false; self.reads.len()]?;
        Ok(Decisions::new(spans, bits))
    }
}
