//! Rows that grow in any order.
ghost use Rattle.std.specs.Prelude.{◌≡◌, ◌<◌, ◌++◌, ◌∷◌, [], ℕ, List, length, replicate, map, slice_set, IfOk, OnOk};
ghost use Rattle.graph.specs.Rows.{row};
ghost use Rattle.graph.specs.Private.Packed.{row_items};

use crate::Graph;
use smallvec::SmallVec;
use std::alloc::Global;
use std::marker::Model;
use tmr_base::OutOfMemory;

/// A row, of which the first four numbers take no memory of their own.
type Row = SmallVec<u32, 4>;

/// For each vertex, the vertices that read it.
#[derive(Drop)]
pub struct Readers {
    rows: Vec<Row>,
}

impl Model for Readers {
    ghost use Rattle.std.specs.Prelude.{ℕ, List, map};
    ghost use Rattle.graph.specs.Private.Packed.{row_items};

    ghost Value = { List (List ℕ) };

    ghost view = { λ g. map row_items g.rows.items };
}

/// As many empty rows.
fn empty_rows(alloc: Global, count: u32) -> Result<Vec<Row>, OutOfMemory>
    ensures { IfOk result (λ rows. map row_items rows.items ≡ replicate count []) }
{
    let mut rows = Vec::with_capacity(alloc, count as usize)?;
    for made in 0..count {
        let _made = made;
        rows.push(SmallVec::new(alloc))?;
    }
    Ok(rows)
}

/// How many numbers the rows have.
fn room_of(rows: &[Row]) -> usize {
    let mut room: usize = 0;
    for row in rows {
        room = room.saturating_add(row.len());
    }
    room
}

/// The same rows, one behind the other.
fn packed_rows(alloc: Global, rows: &[Row]) -> Result<Graph, OutOfMemory>
    ensures { IfOk result (λ g. g ≡ map row_items rows.now) }
{
    let mut packed = Graph::with_room(alloc, rows.len(), room_of(rows))?;
    for row in rows {
        packed.push(row.as_slice())?;
    }
    Ok(packed)
}

impl Readers {
    /// So many vertices that nothing reads.
    pub fn empty(alloc: Global, count: u32) -> Result<Readers, OutOfMemory>
        ensures { IfOk result (λ readers. readers ≡ replicate count []) }
    {
        let rows = empty_rows(alloc, count)?;
        Ok(Readers { rows })
    }

    /// Vertex x is read by y too.
    pub fn add(&mut self, x: u32, y: u32) -> Result<(), OutOfMemory>
        requires { x < length self.old }
        ensures { OnOk result (self.new ≡ slice_set self.old x (row self.old x ++ y ∷ [])) }
    {
        self.rows[x as usize].push(y)?;
        Ok(())
    }

    /// What reads vertex x.
    pub fn row(&self, x: u32) -> &[u32]
        requires { x < length self.now }
        ensures { result.now ≡ row self.now x }
    {
        self.rows[x as usize].as_slice()
    }

    /// The same rows as a graph, which takes no more room than it needs.
    pub fn packed(&self, alloc: Global) -> Result<Graph, OutOfMemory>
        ensures { IfOk result (λ g. g ≡ self.now) }
    {
        packed_rows(alloc, &self.rows)
    }
}
