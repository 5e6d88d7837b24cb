//! Which vertices read each vertex.
ghost use Rattle.std.specs.Prelude.{◌≡◌, ◌<◌, ◌+◌, length, IfOk, OnOk, slice_index};
ghost use Rattle.graph.specs.Rows.{row};
ghost use Rattle.graph.specs.Readers.{AreReaders};
ghost use Rattle.graph.specs.Private.Listing.{ListsTo};

use crate::Graph;
use crate::readers::Readers;
use std::alloc::Global;
use tmr_base::OutOfMemory;

/// Notes that y reads what stands at a place of its row.
fn note_read(
    graph: &Graph,
    readers: &mut Readers,
    y: u32,
    place: usize,
    count: u32,
) -> Result<(), OutOfMemory>
    requires count { count ≡ length graph.now }
    requires vertex { y < count }
    requires within { place < length (row graph.now y) }
    requires listed { ListsTo graph.now y place readers.old }
    ensures { OnOk result (ListsTo graph.now y (place + 1) readers.new) }
{
    let x = graph.row(y)[place];
    if count <= x {
        return Ok(());
    }
    readers.add(x, y)?;
    Ok(())
}

/// Notes what y reads.
fn note_reads(graph: &Graph, readers: &mut Readers, y: u32, count: u32) -> Result<(), OutOfMemory>
    requires count { count ≡ length graph.now }
    requires vertex { y < count }
    requires listed { ListsTo graph.now y 0 readers.old }
    ensures { OnOk result (ListsTo graph.now (y + 1) 0 readers.new) }
{
    for place in 0..graph.row(y).len() {
        note_read(graph, readers, y, place, count)?;
    }
    Ok(())
}

/// For each vertex the vertices that read it.
pub fn readers_of(alloc: Global, graph: &Graph, count: u32) -> Result<Readers, OutOfMemory>
    requires { count ≡ length graph.now }
    ensures { IfOk result (λ readers. AreReaders graph.now readers) }
{
    let mut readers = Readers::empty(alloc, count)?;
    for y in 0..count {
        note_reads(graph, &mut readers, y, count)?;
    }
    Ok(readers)
}
