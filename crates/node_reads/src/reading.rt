//! For each node the other nodes that read it, and the other nodes that it reads.
ghost use Rattle.std.specs.Prelude.{◌≡◌, ◌<◌, ◌+◌, ◌==◌, ℕ, Bool, length, take, IfOk, OnOk, [], slice_index_or};
ghost use Rattle.std.specs.List.{list_any};
ghost use Rattle.flat_net.specs.Net.{Net, node_of, pins_at};
ghost use Rattle.node_reads.specs.Noting.{ends_in, noted, Lists};
ghost use Rattle.node_reads.specs.Private.Marking.{ListsMarked, marked_by_pins};
ghost use Rattle.node_reads.specs.Sources.{reads_other, is_source, AreOtherReaders, AreSources};

use crate::notes::Notes;
use flat_net::{FlatNet, nodes_of};
use graph::Graph;
use std::alloc::Global;
use tmr_base::{NetId, OutOfMemory};

/// Notes the node that pin j of node y reads.
fn note_pin(n: &FlatNet, rows: &mut Notes, y: u32, j: u32) -> Result<(), OutOfMemory>
    requires node { y < length n.now.net.nodes }
    requires pin { j < length (pins_at (node_of n.now.net (length n.now.net.inputs + y))) }
    requires listed { ListsMarked (reads_other n.now.net) y (length n.now.net.nodes) (marked_by_pins n.now.net y j) rows.old }
    ensures { OnOk result (ListsMarked (reads_other n.now.net) y (length n.now.net.nodes) (marked_by_pins n.now.net y (j + 1)) rows.new) }
{
    let _nodes = nodes_of(n);
    let inputs = n.input_count();
    let pin = n.pin(NetId(inputs + y), j);
    if pin.0 < inputs {
        return Ok(());
    }
    let x = pin.0 - inputs;
    if x == y {
        return Ok(());
    }
    rows.note(x, y)?;
    Ok(())
}

/// Notes the nodes that node y reads.
#[tactic(auto, using(crate::proofs::PinLaws::pins_start, crate::proofs::PinLaws::pins_end))]
fn note_pins(n: &FlatNet, rows: &mut Notes, y: u32) -> Result<(), OutOfMemory>
    requires node { y < length n.now.net.nodes }
    requires listed { Lists (reads_other n.now.net) y (length n.now.net.nodes) rows.old }
    ensures { OnOk result (Lists (reads_other n.now.net) (y + 1) (length n.now.net.nodes) rows.new) }
{
    let _nodes = nodes_of(n);
    let node = NetId(n.input_count() + y);
    for j in 0..n.pin_count(node) {
        note_pin(n, rows, y, j)?;
    }
    Ok(())
}

/// For each node the other nodes that read it, in ascending order.
fn noted_readers(alloc: Global, n: &FlatNet) -> Result<Notes, OutOfMemory>
    ensures { IfOk result (λ rows. AreOtherReaders n.now.net rows) }
{
    let count = nodes_of(n);
    let mut rows = Notes::empty(alloc, count, n.pin_total() as usize)?;
    for y in 0..count {
        note_pins(n, &mut rows, y)?;
    }
    Ok(rows)
}

/// For each node the other nodes that read it, in ascending order.
pub fn packed_readers_of(alloc: Global, n: &FlatNet) -> Result<Graph, OutOfMemory>
    ensures { IfOk result (λ rows. AreOtherReaders n.now.net rows) }
{
    let rows = noted_readers(alloc, n)?;
    let packed = rows.packed(alloc)?;
    Ok(packed)
}

/// Notes node x in the rows of the nodes of `n` that read it.
fn note_readers(n: &FlatNet, readers: &Graph, rows: &mut Notes, x: u32) -> Result<(), OutOfMemory>
    requires node { x < length n.now.net.nodes }
    requires readers { AreOtherReaders n.now.net readers.now }
    requires listed { Lists (is_source n.now.net) x (length n.now.net.nodes) rows.old }
    ensures { OnOk result (Lists (is_source n.now.net) (x + 1) (length n.now.net.nodes) rows.new) }
{
    let _nodes = nodes_of(n);
    for y in readers.row(x) {
        rows.note(*y, x)?;
    }
    Ok(())
}

/// For each node the other nodes that it reads, in ascending order, from the nodes that read each.
fn noted_sources(alloc: Global, n: &FlatNet, readers: &Graph) -> Result<Notes, OutOfMemory>
    requires { AreOtherReaders n.now.net readers.now }
    ensures { IfOk result (λ rows. AreSources n.now.net rows) }
{
    let count = nodes_of(n);
    let mut rows = Notes::empty(alloc, count, n.pin_total() as usize)?;
    for x in 0..count {
        note_readers(n, readers, &mut rows, x)?;
    }
    Ok(rows)
}

/// For each node the other nodes that it reads, in ascending order, from the nodes that read each.
pub fn sources_of(alloc: Global, n: &FlatNet, readers: &Graph) -> Result<Graph, OutOfMemory>
    requires { AreOtherReaders n.now.net readers.now }
    ensures { IfOk result (λ rows. AreSources n.now.net rows) }
{
    let rows = noted_sources(alloc, n, readers)?;
    let packed = rows.packed(alloc)?;
    Ok(packed)
}
