//! An order of the nodes in which each table stands after each table that it reads, or a loop of tables.
ghost use Rattle.std.specs.Prelude.{◌≡◌, ◌+◌, ◌<◌, ℕ, length, map, slice_index, OnOk, IfOk};
ghost use Rattle.flat_net.specs.Nodes.{number_of};
ghost use Rattle.flat_net.specs.Private.Found.{IsFound};
ghost use Rattle.flat_net.specs.Private.TableReads.{read_of, table_row, table_rows};

use crate::nodes::Body;
use crate::wiring::Wiring;
use graph::{Graph, Sorted, order_or_cycle};
use std::alloc::Global;
use tmr_base::{NetId, OutOfMemory};

/// What a search over tables ends with.
#[derive(Drop)]
pub enum Found {
    Order(Vec<NetId>),
    Loop(Vec<NetId>),
}

/// The node that a pin names, counted from the first; a number past all nodes where it names an input.
#[tactic(auto, unfolding(crate::specs::Private::TableReads::read_of))]
fn read_of(inputs: u32, past: u32, pin: NetId) -> u32
    ensures { result ≡ read_of inputs past pin.0 }
{
    if pin.0 < inputs { past } else { pin.0 - inputs }
}

/// Makes `row` the nodes that these pins name.
fn put_reads(pins: &[NetId], inputs: u32, past: u32, row: &mut Vec<u32>) -> Result<(), OutOfMemory>
    ensures { OnOk result (row.new.items ≡ map (read_of inputs past) (map number_of pins.now)) }
{
    row.clear();
    for pin in pins {
        row.push(read_of(inputs, past, *pin))?;
    }
    Ok(())
}

/// Makes `row` the nodes that node y reads, where it is a table.
#[tactic(auto, using(crate::proofs::Bodies::table_reads, crate::proofs::Bodies::register_reads))]
fn put_row(wiring: &Wiring, y: u32, row: &mut Vec<u32>) -> Result<(), OutOfMemory>
    requires { y < length wiring.now.nodes }
    ensures { OnOk result (row.new.items ≡ table_row wiring.now y) }
{
    let inputs = wiring.input_count();
    let x = NetId(inputs + y);
    match wiring.body(x) {
        Body::TableBody(_) => put_reads(wiring.pins_of(x), inputs, wiring.node_count(), row),
        Body::RegisterBody(_) => {
            row.clear();
            Ok(())
        }
    }
}

/// What each node reads, where it is a table.
fn table_reads(alloc: Global, wiring: &Wiring) -> Result<Graph, OutOfMemory>
    ensures { IfOk result (λ graph. graph ≡ table_rows wiring.now) }
{
    let mut graph = Graph::with_room(alloc, wiring.node_count() as usize, wiring.all_pins().len())?;
    let mut row = Vec::new(alloc);
    for y in 0..wiring.node_count() {
        put_row(wiring, y, &mut row)?;
        graph.push(&row)?;
    }
    Ok(graph)
}

/// The nets of these nodes.
fn nets_of(alloc: Global, inputs: u32, nodes: &[u32]) -> Result<Vec<NetId>, OutOfMemory>
    requires { (k : ℕ) → k < length nodes.now → inputs + slice_index nodes.now k < 4294967296 }
    ensures { IfOk result (λ nets. map number_of nets.items ≡ map (λ x. inputs + x) nodes.now) }
{
    let mut nets = Vec::with_capacity(alloc, nodes.len())?;
    for x in nodes {
        nets.push(NetId(inputs + *x))?;
    }
    Ok(nets)
}

/// An order of all nodes in which each table stands after each table that it reads, or a loop of tables.
pub fn order_tables(alloc: Global, wiring: &Wiring) -> Result<Found, OutOfMemory>
    ensures { IfOk result (λ found. IsFound wiring.now found) }
{
    let inputs = wiring.input_count();
    let graph = table_reads(alloc, wiring)?;
    match order_or_cycle(alloc, &graph, wiring.node_count())? {
        Sorted::Order(nodes) => Ok(Found::Order(nets_of(alloc, inputs, &nodes)?)),
        Sorted::Cycle(nodes) => Ok(Found::Loop(nets_of(alloc, inputs, &nodes)?)),
    }
}
