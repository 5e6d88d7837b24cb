//! The design that a number gives.
ghost use Rattle.std.specs.Prelude.{◌≡◌, ◌+◌, ◌<◌, ◌≤◌, map, IfOk};
ghost use Rattle.std.specs.List.{range_with_len};
ghost use Rattle.flat_net.specs.Nodes.{number_of};
ghost use Rattle.tmr_trial.specs.Designs.{design_of, clock_for};

use crate::naming::{named, trial_names};
use crate::nodes::drawn_nodes;
use flat_net::FlatNet;
use std::alloc::Global;
use tmr_base::{Edge, Name, NetId, OutOfMemory};

/// So many net numbers from `start` on.
fn nets(alloc: Global, start: u32, count: u32) -> Result<Vec<NetId>, OutOfMemory>
    requires { start + count < 4294967296 }
    ensures { IfOk result (λ nets. map number_of nets.items ≡ range_with_len start count) }
{
    let mut nets = Vec::new(alloc);
    for k in 0..count {
        nets.push(NetId(start + k))?;
    }
    Ok(nets)
}

/// The clock of a design with so many registers.
#[tactic(auto, unfolding(crate::specs::Designs::clock_for))]
fn clock(alloc: Global, registers: u32) -> Result<Option<(Edge, Name)>, OutOfMemory>
    ensures { IfOk result (λ clock. clock ≡ clock_for registers) }
{
    if registers == 0 {
        return Ok(None);
    }
    let name = named(alloc, b"clk")?;
    Ok(Some((Edge::Rising, name)))
}

/// The design of so many nodes that is drawn from this number. It has 8 inputs; each node is a register or
/// a table of two pins, and no table reads a net behind it. The outputs are the last 8 nodes, or all of
/// fewer. One pass over the nodes.
pub fn design(alloc: Global, number: u64, nodes: u32) -> Result<FlatNet, OutOfMemory>
    requires { nodes ≤ 100000 }
    ensures { IfOk result (λ net. net.net ≡ design_of number nodes) }
{
    let names = trial_names(alloc, nodes)?;
    let packed = drawn_nodes(alloc, number, nodes)?;
    let last = nodes.min(8);
    let outputs = nets(alloc, 8 + (nodes - last), last)?;
    let clock = clock(alloc, packed.registers)?;
    let order = nets(alloc, 8, nodes)?;
    let model = named(alloc, b"trial")?;
    Ok(FlatNet::make(model, names, 8, packed, outputs, clock, order))
}
