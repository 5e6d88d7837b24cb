//! The registers of a design as one list.
ghost use Rattle.std.specs.Prelude.{◌≡◌, ◌<◌, ◌≤◌, ℕ, length, slice_get, Some, IfOk, IsTrue};
ghost use Rattle.flat_net.specs.Net.{net_count, node_of, IsRegister};
ghost use Rattle.net_simulator.specs.Registers.{Holds, AreRegisters};

use flat_net::{FlatNet, Kind};
use std::alloc::Global;
use tmr_base::{NetId, OutOfMemory};

/// What a register takes.
#[derive(Clone, Copy, Drop)]
pub struct Held {
    /// The register.
    pub net: NetId,
    /// The net whose value it takes from the cycle before.
    pub pin: NetId,
    /// Its value in the first cycle.
    pub init: bool,
}

/// Net x is a register.
#[tactic(auto, using(crate::proofs::Lanes::kinds))]
fn is_register(net: &FlatNet, x: NetId) -> bool
    requires { x.0 < net_count net.now.net }
    ensures yes { IsTrue result → IsRegister (node_of net.now.net x.0) }
    ensures no { IsRegister (node_of net.now.net x.0) → IsTrue result }
{
    match net.kind(x) {
        Kind::Register => true,
        Kind::Input => false,
        Kind::Table => false,
    }
}

/// What register x takes.
fn what_is_held(net: &FlatNet, x: NetId) -> Held
    requires range { x.0 < net_count net.now.net }
    requires node { length net.now.net.inputs ≤ x.0 }
    requires register { IsRegister (node_of net.now.net x.0) }
    ensures holds { Holds net.now.net result }
    ensures net { result.net.0 ≡ x.0 }
{
    Held {
        net: x,
        pin: net.pin(x, 0),
        init: net.init(x),
    }
}

/// The registers of the design.
pub fn registers_of(alloc: Global, net: &FlatNet) -> Result<Vec<Held>, OutOfMemory>
    ensures { IfOk result (λ rs. AreRegisters net.now.net rs.items) }
{
    let inputs = net.input_count();
    let mut registers = Vec::new(alloc);
    for i in 0..net.node_count() {
        let x = NetId(inputs + i);
        if is_register(net, x) {
            registers.push(what_is_held(net, x))?;
        }
    }
    Ok(registers)
}

/// Register i of the list.
pub fn held_at(net: &FlatNet, registers: &[Held], i: usize) -> Held
    requires registers { AreRegisters net.now.net registers.now }
    requires i { i < length registers.now }
    ensures there { slice_get registers.now i ≡ Some result }
    ensures holds { Holds net.now.net result }
    ensures high { result.net.0 < net_count net.now.net }
{
    registers[i]
}
