//! A design but for an order of its nodes, packed: the pins of all nodes stand in one list.
ghost use Rattle.std.specs.Prelude.{◌≡◌, ◌+◌, ◌-◌, ◌<◌, ◌≤◌, List, ℕ, Bool, length, map, sum_by, count_by, IfSome, IsTrue, ◌↔◌, Some, None, slice_get, slice_index};
ghost use Rattle.std.specs.List.{flat_map};
ghost use Rattle.std.specs.Option.{option_map};
ghost use Rattle.flat_net.specs.Net.{slot, net_count, node_of, pins_at, table_pins, pins_of, all_pins, pin_total, register_count, is_register, IsTable, IsRegister, IsCoverOf, IsInitOf, name_of, net_named, net_names, IsUnordered};
ghost use Rattle.flat_net.specs.Nodes.{number_of};
ghost use Rattle.flat_net.specs.Private.Bodies.{IsBodyOf};

use crate::nodes::{Body, PackedNodes, body_at, part_at};
use indexmap::IndexSet;
use std::marker::Model;
use table_cover::Cover;
use tmr_base::{Edge, Name, NetId};

/// A design but for an order. The names stand in the order of the nets' numbers.
#[derive(Drop)]
pub struct Wiring {
    model: Name,
    names: IndexSet<Name>,
    inputs: u32,
    nodes: PackedNodes,
    outputs: Vec<NetId>,
    clock: Option<(Edge, Name)>,
}

impl Model for Wiring {
    ghost use Rattle.flat_net.specs.Net.{Net};

    ghost Value = { Net };

    ghost use Rattle.flat_net.specs.View.{net_of, IsWiring};

    ghost view = { net_of };

    ghost invariant = { IsWiring };
}

impl Wiring {
    ghost use Rattle.std.specs.Prelude.{◌≡◌};
    ghost use Rattle.flat_net.specs.View.{net_of, IsWiring};

    /// A packed design.
    pub fn new(
        model: Name,
        names: IndexSet<Name>,
        inputs: u32,
        nodes: PackedNodes,
        outputs: Vec<NetId>,
        clock: Option<(Edge, Name)>,
    ) -> Wiring
        requires { IsWiring (record { model = model; names = names; inputs = inputs; nodes = nodes; outputs = outputs; clock = clock }) }
        ensures { result ≡ net_of (record { model = model; names = names; inputs = inputs; nodes = nodes; outputs = outputs; clock = clock }) }
    {
        Wiring {
            model,
            names,
            inputs,
            nodes,
            outputs,
            clock,
        }
    }
}

impl Wiring {
    /// How many inputs there are.
    #[tactic(auto, using(crate::proofs::PackedLaws::kept))]
    pub fn input_count(&self) -> u32
        ensures count { result ≡ length self.now.inputs }
        ensures net { IsUnordered self.now }
    {
        self.inputs
    }

    /// How many nodes there are.
    #[tactic(auto, using(crate::proofs::PackedLaws::kept))]
    pub fn node_count(&self) -> u32
        ensures { result ≡ length self.now.nodes }
    {
        self.nodes.bodies.len() as u32
    }

    /// The outputs.
    pub fn outputs(&self) -> &[NetId]
        ensures outputs { map number_of result.now ≡ self.now.outputs }
        ensures total { length result.now ≡ length self.now.outputs }
    {
        &self.outputs
    }

    /// What node x has beside its name and its pins.
    pub fn body(&self, x: NetId) -> &Body
        requires range { x.0 < net_count self.now }
        requires node { length self.now.inputs ≤ x.0 }
        ensures { IsBodyOf (node_of self.now x.0) result.now }
    {
        body_at(&self.nodes.bodies, (x.0 - self.inputs) as usize)
    }

    /// The pins of node x.
    pub fn pins_of(&self, x: NetId) -> &[NetId]
        requires range { x.0 < net_count self.now }
        requires node { length self.now.inputs ≤ x.0 }
        ensures { map number_of result.now ≡ pins_at (node_of self.now x.0) }
    {
        part_at(
            &self.nodes.ends,
            &self.nodes.pins,
            (x.0 - self.inputs) as usize,
        )
    }

    /// The cover of table x.
    #[tactic(auto, using(crate::proofs::Bodies::covers, crate::proofs::Ranges::table_within))]
    pub fn cover(&self, x: NetId) -> &Cover
        requires range { x.0 < net_count self.now }
        requires table { IsTable (node_of self.now x.0) }
        ensures { IsCoverOf (node_of self.now x.0) result.now }
    {
        match self.body(x) {
            Body::TableBody(cover) => cover,
            Body::RegisterBody(_) => unreachable!(),
        }
    }

    /// The clock's edge and name, if there is a clock.
    pub fn clock(&self) -> Option<(Edge, &Name)>
        ensures { option_map (λ clock. (clock.0, clock.1.now)) result ≡ self.now.clock }
    {
        match &self.clock {
            None => None,
            Some((edge, name)) => Some((*edge, name)),
        }
    }

    /// The model's name.
    pub fn model(&self) -> &Name
        ensures { result.now ≡ self.now.model }
    {
        &self.model
    }

    /// How many registers there are.
    pub fn register_count(&self) -> u32
        ensures { result ≡ register_count self.now }
    {
        self.nodes.registers
    }

    /// The pins of all nodes, node by node in order, each node's pins in order.
    #[tactic(auto, using(crate::proofs::PackedLaws::kept))]
    pub fn all_pins(&self) -> &[NetId]
        ensures pins { map number_of result.now ≡ all_pins self.now }
        ensures total { length result.now ≡ pin_total self.now }
    {
        &self.nodes.pins
    }

    /// The name of net x.
    pub fn name(&self, x: NetId) -> &Name
        requires { x.0 < net_count self.now }
        ensures { result.now ≡ name_of self.now x.0 }
    {
        &self.names()[x.0 as usize]
    }

    /// The names of all nets, in the order of their numbers.
    #[tactic(auto, using(crate::proofs::PackedLaws::kept))]
    pub fn names(&self) -> &IndexSet<Name>
        ensures { result.now.keys ≡ net_names self.now }
    {
        &self.names
    }
}
