//! The design as it is kept.
ghost use Rattle.std.specs.Prelude.{◌≡◌, ◌+◌, ◌-◌, ◌<◌, ◌≤◌, List, ℕ, Bool, length, map, sum_by, count_by, IfSome, IsTrue, Some, None, slice_get, slice_index};
ghost use Rattle.std.specs.Option.{option_map};
ghost use Rattle.flat_net.specs.Net.{Design, IsDesign, IsOrder, slot, net_count, node_of, pins_at, pins_of, all_pins, net_names, pin_total, register_count, is_register, IsTable, IsRegister, IsCoverOf, IsInitOf, name_of, net_named};
ghost use Rattle.flat_net.specs.Kinds.{kind_of};
ghost use Rattle.flat_net.specs.Nodes.{number_of};

use crate::Kind;
use crate::nodes::{Body, PackedNodes, id_at};
use crate::wiring::Wiring;
use indexmap::IndexSet;
use std::marker::Model;
use table_cover::Cover;
use tmr_base::{Edge, Name, NetId};

/// A flat synchronous design. Nets are numbered: inputs first, then nodes in order.
#[derive(Drop)]
pub struct FlatNet {
    wiring: Wiring,
    order: Vec<NetId>,
}

impl Model for FlatNet {
    ghost use Rattle.flat_net.specs.Net.{Design, IsDesign};

    ghost Value = { Design };

    ghost use Rattle.flat_net.specs.DesignView.{design_of};

    ghost view = { design_of };

    ghost invariant = { λ n. IsDesign (design_of n) };
}

impl FlatNet {
    ghost use Rattle.std.specs.Prelude.{◌≡◌};
    ghost use Rattle.flat_net.specs.View.{net_of, IsWiring};

    /// A design with an order of its nodes.
    pub(crate) fn new(wiring: Wiring, order: Vec<NetId>) -> FlatNet
        requires { IsOrder wiring (map number_of order.items) }
        ensures { result ≡ record { net = wiring; order = map number_of order.items } }
    {
        let _inputs = wiring.input_count();
        FlatNet { wiring, order }
    }

    /// A design of net numbers: the names of all nets in order, of which the first are the inputs'; the nodes; the
    /// outputs; the clock; and an order of the nodes in which each table stands behind each table that it reads.
    pub fn make(
        model: Name,
        names: IndexSet<Name>,
        inputs: u32,
        nodes: PackedNodes,
        outputs: Vec<NetId>,
        clock: Option<(Edge, Name)>,
        order: Vec<NetId>,
    ) -> FlatNet
        requires wiring { IsWiring (record { model = model; names = names; inputs = inputs; nodes = nodes; outputs = outputs; clock = clock }) }
        requires order { IsOrder (net_of (record { model = model; names = names; inputs = inputs; nodes = nodes; outputs = outputs; clock = clock })) (map number_of order.items) }
        ensures { result ≡ record { net = net_of (record { model = model; names = names; inputs = inputs; nodes = nodes; outputs = outputs; clock = clock }); order = map number_of order.items } }
    {
        FlatNet::new(
            Wiring::new(model, names, inputs, nodes, outputs, clock),
            order,
        )
    }
}

impl FlatNet {
    /// How many inputs there are. Each design is valid.
    pub fn input_count(&self) -> u32
        ensures count { result ≡ length self.now.net.inputs }
        ensures design { IsDesign self.now }
    {
        self.wiring.input_count()
    }

    /// How many nodes there are.
    pub fn node_count(&self) -> u32
        ensures { result ≡ length self.now.net.nodes }
    {
        self.wiring.node_count()
    }

    /// How many outputs there are.
    pub fn output_count(&self) -> u32
        ensures { result ≡ length self.now.net.outputs }
    {
        self.wiring.outputs().len() as u32
    }

    /// Output k.
    #[tactic(auto, using(crate::proofs::Ranges::output_in_range))]
    pub fn output(&self, k: u32) -> NetId
        requires { k < length self.now.net.outputs }
        ensures output { slice_get self.now.net.outputs k ≡ Some result.0 }
        ensures range { result.0 < net_count self.now.net }
    {
        id_at(self.wiring.outputs(), k as usize)
    }

    /// What net x is.
    #[tactic(auto, using(crate::proofs::Bodies::kinds))]
    pub fn kind(&self, x: NetId) -> Kind
        requires { x.0 < net_count self.now.net }
        ensures { result ≡ kind_of (node_of self.now.net x.0) }
    {
        if x.0 < self.input_count() {
            return Kind::Input;
        }
        match self.wiring.body(x) {
            Body::TableBody(_) => Kind::Table,
            Body::RegisterBody(_) => Kind::Register,
        }
    }

    /// How many pins net x has. An input has none.
    #[tactic(auto, using(crate::proofs::Bodies::no_pins))]
    pub fn pin_count(&self, x: NetId) -> u32
        requires { x.0 < net_count self.now.net }
        ensures { result ≡ length (pins_at (node_of self.now.net x.0)) }
    {
        if x.0 < self.input_count() {
            return 0;
        }
        self.wiring.pins_of(x).len() as u32
    }

    /// Pin j of net x.
    #[tactic(auto, using(crate::proofs::Bodies::node_from_pins))]
    pub fn pin(&self, x: NetId, j: u32) -> NetId
        requires range { x.0 < net_count self.now.net }
        requires pin { j < length (pins_at (node_of self.now.net x.0)) }
        ensures value { result.0 ≡ slice_index (pins_at (node_of self.now.net x.0)) j }
        ensures range { result.0 < net_count self.now.net }
    {
        self.wiring.pins_of(x)[j as usize]
    }

    /// The cover of table x.
    pub fn cover(&self, x: NetId) -> &Cover
        requires range { x.0 < net_count self.now.net }
        requires table { IsTable (node_of self.now.net x.0) }
        ensures cover { IsCoverOf (node_of self.now.net x.0) result.now }
        ensures width { length (pins_at (node_of self.now.net x.0)) ≡ result.now.width }
    {
        self.wiring.cover(x)
    }

    /// The initial value of register x.
    #[tactic(auto, using(crate::proofs::Bodies::inits, crate::proofs::Ranges::register_within))]
    pub fn init(&self, x: NetId) -> bool
        requires range { x.0 < net_count self.now.net }
        requires register { IsRegister (node_of self.now.net x.0) }
        ensures { IsInitOf (node_of self.now.net x.0) result }
    {
        match self.wiring.body(x) {
            Body::TableBody(_) => unreachable!(),
            Body::RegisterBody(init) => *init,
        }
    }

    /// The clock's edge and name, if there is a clock.
    pub fn clock(&self) -> Option<(Edge, &Name)>
        ensures { option_map (λ clock. (clock.0, clock.1.now)) result ≡ self.now.net.clock }
    {
        self.wiring.clock()
    }

    /// The model's name.
    pub fn model(&self) -> &Name
        ensures { result.now ≡ self.now.net.model }
    {
        self.wiring.model()
    }

    /// How many registers there are.
    pub fn register_count(&self) -> u32
        ensures { result ≡ register_count self.now.net }
    {
        self.wiring.register_count()
    }

    /// How many pins all nodes have together.
    pub fn pin_total(&self) -> u32
        ensures { result ≡ pin_total self.now.net }
    {
        let pins = self.wiring.all_pins();
        pins.len() as u32
    }

    /// Node i of an order of all nodes, each once, in which each table stands behind each table that it reads.
    pub fn ordered(&self, i: u32) -> NetId
        requires { i < length self.now.net.nodes }
        ensures ordered { slice_get self.now.order i ≡ Some result.0 }
        ensures low { length self.now.net.inputs ≤ result.0 }
        ensures high { result.0 < net_count self.now.net }
        ensures order { IsOrder self.now.net self.now.order }
    {
        id_at(&self.order, i as usize)
    }

    /// The name of net x.
    pub fn name(&self, x: NetId) -> &Name
        requires { x.0 < net_count self.now.net }
        ensures { result.now ≡ name_of self.now.net x.0 }
    {
        self.wiring.name(x)
    }

    /// The net with this name.
    pub fn find(&self, name: &Name) -> Option<NetId>
        ensures exact { option_map number_of result ≡ net_named self.now.net name.now }
        ensures range { IfSome result (λ x. x.0 < net_count self.now.net) }
    {
        match self.wiring.names().get_index_of(name) {
            Some(x) => Some(NetId(x as u32)),
            None => None,
        }
    }

    /// The pins of all nodes, node by node in order, and each node's pins in order.
    pub fn all_pins(&self) -> &[NetId]
        ensures pins { map number_of result.now ≡ all_pins self.now.net }
        ensures total { length result.now ≡ pin_total self.now.net }
    {
        self.wiring.all_pins()
    }

    /// The names of all nets, in the order of their numbers. The clock's name is none of them.
    pub fn net_names(&self) -> &IndexSet<Name>
        ensures { result.now.keys ≡ net_names self.now.net }
    {
        self.wiring.names()
    }
}
