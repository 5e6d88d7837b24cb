//! Pairs of upsets that strike two copies of one partition exactly its depth apart.
ghost use Rattle.std.specs.Prelude.{◌≡◌, ◌==◌, ◌+◌, ◌<◌, ◌≤◌, length, slice_get};
ghost use Rattle.std.specs.Option.{option_map};
ghost use Rattle.tmr_trial.specs.Members.{AreMembers};
ghost use Rattle.tmr_trial.specs.NearSchedules.{first_drawn, other_copy as other_copy_of, pair_with, pair_drawn};
ghost use Rattle.tmr_trial.specs.Numbers.{state_after, draw};

use crate::members::Members;
use crate::numbers::{Numbers, draw};
use crate::strikes::domain;
use certificate::Certificate;
use flat_net::FlatNet;
use tmr_base::{CopyNo, NetId, PartId, Upset};

/// Two upsets that strike two copies of one partition.
#[derive(Clone, Copy, Debug, PartialEq, Eq, Drop)]
pub struct NearPair {
    pub first: Upset,
    pub second: Upset,
}

/// One of the two other copies: the higher one, or the lower one.
fn other_copy(copy: CopyNo, higher: bool) -> CopyNo
    ensures { result ≡ other_copy_of copy higher }
{
    match copy {
        CopyNo::First if higher => CopyNo::Third,
        CopyNo::First => CopyNo::Second,
        CopyNo::Second if higher => CopyNo::Third,
        CopyNo::Third if higher => CopyNo::Second,
        CopyNo::Second | CopyNo::Third => CopyNo::First,
    }
}

/// Draws one of the nodes, where there are some. A number is drawn in any case.
fn draw_node(nodes: &[u32], numbers: &mut Numbers) -> Option<NetId>
    requires { length nodes.now < 4294967296 }
    ensures node { option_map (λ x. x.0) result ≡ slice_get nodes.now (draw numbers.old.state 0 (length nodes.now)) }
    ensures state { numbers.new.state ≡ state_after 1 numbers.old.state }
{
    if nodes.is_empty() {
        let _unused = draw(numbers, 1);
        return None;
    }
    let place = draw(numbers, nodes.len() as u32);
    Some(NetId(nodes[place as usize]))
}

/// The pair of this first upset and one of this node so many cycles later, where there is such a node, and such a cycle.
fn pair_with(
    cycles: u32,
    first: Upset,
    depth: u32,
    node: Option<NetId>,
    value: bool,
) -> Option<NearPair>
    ensures { result ≡ pair_with cycles first (first.cycle + depth) value (option_map (λ x. x.0) node) }
{
    match node {
        None => None,
        Some(net) => {
            let later = u64::from(first.cycle) + u64::from(depth);
            if later >= u64::from(cycles) {
                return None;
            }
            let second = Upset {
                cycle: later as u32,
                net,
                value,
            };
            Some(NearPair { first, second })
        }
    }
}

/// Draws the first upset of the pair of cycle t, which of the other copies the second one strikes, and the second value.
fn draw_first(h: &FlatNet, t: u32, numbers: &mut Numbers) -> (Upset, bool, bool)
    requires { 0 < length h.now.net.nodes }
    ensures first { result.0 ≡ first_drawn h.now.net t numbers.old.state }
    ensures higher { result.1 ≡ (draw numbers.old.state 1 2 == 1) }
    ensures value { result.2 ≡ (draw numbers.old.state 3 2 == 1) }
    ensures state { numbers.new.state ≡ state_after 4 numbers.old.state }
    ensures low { length h.now.net.inputs ≤ result.0.net.0 }
    ensures high { result.0.net.0 < length h.now.net.inputs + length h.now.net.nodes }
{
    let inputs = h.input_count();
    let node = draw(numbers, h.node_count());
    let higher = draw(numbers, 2) == 1;
    let value = draw(numbers, 2) == 1;
    let second_value = draw(numbers, 2) == 1;
    let first = Upset {
        cycle: t,
        net: NetId(inputs + node),
        value,
    };
    (first, higher, second_value)
}

/// Draws the pair that may begin in cycle t.
pub fn draw_pair(
    h: &FlatNet,
    c: &Certificate,
    members: &Members,
    cycles: u32,
    t: u32,
    numbers: &mut Numbers,
) -> Option<NearPair>
    requires inputs { c.now.hardened_inputs ≡ length h.now.net.inputs }
    requires nodes { length c.now.roles ≡ length h.now.net.nodes }
    requires some { 0 < length h.now.net.nodes }
    requires members { AreMembers c.now (length c.now.roles) members.now }
    ensures pair { result ≡ pair_drawn h.now.net c.now cycles t numbers.old.state }
    ensures state { numbers.new.state ≡ state_after 5 numbers.old.state }
{
    // What the certificate keeps.
    let _parts = c.parts();
    let (first, higher, value) = draw_first(h, t, numbers);
    let (p, copy) = domain(c, first.net);
    let nodes = members.row(p, other_copy(copy, higher));
    let node = draw_node(nodes, numbers);
    pair_with(cycles, first, c.depth(p), node, value)
}
