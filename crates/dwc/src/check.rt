//! Whether a design is the guarded design of another.
ghost use Rattle.std.specs.Prelude.{◌≡◌, ◌↔◌, ◌+◌, ◌≤◌, ◌<◌, length, IsTrue, IfOk, MatchOption};
ghost use Rattle.limits.specs.Most.{widest_nets};
ghost use Rattle.flat_net.specs.Net.{net_count, node_of, pins_at, pin_total};
ghost use Rattle.flat_net.specs.Kinds.{kind_of};
ghost use Rattle.dwc.specs.Guard.{guard_net};
ghost use Rattle.dwc.specs.Tells.{Guards};
ghost use Rattle.dwc.specs.Answer.{DifferFirst, SameFrame, IsAnswer};

use crate::guarding::{guard, guarded_designs_tell};
use flat_net::{FlatNet, Kind};
use std::alloc::Global;
use tmr_base::{Name, NetId, OutOfMemory};

/// What `check_guard` answers: the least rule that fails, and the first place where it does.
#[derive(Clone, Copy, Debug, PartialEq, Eq, Drop)]
pub enum GuardAnswer {
    Guarded,
    Not { rule: u8, at: u32 },
}

/// Two names are the same.
fn same_name(a: &Name, b: &Name) -> bool
    ensures { IsTrue result ↔ (a.now ≡ b.now) }
{
    a == b
}

/// Two initial values are the same.
fn same_bit(a: bool, b: bool) -> bool
    ensures { IsTrue result ↔ (a ≡ b) }
{
    a == b
}

/// Both have the same clock, or none.
fn same_clock(a: &FlatNet, b: &FlatNet) -> bool
    ensures { IsTrue result ↔ (a.now.net.clock ≡ b.now.net.clock) }
{
    let Some((edge, name)) = a.clock() else {
        return b.clock().is_none();
    };
    let Some((other_edge, other)) = b.clock() else {
        return false;
    };
    edge == other_edge && name == other
}

/// Both have the same input names, in the same order.
fn same_inputs(a: &FlatNet, b: &FlatNet) -> bool
    ensures { IsTrue result ↔ (a.now.net.inputs ≡ b.now.net.inputs) }
{
    if a.input_count() != b.input_count() {
        return false;
    }
    for x in 0..a.input_count() {
        if !same_name(a.name(NetId(x)), b.name(NetId(x))) {
            return false;
        }
    }
    true
}

/// Both have the same model name, input names and clock.
fn same_frame(a: &FlatNet, b: &FlatNet) -> bool
    ensures { IsTrue result ↔ SameFrame a.now.net b.now.net }
{
    if a.model() != b.model() {
        return false;
    }
    if !same_inputs(a, b) {
        return false;
    }
    same_clock(a, b)
}

/// Node x of both reads the same nets.
fn same_pins(a: &FlatNet, b: &FlatNet, x: NetId) -> bool
    requires left { x.0 < net_count a.now.net }
    requires left_node { length a.now.net.inputs ≤ x.0 }
    requires right { x.0 < net_count b.now.net }
    requires right_node { length b.now.net.inputs ≤ x.0 }
    ensures { IsTrue result ↔ (pins_at (node_of a.now.net x.0) ≡ pins_at (node_of b.now.net x.0)) }
{
    if a.pin_count(x) != b.pin_count(x) {
        return false;
    }
    for j in 0..a.pin_count(x) {
        if a.pin(x, j).0 != b.pin(x, j).0 {
            return false;
        }
    }
    true
}

/// Net x of both is of the same kind.
fn same_kind(a: &FlatNet, b: &FlatNet, x: NetId) -> bool
    requires left { x.0 < net_count a.now.net }
    requires right { x.0 < net_count b.now.net }
    ensures { IsTrue result ↔ (kind_of (node_of a.now.net x.0) ≡ kind_of (node_of b.now.net x.0)) }
{
    a.kind(x) == b.kind(x)
}

/// Node x of both has the same name, kind, cover or initial value, and pins.
#[tactic(auto, using(flat_net::proofs::Bodies::from_kind))]
fn same_node(a: &FlatNet, b: &FlatNet, x: NetId) -> bool
    requires left { x.0 < net_count a.now.net }
    requires left_node { length a.now.net.inputs ≤ x.0 }
    requires right { x.0 < net_count b.now.net }
    requires right_node { length b.now.net.inputs ≤ x.0 }
    ensures { IsTrue result ↔ (node_of a.now.net x.0 ≡ node_of b.now.net x.0) }
{
    if !same_name(a.name(x), b.name(x)) {
        return false;
    }
    if !same_pins(a, b, x) {
        return false;
    }
    if !same_kind(a, b, x) {
        return false;
    }
    match a.kind(x) {
        Kind::Input => false,
        Kind::Table => a.cover(x).same(b.cover(x)),
        Kind::Register => same_bit(a.init(x), b.init(x)),
    }
}

/// The first node in which two designs with as many inputs differ.
fn differing_node(a: &FlatNet, b: &FlatNet) -> Option<u32>
    requires { length a.now.net.inputs ≡ length b.now.net.inputs }
    ensures { MatchOption result (a.now.net.nodes ≡ b.now.net.nodes) (λ at. DifferFirst a.now.net.nodes b.now.net.nodes at) }
{
    let inputs = a.input_count();
    let count = b.node_count();
    for i in 0..a.node_count() {
        if i >= count {
            return Some(i);
        }
        if !same_node(a, b, NetId(inputs + i)) {
            return Some(i);
        }
    }
    if a.node_count() < count {
        return Some(a.node_count());
    }
    None
}

/// The first output in which they differ.
fn differing_output(a: &FlatNet, b: &FlatNet) -> Option<u32>
    ensures { MatchOption result (a.now.net.outputs ≡ b.now.net.outputs) (λ at. DifferFirst a.now.net.outputs b.now.net.outputs at) }
{
    let count = b.output_count();
    for k in 0..a.output_count() {
        if k >= count {
            return Some(k);
        }
        if a.output(k).0 != b.output(k).0 {
            return Some(k);
        }
    }
    if a.output_count() < count {
        return Some(a.output_count());
    }
    None
}

/// The least rule by which b differs from a.
fn compared(a: &FlatNet, b: &FlatNet) -> GuardAnswer
    ensures { IsAnswer a.now.net b.now.net result }
{
    if !same_frame(a, b) {
        return GuardAnswer::Not { rule: 1, at: 0 };
    }
    if let Some(at) = differing_node(a, b) {
        return GuardAnswer::Not { rule: 2, at };
    }
    if let Some(at) = differing_output(a, b) {
        return GuardAnswer::Not { rule: 3, at };
    }
    GuardAnswer::Guarded
}

/// Whether g is the guarded design of n, and else the least rule by which it is not. The one refusal is want of memory.
pub fn check_guard(alloc: Global, n: &FlatNet, g: &FlatNet) -> Result<GuardAnswer, OutOfMemory>
    requires { net_count n.now.net + pin_total n.now.net ≤ widest_nets }
    ensures answer { IfOk result (λ answer. IsAnswer (guard_net n.now.net) g.now.net answer) }
    ensures exact { IfOk result (λ answer. (answer ≡ GuardAnswer.Guarded) ↔ (g.now.net ≡ guard_net n.now.net)) }
    ensures guards { IfOk result (λ answer. answer ≡ GuardAnswer.Guarded → Guards n.now.net g.now.net) }
{
    let _inputs = n.input_count();
    guarded_designs_tell();
    let wanted = guard(alloc, n)?;
    Ok(compared(&wanted, g))
}
