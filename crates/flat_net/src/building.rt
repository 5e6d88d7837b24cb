//! The design of a draft.
ghost use Rattle.std.specs.Prelude.{◌≡◌, ◌≢◌, ℕ, ◌+◌, ◌<◌, ◌++◌, List, true, map, length, slice_index, ◌⊎◌, MatchOption, MatchResult, OnOk, IfOk, IfErr, IsErrAnd};
ghost use Rattle.std.specs.Str.{bytes_eq};
ghost use Rattle.indexmap.specs.IndexSet.{remove_key};
ghost use Rattle.flat_net.specs.Net.{Design, IsDesign, IsOrder, name_of, net_count};
ghost use Rattle.flat_net.specs.Nodes.{number_of};
ghost use Rattle.flat_net.specs.Draft.{AreDistinct, out_of};
ghost use Rattle.flat_net.specs.DraftView.{plain_element};
ghost use Rattle.flat_net.specs.Faults.{first_control, clock_from, clock_of, draft_names, draft_reads, number_in, net_of_draft, IsDrivenOnce, HasOneClock, HasCleanClock, IsDriven, IsFaultless, IsFaultOf, IsSameFault};
ghost use Rattle.flat_net.specs.Private.LoopFaults.{IsLoopFault};
ghost use Rattle.flat_net.specs.Private.Wired.{AreWires};

mod clocking;
mod driving;
mod order;
mod wires;

use crate::building::clocking::{check_clock, check_clocking, first_latch};
use crate::building::driving::driven_names;
use crate::building::order::{Found, order_tables};
use crate::building::wires::{Wires, bodies_from, push_pins, wire};
use crate::draft::{Draft, DraftElement};
use crate::fault::NetFault;
use crate::net::FlatNet;
use crate::nodes::PackedNodes;
use crate::wiring::Wiring;
use indexmap::IndexSet;
use std::alloc::Global;
use tmr_base::{Edge, Name, NetId, OutOfMemory};

/// The control of the first latch, once more.
fn copied_clock(
    alloc: Global,
    elements: &[DraftElement],
) -> Result<Option<(Edge, Name)>, OutOfMemory>
    ensures { IfOk result (λ clock. clock ≡ clock_from (first_control (map plain_element elements.now))) }
{
    match first_latch(elements) {
        Some(Some((edge, name))) => Ok(Some((*edge, name.copy(alloc)?))),
        Some(None) => Ok(None),
        None => Ok(None),
    }
}

/// The names without the clock's.
fn without_clock(names: IndexSet<Name>, clock: &Option<(Edge, Name)>) -> IndexSet<Name>
    ensures { MatchOption clock.now (result.keys ≡ names.keys) (λ c. result.keys ≡ remove_key (bytes_eq c.1) names.keys) }
{
    let mut names = names;
    match clock {
        None => names,
        Some((_, clock)) => {
            let _found = names.shift_remove(clock);
            names
        }
    }
}

/// The names of the nets of a draft, which are those of its inputs but for the clock, and then of its elements' outputs.
fn net_names(names: IndexSet<Name>, draft: &Draft, clock: &Option<(Edge, Name)>) -> IndexSet<Name>
    requires names { names.keys ≡ draft.now.inputs ++ map out_of draft.now.elements }
    requires inputs { AreDistinct draft.now.inputs }
    requires clean { HasCleanClock draft.now }
    requires clock { clock.now ≡ clock_of draft.now }
    ensures { result.keys ≡ draft_names draft.now }
{
    without_clock(names, clock)
}

/// The pins and the outputs of a draft by number. `Undriven` comes exactly where one of them is no net.
fn numbered(
    alloc: Global,
    names: &IndexSet<Name>,
    draft: &Draft,
) -> Result<(Wires, Vec<NetId>), NetFault>
    requires names { names.now.keys ≡ draft_names draft.now }
    requires nets { length draft.now.inputs + length draft.now.elements < 4294967295 }
    requires pins { length (draft_reads draft.now) < 4294967295 }
    requires once { IsDrivenOnce draft.now }
    requires one_clock { HasOneClock draft.now }
    requires clean { HasCleanClock draft.now }
    ensures wires { IfOk result (λ r. AreWires names.now.keys draft.now.elements (map number_of r.0.pins.items) r.0.ends.items r.0.registers) }
    ensures outputs { IfOk result (λ r. map number_of r.1.items ≡ map (number_in names.now.keys) draft.now.outputs) }
    ensures driven { OnOk result (IsDriven draft.now) }
    ensures fault { IfErr result (λ fault. IsFaultOf draft.now fault) }
{
    let wires = wire(alloc, names, &draft.elements)?;
    let mut outputs = Vec::new(alloc);
    push_pins(alloc, names, &draft.outputs, &mut outputs)?;
    Ok((wires, outputs))
}

/// The packed design.
fn packed(
    alloc: Global,
    names: IndexSet<Name>,
    clock: Option<(Edge, Name)>,
    wires: Wires,
    outputs: Vec<NetId>,
    draft: Draft,
) -> Result<Wiring, OutOfMemory>
    requires names { names.keys ≡ draft_names draft }
    requires clock { clock ≡ clock_of draft }
    requires wires { AreWires names.keys draft.elements (map number_of wires.pins.items) wires.ends.items wires.registers }
    requires numbers { map number_of outputs.items ≡ map (number_in names.keys) draft.outputs }
    requires outputs { AreDistinct draft.outputs }
    requires nets { length draft.inputs + length draft.elements < 4294967295 }
    requires pins { length (draft_reads draft) < 4294967295 }
    requires once { IsDrivenOnce draft }
    requires clean { HasCleanClock draft }
    requires driven { IsDriven draft }
    ensures { IfOk result (λ wiring. wiring ≡ net_of_draft draft) }
{
    let inputs = (names.len() - draft.elements.len()) as u32;
    let Draft {
        model,
        elements,
        ..
    } = draft;
    let bodies = bodies_from(alloc, elements)?;
    let nodes = PackedNodes {
        bodies,
        ends: wires.ends,
        pins: wires.pins,
        registers: wires.registers,
    };
    Ok(Wiring::new(model, names, inputs, nodes, outputs, clock))
}

/// The names of these nets.
fn names_of(alloc: Global, wiring: &Wiring, nets: &[NetId]) -> Result<Vec<Name>, OutOfMemory>
    requires { (k : ℕ) → k < length nets.now → slice_index (map number_of nets.now) k < net_count wiring.now }
    ensures { IfOk result (λ names. names.items ≡ map (name_of wiring.now) (map number_of nets.now)) }
{
    let mut names = Vec::new(alloc);
    for net in nets {
        names.push(wiring.name(*net).copy(alloc)?)?;
    }
    Ok(names)
}

/// The design, or a loop of its tables.
fn ordered(alloc: Global, wiring: Wiring) -> Result<FlatNet, NetFault>
    ensures ok { IfOk result (λ net. net.net ≡ wiring) }
    ensures order { OnOk result ((order : List ℕ) × IsOrder wiring order) }
    ensures fault { IfErr result (λ fault. IsLoopFault wiring fault) }
{
    match order_tables(alloc, &wiring)? {
        Found::Order(order) => Ok(FlatNet::new(wiring, order)),
        Found::Loop(tables) => Err(NetFault::CombLoop(names_of(alloc, &wiring, &tables)?)),
    }
}

/// The design of the draft, or its first fault.
fn design_or_fault(alloc: Global, draft: Draft) -> Result<FlatNet, NetFault>
    requires inputs { AreDistinct draft.inputs }
    requires outputs { AreDistinct draft.outputs }
    requires nets { length draft.inputs + length draft.elements < 4294967295 }
    requires pins { length (draft_reads draft) < 4294967295 }
    ensures ok { IfOk result (λ net. net.net ≡ net_of_draft draft) }
    ensures faultless { OnOk result (IsFaultless draft) }
    ensures fault { IfErr result (λ fault. IsFaultOf draft fault) }
{
    let names = driven_names(alloc, &draft)?;
    check_clocking(alloc, &draft)?;
    check_clock(alloc, &draft)?;
    let clock = copied_clock(alloc, &draft.elements)?;
    let names = net_names(names, &draft, &clock);
    let (wires, outputs) = numbered(alloc, &names, &draft)?;
    let wiring = packed(alloc, names, clock, wires, outputs, draft)?;
    match ordered(alloc, wiring) {
        Ok(net) => Ok(net),
        Err(fault) => Err(fault),
    }
}

/// The design of the draft, or its first fault. The draft is consumed.
///
/// `DoubleDriven` comes exactly where an element's output is a main input or the output of an earlier
/// element, and names the first such output. Where it does not come, `MixedClock` comes exactly where
/// two latches differ in their clocking, and names the output of the first that differs from the first
/// of all. Then `ClockUse` comes exactly where the common control is named `NIL`, is no main input, is a
/// pin, or is a main output. Then `Undriven` comes exactly where a pin or a main output is no net, and
/// names the first pin, and then the first output. Then `CombLoop` comes exactly where tables read each
/// other in a loop.
///
/// Where the draft has no fault, its design is the answer. Where it has one, that one is, of which a loop may
/// be told by any list that is one. It never has both, nor two. `Memory` may come in place of either.
pub fn build(alloc: Global, draft: Draft) -> Result<FlatNet, NetFault>
    requires inputs { AreDistinct draft.inputs }
    requires outputs { AreDistinct draft.outputs }
    requires nets { length draft.inputs + length draft.elements < 4294967295 }
    requires pins { length (draft_reads draft) < 4294967295 }
    ensures ok { IfOk result (λ net. net.net ≡ net_of_draft draft) }
    ensures faultless { OnOk result (IsFaultless draft) }
    ensures fault { IfErr result (λ fault. IsFaultOf draft fault) }
    ensures ok_only { IsFaultless draft → MatchResult result (λ net. net.net ≡ net_of_draft draft) (λ fault. fault ≡ NetFault.Memory) }
    ensures fault_only { (fault : NetFault) → fault ≢ NetFault.Memory → IsFaultOf draft fault
        → IsErrAnd result (λ answered. (answered ≡ NetFault.Memory) ⊎ IsSameFault answered fault) }
{
    design_or_fault(alloc, draft)
}
