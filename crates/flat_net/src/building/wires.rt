//! The pins of a draft by number, packed.
ghost use Rattle.std.specs.Prelude.{◌≡◌, ◌≢◌, ℕ, ◌+◌, ◌<◌, ◌++◌, [], ◌∷◌, List, true, false, map, length, count_by, OnOk, IfOk, IfErr, if◌then◌else◌};
ghost use Rattle.std.specs.List.{flat_map};
ghost use Rattle.flat_net.specs.Net.{is_register};
ghost use Rattle.flat_net.specs.Nodes.{number_of};
ghost use Rattle.flat_net.specs.Draft.{Element, out_of, reads_of};
ghost use Rattle.flat_net.specs.DraftView.{plain_element};
ghost use Rattle.flat_net.specs.First.{HasNone, IsFirst};
ghost use Rattle.flat_net.specs.Faults.{is_among, is_no_net, number_in, node_of_element};
ghost use Rattle.flat_net.specs.Private.Bodies.{body_of};
ghost use Rattle.flat_net.specs.Private.Wired.{AreWires};

use crate::draft::DraftElement;
use crate::fault::NetFault;
use crate::nodes::Body;
use indexmap::IndexSet;
use std::alloc::{AllocError, Global};
use tmr_base::{Name, NetId, OutOfMemory};

/// The pins of all elements, where those of each end, and how many elements are latches.
#[derive(Drop)]
pub struct Wires {
    pub pins: Vec<NetId>,
    pub ends: Vec<u32>,
    pub registers: u32,
}

/// Adds the number of the net with this name.
fn push_pin(
    alloc: Global,
    names: &IndexSet<Name>,
    pin: &Name,
    pins: &mut Vec<NetId>,
) -> Result<(), NetFault>
    requires { length names.now.keys < 4294967295 }
    ensures ok { OnOk result (map number_of pins.new.items ≡ map number_of pins.old.items ++ number_in names.now.keys pin.now ∷ []) }
    ensures net { OnOk result (is_among names.now.keys pin.now ≡ true) }
    ensures fault { IfErr result (λ fault. fault ≢ NetFault.Memory → (fault ≡ NetFault.Undriven pin.now) × (is_among names.now.keys pin.now ≡ false)) }
{
    let Some(x) = names.get_index_of(pin) else {
        return Err(NetFault::Undriven(pin.copy(alloc)?));
    };
    match pins.push(NetId(x as u32)) {
        Ok(()) => Ok(()),
        Err(_) => Err(NetFault::Memory),
    }
}

/// Adds the numbers of the nets with these names. `Undriven` names the first that is no net.
pub fn push_pins(
    alloc: Global,
    names: &IndexSet<Name>,
    reads: &[Name],
    pins: &mut Vec<NetId>,
) -> Result<(), NetFault>
    requires { length names.now.keys < 4294967295 }
    ensures ok { OnOk result (map number_of pins.new.items ≡ map number_of pins.old.items ++ map (number_in names.now.keys) reads.now) }
    ensures nets { OnOk result (HasNone (is_no_net names.now.keys) reads.now) }
    ensures fault { IfErr result (λ fault. fault ≢ NetFault.Memory → (name : List ℕ) × IsFirst (is_no_net names.now.keys) reads.now name × (fault ≡ NetFault.Undriven name)) }
{
    for read in reads {
        push_pin(alloc, names, read, pins)?;
    }
    Ok(())
}

/// Adds the pins of an element.
fn push_reads(
    alloc: Global,
    names: &IndexSet<Name>,
    element: &DraftElement,
    pins: &mut Vec<NetId>,
) -> Result<(), NetFault>
    requires { length names.now.keys < 4294967295 }
    ensures ok { OnOk result (map number_of pins.new.items ≡ map number_of pins.old.items ++ map (number_in names.now.keys) (reads_of (plain_element element.now))) }
    ensures nets { OnOk result (HasNone (is_no_net names.now.keys) (reads_of (plain_element element.now))) }
    ensures fault { IfErr result (λ fault. fault ≢ NetFault.Memory → (name : List ℕ) × IsFirst (is_no_net names.now.keys) (reads_of (plain_element element.now)) name × (fault ≡ NetFault.Undriven name)) }
{
    match element {
        DraftElement::TableElement { pins: reads, .. } => push_pins(alloc, names, reads, pins),
        DraftElement::LatchElement { pin, .. } => match push_pin(alloc, names, pin, pins) {
            Ok(()) => Ok(()),
            Err(fault) => Err(fault),
        },
    }
}

/// 1 for a latch, and 0 for a table.
fn latches_in(element: &DraftElement) -> u32
    ensures { result ≡ (if is_register (node_of_element [] (plain_element element.now)) then 1 else 0) }
{
    match element {
        DraftElement::TableElement { .. } => 0,
        DraftElement::LatchElement { .. } => 1,
    }
}

/// Adds the pins of an element, and where they end.
fn push_element(
    alloc: Global,
    names: &IndexSet<Name>,
    element: &DraftElement,
    wires: &mut Wires,
) -> Result<(), NetFault>
    requires names { length names.now.keys < 4294967295 }
    requires pins { length wires.old.pins.items + length (reads_of (plain_element element.now)) < 4294967295 }
    requires registers { wires.old.registers < 4294967295 }
    ensures pins { OnOk result (map number_of wires.new.pins.items ≡ map number_of wires.old.pins.items ++ map (number_in names.now.keys) (reads_of (plain_element element.now))) }
    ensures ends { OnOk result (wires.new.ends.items ≡ wires.old.ends.items ++ length wires.new.pins.items ∷ []) }
    ensures registers { OnOk result (wires.new.registers ≡ wires.old.registers + (if is_register (node_of_element [] (plain_element element.now)) then 1 else 0)) }
    ensures nets { OnOk result (HasNone (is_no_net names.now.keys) (reads_of (plain_element element.now))) }
    ensures fault { IfErr result (λ fault. fault ≢ NetFault.Memory → (name : List ℕ) × IsFirst (is_no_net names.now.keys) (reads_of (plain_element element.now)) name × (fault ≡ NetFault.Undriven name)) }
{
    push_reads(alloc, names, element, &mut wires.pins)?;
    if wires.ends.push(wires.pins.len() as u32).is_err() {
        return Err(NetFault::Memory);
    }
    wires.registers += latches_in(element);
    Ok(())
}

/// What the element's node has beside its name and its pins.
fn body_from(element: DraftElement) -> Body
    ensures { result ≡ body_of (plain_element element) }
{
    match element {
        DraftElement::TableElement { cover, .. } => Body::TableBody(cover),
        DraftElement::LatchElement { init, .. } => Body::RegisterBody(init),
    }
}

/// What the elements' nodes have beside their names and their pins.
pub fn bodies_from(alloc: Global, elements: Vec<DraftElement>) -> Result<Vec<Body>, AllocError>
    ensures { IfOk result (λ bodies. bodies.items ≡ map (λ element. body_of (plain_element element)) elements.items) }
{
    elements
        .into_iter()
        .map(|element| body_from(element))
        .collect(alloc)
}

/// No pins, with room for so many elements of one pin each.
fn no_wires(alloc: Global, room: usize) -> Result<Wires, OutOfMemory>
    ensures pins { IfOk result (λ wires. wires.pins.items ≡ []) }
    ensures ends { IfOk result (λ wires. wires.ends.items ≡ []) }
    ensures registers { IfOk result (λ wires. wires.registers ≡ 0) }
{
    let pins = Vec::with_capacity(alloc, room)?;
    let ends = Vec::with_capacity(alloc, room)?;
    Ok(Wires {
        pins,
        ends,
        registers: 0,
    })
}

/// The pins of all elements by number. `Undriven` names the first that is no net.
pub fn wire(
    alloc: Global,
    names: &IndexSet<Name>,
    elements: &[DraftElement],
) -> Result<Wires, NetFault>
    requires names { length names.now.keys < 4294967295 }
    requires pins { length (flat_map reads_of (map plain_element elements.now)) < 4294967295 }
    requires registers { length elements.now < 4294967295 }
    ensures wires { IfOk result (λ wires. AreWires names.now.keys (map plain_element elements.now) (map number_of wires.pins.items) wires.ends.items wires.registers) }
    ensures fault { IfErr result (λ fault. fault ≢ NetFault.Memory → (name : List ℕ) × IsFirst (is_no_net names.now.keys) (flat_map reads_of (map plain_element elements.now)) name × (fault ≡ NetFault.Undriven name)) }
{
    let mut wires = no_wires(alloc, elements.len())?;
    for element in elements {
        push_element(alloc, names, element, &mut wires)?;
    }
    Ok(wires)
}
