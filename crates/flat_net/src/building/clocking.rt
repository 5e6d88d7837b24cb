//! The clock of a draft.
ghost use Rattle.std.specs.Prelude.{◌≡◌, map, codes, Some, IsNone, IfSome, OnOk, IfErr};
ghost use Rattle.std.specs.List.{flat_map, list_any};
ghost use Rattle.std.specs.Option.{option_copied};
ghost use Rattle.std.specs.Str.{bytes_eq};
ghost use Rattle.flat_net.specs.Draft.{Element, out_of, reads_of};
ghost use Rattle.flat_net.specs.DraftView.{plain_element};
ghost use Rattle.flat_net.specs.First.{HasNone, IsFirst};
ghost use Rattle.flat_net.specs.Faults.{is_among, same_edge, same_control, first_control, is_unlike, is_mixed, is_misused, IsDrivenOnce, HasOneClock, HasCleanClock, IsFaultOf};

use crate::building::driving::out_name;
use crate::draft::{Draft, DraftElement};
use crate::fault::NetFault;
use std::alloc::Global;
use tmr_base::{Edge, Name};

fn are_same_edges(a: Edge, b: Edge) -> bool
    ensures { result ≡ same_edge a b }
{
    match (a, b) {
        (Edge::Rising, Edge::Rising) => true,
        (Edge::Falling, Edge::Falling) => true,
        (Edge::Rising, Edge::Falling) => false,
        (Edge::Falling, Edge::Rising) => false,
    }
}

fn are_same_controls(a: &Option<(Edge, Name)>, b: &Option<(Edge, Name)>) -> bool
    ensures { result ≡ same_control a.now b.now }
{
    match (a, b) {
        (None, None) => true,
        (Some((edge, x)), Some((other, y))) => are_same_edges(*edge, *other) && x == y,
        (None, Some(_)) => false,
        (Some(_), None) => false,
    }
}

/// The control of the first latch.
pub fn first_latch(elements: &[DraftElement]) -> Option<&Option<(Edge, Name)>>
    ensures { option_copied result ≡ first_control (map plain_element elements.now) }
{
    for element in elements {
        if let DraftElement::LatchElement { control, .. } = element {
            return Some(&**control);
        }
    }
    None
}

/// The element is a latch with another clocking.
fn differs(first: &Option<(Edge, Name)>, element: &DraftElement) -> bool
    ensures { result ≡ is_unlike first.now (plain_element element.now) }
{
    match element {
        DraftElement::TableElement { .. } => false,
        DraftElement::LatchElement { control, .. } => !are_same_controls(first, control),
    }
}

/// The output of the first latch whose clocking differs from that of the first latch of all.
fn first_mixed<'a>(first: &Option<(Edge, Name)>, elements: &'a [DraftElement]) -> Option<&'a Name>
    requires { first_control (map plain_element elements.now) ≡ Some first.now }
    ensures none { IsNone result → HasNone is_mixed (map plain_element elements.now) }
    ensures some { IfSome result (λ name. (element : Element) × IsFirst is_mixed (map plain_element elements.now) element × (out_of element ≡ name.now)) }
{
    for element in elements {
        if differs(first, element) {
            return Some(out_name(element));
        }
    }
    None
}

/// `MixedClock` comes exactly where some latch differs in its clocking from the first one.
pub fn check_clocking(alloc: Global, draft: &Draft) -> Result<(), NetFault>
    requires { IsDrivenOnce draft.now }
    ensures ok { OnOk result (HasOneClock draft.now) }
    ensures fault { IfErr result (λ fault. IsFaultOf draft.now fault) }
{
    let Some(first) = first_latch(&draft.elements) else {
        return Ok(());
    };
    match first_mixed(first, &draft.elements) {
        None => Ok(()),
        Some(name) => Err(NetFault::MixedClock(name.copy(alloc)?)),
    }
}

fn is_nil(name: &Name) -> bool
    ensures { result ≡ bytes_eq name.now (codes "NIL") }
{
    name.bytes() == b"NIL".as_slice()
}

fn is_named(names: &[Name], name: &Name) -> bool
    ensures { result ≡ is_among names.now name.now }
{
    names.iter().any(|x| name == x)
}

fn is_pin(element: &DraftElement, name: &Name) -> bool
    ensures { result ≡ is_among (reads_of (plain_element element.now)) name.now }
{
    match element {
        DraftElement::TableElement { pins, .. } => is_named(pins, name),
        DraftElement::LatchElement { pin, .. } => name == pin,
    }
}

fn some_reads(elements: &[DraftElement], name: &Name) -> bool
    ensures { result ≡ list_any (λ element. is_among (reads_of (plain_element element)) name.now) elements.now }
{
    elements.iter().any(|element| is_pin(element, name))
}

fn is_read(elements: &[DraftElement], name: &Name) -> bool
    ensures { result ≡ is_among (flat_map reads_of (map plain_element elements.now)) name.now }
{
    some_reads(elements, name)
}

/// The clock is named `NIL`, or is not a main input, or is a pin of some element, or is a main output.
fn is_misused_in(draft: &Draft, clock: &Name) -> bool
    ensures { result ≡ is_misused draft.now clock.now }
{
    is_nil(clock)
        || !is_named(&draft.inputs, clock)
        || is_read(&draft.elements, clock)
        || is_named(&draft.outputs, clock)
}

/// `ClockUse` comes exactly where there is a clock that is misused.
pub fn check_clock(alloc: Global, draft: &Draft) -> Result<(), NetFault>
    requires once { IsDrivenOnce draft.now }
    requires one_clock { HasOneClock draft.now }
    ensures ok { OnOk result (HasCleanClock draft.now) }
    ensures fault { IfErr result (λ fault. IsFaultOf draft.now fault) }
{
    match first_latch(&draft.elements) {
        Some(Some((_, clock))) => {
            if is_misused_in(draft, clock) {
                return Err(NetFault::ClockUse(clock.copy(alloc)?));
            }
            Ok(())
        }
        Some(None) => Ok(()),
        None => Ok(()),
    }
}
