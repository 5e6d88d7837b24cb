//! The faults of `.subckt` statements.
ghost use Rattle.std.specs.Prelude.{◌≡◌, ◌++◌, ◌∷◌, [], map, not, find, IfOk, Some, None, IfSome, OnOk, option_copied};
ghost use Rattle.blif_text.specs.Kind.{is_among};
ghost use Rattle.blif_text.specs.Views.{plain_element};
ghost use Rattle.library_faults.specs.Faults.{both_ways, formal_fault, formals_fault, unbound_input, known_fault as known, placing_fault, ports_named, elements_fault, formal_of};

use crate::fault::PlacingFault;
use crate::statements::ports::Ports;
use blif_text::Element;
use indexmap::IndexSet;
use std::alloc::Global;
use tmr_base::{Name, OutOfMemory};

/// The first input that is also an output.
fn first_both_ways(ports: &Ports) -> Option<&Name>
    ensures { option_copied result ≡ find (is_among ports.now.outputs) ports.now.inputs }
{
    ports.inputs().iter().find(|input| ports.has_output(input))
}

/// The first input that is not bound.
fn first_unbound<'a>(ports: &'a Ports, bound: &IndexSet<Name>) -> Option<&'a Name>
    ensures { option_copied result ≡ find (λ input. not (is_among bound.now.keys input)) ports.now.inputs }
{
    ports.inputs().iter().find(|input| !bound.contains(*input))
}

#[tactic(auto, unfolding(crate::specs::Faults::both_ways))]
fn both_ways_fault(alloc: Global, ports: &Ports) -> Result<Option<PlacingFault>, OutOfMemory>
    ensures { IfOk result (λ fault. fault ≡ both_ways ports.now) }
{
    match first_both_ways(ports) {
        Some(input) => Ok(Some(PlacingFault::BothWays(input.copy(alloc)?))),
        None => Ok(None),
    }
}

#[tactic(auto, unfolding(crate::specs::Faults::unbound_input))]
fn unbound_fault(
    alloc: Global,
    ports: &Ports,
    bound: &IndexSet<Name>,
) -> Result<Option<PlacingFault>, OutOfMemory>
    ensures { IfOk result (λ fault. fault ≡ unbound_input ports.now bound.now.keys) }
{
    match first_unbound(ports, bound) {
        Some(input) => Ok(Some(PlacingFault::UnboundInput(input.copy(alloc)?))),
        None => Ok(None),
    }
}

/// Binds one formal more, or answers its fault.
#[tactic(auto, unfolding(crate::specs::Faults::formal_fault))]
fn bind(
    alloc: Global,
    ports: &Ports,
    bound: &mut IndexSet<Name>,
    formal: &Name,
) -> Result<Option<PlacingFault>, OutOfMemory>
    ensures fault { IfOk result (λ fault. fault ≡ formal_fault ports.now bound.old.keys formal.now) }
    ensures bound { IfOk result (λ fault. fault ≡ None → bound.new.keys ≡ bound.old.keys ++ formal.now ∷ []) }
{
    let name = formal.copy(alloc)?;
    if !ports.has(formal) {
        return Ok(Some(PlacingFault::UnknownFormal(name)));
    }
    if bound.contains(formal) {
        return Ok(Some(PlacingFault::DuplicateFormal(name)));
    }
    bound.insert(name)?;
    Ok(None)
}

/// Binds all formals, up to the first that has a fault.
#[tactic(auto, unfolding(crate::specs::Faults::formals_fault))]
fn bind_all(
    alloc: Global,
    ports: &Ports,
    bound: &mut IndexSet<Name>,
    bindings: &[(Name, Name)],
) -> Result<Option<PlacingFault>, OutOfMemory>
    ensures fault { IfOk result (λ fault. fault ≡ formals_fault ports.now bound.old.keys (map formal_of bindings.now)) }
    ensures bound { IfOk result (λ fault. fault ≡ None → bound.new.keys ≡ bound.old.keys ++ map formal_of bindings.now) }
{
    for (formal, _) in bindings {
        if let Some(fault) = bind(alloc, ports, bound, formal)? {
            return Ok(Some(fault));
        }
    }
    Ok(None)
}

/// The first fault of a statement that places a model with these inputs and outputs.
#[tactic(auto, unfolding(crate::specs::Faults::known_fault))]
fn known_fault(
    alloc: Global,
    ports: &Ports,
    bindings: &[(Name, Name)],
) -> Result<Option<PlacingFault>, OutOfMemory>
    ensures { IfOk result (λ fault. fault ≡ known ports.now (map formal_of bindings.now)) }
{
    if let Some(fault) = both_ways_fault(alloc, ports)? {
        return Ok(Some(fault));
    }
    let mut bound = IndexSet::new(alloc);
    if let Some(fault) = bind_all(alloc, ports, &mut bound, bindings)? {
        return Ok(Some(fault));
    }
    unbound_fault(alloc, ports, &bound)
}

/// The inputs and outputs of the model with this name.
#[tactic(auto, unfolding(crate::specs::Graph::number_named))]
fn find_ports<'a>(names: &IndexSet<Name>, ports: &'a [Ports], model: &Name) -> Option<&'a Ports>
    ensures { option_copied result ≡ ports_named names.now.keys ports.now model.now }
{
    let x = names.get_index_of(model)?;
    ports.get(x)
}

/// The first fault of a `.subckt` statement.
fn instance_fault(
    alloc: Global,
    names: &IndexSet<Name>,
    ports: &[Ports],
    model: &Name,
    bindings: &[(Name, Name)],
) -> Result<Option<PlacingFault>, OutOfMemory>
    ensures { IfOk result (λ fault. fault ≡ placing_fault model.now (ports_named names.now.keys ports.now model.now) (map formal_of bindings.now)) }
{
    match find_ports(names, ports, model) {
        Some(placed) => known_fault(alloc, placed, bindings),
        None => Ok(Some(PlacingFault::UnknownModel(model.copy(alloc)?))),
    }
}

/// The first fault of a model's statements.
#[tactic(auto, unfolding(crate::specs::Faults::elements_fault))]
pub(crate) fn statement_fault(
    alloc: Global,
    names: &IndexSet<Name>,
    ports: &[Ports],
    elements: &[Element],
) -> Result<Option<PlacingFault>, OutOfMemory>
    ensures { IfOk result (λ fault. fault ≡ elements_fault names.now.keys ports.now (map plain_element elements.now)) }
{
    for element in elements {
        if let Element::Instance { model, bindings } = element {
            if let Some(fault) = instance_fault(alloc, names, ports, model, bindings)? {
                return Ok(Some(fault));
            }
        }
    }
    Ok(None)
}
