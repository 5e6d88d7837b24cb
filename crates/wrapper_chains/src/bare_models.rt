//! Models in which no element stands.
ghost use Rattle.std.specs.Prelude.{◌≡◌, ◌<◌, length, map, IfOk};
ghost use Rattle.std.specs.List.{list_all};
ghost use Rattle.blif_text.specs.Views.{plain_model, plain_element};
ghost use Rattle.library_faults.specs.Graph.{names_of, number_named};
ghost use Rattle.wrapper_chains.specs.Bare.{AreBare, filled, is_bare_element};

use blif_text::{BlifModel, Element};
use indexmap::IndexSet;
use std::alloc::{AllocError, Global};
use tmr_base::Name;

/// The model of this name, where an element stands in it.
#[tactic(auto, unfolding(library_faults::specs::Graph::number_named))]
pub fn filled_target(names: &IndexSet<Name>, holds: &[bool], model: &Name) -> Option<usize>
    ensures { result ≡ filled holds.now (number_named names.now.keys model.now) }
{
    let x = names.get_index_of(model)?;
    match holds.get(x) {
        Some(false) => None,
        _ => Some(x),
    }
}

/// A `.subckt` statement below which no element stands.
pub fn is_bare(names: &IndexSet<Name>, holds: &[bool], element: &Element) -> bool
    ensures { result ≡ is_bare_element names.now.keys holds.now (plain_element element.now) }
{
    match element {
        Element::Instance { model, .. } => filled_target(names, holds, model).is_none(),
        Element::Table { .. } | Element::Latch { .. } => false,
    }
}

fn are_bare(names: &IndexSet<Name>, holds: &[bool], elements: &[Element]) -> bool
    ensures { result ≡ list_all (is_bare_element names.now.keys holds.now) (map plain_element elements.now) }
{
    for element in elements {
        if !is_bare(names, holds, element) {
            return false;
        }
    }
    true
}

/// Marks the model as bare, if no element stands in it.
fn mark_bare(names: &IndexSet<Name>, models: &[BlifModel], holds: &mut [bool], x: usize)
    requires names { names.now.keys ≡ names_of (map plain_model models.now) }
    requires x { x < length models.now }
    requires long { length holds.old ≡ length models.now }
    requires bare { AreBare (map plain_model models.now) holds.old }
    ensures { AreBare (map plain_model models.now) holds.new }
{
    if are_bare(names, holds, &models[x].elements) {
        holds[x] = false;
    }
}

/// Whether an element stands in each model or below it. A model that is not in the order counts as one
/// that holds some.
pub fn filled_models(
    alloc: Global,
    names: &IndexSet<Name>,
    models: &[BlifModel],
    order: &[usize],
) -> Result<Vec<bool>, AllocError>
    requires { names.now.keys ≡ names_of (map plain_model models.now) }
    ensures { IfOk result (λ holds. AreBare (map plain_model models.now) holds.items) }
{
    let mut holds = vec![in alloc; true; models.len()]?;
    for x in order {
        if *x < models.len() {
            mark_bare(names, models, &mut holds, *x);
        }
    }
    Ok(holds)
}
