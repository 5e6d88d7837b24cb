//! Copies of models and of what stands in them.
ghost use Rattle.std.specs.Prelude.{◌≡◌, map, IfOk};
ghost use Rattle.blif_text.specs.Views.{plain_model, plain_element};

use blif_text::{BlifModel, Element};
use library_faults::copy_names;
use std::alloc::Global;
use tmr_base::{Edge, Name, OutOfMemory};
use wrapper_chains::copy_bindings;

/// The same control once more.
fn copy_control(
    alloc: Global,
    control: &Option<(Edge, Name)>,
) -> Result<Option<(Edge, Name)>, OutOfMemory>
    ensures { IfOk result (λ copy. copy ≡ control.now) }
{
    match control {
        Some((edge, clock)) => Ok(Some((*edge, clock.copy(alloc)?))),
        None => Ok(None),
    }
}

/// The same element once more.
fn copy_element(alloc: Global, element: &Element) -> Result<Element, OutOfMemory>
    ensures { IfOk result (λ copy. plain_element copy ≡ plain_element element.now) }
{
    match element {
        Element::Table { pins, out, cover } => {
            let pins = copy_names(alloc, pins)?;
            let out = out.copy(alloc)?;
            let cover = cover.copy(alloc)?;
            Ok(Element::Table { pins, out, cover })
        }
        Element::Latch {
            pin,
            out,
            control,
            init,
        } => {
            let pin = pin.copy(alloc)?;
            let out = out.copy(alloc)?;
            let control = copy_control(alloc, control)?;
            let control = Box::new(alloc, control)?;
            Ok(Element::Latch {
                pin,
                out,
                control,
                init: *init,
            })
        }
        Element::Instance { model, bindings } => {
            let model = model.copy(alloc)?;
            let bindings = copy_bindings(alloc, bindings)?;
            Ok(Element::Instance { model, bindings })
        }
    }
}

/// The same elements once more.
fn copy_elements(alloc: Global, elements: &[Element]) -> Result<Vec<Element>, OutOfMemory>
    ensures { IfOk result (λ copies. map plain_element copies.items ≡ map plain_element elements.now) }
{
    let mut copies = Vec::with_capacity(alloc, elements.len())?;
    for element in elements {
        copies.push(copy_element(alloc, element)?)?;
    }
    Ok(copies)
}

/// The model with other elements.
fn model_with(
    alloc: Global,
    model: &BlifModel,
    elements: Vec<Element>,
) -> Result<BlifModel, OutOfMemory>
    ensures { IfOk result (λ copy. plain_model copy ≡ record (plain_model model.now) { elements = map plain_element elements.items }) }
{
    let name = model.name.copy(alloc)?;
    let inputs = copy_names(alloc, &model.inputs)?;
    let outputs = copy_names(alloc, &model.outputs)?;
    Ok(BlifModel {
        name,
        inputs,
        outputs,
        elements,
    })
}

/// The same model once more.
fn copy_model(alloc: Global, model: &BlifModel) -> Result<BlifModel, OutOfMemory>
    ensures { IfOk result (λ copy. plain_model copy ≡ plain_model model.now) }
{
    let elements = copy_elements(alloc, &model.elements)?;
    model_with(alloc, model, elements)
}

/// The same models once more.
pub(crate) fn copy_models(
    alloc: Global,
    models: &[BlifModel],
) -> Result<Vec<BlifModel>, OutOfMemory>
    ensures { IfOk result (λ copies. map plain_model copies.items ≡ map plain_model models.now) }
{
    let mut copies = Vec::with_capacity(alloc, models.len())?;
    for model in models {
        copies.push(copy_model(alloc, model)?)?;
    }
    Ok(copies)
}
