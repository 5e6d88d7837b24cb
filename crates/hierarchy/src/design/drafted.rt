//! The draft of a model that places no models.
ghost use Rattle.std.specs.Prelude.{◌≡◌, ◌++◌, map, All, IfOk, OnOk};
ghost use Rattle.std.specs.List.{flat_map};
ghost use Rattle.blif_text.specs.Library.{FitsPins};
ghost use Rattle.blif_text.specs.Views.{plain_model, plain_element};
ghost use Rattle.hierarchy.specs.Drafted.{draft_of as draft_of_model, drafted, starts_with, is_open as is_open_init, open_mark, open_marks};

use blif_text::{BlifModel, Element, Init};
use flat_net::Draft;
use std::alloc::Global;
use tmr_base::{Name, OutOfMemory};

/// The value in cycle 0. One that is left open is 0.
fn start(init: Init) -> bool
    ensures { result ≡ starts_with init }
{
    match init {
        Init::One => true,
        Init::Zero | Init::Free | Init::Unknown => false,
    }
}

fn is_left_open(init: Init) -> bool
    ensures { result ≡ is_open_init init }
{
    match init {
        Init::Free | Init::Unknown => true,
        Init::Zero | Init::One => false,
    }
}

/// Adds the element behind the others.
fn push_element(draft: &mut Draft, element: Element) -> Result<(), OutOfMemory>
    requires { FitsPins (plain_element element) }
    ensures { OnOk result (draft.new ≡ record draft.old { elements = draft.old.elements ++ drafted (plain_element element) }) }
{
    match element {
        Element::Table { pins, out, cover } => draft.push_table(pins, out, cover),
        Element::Latch {
            pin,
            out,
            control,
            init,
        } => draft.push_latch(pin, out, Box::into_inner(control), start(init)),
        Element::Instance { .. } => Ok(()),
    }
}

fn push_elements(draft: &mut Draft, elements: Vec<Element>) -> Result<(), OutOfMemory>
    requires { All FitsPins (map plain_element elements.items) }
    ensures { OnOk result (draft.new ≡ record draft.old { elements = draft.old.elements ++ flat_map drafted (map plain_element elements.items) }) }
{
    for element in elements {
        push_element(draft, element)?;
    }
    Ok(())
}

fn push_inputs(draft: &mut Draft, names: Vec<Name>) -> Result<(), OutOfMemory>
    ensures { OnOk result (draft.new ≡ record draft.old { inputs = draft.old.inputs ++ names.items }) }
{
    for name in names {
        draft.push_input(name)?;
    }
    Ok(())
}

fn push_outputs(draft: &mut Draft, names: Vec<Name>) -> Result<(), OutOfMemory>
    ensures { OnOk result (draft.new ≡ record draft.old { outputs = draft.old.outputs ++ names.items }) }
{
    for name in names {
        draft.push_output(name)?;
    }
    Ok(())
}

/// The draft of a model that places no models, whose names and covers are moved into it.
#[tactic(auto, unfolding(crate::specs::Drafted::draft_of))]
pub(crate) fn into_draft(alloc: Global, model: BlifModel) -> Result<Draft, OutOfMemory>
    requires { All FitsPins (plain_model model).elements }
    ensures { IfOk result (λ draft. draft ≡ draft_of_model (plain_model model)) }
{
    let BlifModel {
        name,
        inputs,
        outputs,
        elements,
    } = model;
    let mut draft = Draft::with_room(alloc, name, inputs.len(), outputs.len(), elements.len())?;
    push_inputs(&mut draft, inputs)?;
    push_outputs(&mut draft, outputs)?;
    push_elements(&mut draft, elements)?;
    Ok(draft)
}

/// Adds the element's mark behind the others: whether it is a latch whose value in cycle 0 is left open.
fn push_mark(marks: &mut Vec<bool>, element: &Element) -> Result<(), OutOfMemory>
    ensures { OnOk result (marks.new.items ≡ marks.old.items ++ open_mark (plain_element element.now)) }
{
    match element {
        Element::Table { .. } => marks.push(false)?,
        Element::Latch { init, .. } => marks.push(is_left_open(*init))?,
        Element::Instance { .. } => {}
    }
    Ok(())
}

/// For each element of the draft, whether it is a latch that leaves its value in cycle 0 open. It is read
/// as 0.
#[tactic(auto, unfolding(crate::specs::Drafted::open_marks))]
pub(crate) fn open_marks(alloc: Global, model: &BlifModel) -> Result<Vec<bool>, OutOfMemory>
    ensures { IfOk result (λ marks. marks.items ≡ open_marks (plain_model model.now)) }
{
    let mut marks = Vec::with_capacity(alloc, model.elements.len())?;
    for element in &model.elements {
        push_mark(&mut marks, element)?;
    }
    Ok(marks)
}
