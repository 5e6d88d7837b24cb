//! Libraries as texts.

use crate::escapes::{put_bytes, put_name, put_names};
use blif_text::{BlifModel, Element, Init, Library};
use std::alloc::{AllocError, Global};
use table_cover::Cover;
use tmr_base::{Edge, Name};

fn put_rows(text: &mut String, cover: &Cover) -> Result<(), AllocError> {
    for i in 0..cover.row_count() {
        put_bytes(text, cover.row(i))?;
        text.push_str(if cover.width() == 0 { "" } else { " " })?;
        text.push_str(if cover.is_on() { "1|" } else { "0|" })?;
    }
    Ok(())
}

fn put_control(text: &mut String, control: &Option<(Edge, Name)>) -> Result<(), AllocError> {
    match control {
        Some((Edge::Rising, name)) => {
            text.push_str(" re")?;
            put_name(text, name)
        }
        Some((Edge::Falling, name)) => {
            text.push_str(" fe")?;
            put_name(text, name)
        }
        None => Ok(()),
    }
}

fn put_init(text: &mut String, init: Init) -> Result<(), AllocError> {
    text.push_str(match init {
        Init::Zero => " 0|",
        Init::One => " 1|",
        Init::Free => " 2|",
        Init::Unknown => " 3|",
    })
}

fn put_table(
    text: &mut String,
    pins: &[Name],
    out: &Name,
    cover: &Cover,
) -> Result<(), AllocError> {
    text.push_str(".names")?;
    put_names(text, pins)?;
    put_name(text, out)?;
    text.push('|')?;
    put_rows(text, cover)
}

fn put_instance(
    text: &mut String,
    model: &Name,
    bindings: &[(Name, Name)],
) -> Result<(), AllocError> {
    text.push_str(".subckt")?;
    put_name(text, model)?;
    for (formal, actual) in bindings {
        put_name(text, formal)?;
        text.push('=')?;
        put_bytes(text, actual.bytes())?;
    }
    text.push('|')
}

fn put_latch(
    text: &mut String,
    pin: &Name,
    out: &Name,
    control: &Option<(Edge, Name)>,
    init: Init,
) -> Result<(), AllocError> {
    text.push_str(".latch")?;
    put_name(text, pin)?;
    put_name(text, out)?;
    put_control(text, control)?;
    put_init(text, init)
}

fn put_element(text: &mut String, element: &Element) -> Result<(), AllocError> {
    match element {
        Element::Table { pins, out, cover } => put_table(text, pins.as_slice(), out, cover),
        Element::Latch {
            pin,
            out,
            control,
            init,
        } => put_latch(text, pin, out, control, *init),
        Element::Instance { model, bindings } => put_instance(text, model, bindings.as_slice()),
    }
}

fn put_model(text: &mut String, model: &BlifModel) -> Result<(), AllocError> {
    text.push_str(".model")?;
    put_name(text, &model.name)?;
    text.push_str("|.inputs")?;
    put_names(text, model.inputs.as_slice())?;
    text.push_str("|.outputs")?;
    put_names(text, model.outputs.as_slice())?;
    text.push('|')?;
    for element in &model.elements {
        put_element(text, element)?;
    }
    text.push_str(".end|")
}

/// The models of a library, each with all its inputs in one `.inputs`.
pub fn library_text(alloc: Global, library: &Library) -> Result<String, AllocError> {
    let mut text = String::new(alloc);
    for model in library.models() {
        put_model(&mut text, model)?;
    }
    Ok(text)
}
