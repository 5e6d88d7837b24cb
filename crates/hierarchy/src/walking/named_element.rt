//! Flat elements whose nets have their texts as names.
ghost use Rattle.std.specs.Prelude.{◌≡◌, ◌∷◌, [], map, flat_map, IfOk, OnOk, IfErr};
ghost use Rattle.std.specs.Str.{bytes_eq};
ghost use Rattle.indexmap.specs.IndexMap.{get};
ghost use Rattle.blif_text.specs.Views.{plain_element};
ghost use Rattle.blif_text.specs.Models.{Table, Register};
ghost use Rattle.library_faults.specs.Flat.{named};
ghost use Rattle.hierarchy.specs.Clash.{nets_of};
ghost use Rattle.hierarchy.specs.Private.Naming.{AreNamed, IsNamingFault};
ghost use Rattle.hierarchy.specs.Private.Walk.{library_of, IsPlace, IsReady, IsWalking, coming, levels_at};
ghost use Rattle.wrapper_chains.specs.Private.Placed.{placed_element};
ghost use Rattle.library_faults.specs.Private.Models.{IsInstance};

use crate::walking::bindings::Ready;
use crate::walking::naming::{NamingFault, name_control, name_net, name_nets};
use crate::walking::walk::{Place, Walk, next_element};
use blif_text::{Element, Init};
use indexmap::IndexMap;
use std::alloc::Global;
use table_cover::Cover;
use tmr_base::{Edge, Name};

/// The table with the names of its nets.
#[tactic(auto, using(crate::proofs::NetNames::naming_laws))]
fn name_table(
    alloc: Global,
    texts: &mut IndexMap<Name, usize>,
    place: &Place<'_>,
    pins: &[Name],
    out: &Name,
    cover: &Cover,
) -> Result<Element, NamingFault>
    requires { IsPlace place.now }
    ensures element { IfOk result (λ found. plain_element found ∷ [] ≡ map named (placed_element (levels_at place.now) (Table pins.now out.now cover.now))) }
    ensures named { OnOk result (AreNamed (get bytes_eq texts.old) (get bytes_eq texts.new) (flat_map nets_of (placed_element (levels_at place.now) (Table pins.now out.now cover.now)))) }
    ensures fault { IfErr result (λ fault. IsNamingFault (get bytes_eq texts.old) (flat_map nets_of (placed_element (levels_at place.now) (Table pins.now out.now cover.now))) fault) }
{
    let pins = name_nets(alloc, texts, place, pins)?;
    let out = name_net(alloc, texts, place, out)?;
    let cover = cover.copy(alloc)?;
    Ok(Element::Table { pins, out, cover })
}

/// The latch with the names of its nets.
#[tactic(auto, using(crate::proofs::NetNames::naming_laws))]
fn name_latch(
    alloc: Global,
    texts: &mut IndexMap<Name, usize>,
    place: &Place<'_>,
    pin: &Name,
    out: &Name,
    control: &Option<(Edge, Name)>,
    init: Init,
) -> Result<Element, NamingFault>
    requires { IsPlace place.now }
    ensures element { IfOk result (λ found. plain_element found ∷ [] ≡ map named (placed_element (levels_at place.now) (Register pin.now out.now control.now init))) }
    ensures named { OnOk result (AreNamed (get bytes_eq texts.old) (get bytes_eq texts.new) (flat_map nets_of (placed_element (levels_at place.now) (Register pin.now out.now control.now init)))) }
    ensures fault { IfErr result (λ fault. IsNamingFault (get bytes_eq texts.old) (flat_map nets_of (placed_element (levels_at place.now) (Register pin.now out.now control.now init))) fault) }
{
    let pin = name_net(alloc, texts, place, pin)?;
    let out = name_net(alloc, texts, place, out)?;
    let control = name_control(alloc, texts, place, control)?;
    let control = Box::new(alloc, control)?;
    Ok(Element::Latch {
        pin,
        out,
        control,
        init,
    })
}

/// The element with the names of its nets.
fn name_element(
    alloc: Global,
    texts: &mut IndexMap<Name, usize>,
    place: &Place<'_>,
    element: &Element,
) -> Result<Element, NamingFault>
    requires place { IsPlace place.now }
    requires plain { ¬ IsInstance (plain_element element.now) }
    ensures element { IfOk result (λ found. plain_element found ∷ [] ≡ map named (placed_element (levels_at place.now) (plain_element element.now))) }
    ensures named { OnOk result (AreNamed (get bytes_eq texts.old) (get bytes_eq texts.new) (flat_map nets_of (placed_element (levels_at place.now) (plain_element element.now)))) }
    ensures fault { IfErr result (λ fault. IsNamingFault (get bytes_eq texts.old) (flat_map nets_of (placed_element (levels_at place.now) (plain_element element.now))) fault) }
{
    match element {
        Element::Table { pins, out, cover } => { name_table(alloc, texts, place, pins, out, cover) }
        Element::Latch {
            pin,
            out,
            control,
            init,
        } => name_latch(alloc, texts, place, pin, out, control, *init),
        Element::Instance { .. } => unreachable!(),
    }
}

/// All elements that are still to come, with the names of their nets.
pub(crate) fn name_elements(
    alloc: Global,
    texts: &mut IndexMap<Name, usize>,
    ready: &Ready<'_>,
    walk: &mut Walk,
) -> Result<Vec<Element>, NamingFault>
    requires ready { IsReady ready.now }
    requires walking { IsWalking (library_of ready.now) walk.old }
    ensures elements { IfOk result (λ found. map plain_element found.items ≡ map named (coming (library_of ready.now) walk.old)) }
    ensures named { OnOk result (AreNamed (get bytes_eq texts.old) (get bytes_eq texts.new) (flat_map nets_of (coming (library_of ready.now) walk.old))) }
    ensures fault { IfErr result (λ fault. IsNamingFault (get bytes_eq texts.old) (flat_map nets_of (coming (library_of ready.now) walk.old)) fault) }
{
    let mut elements = Vec::new(alloc);
    'elements: loop {
        let Some((x, i)) = next_element(alloc, walk, ready)? else {
            return Ok(elements);
        };
        let place = Place {
            ready: *ready,
            walk: &*walk,
        };
        let element = name_element(alloc, texts, &place, &ready.models[x].elements[i])?;
        elements.push(element)?;
    }
}
