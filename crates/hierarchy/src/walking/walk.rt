//! A walk over the flat elements of a library, one after the other, by a stack of the placed models.
ghost use Rattle.std.specs.Str.{bytes_eq};
ghost use Rattle.indexmap.specs.IndexMap.{get};
ghost use Rattle.std.specs.Prelude.{ℕ, List, option_and_then, ◌≡◌, ◌<◌, ◌≤◌, ◌∷◌, ◌++◌, [], map, length, take, IfOk, OnOk, IfSome, IsNone, Some, None, true, false, slice_get};
ghost use Rattle.hierarchy.specs.Private.Alone.{is_placing};
ghost use Rattle.hierarchy.specs.declared.walking.bindings.Row.{Row};
ghost use Rattle.hierarchy.specs.Private.Walk.{library_of, innermost_first, known_net, AreWalked, IsReady, IsMoved, IsNext, IsWalking};
ghost use Rattle.library_faults.specs.Private.Models.{IsInstance, element_at, model_at};
ghost use Rattle.blif_text.specs.Views.{plain_model, plain_element};

use crate::walking::bindings::{Link, Ready, Row};
use crate::walking::resolve::nets_within;
use blif_text::{BlifModel, Element};
use indexmap::IndexMap;
use std::alloc::{AllocError, Global};
use tmr_base::{Name, OutOfMemory};

/// A placed model, and how far its elements are walked: the model's number, the element and the number
/// of the `.subckt` statement that come next, the statement that places it, by model and element, and
/// where its path ends.
#[derive(Clone, Copy, Drop)]
pub struct Frame {
    pub(crate) model: usize,
    pub(crate) next: usize,
    pub(crate) number: usize,
    pub(crate) placing: Option<(usize, usize)>,
    pub(crate) path_end: usize,
}

/// The placed models from the main model inwards, the innermost path that was walked, by numbers of statements, and for
/// the placed models of each depth some names whose nets were followed outwards when the model was entered:
/// where the net's path ends, and its name.
#[derive(Drop)]
pub struct Walk {
    pub(crate) frames: Vec<Frame>,
    pub(crate) path: Vec<usize>,
    pub(crate) known: Vec<IndexMap<Name, (usize, Name)>>,
}

/// The innermost placed model of a walk over a library.
#[derive(Clone, Copy, Drop)]
pub struct Place<'a> {
    pub(crate) ready: Ready<'a>,
    pub(crate) walk: &'a Walk,
}

/// Takes the innermost placed model off.
#[tactic(auto, using(crate::proofs::Stacks::stack_laws))]
fn pop_frame(walk: &mut Walk) -> Option<Frame>
    ensures none { IsNone result → innermost_first walk.old ≡ [] }
    ensures some { IfSome result (λ top. innermost_first walk.old ≡ top ∷ innermost_first walk.new) }
    ensures path { walk.new.path.items ≡ walk.old.path.items }
    ensures known { walk.new.known.items ≡ walk.old.known.items }
{
    walk.frames.pop()
}

/// Puts a placed model on as the innermost.
#[tactic(auto, using(crate::proofs::Stacks::stack_laws))]
fn push_frame(walk: &mut Walk, frame: Frame) -> Result<(), AllocError>
    ensures frames { OnOk result (innermost_first walk.new ≡ frame ∷ innermost_first walk.old) }
    ensures path { OnOk result (walk.new.path.items ≡ walk.old.path.items) }
    ensures known { OnOk result (walk.new.known.items ≡ walk.old.known.items) }
{
    walk.frames.push(frame)?;
    Ok(())
}

/// At this depth these nets are known, and none further in. Where less is known than the depth, nothing is
/// kept.
fn keep_known(
    known: &mut Vec<IndexMap<Name, (usize, Name)>>,
    depth: usize,
    nets: IndexMap<Name, (usize, Name)>,
) -> Result<(), OutOfMemory>
    ensures outer { OnOk result ((k : ℕ) → k < depth → slice_get known.new.items k ≡ slice_get known.old.items k) }
    ensures own { OnOk result ((name : List ℕ) (end : ℕ) (net : List ℕ) → option_and_then (λ m. get bytes_eq m name) (slice_get known.new.items depth) ≡ Some (end, net) → get bytes_eq nets name ≡ Some (end, net)) }
{
    known.truncate(depth);
    if known.len() == depth {
        known.push(nets)?;
    }
    Ok(())
}

/// Goes into the model that the statement places which comes next in `top`. The nets of these names are
/// known there.
fn enter(
    walk: &mut Walk,
    top: Frame,
    target: usize,
    known: IndexMap<Name, (usize, Name)>,
) -> Result<(), OutOfMemory>
    ensures frames { OnOk result (innermost_first walk.new ≡ record { model = target; next = 0; number = 0; placing = Some (top.model, top.next); path_end = length walk.new.path.items } ∷ innermost_first walk.old) }
    ensures path { OnOk result (walk.new.path.items ≡ take top.path_end walk.old.path.items ++ top.number ∷ []) }
    ensures outer { OnOk result ((k : ℕ) → k < length walk.old.frames.items → slice_get walk.new.known.items k ≡ slice_get walk.old.known.items k) }
    ensures own { OnOk result ((name : List ℕ) (end : ℕ) (net : List ℕ) → known_net walk.new (length walk.old.frames.items) name ≡ Some (end, net) → get bytes_eq known name ≡ Some (end, net)) }
{
    let depth = walk.frames.len();
    keep_known(&mut walk.known, depth, known)?;
    walk.path.truncate(top.path_end);
    walk.path.push(top.number)?;
    let path_end = walk.path.len();
    push_frame(
        walk,
        Frame {
            model: target,
            next: 0,
            number: 0,
            placing: Some((top.model, top.next)),
            path_end,
        },
    )?;
    Ok(())
}

/// The link of an element.
pub(crate) fn link_at(rows: &[Row], x: usize, i: usize) -> &Link
    requires row { x < length rows.now }
    requires link { (row : Row) → slice_get rows.now x ≡ Some row → i < length row.links.items }
    ensures { (row : Row) → slice_get rows.now x ≡ Some row → slice_get row.links.items i ≡ Some result.now }
{
    &rows[x].links[i]
}

/// An element of a model.
pub(crate) fn element_in(models: &[BlifModel], x: usize, i: usize) -> &Element
    requires model { x < length models.now }
    requires element { i < length (model_at (map plain_model models.now) x).elements }
    ensures { plain_element result.now ≡ element_at (map plain_model models.now) x i }
{
    &models[x].elements[i]
}

/// Passes a `.subckt` statement, and goes into the model that it places where an element stands there.
fn pass_statement(
    alloc: Global,
    walk: &mut Walk,
    ready: &Ready<'_>,
    top: Frame,
    element: &Element,
) -> Result<(), OutOfMemory>
    requires ready { IsReady ready.now }
    requires here { plain_element element.now ≡ element_at (library_of ready.now) top.model top.next }
    requires walking { AreWalked (library_of ready.now) walk.old.path.items (known_net walk.old) (top ∷ innermost_first walk.old) }
    requires next { top.next < length (model_at (library_of ready.now) top.model).elements }
    requires room { top.next < 18446744073709551615 }
    requires instance { IsInstance (element_at (library_of ready.now) top.model top.next) }
    ensures { OnOk result (IsMoved (library_of ready.now) walk.old.path.items (top ∷ innermost_first walk.old) walk.new) }
{
    let passed = Frame {
        model: top.model,
        next: top.next + 1,
        number: top.number + 1,
        placing: top.placing,
        path_end: top.path_end,
    };
    push_frame(walk, passed)?;
    let link = link_at(ready.rows, top.model, top.next);
    if let Some(target) = link.target {
        if walk.frames.len() <= ready.models.len() {
            let place = Place {
                ready: *ready,
                walk: &*walk,
            };
            let known = nets_within(alloc, &place, link, element)?;
            enter(walk, top, target, known)?;
        }
    }
    Ok(())
}

/// The element is a `.subckt` statement.
pub(crate) fn is_placing(element: &Element) -> bool
    ensures placing { result ≡ is_placing (plain_element element.now) }
    ensures yes { result ≡ true → IsInstance (plain_element element.now) }
    ensures no { result ≡ false → ¬ IsInstance (plain_element element.now) }
{
    match element {
        Element::Instance { .. } => true,
        Element::Table { .. } | Element::Latch { .. } => false,
    }
}

/// The walk before its first element.
pub(crate) fn begin_walk(alloc: Global) -> Result<Walk, OutOfMemory>
    ensures frames { IfOk result (λ walk. innermost_first walk ≡ record { model = 0; next = 0; number = 0; placing = None; path_end = 0 } ∷ []) }
    ensures path { IfOk result (λ walk. walk.path.items ≡ []) }
    ensures known { IfOk result (λ walk. (depth : ℕ) (name : List ℕ) → known_net walk depth name ≡ None) }
{
    let mut walk = Walk {
        frames: Vec::new(alloc),
        path: Vec::new(alloc),
        known: Vec::new(alloc),
    };
    walk.known.push(IndexMap::new(alloc))?;
    let main = Frame {
        model: 0,
        next: 0,
        number: 0,
        placing: None,
        path_end: 0,
    };
    push_frame(&mut walk, main)?;
    Ok(walk)
}

/// Goes on to the next flat element, which is this element of this model, placed at the walk's frames.
pub(crate) fn next_element(
    alloc: Global,
    walk: &mut Walk,
    ready: &Ready<'_>,
) -> Result<Option<(usize, usize)>, OutOfMemory>
    requires ready { IsReady ready.now }
    requires walking { IsWalking (library_of ready.now) walk.old }
    ensures { IfOk result (λ found. IsNext (library_of ready.now) walk.old found walk.new) }
{
    'moves: loop {
        let Some(top) = pop_frame(walk) else {
            return Ok(None);
        };
        let elements = &ready.models[top.model].elements;
        if top.next >= elements.len() {
            continue;
        }
        if is_placing(&elements[top.next]) {
            pass_statement(alloc, walk, ready, top, &elements[top.next])?;
            continue;
        }
        let passed = Frame {
            model: top.model,
            next: top.next + 1,
            number: top.number,
            placing: top.placing,
            path_end: top.path_end,
        };
        push_frame(walk, passed)?;
        return Ok(Some((top.model, top.next)));
    }
}
