//! Ways: statements that stand for chains of wrappers.
//!
//! A model that holds one `.subckt` statement alone has the flat elements of what that places, on other nets.
//! Where each of these nets has a name in the model, a statement that places the end of the chain says the
//! same. These statements are made here, for each model from those that it places.
//!
//! Any model may be an end whose flat elements stand on its formals alone. Where a model binds few names and the
//! statement would bind many, or long ones, the model is an end itself, with the few names.
ghost use Rattle.std.specs.Prelude.{◌≡◌, ◌≢◌, ◌<◌, ℕ, List, true, Some, length, map, slice_index, IfOk, IfSome};
ghost use Rattle.std.specs.Str.{bytes_eq};
ghost use Rattle.indexmap.specs.IndexMap.{get};
ghost use Rattle.blif_text.specs.Kind.{is_among};
ghost use Rattle.blif_text.specs.Views.{plain_model, plain_element};
ghost use Rattle.library_faults.specs.Flat.{actual_of};
ghost use Rattle.library_faults.specs.Private.Counts.{used};
ghost use Rattle.library_faults.specs.Private.Entries.{entry_at as entry_at_number, entry_named};
ghost use Rattle.library_faults.specs.Private.Looked.{IsLooked};
ghost use Rattle.wrapper_chains.specs.Bare.{AreBare};
ghost use Rattle.wrapper_chains.specs.Private.Ways.{IsHandedOn, IsHandedWay, IsEndWay, IsOnly, IsWay, AreWays};

use crate::bare_models::is_bare;
use crate::bindings::bind_actuals;
use blif_text::{BlifModel, Element};
use indexmap::{IndexMap, IndexSet};
use library_faults::{Count, Looked, entry_at, entry_of, times_used};
use std::alloc::Global;
use tmr_base::{Name, OutOfMemory};

/// Where a way would weigh this many times what the bindings of the model's statement do, the chain ends at the
/// model: all ways together are then no larger than a constant times the library.
const ROOM: usize = 4;

/// A statement that has the flat elements of a model: it places the model `base` and binds each name that
/// stands in that model's flat elements. A model at which chains end is its own base. The length is the
/// number of the statements that it stands for. Only time hangs on it, so no clause speaks of it.
#[derive(Drop)]
pub struct Way {
    pub(crate) base: usize,
    pub(crate) nets: Vec<(Name, Name)>,
    pub(crate) length: usize,
}

/// The place of the only element that is not bare.
pub(crate) fn only_filled(
    names: &IndexSet<Name>,
    holds: &[bool],
    elements: &[Element],
) -> Option<usize>
    ensures { IfSome result (λ i. IsOnly names.now.keys holds.now (map plain_element elements.now) i) }
{
    let mut only = None;
    for (i, element) in elements.iter().enumerate() {
        if !is_bare(names, holds, element) {
            if only.is_some() {
                return None;
            }
            only = Some(i);
        }
    }
    only
}

/// Each of these names bound to itself that is a formal with this count and stands somewhere.
fn bound_among(
    alloc: Global,
    count: &Count,
    names: &[Name],
) -> Result<Vec<(Name, Name)>, OutOfMemory>
    ensures { IfOk result (λ nets. (name : List ℕ) → is_among names.now name ≡ true → used count.now name ≢ 0 → actual_of nets.items name ≡ Some name) }
{
    let mut nets = Vec::new(alloc);
    for name in names {
        if times_used(count, name) > 0 {
            let formal = name.copy(alloc)?;
            let actual = name.copy(alloc)?;
            nets.push((formal, actual))?;
        }
    }
    Ok(nets)
}

/// Each formal bound to itself that stands in the model with this count or below it.
fn bound_formals(alloc: Global, count: &Count) -> Result<Vec<(Name, Name)>, OutOfMemory>
    ensures { IfOk result (λ nets. (name : List ℕ) → used count.now name ≢ 0 → actual_of nets.items name ≡ Some name) }
{
    bound_among(alloc, count, count.formals.as_slice())
}

/// The way of a model with only formals in its flat elements, where a chain may end at it: each of these formals
/// is bound to itself.
fn end_way(
    alloc: Global,
    looked: &Looked,
    ends: &[bool],
    x: usize,
) -> Result<Option<Way>, OutOfMemory>
    ensures { IfOk result (λ found. IfSome found (λ way. IsEndWay (entry_at_number looked.now.positions.items looked.now.counts.items x) x way)) }
{
    let Some(count) = entry_at(&looked.positions, &looked.counts, x) else {
        return Ok(None);
    };
    if count.places > 0 || !matches!(ends.get(x), Some(true)) {
        return Ok(None);
    }
    let nets = bound_formals(alloc, count)?;
    Ok(Some(Way {
        base: x,
        nets,
        length: 0,
    }))
}

/// About what a binding takes in memory, beside a constant.
fn weight_of(formal: &Name, actual: &Name) -> usize {
    let names = formal.bytes().len().saturating_add(actual.bytes().len());
    names.saturating_add(16)
}

/// How much the way of a model may weigh that holds a statement with these bindings.
fn room_of(bindings: &[(Name, Name)]) -> usize {
    let mut room: usize = 64;
    for (formal, actual) in bindings {
        room = room.saturating_add(weight_of(formal, actual).saturating_mul(ROOM));
    }
    room
}

/// What a statement binds the nets of a placed model to, or none where it leaves one of them open, or where this would
/// weigh more than there is room for.
fn handed_nets(
    alloc: Global,
    nets: &[(Name, Name)],
    actuals: &IndexMap<Name, Name>,
    room: usize,
) -> Result<Option<Vec<(Name, Name)>>, OutOfMemory>
    ensures { IfOk result (λ found. IfSome found (λ handed. IsHandedOn nets.now (get bytes_eq actuals.now) handed.items)) }
{
    let mut handed = Vec::with_capacity(alloc, nets.len())?;
    let mut left = room;
    for (name, net) in nets {
        let Some(actual) = actuals.get(net) else {
            return Ok(None);
        };
        let weight = weight_of(name, actual);
        if weight > left {
            return Ok(None);
        }
        left -= weight;
        let name = name.copy(alloc)?;
        let actual = actual.copy(alloc)?;
        handed.push((name, actual))?;
    }
    Ok(Some(handed))
}

/// The same, of a statement with these bindings.
fn handed_on(
    alloc: Global,
    nets: &[(Name, Name)],
    bindings: &[(Name, Name)],
) -> Result<Option<Vec<(Name, Name)>>, OutOfMemory>
    ensures { IfOk result (λ found. IfSome found (λ handed. IsHandedOn nets.now (actual_of bindings.now) handed.items)) }
{
    let actuals = bind_actuals(alloc, bindings)?;
    handed_nets(alloc, nets, &actuals, room_of(bindings))
}

/// The way of a model that holds this statement alone.
fn handed_way(
    alloc: Global,
    looked: &Looked,
    ways: &[Option<Way>],
    model: &Name,
    bindings: &[(Name, Name)],
) -> Result<Option<Way>, OutOfMemory>
    ensures { IfOk result (λ found. IfSome found (λ way. IsHandedWay (entry_named looked.now.names.keys looked.now.positions.items ways.now model.now) bindings.now way)) }
{
    let Some(placed) = entry_of(&looked.names, &looked.positions, ways, model) else {
        return Ok(None);
    };
    match handed_on(alloc, &placed.nets, bindings)? {
        Some(nets) => Ok(Some(Way {
            base: placed.base,
            nets,
            length: placed.length.saturating_add(1),
        })),
        None => Ok(None),
    }
}

/// The way of the model that comes next in the order, where it has one.
fn next_way(
    alloc: Global,
    models: &[BlifModel],
    looked: &Looked,
    holds: &[bool],
    ends: &[bool],
    ways: &[Option<Way>],
    x: usize,
) -> Result<Option<Way>, OutOfMemory>
    requires looked { IsLooked (map plain_model models.now) looked.now }
    requires bare { AreBare (map plain_model models.now) holds.now }
    requires ways { AreWays (map plain_model models.now) looked.now.order.items ways.now }
    requires here { length ways.now < length looked.now.order.items }
    requires at { slice_index looked.now.order.items (length ways.now) ≡ x }
    ensures { IfOk result (λ found. IfSome found (λ way. IsWay (map plain_model models.now) looked.now.order.items (length ways.now) way)) }
{
    let elements = &models[x].elements;
    if let Some(i) = only_filled(&looked.names, holds, elements) {
        if let Element::Instance { model, bindings } = &elements[i] {
            if let Some(way) = handed_way(alloc, looked, ways, model, bindings)? {
                return Ok(Some(way));
            }
        }
    }
    end_way(alloc, looked, ends, x)
}

/// The ways of the models of the order, each in its place.
pub(crate) fn all_ways(
    alloc: Global,
    models: &[BlifModel],
    looked: &Looked,
    holds: &[bool],
    ends: &[bool],
) -> Result<Vec<Option<Way>>, OutOfMemory>
    requires looked { IsLooked (map plain_model models.now) looked.now }
    requires bare { AreBare (map plain_model models.now) holds.now }
    ensures { IfOk result (λ ways. AreWays (map plain_model models.now) looked.now.order.items ways.items) }
{
    let mut ways = Vec::new(alloc);
    for x in &looked.order {
        let way = next_way(alloc, models, looked, holds, ends, &ways, *x)?;
        ways.push(way)?;
    }
    Ok(ways)
}
