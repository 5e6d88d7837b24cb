//! The net of a name in a placed model.
ghost use Rattle.std.specs.Prelude.{◌≡◌, ◌≤◌, ◌∷◌, List, length, map, reverse, take, option_copied, IfOk, OnOk};
ghost use Rattle.std.specs.Str.{bytes_eq};
ghost use Rattle.indexmap.specs.IndexMap.{get};
ghost use Rattle.blif_text.specs.Views.{plain_element};
ghost use Rattle.hierarchy.specs.Private.Bindings.{bindings_of, Binds};
ghost use Rattle.library_faults.specs.Flat.{actual_of};
ghost use Rattle.hierarchy.specs.declared.walking.walk.Frame.{Frame};
ghost use Rattle.hierarchy.specs.Private.Walk.{library_of, IsReady, IsPlacing, IsPlace, AreNetsBelow, bound_by, innermost_first, known_net, net_at};

use crate::walking::bindings::{Link, Ready, actual_at};
use crate::walking::walk::{Place, Walk, element_in, link_at};
use blif_text::Element;
use indexmap::IndexMap;
use std::alloc::Global;
use tmr_base::{Name, OutOfMemory};

/// From this depth on a walk follows the names that stand below a placed model when it is entered. Above
/// it a name is followed wherever it stands.
const DEEP: usize = 16;

/// What the statement that places a model binds the name to.
#[tactic(auto, unfolding(library_faults::specs::Flat::actual_of))]
fn actual_in<'a>(
    ready: &Ready<'a>,
    placing: Option<(usize, usize)>,
    name: &Name,
) -> Option<&'a Name>
    requires ready { IsReady ready.now }
    requires placing { IsPlacing (library_of ready.now) placing }
    ensures { option_copied result ≡ actual_of (bound_by (library_of ready.now) placing) name.now }
{
    match placing {
        Some((x, i)) => actual_at(
            link_at(ready.rows, x, i),
            element_in(ready.models, x, i),
            name,
        ),
        None => None,
    }
}

/// What is known of a name. Where nothing is known, no name is hashed.
fn net_among<'a>(nets: &'a IndexMap<Name, (usize, Name)>, name: &Name) -> Option<&'a (usize, Name)>
    ensures { option_copied result ≡ get bytes_eq nets.now name.now }
{
    if nets.is_empty() {
        return None;
    }
    nets.get(name)
}

/// The net of a name in the placed model of this depth, where the walk knows it.
fn known_at<'a>(walk: &'a Walk, depth: usize, name: &Name) -> Option<&'a (usize, Name)>
    ensures { option_copied result ≡ known_net walk.now depth name.now }
{
    let nets = walk.known.get(depth)?;
    net_among(nets, name)
}

/// The net of a name in the innermost placed model of the walk: where its path ends in the walk's path,
/// and its name.
pub(crate) fn resolve<'a>(place: &Place<'a>, name: &'a Name) -> (usize, &'a Name)
    requires { IsPlace place.now }
    ensures within { result.0 ≤ length place.now.walk.now.path.items }
    ensures inner { (f : Frame) (frames : List Frame) → innermost_first place.now.walk.now ≡ f ∷ frames → result.0 ≤ f.path_end }
    ensures net { net_at place.now name.now ≡ record { path = take result.0 place.now.walk.now.path.items; name = result.1.now } }
{
    let mut found = name;
    let mut depth = place.walk.frames.len();
    while depth > 0 {
        let frame = &place.walk.frames[depth - 1];
        if let Some((end, net)) = known_at(place.walk, depth - 1, found) {
            return (*end, net);
        }
        match actual_in(&place.ready, frame.placing, found) {
            Some(actual) => found = actual,
            None => return (frame.path_end, found),
        }
        depth -= 1;
    }
    (0, found)
}

/// The formal of the binding with this number of a statement.
fn formal_at(element: &Element, number: usize) -> Option<&Name> {
    match element {
        Element::Instance { bindings, .. } => Some(&bindings.get(number)?.0),
        Element::Table { .. } | Element::Latch { .. } => None,
    }
}

/// One formal more of a statement in the innermost placed model of the walk has its net.
fn add_known(
    alloc: Global,
    place: &Place<'_>,
    link: &Link,
    element: &Element,
    nets: &mut IndexMap<Name, (usize, Name)>,
    formal: &Name,
) -> Result<(), OutOfMemory>
    requires place { IsPlace place.now }
    requires binds { Binds link.now.actuals (bindings_of (plain_element element.now)) }
    ensures { OnOk result (AreNetsBelow place.now (plain_element element.now) (get bytes_eq nets.old) → AreNetsBelow place.now (plain_element element.now) (get bytes_eq nets.new)) }
{
    let Some(actual) = actual_at(link, element, formal) else {
        return Ok(());
    };
    let (end, net) = resolve(place, actual);
    let key = formal.copy(alloc)?;
    let net = net.copy(alloc)?;
    nets.insert(key, (end, net))?;
    Ok(())
}

/// The nets of the formals of a statement in the innermost placed model of the walk that stand below it.
/// A walk that is not deep follows each name when it is asked for.
pub(crate) fn nets_within(
    alloc: Global,
    place: &Place<'_>,
    link: &Link,
    element: &Element,
) -> Result<IndexMap<Name, (usize, Name)>, OutOfMemory>
    requires place { IsPlace place.now }
    requires binds { Binds link.now.actuals (bindings_of (plain_element element.now)) }
    ensures { IfOk result (λ nets. AreNetsBelow place.now (plain_element element.now) (get bytes_eq nets)) }
{
    let mut nets = IndexMap::new(alloc);
    if place.walk.frames.len() < DEEP {
        return Ok(nets);
    }
    for number in &link.asked {
        if let Some(formal) = formal_at(element, *number) {
            add_known(alloc, place, link, element, &mut nets, formal)?;
        }
    }
    Ok(nets)
}
