//! The statements of a library made ready to be followed: what each places, and what it binds, by name.
ghost use Rattle.std.specs.Prelude.{◌≡◌, map, option_copied, IfOk};
ghost use Rattle.blif_text.specs.Views.{plain_model, plain_element};
ghost use Rattle.library_faults.specs.Flat.{actual_of};
ghost use Rattle.hierarchy.specs.Private.Bindings.{bindings_of, Binds, IsLink, AreLinks, AreRows};

use blif_text::{BlifModel, Element};
use indexmap::{IndexMap, IndexSet};
use library_faults::{Count, Looked, entry_of, times_used};
use std::alloc::{AllocError, Global};
use tmr_base::{Name, OutOfMemory};
use wrapper_chains::{bind_actuals, filled_target};

/// A statement of at most so many bindings is asked by a walk over them. A map for each takes more memory than
/// the statement.
const FEW: usize = 8;

/// One element of a model. A `.subckt` statement below which an element stands has the number of the
/// model that it places as its target, and one with many bindings the actuals of its formals. The bindings at the
/// places `asked` bind formals that stand in flat elements of a model that holds more than one; a model that holds
/// one alone only hands them on. Only the time that names take hangs on `asked`, so no clause speaks of it.
#[derive(Drop)]
pub struct Link {
    pub(crate) target: Option<usize>,
    pub(crate) actuals: Option<IndexMap<Name, Name>>,
    pub(crate) asked: Vec<usize>,
}

/// The elements of a model.
#[derive(Drop)]
pub struct Row {
    pub(crate) links: Vec<Link>,
}

/// A library that is ready to be walked: its models, and the links of their elements.
#[derive(Clone, Copy, Drop)]
pub struct Ready<'a> {
    pub(crate) models: &'a [BlifModel],
    pub(crate) rows: &'a [Row],
}

/// The actual of each formal, where there are many bindings.
fn many_actuals(
    alloc: Global,
    bindings: &[(Name, Name)],
) -> Result<Option<IndexMap<Name, Name>>, OutOfMemory>
    ensures { IfOk result (λ actuals. Binds actuals bindings.now) }
{
    if bindings.len() <= FEW {
        return Ok(None);
    }
    Ok(Some(bind_actuals(alloc, bindings)?))
}

/// What the first binding of the formal binds it to.
#[tactic(auto, unfolding(library_faults::specs::Flat::actual_of))]
fn first_actual<'a>(bindings: &'a [(Name, Name)], name: &Name) -> Option<&'a Name>
    ensures { option_copied result ≡ actual_of bindings.now name.now }
{
    for (formal, actual) in bindings {
        if name == formal {
            return Some(actual);
        }
    }
    None
}

/// What the element with this link binds the formal to.
#[tactic(auto, unfolding(library_faults::specs::Flat::actual_of))]
pub(crate) fn actual_at<'a>(link: &'a Link, element: &'a Element, name: &Name) -> Option<&'a Name>
    requires { Binds link.now.actuals (bindings_of (plain_element element.now)) }
    ensures { option_copied result ≡ actual_of (bindings_of (plain_element element.now)) name.now }
{
    if let Some(actuals) = &link.actuals {
        return actuals.get(name);
    }
    match element {
        Element::Instance { bindings, .. } => first_actual(bindings, name),
        Element::Table { .. } | Element::Latch { .. } => None,
    }
}

/// The places of the bindings whose formals stand in flat elements of a model with this count.
fn asked_formals(
    alloc: Global,
    bindings: &[(Name, Name)],
    count: Option<&Count>,
) -> Result<Vec<usize>, AllocError> {
    let mut asked = Vec::new(alloc);
    let Some(count) = count else {
        return Ok(asked);
    };
    for (place, (formal, _)) in bindings.iter().enumerate() {
        if times_used(count, formal) > 0 {
            asked.push(place)?;
        }
    }
    Ok(asked)
}

/// More than one statement of the model of this name holds an element.
fn is_branching(names: &IndexSet<Name>, branching: &[bool], model: &Name) -> bool {
    match names.get_index_of(model) {
        Some(x) => matches!(branching.get(x), Some(true)),
        None => false,
    }
}

/// The places of the bindings of a statement that a walk asks for below it.
fn asked_below(
    alloc: Global,
    looked: &Looked,
    branching: &[bool],
    model: &Name,
    bindings: &[(Name, Name)],
) -> Result<Vec<usize>, AllocError> {
    if !is_branching(&looked.names, branching, model) {
        return Ok(Vec::new(alloc));
    }
    let count = entry_of(&looked.names, &looked.positions, &looked.counts, model);
    asked_formals(alloc, bindings, count)
}

/// The element, ready to be followed.
fn link_of(
    alloc: Global,
    looked: &Looked,
    holds: &[bool],
    branching: &[bool],
    element: &Element,
) -> Result<Link, OutOfMemory>
    ensures { IfOk result (λ link. IsLink looked.now.names.keys holds.now link (plain_element element.now)) }
{
    match element {
        Element::Instance { model, bindings } => {
            let actuals = many_actuals(alloc, bindings)?;
            let asked = asked_below(alloc, looked, branching, model, bindings)?;
            Ok(Link {
                target: filled_target(&looked.names, holds, model),
                actuals,
                asked,
            })
        }
        Element::Table { .. } | Element::Latch { .. } => Ok(Link {
            target: None,
            actuals: None,
            asked: Vec::new(alloc),
        }),
    }
}

/// The links of the elements of a model.
#[tactic(auto, using(crate::proofs::Linking::linking_laws))]
fn links_of(
    alloc: Global,
    looked: &Looked,
    holds: &[bool],
    branching: &[bool],
    elements: &[Element],
) -> Result<Vec<Link>, OutOfMemory>
    ensures { IfOk result (λ links. AreLinks looked.now.names.keys holds.now links.items (map plain_element elements.now)) }
{
    let mut links = Vec::with_capacity(alloc, elements.len())?;
    for element in elements {
        links.push(link_of(alloc, looked, holds, branching, element)?)?;
    }
    Ok(links)
}

/// The links of all models.
#[tactic(auto, using(crate::proofs::Linking::linking_laws))]
pub(crate) fn all_links(
    alloc: Global,
    looked: &Looked,
    holds: &[bool],
    branching: &[bool],
    models: &[BlifModel],
) -> Result<Vec<Row>, OutOfMemory>
    ensures { IfOk result (λ rows. AreRows looked.now.names.keys holds.now rows.items (map plain_model models.now)) }
{
    let mut rows = Vec::with_capacity(alloc, models.len())?;
    for model in models {
        let links = links_of(alloc, looked, holds, branching, &model.elements)?;
        rows.push(Row { links })?;
    }
    Ok(rows)
}
