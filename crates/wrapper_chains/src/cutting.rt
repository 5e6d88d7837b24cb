//! A library with the same flat elements, in which long chains of models that only hand their nets on are cut
//! short: no walk then goes through such a chain each time that it is placed.
ghost use Rattle.std.specs.Prelude.{◌≡◌, ◌<◌, ◌∷◌, [], ℕ, map, length, IfOk, IfSome};
ghost use Rattle.blif_text.specs.Library.{IsLibrary};
ghost use Rattle.blif_text.specs.Models.{Instance};
ghost use Rattle.blif_text.specs.Views.{plain_model, plain_element};
ghost use Rattle.library_faults.specs.Private.Looked.{IsLooked};
ghost use Rattle.library_faults.specs.Private.Models.{model_at};
ghost use Rattle.wrapper_chains.specs.Private.Ways.{AreWays, IsOfWay, IsShort};
ghost use Rattle.wrapper_chains.specs.SameFlat.{IsSameFlat};

use crate::bare_models::filled_models;
use crate::bindings::copy_bindings;
use crate::long_chains::{end_models, head_models};
use crate::ways::{Way, all_ways};
use blif_text::{BlifModel, Element};
use library_faults::{Looked, entry_at};
use std::alloc::Global;
use tmr_base::{Name, OutOfMemory};

/// One statement, which places the model of this name.
fn lone_statement(
    alloc: Global,
    model: &Name,
    bindings: &[(Name, Name)],
) -> Result<Vec<Element>, OutOfMemory>
    ensures { IfOk result (λ elements. map plain_element elements.items ≡ Instance model.now bindings.now ∷ []) }
{
    let model = model.copy(alloc)?;
    let bindings = copy_bindings(alloc, bindings)?;
    let mut elements = Vec::with_capacity(alloc, 1)?;
    elements.push(Element::Instance { model, bindings })?;
    Ok(elements)
}

/// The statement of a way that stands for the elements of the model of this number, where it is a head.
fn way_statement(
    alloc: Global,
    looked: &Looked,
    ways: &[Option<Way>],
    heads: &[bool],
    x: usize,
) -> Result<Option<Vec<Element>>, OutOfMemory>
    ensures { IfOk result (λ found. IfSome found (λ elements. IsOfWay looked.now.names.keys looked.now.positions.items ways.now x (map plain_element elements.items))) }
{
    let names = looked.names.as_slice();
    if matches!(heads.get(x), Some(true)) {
        if let Some(way) = entry_at(&looked.positions, ways, x) {
            if way.base != x && way.base < names.len() {
                let elements = lone_statement(alloc, &names[way.base], &way.nets)?;
                return Ok(Some(elements));
            }
        }
    }
    Ok(None)
}

/// The model with other elements. Its own are let go.
fn with_elements(model: BlifModel, elements: Vec<Element>) -> BlifModel
    ensures { plain_model result ≡ record (plain_model model) { elements = map plain_element elements.items } }
{
    let BlifModel {
        name,
        inputs,
        outputs,
        elements: _own,
    } = model;
    BlifModel {
        name,
        inputs,
        outputs,
        elements,
    }
}

/// The model of this number, or what stands for it.
#[tactic(auto, using(crate::proofs::WayLaws::short_laws))]
fn stand_in(
    alloc: Global,
    model: BlifModel,
    looked: &Looked,
    ways: &[Option<Way>],
    heads: &[bool],
    x: usize,
) -> Result<BlifModel, OutOfMemory>
    ensures { IfOk result (λ short. IsShort looked.now.names.keys looked.now.positions.items ways.now x (plain_model model) (plain_model short)) }
{
    match way_statement(alloc, looked, ways, heads, x)? {
        Some(elements) => Ok(with_elements(model, elements)),
        None => Ok(model),
    }
}

/// All models, where one statement stands for the elements of each head.
fn stand_ins(
    alloc: Global,
    models: Vec<BlifModel>,
    looked: &Looked,
    ways: &[Option<Way>],
    heads: &[bool],
) -> Result<Vec<BlifModel>, OutOfMemory>
    ensures long { IfOk result (λ found. length found.items ≡ length models.items) }
    ensures each { IfOk result (λ found. (x : ℕ) → x < length models.items → IsShort looked.now.names.keys looked.now.positions.items ways.now x (model_at (map plain_model models.items) x) (model_at (map plain_model found.items) x)) }
{
    let mut found = Vec::with_capacity(alloc, models.len())?;
    for model in models {
        let x = found.len();
        let short = stand_in(alloc, model, looked, ways, heads, x)?;
        found.push(short)?;
    }
    Ok(found)
}

/// The same, where these are the ways of the models.
#[tactic(auto, using(crate::proofs::StandIns::stand_in_laws))]
fn cut_at_heads(
    alloc: Global,
    models: Vec<BlifModel>,
    looked: &Looked,
    ways: &[Option<Way>],
) -> Result<Vec<BlifModel>, OutOfMemory>
    requires library { IsLibrary (map plain_model models.items) }
    requires looked { IsLooked (map plain_model models.items) looked.now }
    requires ways { AreWays (map plain_model models.items) looked.now.order.items ways.now }
    ensures { IfOk result (λ short. IsSameFlat (map plain_model models.items) (map plain_model short.items)) }
{
    match head_models(alloc, &models, looked, ways)? {
        Some(heads) => stand_ins(alloc, models, looked, ways, &heads),
        None => Ok(models),
    }
}

/// The ways of the models. None where no chain is long.
fn chain_ways(
    alloc: Global,
    models: &[BlifModel],
    looked: &Looked,
) -> Result<Option<Vec<Option<Way>>>, OutOfMemory>
    requires { IsLooked (map plain_model models.now) looked.now }
    ensures { IfOk result (λ found. IfSome found (λ ways. AreWays (map plain_model models.now) looked.now.order.items ways.items)) }
{
    let holds = filled_models(alloc, &looked.names, models, &looked.order)?;
    let Some(ends) = end_models(alloc, models, looked, &holds)? else {
        return Ok(None);
    };
    let ways = all_ways(alloc, models, looked, &holds, &ends)?;
    Ok(Some(ways))
}

/// Models with the same names and the same flat elements, where long chains are cut short. The models are those that the
/// look was at. Nothing is copied but the statements at which they are cut.
#[tactic(auto, using(crate::proofs::StandIns::stand_in_laws))]
pub fn cut_short(
    alloc: Global,
    models: Vec<BlifModel>,
    looked: &Looked,
) -> Result<Vec<BlifModel>, OutOfMemory>
    requires library { IsLibrary (map plain_model models.items) }
    requires looked { IsLooked (map plain_model models.items) looked.now }
    ensures { IfOk result (λ short. IsSameFlat (map plain_model models.items) (map plain_model short.items)) }
{
    match chain_ways(alloc, &models, looked)? {
        Some(ways) => cut_at_heads(alloc, models, looked, &ways),
        None => Ok(models),
    }
}
